// Reading standard input, a file, and the arguments.
#![tactic(auto)]

pub mod arguments;

ghost use Rattle.std.specs.Prelude.{◌≡◌, ◌≤◌, length, replicate, IfOk};

use std::io;
use std::io::Read;

// Room for so many bytes, all 0: the programs use no heap, as the library does, so that no input makes one fail for memory. It stands in a
// function of its own, so that its bytes are not computed where it is used.
pub fn room<const N: usize>() -> [u8; N]
    ensures long { N ≡ length result }
    ensures zeros { result ≡ replicate N 0 }
{
    [0; N]
}

// Room for 65,536 bytes of input.
pub fn large_buffer() -> [u8; 65536]
    ensures { 65536 ≡ length result }
{
    room()
}

// Reads standard input to its end, or until the buffer is full: how many bytes came.
pub fn read_all(rt: &impl io::Input, buffer: &mut [u8]) -> io::Result<usize>
    ensures { IfOk result (λ n. n ≤ length buffer.new) }
{
    let mut reader = rt.reader();
    let mut n = 0;
    // A read may bring many bytes, so the place moves on by what came and not by one.
    while n < buffer.len() {
        let count = reader.read(&mut buffer[n..])?;
        if count == 0 {
            break;
        }
        n += count;
    }
    Ok(n)
}

// Reads until the buffer is full, the input ends or a read fails: how many bytes were read. Not by the loop above: what came before a
// failed read counts here.
pub fn read_full(reader: &mut impl Read, buffer: &mut [u8]) -> usize
    ensures { result ≤ length buffer.new }
{
    let mut n = 0;
    // A read may bring many bytes, so the place moves on by what came and not by one.
    while n < buffer.len() {
        let count = reader.read(&mut buffer[n..]).unwrap_or(0);
        if count == 0 {
            break;
        }
        n += count;
    }
    n
}
