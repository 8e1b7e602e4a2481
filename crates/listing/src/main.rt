// Prints the instruction set from the table of classes: a line for each row of document 01's table, in the order of the bytes, then
// how many bytes are assigned.
#![tactic(auto)]

mod count;
mod row;
mod words;

ghost use Rattle.instructions.specs.Class.{IsClass};
ghost use Rattle.listing.specs.Row.{IsRow};

use crate::count::assigned_bytes;
use crate::row::row_end;
use crate::words::{put, write_words};
use instructions::class::class_of;

// A row's line: its first byte, its last byte, its class, and its words. Only a whole row is written, with its own class.
fn write_row(rt: &impl Print, first: u8, last: u8, class: u8) -> bool
    requires { IsRow first last × IsClass first class }
{
    print!(rt; "{first:02x}").is_ok()
        & put(rt, b" ")
        & print!(rt; "{last:02x}").is_ok()
        & put(rt, b" ")
        & print!(rt; "{class}").is_ok()
        & put(rt, b" ")
        & write_words(rt, class)
        & put(rt, b"\n")
}

// The line of a row, or no line where its bytes are unassigned.
fn write_assigned(rt: &impl Print, first: u8, last: u8) -> bool
    requires { IsRow first last }
{
    let class = class_of(first);
    if class == 0 {
        return true;
    }
    write_row(rt, first, last, class)
}

// Every row's line, as far as they can be written.
fn write_rows(rt: &impl Print) -> bool {
    let mut next: usize = 0;
    // A row may have many bytes, so the place moves on by a row and not by one.
    while next < 256 {
        let first = next as u8;
        let last = row_end(first);
        if !write_assigned(rt, first, last) {
            return false;
        }
        next = last as usize + 1;
    }
    true
}

// How many bytes are assigned.
fn write_count(rt: &impl Print) -> bool {
    let count = assigned_bytes();
    print!(rt; "{count}").is_ok() & put(rt, b" assigned\n")
}

fn main(rt: HostRuntime) {
    let written = write_rows(&rt) & write_count(&rt);
    if !written {
        let _ = rt.eprint("listing: standard output cannot be written\n");
    }
}
