// The program's arguments, as bytes.
ghost use Rattle.std.specs.Prelude.{◌≤◌, length};

use std::env::{Env, FillError};

// Whether there is an argument of this number. Argument 0 is the program's name.
fn is_there(rt: &impl Env, i: usize) -> bool {
    let mut none: [u8; 0] = [];
    !matches!(rt.arg(i, &mut none), Err(FillError::NotPresent))
}

// How many arguments there are, the program's name among them.
pub fn argument_count(rt: &impl Env) -> usize {
    for i in 0..usize::MAX {
        if !is_there(rt, i) {
            return i;
        }
    }
    usize::MAX
}

// Puts an argument into the room: how many bytes it has, none where it is missing or longer than the room.
pub fn argument_bytes(rt: &impl Env, i: usize, room: &mut [u8]) -> usize
    ensures { result ≤ length room.new }
{
    rt.arg(i, room).unwrap_or(0)
}
