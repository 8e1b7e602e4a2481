// The pictures that the arguments name: files of 1,188 bytes.
ghost use Rattle.std.specs.Prelude.{◌≡◌, ◌≤◌, length};

use crate::say::{no_file, no_picture};
use input::arguments::argument_bytes;
use input::read_full;
use std::fs;

// Reads the file of a name into the room, where there is one, and answers how many bytes came.
fn read_file(rt: &HostRuntime, name: &[u8], room: &mut [u8]) -> Option<usize> {
    let path = str::from_utf8(name).ok()?;
    let mut file = fs::open(rt, path).ok()?;
    Some(read_full(&mut file, room))
}

// The same, and answers whether it is as long as a picture.
fn read_picture(rt: &HostRuntime, name: &[u8], room: &mut [u8]) -> bool {
    match read_file(rt, name, room) {
        Some(1188) => true,
        Some(_) => {
            no_picture(rt, name);
            false
        }
        None => {
            no_file(rt, name);
            false
        }
    }
}

// Reads the picture that an argument names into place i.
fn read_argument(rt: &HostRuntime, argument: usize, i: usize, pictures: &mut [u8]) -> bool
    requires { (i ≤ 1) × (2377 ≡ length pictures.old) }
{
    let mut name = [0u8; 4096];
    let n = argument_bytes(rt, argument, &mut name);
    let from = 1188 * i;
    read_picture(rt, &name[..n], &mut pictures[from..from + 1189])
}

// Reads so many pictures, which the arguments from `first` on name, as far as they can be read, and answers whether all of them were.
pub(crate) fn read_pictures(
    rt: &HostRuntime,
    first: usize,
    count: usize,
    pictures: &mut [u8],
) -> bool
    requires { (first ≤ 2) × (count ≤ 2) × (2377 ≡ length pictures.old) }
{
    for i in 0..count {
        if !read_argument(rt, first + i, i, pictures) {
            return false;
        }
    }
    true
}
