// Plays each file of data/ and writes its name and its text, and for a good one whether it comes back when it is taken apart and written
// again: the output is compared with `stdout`.
#![tactic(auto)]

mod again;

ghost use Rattle.std.specs.Prelude.{◌≤◌, length};
ghost use Rattle.jobs.specs.Play.{longest};

use crate::again::again;
use input::{read_full, room};
use jobs::play::play;
use std::fs;
use std::rt::Files;

// What the player shows.
const GOOD: [&str; 21] = [
    "worked.job",
    "dummy-read.job",
    "marks.job",
    "modify-read.job",
    "reset.job",
    "restart.job",
    "settings.job",
    "redraw-dark.job",
    "redraw-shifted.job",
    "page-nine.job",
    "refused.job",
    "update.job",
    "page-first.job",
    "screen.job",
    "corners.job",
    "unwritten.job",
    "end-1.job",
    "end-2.job",
    "end-3.job",
    "ks0759.job",
    "new-set.job",
];

// Damaged files, of each kind.
const BAD: [&str; 14] = [
    "empty.job",
    "seven-bytes.job",
    "many-cycles.job",
    "wrapped.job",
    "cycle-offset.job",
    "picture-offset.job",
    "three-pictures.job",
    "byte-short.job",
    "byte-long.job",
    "kind-six.job",
    "status-value.job",
    "pin-value.job",
    "two-new.job",
    "field-512.job",
];

// The text of a file, put into room for any text: play never refuses it.
fn tell(rt: &impl Print, file: &[u8], text: &mut [u8])
    requires { longest ≤ length text.old }
{
    let n = play(file, text).unwrap();
    let _ = rt.write_all(&text[..n]);
}

// The name of an example, and its file: how many bytes it has, or `too long` or `missing`, and none.
fn read_file(rt: &(impl Files + Print), name: &str, file: &mut [u8]) -> usize
    ensures { result ≤ length file.new }
{
    let _ = println!(rt; "{name}");
    let Ok(mut from) = fs::open(rt, name) else {
        let _ = rt.write_all(b"missing\n");
        return 0;
    };
    let n = read_full(&mut from, file);
    if n == file.len() {
        let _ = rt.write_all(b"too long\n");
        return 0;
    }
    n
}

// An example with its text, which has no more than 210,000 bytes: how many bytes it has.
fn shown(rt: &(impl Files + Print), name: &str, file: &mut [u8]) -> usize
    ensures { result ≤ length file.new }
{
    let n = read_file(rt, name, file);
    let mut text = room::<210000>();
    tell(rt, &file[0..n], &mut text);
    n
}

// The longest file has 8 + 65,536 bytes, so one that fills the room for it is too long, and was perhaps cut.
fn bad_example(rt: &(impl Files + Print), name: &str) {
    let mut file = room::<70000>();
    shown(rt, name, &mut file);
}

// And whether it comes back.
fn example(rt: &(impl Files + Print), name: &str) {
    let mut file = room::<70000>();
    let n = shown(rt, name, &mut file);
    again(rt, &file[..n]);
}

fn main(rt: HostRuntime) {
    for name in GOOD {
        example(&rt, name);
    }
    for name in BAD {
        bad_example(&rt, name);
    }
}
