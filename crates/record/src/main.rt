// The recorder for people: reads the text form of cycles from standard input, and the pictures that its arguments name, and writes the
// job file to standard output; after --new one of the new command set. Where something is refused it says so in one line on standard
// error, and writes nothing.
#![tactic(auto)]

mod make;
mod pictures;
mod say;

ghost use Rattle.std.specs.Prelude.{◌≡◌, ◌*◌, ◌≤◌, length};
ghost use Rattle.recorder.specs.Job.{most_pictures};

use crate::make::make_job;
use crate::pictures::read_pictures;
use crate::say::{bad_line, no_input, no_output, too_long, too_many, usage};
use input::arguments::{argument_bytes, argument_count};
use input::{read_all, room};
use instructions::added::CommandSet;
use recorder::text::Unread;
use std::env::Env;

// Writes out the job of a text and so many pictures, or says what is refused.
fn record(rt: &HostRuntime, set: CommandSet, text: &[u8], count: usize, pictures: &[u8])
    requires { (count ≤ most_pictures set) × (length pictures.now ≡ 1188 * count) }
{
    let mut cycles = room::<32000>();
    let mut job = room::<34384>();
    match make_job(set, text, count, pictures, &mut cycles, &mut job) {
        Ok(n) => {
            if rt.write_all(&job[..n]).is_err() {
                no_output(rt);
            }
        }
        Err(Unread::BadLine(line)) => bad_line(rt, line),
        Err(Unread::Refused(_)) => too_many(rt),
    }
}

// Reads the text, and records it with so many pictures. The room is for more than any job's text has, so that a bad line far behind is
// found too.
fn record_input(rt: &HostRuntime, set: CommandSet, count: usize, pictures: &[u8])
    requires { (count ≤ most_pictures set) × (length pictures.now ≡ 1188 * count) }
{
    let mut text = room::<200001>();
    let Ok(n) = read_all(rt, &mut text) else {
        no_input(rt);
        return;
    };
    if 200000 < n {
        too_long(rt);
        return;
    }
    record(rt, set, &text[..n], count, pictures);
}

// Records with so many pictures, which the arguments from `first` on name. The room is for two, and a byte more, which tells that a file
// is longer than a picture.
fn record_with(rt: &HostRuntime, set: CommandSet, first: usize, count: usize)
    requires { (first ≤ 2) × (count ≤ 2) × (count ≤ most_pictures set) }
{
    let mut pictures = room::<2377>();
    if read_pictures(rt, first, count, &mut pictures) {
        record_input(rt, set, count, &pictures[..1188 * count]);
    }
}

// Whether the first argument asks for the new command set.
fn asks_new(rt: &impl Env) -> bool {
    let mut word = [0u8; 4096];
    let n = argument_bytes(rt, 1, &mut word);
    matches!(&word[..n], b"--new")
}

// Up to two arguments: one or two that name a picture, or --new, and one that names a picture.
fn main(rt: HostRuntime) {
    match argument_count(&rt) {
        n @ 2..=3 if asks_new(&rt) => record_with(&rt, CommandSet::New, 2, n - 2),
        n @ 1..=3 => record_with(&rt, CommandSet::Old, 1, n - 1),
        _ => usage(&rt),
    }
}
