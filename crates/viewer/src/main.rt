// The viewer: reads one job from standard input, and writes what its argument asks for: the lit frame after the job's cycles,
// drawn or as a PBM picture, the update to the wanted picture, or the job's cycles as text.
#![tactic(auto)]

mod argument;
mod draw;
mod good;
mod play;
mod stream;
mod text;

use crate::argument::{View, argument};
use crate::draw::{glass, lit_frame, pbm};
use crate::good::Good;
use input::{large_buffer, read_all};
use jobs::header::read_header;
use jobs::memory::start_memory;

impl<'a> Good<'a> {
    // What is asked of it: answers whether it could be written.
    fn view(&self, rt: &(impl Print + Eprint), view: View) -> bool {
        let mut memory = start_memory(self.file, self.job);
        let registers = self.after(&mut memory);
        match view {
            View::Glass => glass(rt, &lit_frame(registers, &memory)),
            View::Picture => pbm(rt, &lit_frame(registers, &memory)),
            View::Stream => self.stream(rt, &memory),
            View::Text => self.text(rt),
        }
    }
}

// A refused job gives the one line `bad` and the number, as the player writes it.
fn write_bad(rt: &impl Print, number: u8) -> bool {
    println!(rt; "bad {number}").is_ok()
}

// What is asked of a file, or the line of its refusal: answers whether it could be written.
fn view_file(rt: &(impl Print + Eprint), view: View, file: &[u8]) -> bool {
    match read_header(file) {
        Ok(job) => Good { file, job }.view(rt, view),
        Err(refusal) => write_bad(rt, refusal.into()),
    }
}

// Reads the file and writes what is asked of it.
// 65,536 bytes are more than any good job has, so a file that is cut there is refused with 8, as the whole of it is.
fn show(rt: &(impl Input + Print + Eprint), view: View) {
    let mut file = large_buffer();
    let Ok(count) = read_all(rt, &mut file) else {
        let _ = rt.eprint("viewer: standard input cannot be read\n");
        return;
    };
    let written = view_file(rt, view, &file[..count]);
    if !written {
        let _ = rt.eprint("viewer: standard output cannot be written\n");
    }
}

// No argument, or another one, gives one line of usage on standard error.
fn main(rt: HostRuntime) {
    match argument(&rt) {
        Some(view) => show(&rt, view),
        None => {
            let _ = rt.eprint("usage: viewer glass|pbm|stream|text < job\n");
        }
    }
}
