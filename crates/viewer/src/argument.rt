// What the program is asked for: its one argument.
use input::arguments::{argument_bytes, argument_count};
use std::env::Env;

// What can be asked for: the glass drawn, a PBM picture of it, the update's cycles, or the job's own as text.
#[derive(Clone, Copy)]
pub(crate) enum View {
    Glass,
    Picture,
    Stream,
    Text,
}

// What a word asks for, if anything.
fn named(word: &[u8]) -> Option<View> {
    match word {
        b"glass" => Some(View::Glass),
        b"pbm" => Some(View::Picture),
        b"stream" => Some(View::Stream),
        b"text" => Some(View::Text),
        _ => None,
    }
}

// The one argument. One that is longer than the room for it comes as no bytes, and asks for nothing.
pub(crate) fn argument(rt: &impl Env) -> Option<View> {
    if argument_count(rt) != 2 {
        return None;
    }
    let mut word = [0u8; 4096];
    let n = argument_bytes(rt, 1, &mut word);
    named(&word[..n])
}
