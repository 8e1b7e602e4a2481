// The text form of a list of cycles: one line a cycle.
ghost use Rattle.std.specs.Prelude.{◌≡◌, ◌/◌, ◌≤◌, length};
ghost use Rattle.jobs.specs.Output.{Put};
ghost use Rattle.bus.specs.Cycles.{cycles_of};
ghost use Rattle.recorder.specs.Text.{cycles_text, IsWrittenText, IsReadText};
ghost use Rattle.recorder.specs.Scan.{Fronted};
ghost use Rattle.recorder.specs.declared.text.Unread.TheVariants.{Refused};

use crate::cycles::wrong_cycles;
use crate::line::{first_line, put_line};
use crate::put::store;
use paper::refusal::Refusal;

// Why a text is not read: the number of its first bad line, which is refusal 11; or another refusal.
#[derive(Clone, Copy, Debug, PartialEq, Eq)]
pub enum Unread {
    BadLine(usize),
    Refused(Refusal),
}

impl From<Refusal> for Unread {
    ghost from_gives = { λ r u. u ≡ Refused r };

    fn from(refusal: Refusal) -> Unread {
        Unread::Refused(refusal)
    }
}

// How many cycles' lines stand in front of a text, and how many bytes they take.
#[derive(Clone, Copy)]
struct Front {
    lines: usize,
    at: usize,
}

// The text of the cycles, as much of it as the output has room for: answers its whole length.
fn put_lines(cycles: &[u8], out: &mut [u8]) -> usize
    requires { length cycles.now / 2 ≤ 16000 }
    ensures { Put out.old 0 (cycles_text (cycles_of cycles.now)) out.new result 80000 }
{
    let mut at = 0;
    for cycle in cycles.chunks_exact(2) {
        at = put_line(out, at, cycle[0], cycle[1]);
    }
    at
}

// Writes the text of the cycles. Answers its length; refuses with 6 where there are more than 16,000 cycles or one of them is none,
// then with 5 where the output is shorter than the text, and leaves the output then. A longer output keeps its bytes past the text.
pub fn write_text(cycles: &[u8], out: &mut [u8]) -> Result<usize, Refusal>
    ensures { IsWrittenText cycles.now out.old result out.new }
{
    if 16000 < cycles.len() / 2 {
        return Err(Refusal::OutsideField);
    }
    if wrong_cycles(cycles) {
        return Err(Refusal::OutsideField);
    }
    let n = put_lines(cycles, &mut []);
    if out.len() < n {
        return Err(Refusal::ShortOutput);
    }
    put_lines(cycles, out);
    Ok(n)
}

// The lines in front of a text, up to the first that is no cycle's: their cycles, as many as the output has room for.
fn read_lines(text: &[u8], out: &mut [u8]) -> Front
    ensures { Fronted text.now out.old out.new result.lines result.at }
{
    let mut at = 0;
    let mut lines = 0;
    // A line has two bytes or five, so what moves the place on is the line.
    while let Some(line) = first_line(&text[at..]) {
        store(out, 2 * lines, line.kind.into());
        store(out, 2 * lines + 1, line.value);
        at += line.long;
        lines += 1;
    }
    Front { lines, at }
}

// Reads a text: its cycles go into the output. Answers how many there are. Where no list of cycles has the text it answers the number
// of the first bad line, from 0, which is refusal 11; it refuses with 6 where there are more than 16,000 cycles, then with 5 where the
// output is shorter than their bytes. It leaves the output then. A longer output keeps its bytes past the cycles.
pub fn read_text(text: &[u8], out: &mut [u8]) -> Result<usize, Unread>
    ensures { IsReadText text.now out.old result out.new }
{
    let seen = read_lines(text, &mut []);
    if seen.at < text.len() {
        return Err(Unread::BadLine(seen.lines));
    }
    if 16000 < seen.lines {
        return Err(Refusal::OutsideField.into());
    }
    if out.len() < 2 * seen.lines {
        return Err(Refusal::ShortOutput.into());
    }
    read_lines(text, out);
    Ok(seen.lines)
}
