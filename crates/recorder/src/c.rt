// The calls for C: each answers the number of its refusal, 0 for none; what it gives goes through the parameters that it is lent, and a
// refusal leaves them as they were, but for the bad line's number with 11. The reader of job files and the player stand beside them, so
// that a tool can read what it writes.
ghost use Rattle.std.specs.Prelude.{◌≡◌};
ghost use Rattle.paper.specs.Refusal.{number_of};
ghost use Rattle.recorder.specs.C.{set_refusal, JobOn, JobOut, TextOut, LinesTold, LinesOut, HeaderOut, PlayOut};

use crate::job::{write_job, wrong_pictures};
use crate::text::{Unread, read_text, write_text};
use face::value::tell_value;
use instructions::added::CommandSet;
use jobs::header::read_header;
use jobs::play::play;
use paper::refusal::Refusal;

// What a set that is neither is refused with: 6, but 1 where the pictures are not `count`.
fn set_refusal(total: usize, count: usize) -> Refusal
    ensures { number_of result ≡ set_refusal total count }
{
    if wrong_pictures(total, count) {
        Refusal::WrongSize
    } else {
        Refusal::OutsideField
    }
}

// The job of a set by its number.
fn write_on(
    set: u8,
    cycles: &[u8],
    count: usize,
    pictures: &[u8],
    out: &mut [u8],
) -> Result<usize, Refusal>
    ensures { JobOn set cycles.now count pictures.now out.old result out.new }
{
    let set = CommandSet::try_from(set).map_err(|_| set_refusal(pictures.len(), count))?;
    write_job(set, cycles, count, pictures, out)
}

// A job file of a command set, 0 old, 1 new, from cycles and pictures, and its length. Refuses with 1, 6, 5.
pub fn recorder_write_job(
    set: u8,
    cycles: &[u8],
    count: usize,
    pictures: &[u8],
    out: &mut [u8],
    length: &mut usize,
) -> u8
    ensures { JobOut set cycles.now count pictures.now out.old length.old out.new length.new result }
{
    tell_value(write_on(set, cycles, count, pictures, out), length)
}

// The text of cycles, and its length. Refuses with 6, 5.
pub fn recorder_write_text(cycles: &[u8], out: &mut [u8], length: &mut usize) -> u8
    ensures { TextOut cycles.now out.old length.old out.new length.new result }
{
    tell_value(write_text(cycles, out), length)
}

// How many cycles, or the first bad line's number.
fn tell_lines(answer: Result<usize, Unread>, count: &mut usize, line: &mut usize) -> u8
    ensures { LinesTold answer count.old line.old count.new line.new result }
{
    match answer {
        Ok(cycles) => {
            *count = cycles;
            0
        }
        Err(Unread::BadLine(bad)) => {
            *line = bad;
            Refusal::NoText.into()
        }
        Err(Unread::Refused(refusal)) => refusal.into(),
    }
}

// The cycles of a text, and how many. Refuses with 11 and the first bad line's number, with 6, 5.
pub fn recorder_read_text(text: &[u8], out: &mut [u8], count: &mut usize, line: &mut usize) -> u8
    ensures { LinesOut text.now out.old count.old line.old
        out.new count.new line.new result }
{
    tell_lines(read_text(text, out), count, line)
}

// How many cycles and how many pictures a job file has, and its command set, 0 old, 1 new. Refuses with 7, 8, 9.
pub fn recorder_read_header(
    file: &[u8],
    cycles: &mut usize,
    pictures: &mut usize,
    set: &mut u8,
) -> u8
    ensures { HeaderOut file.now (cycles.old, pictures.old, set.old) (cycles.new, pictures.new, set.new) result }
{
    match read_header(file) {
        Ok(job) => {
            *cycles = job.cycles;
            *pictures = job.pictures;
            *set = job.set.into();
            0
        }
        Err(refusal) => refusal.into(),
    }
}

// The player's text of a job file, and its length; of a file that is no job, the one line `bad`. Refuses with 5.
pub fn recorder_play(file: &[u8], out: &mut [u8], length: &mut usize) -> u8
    ensures { PlayOut file.now out.old length.old out.new length.new result }
{
    tell_value(play(file, out), length)
}
