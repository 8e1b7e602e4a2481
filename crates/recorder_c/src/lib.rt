// The recorder's C face: the calls of the crate recorder that include/recorder.h declares.
#![tactic(auto)]

ghost use Rattle.recorder.specs.C.{JobOut, TextOut, LinesOut, HeaderOut, PlayOut};

use recorder::c;

// A job file of a command set, 0 old, 1 new, from cycles and pictures, and its length. Refuses with 1, 6, 5.
#[unsafe(no_mangle)]
pub extern "C" fn recorder_write_job(
    set: u8,
    cycles: &[u8],
    count: usize,
    pictures: &[u8],
    out: &mut [u8],
    length: &mut usize,
) -> u8
    ensures { JobOut set cycles.now count pictures.now out.old length.old out.new length.new result }
{
    c::recorder_write_job(set, cycles, count, pictures, out, length)
}

// The text of cycles, and its length. Refuses with 6, 5.
#[unsafe(no_mangle)]
pub extern "C" fn recorder_write_text(cycles: &[u8], out: &mut [u8], length: &mut usize) -> u8
    ensures { TextOut cycles.now out.old length.old out.new length.new result }
{
    c::recorder_write_text(cycles, out, length)
}

// The cycles of a text, and how many. Refuses with 11 and the first bad line's number, with 6, 5.
#[unsafe(no_mangle)]
pub extern "C" fn recorder_read_text(
    text: &[u8],
    out: &mut [u8],
    count: &mut usize,
    line: &mut usize,
) -> u8
    ensures { LinesOut text.now out.old count.old line.old
        out.new count.new line.new result }
{
    c::recorder_read_text(text, out, count, line)
}

// How many cycles and how many pictures a job file has, and its command set, 0 old, 1 new. Refuses with 7, 8, 9.
#[unsafe(no_mangle)]
pub extern "C" fn recorder_read_header(
    file: &[u8],
    cycles: &mut usize,
    pictures: &mut usize,
    set: &mut u8,
) -> u8
    ensures { HeaderOut file.now (cycles.old, pictures.old, set.old) (cycles.new, pictures.new, set.new) result }
{
    c::recorder_read_header(file, cycles, pictures, set)
}

// The player's text of a job file, and its length; of a file that is no job, the one line `bad`. Refuses with 5.
#[unsafe(no_mangle)]
pub extern "C" fn recorder_play(file: &[u8], out: &mut [u8], length: &mut usize) -> u8
    ensures { PlayOut file.now out.old length.old out.new length.new result }
{
    c::recorder_play(file, out, length)
}
