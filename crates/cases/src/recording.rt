// The recorder: texts that are read, good and bad, and what its writers refuse.
use crate::buffers::{full, zeros};
use crate::print::{byte, line, number, refused, word};
use crate::stream_cases::answer;
use instructions::added::CommandSet;
use recorder::job::write_job;
use recorder::text::{Unread, read_text, write_text};

fn lines(rt: &impl Print, answer: Result<usize, Unread>) {
    match answer {
        Ok(n) => {
            word(rt, b" cycles");
            number(rt, n);
        }
        Err(Unread::BadLine(n)) => {
            word(rt, b" bad line");
            number(rt, n);
        }
        Err(Unread::Refused(refusal)) => refused(rt, refusal),
    }
    line(rt);
}

// A text, read into room for so many bytes.
fn read(rt: &impl Print, what: &[u8], text: &[u8], room: &mut [u8]) {
    word(rt, what);
    word(rt, b" into");
    number(rt, room.len());
    lines(rt, read_text(text, room));
}

// Good texts: none, and one with all six letters; then what makes a line bad.
pub(crate) fn texts(rt: &impl Print) {
    let mut room = [0u8; 12];
    let mut less = [0u8; 11];
    read(rt, b"no lines", b"", &mut room);
    read(
        rt,
        b"all six letters",
        b"i 00\nd ff\ns\nr\nl\nh\n",
        &mut room,
    );
    read(
        rt,
        b"all six letters",
        b"i 00\nd ff\ns\nr\nl\nh\n",
        &mut less,
    );
    read(rt, b"no newline", b"i b2", &mut room);
    read(rt, b"an empty line", b"s\n\n", &mut room);
    read(rt, b"upper case", b"i B2\n", &mut room);
    read(rt, b"a value for s", b"s 00\n", &mut room);
    read(rt, b"two blanks", b"i  b2\n", &mut room);
    read(rt, b"a carriage return", b"s\nr\r\n", &mut room);
    read(rt, b"another letter", b"s\ns\nx\n", &mut room);
    read(rt, b"one digit", b"d 7\n", &mut room);
}

// A newline after each letter that has one behind it.
fn end_lines(text: &mut [u8]) {
    for line in text.chunks_exact_mut(2) {
        line[1] = b'\n';
    }
}

// As many lines as a job has cycles, one more, and one more that is bad: 16,001 status reads as text, and a letter.
pub(crate) fn long_texts(rt: &impl Print) {
    let mut text = full::<32003>(b's');
    let mut cycles = zeros::<32000>();
    let mut less = zeros::<31999>();
    end_lines(&mut text);
    read(rt, b"16,000 lines", &text[0..32000], &mut cycles);
    read(rt, b"16,000 lines", &text[0..32000], &mut less);
    read(rt, b"16,001 lines", &text[0..32002], &mut cycles);
    read(rt, b"and one that is bad", &text, &mut cycles);
}

// Cycles, written as text into room for so many bytes.
fn text_of(rt: &impl Print, what: &[u8], cycles: &[u8], room: &mut [u8]) {
    word(rt, what);
    word(rt, b" as text into");
    number(rt, room.len());
    answer(rt, write_text(cycles, room));
}

// One instruction and one status read; a last odd byte is no cycle.
pub(crate) fn writings(rt: &impl Print) {
    let mut room = [0u8; 7];
    let mut less = [0u8; 6];
    text_of(rt, b"two cycles", b"\x00\xb2\x02\x00", &mut room);
    text_of(rt, b"two cycles", b"\x00\xb2\x02\x00", &mut less);
    text_of(rt, b"and an odd byte", b"\x00\xb2\x02\x00\x06", &mut room);
    text_of(rt, b"kind 6", b"\x06\x00", &mut room);
    text_of(rt, b"a status read of 01", b"\x02\x01", &mut room);
}

// A job of a command set, written into room for so many bytes.
fn job_of(
    rt: &impl Print,
    what: &[u8],
    set: CommandSet,
    cycles: &[u8],
    count: usize,
    pictures: &[u8],
    room: &mut [u8],
) {
    word(rt, what);
    word(rt, b" as a job into");
    number(rt, room.len());
    answer(rt, write_job(set, cycles, count, pictures, room));
}

// No cycles and one picture, with room and without; and a cycle that is none.
pub(crate) fn jobs(rt: &impl Print) {
    let picture = zeros::<1188>();
    let mut room = [0u8; 1196];
    let mut less = [0u8; 1195];
    job_of(
        rt,
        b"one picture",
        CommandSet::Old,
        b"",
        1,
        &picture,
        &mut room,
    );
    job_of(
        rt,
        b"one picture",
        CommandSet::Old,
        b"",
        1,
        &picture,
        &mut less,
    );
    job_of(
        rt,
        b"kind 6",
        CommandSet::Old,
        b"\x06\x00",
        0,
        b"",
        &mut room,
    );
}

// Three pictures, three of which one is a byte short, and one that is told as two.
pub(crate) fn picture_counts(rt: &impl Print) {
    let picture = zeros::<1188>();
    let pictures = zeros::<3564>();
    let short = zeros::<3563>();
    let mut room = [0u8; 1196];
    job_of(
        rt,
        b"three pictures",
        CommandSet::Old,
        b"",
        3,
        &pictures,
        &mut room,
    );
    job_of(
        rt,
        b"three, a byte short",
        CommandSet::Old,
        b"",
        3,
        &short,
        &mut room,
    );
    job_of(
        rt,
        b"one, told as two",
        CommandSet::Old,
        b"",
        2,
        &picture,
        &mut room,
    );
}

// As many cycles and pictures as a job has, which is the longest; and a cycle more.
pub(crate) fn long_jobs(rt: &impl Print) {
    let cycles = zeros::<32000>();
    let many = zeros::<32002>();
    let pictures = zeros::<2376>();
    let mut room = zeros::<34384>();
    job_of(
        rt,
        b"the longest",
        CommandSet::Old,
        &cycles,
        2,
        &pictures,
        &mut room,
    );
    job_of(
        rt,
        b"16,001 cycles",
        CommandSet::Old,
        &many,
        0,
        b"",
        &mut room,
    );
}

// The new command set: one picture, and two, which are one too many.
pub(crate) fn new_jobs(rt: &impl Print) {
    let picture = zeros::<1188>();
    let pictures = zeros::<2376>();
    let mut room = [0u8; 1196];
    job_of(
        rt,
        b"one picture, new",
        CommandSet::New,
        b"",
        1,
        &picture,
        &mut room,
    );
    word(rt, b"its count field:");
    byte(rt, room[4]);
    byte(rt, room[5]);
    line(rt);
    job_of(
        rt,
        b"two pictures, new",
        CommandSet::New,
        b"",
        2,
        &pictures,
        &mut room,
    );
}
