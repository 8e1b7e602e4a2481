// One cycle's line: written, and read in front of a text.
ghost use Rattle.std.specs.Prelude.{◌≡◌, ◌+◌, ◌*◌, ◌<◌, ◌≤◌, get_or, MatchOption};
ghost use Rattle.paper.specs.Kind.{kind_number};
ghost use Rattle.jobs.specs.Output.{Put};
ghost use Rattle.recorder.specs.Line.{letter_of, cycle_text, kind_by, digit_by};
ghost use Rattle.recorder.specs.Scan.{told_kind, told_line, short_line, long_line, line_for};

use crate::put::put_all;
use jobs::text::hex;
use paper::kind::Kind;

// The line in front of a text: the cycle that it says and how many bytes it takes.
#[derive(Clone, Copy)]
pub(crate) struct Line {
    pub kind: Kind,
    pub value: u8,
    pub long: usize,
}

// The letter of a kind, by its number: what is put are the bytes of a list, and to make a kind of each could fail. By a table, since a
// `match` of numbers is a jump through one, which a list of mixed kinds makes slow.
#[tactic(auto, using(paper::proofs::Tests::tests), unfolding(crate::specs::Line::letter_of))]
fn letter_of(kind: u8) -> u8
    ensures { result ≡ letter_of kind }
{
    if 5 < kind {
        return b'h';
    }
    b"idsrlh"[kind as usize]
}

// The line of a cycle.
#[tactic(auto, using(paper::proofs::Tests::tests), unfolding(crate::specs::Line::cycle_text, jobs::specs::Text::hex))]
pub(crate) fn put_line(out: &mut [u8], at: usize, kind: u8, value: u8) -> usize
    requires { at + 5 ≤ 100000 }
    ensures { Put out.old at (cycle_text (kind, value)) out.new result 5 }
{
    let letter = letter_of(kind);
    if kind < 2 {
        let [high, low] = hex(value);
        return put_all(out, at, &[letter, b' ', high, low, b'\n']);
    }
    put_all(out, at, &[letter, b'\n'])
}

// The kind of a letter.
#[tactic(auto, using(paper::proofs::Tests::tests), unfolding(crate::specs::Line::kind_by))]
fn kind_by(letter: u8) -> Option<Kind>
    ensures { told_kind result ≡ kind_by letter }
{
    match letter {
        b'i' => Some(Kind::Instruction),
        b'd' => Some(Kind::DataWrite),
        b's' => Some(Kind::StatusRead),
        b'r' => Some(Kind::DataRead),
        b'l' => Some(Kind::PinLow),
        b'h' => Some(Kind::PinHigh),
        _ => None,
    }
}

// What a lower-case hex digit counts; std's `to_digit` takes upper case too.
#[tactic(auto, using(paper::proofs::Tests::tests), unfolding(crate::specs::Line::digit_by))]
fn digit_by(letter: u8) -> Option<u8>
    ensures { MatchOption result (256 ≡ digit_by letter) (λ d. (d ≡ digit_by letter) × (d < 16)) }
{
    match letter {
        b'0'..=b'9' => Some(letter - b'0'),
        b'a'..=b'f' => Some(letter - b'a' + 10),
        _ => None,
    }
}

// Byte i, 0 where there is none: no line has a 0.
fn byte_at(text: &[u8], i: usize) -> u8
    ensures { result ≡ get_or text.now i 0 }
{
    text.get(i).copied().unwrap_or(0)
}

// A line of a letter and a newline.
#[tactic(auto, using(paper::proofs::Tests::tests), unfolding(crate::specs::Scan::short_line))]
fn short_line(kind: Kind, end: u8) -> Option<Line>
    ensures { told_line result ≡ short_line (kind_number kind) end }
{
    if end != b'\n' {
        return None;
    }
    Some(Line {
        kind,
        value: 0,
        long: 2,
    })
}

// A line of a letter, a space, two digits and a newline.
#[tactic(auto, using(paper::proofs::Tests::tests), unfolding(crate::specs::Scan::long_line))]
fn long_line(kind: Kind, space: u8, high: u8, low: u8, end: u8) -> Option<Line>
    ensures { told_line result ≡ long_line (kind_number kind) space (16 * digit_by high + digit_by low) end }
{
    let value = 16 * digit_by(high)? + digit_by(low)?;
    if (space != b' ') | (end != b'\n') {
        return None;
    }
    Some(Line {
        kind,
        value,
        long: 5,
    })
}

// The line in front of a text, where it is a cycle's.
pub(crate) fn first_line(text: &[u8]) -> Option<Line>
    ensures { told_line result ≡ line_for text.now }
{
    let kind = kind_by(byte_at(text, 0))?;
    match kind {
        Kind::Instruction | Kind::DataWrite => {
            let space = byte_at(text, 1);
            let high = byte_at(text, 2);
            let low = byte_at(text, 3);
            let end = byte_at(text, 4);
            long_line(kind, space, high, low, end)
        }
        _ => short_line(kind, byte_at(text, 1)),
    }
}
