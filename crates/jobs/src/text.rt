// The player's text, put into a lent output from its start. A byte past the output's end is counted and not stored, so the same
// calls measure a text (on any output) and write it (on one that is long enough). Not by `write!`: what std promises of it leaves
// open when a write succeeds, and no piece of a text is ever refused.
ghost use Rattle.std.specs.Prelude.{◌≡◌, [], ◌∷◌, ◌++◌, ◌+◌, ◌<◌, ◌≤◌, length};
ghost use Rattle.jobs.specs.Text.{digit, hex, decimal_up_to, field, flag, modify_flag, read_line, mark_letter, marked_line, refusal_line, bad_line, three_fields, line_end, end_line, update_line};
ghost use Rattle.jobs.specs.Output.{text_most, line_most};
ghost use Rattle.jobs.specs.Texts.{Puts};

use instructions::added::is_new;
use registers::{Beside, ModifyRead, Registers};

// An output, and the place past what is put into it.
#[derive(Drop)]
pub(crate) struct Text<'a> {
    pub(crate) out: &'a mut [u8],
    pub(crate) at: usize,
}

// The character of a digit below 16.
fn digit(d: usize) -> u8
    requires { d < 16 }
    ensures { result ≡ digit d }
{
    b"0123456789abcdef"[d]
}

// A byte as two hex digits.
#[tactic(auto, unfolding(crate::specs::Text::hex))]
pub fn hex(byte: u8) -> [u8; 2]
    ensures { result ≡ hex byte }
{
    let b = usize::from(byte);
    [digit(b / 16), digit(b % 16)]
}

// Whether modify-read is on.
fn modifying(mode: ModifyRead) -> bool
    ensures { flag result ≡ modify_flag mode }
{
    mode != ModifyRead::Off
}

// The letter of a mark.
fn mark_letter(fresh: bool) -> u8
    ensures { result ≡ mark_letter fresh }
{
    if fresh { b'f' } else { b's' }
}

impl<'a> Text<'a> {
    fn byte(&mut self, byte: u8)
        requires { self.old.at < text_most }
        ensures { Puts self.old (byte ∷ []) self.new 1 }
    {
        if self.at < self.out.len() {
            self.out[self.at] = byte;
        }
        self.at += 1;
    }

    fn letters(&mut self, letters: &[u8])
        requires { self.old.at + length letters.now ≤ text_most }
        ensures { Puts self.old letters.now self.new (length letters.now) }
    {
        for letter in letters {
            self.byte(*letter);
        }
    }

    // The decimal digits of n, where there are at most `most`.
    fn digits(&mut self, n: usize, most: usize)
        requires { self.old.at + most ≤ text_most }
        ensures { Puts self.old (decimal_up_to most n) self.new most }
    {
        if most == 0 {
            return;
        }
        if n >= 10 {
            self.digits(n / 10, most - 1);
        }
        self.byte(digit(n % 10));
    }

    // A space and a number.
    #[tactic(auto, unfolding(crate::specs::Text::field, crate::specs::Text::decimal))]
    fn field(&mut self, n: usize)
        requires { self.old.at + 21 ≤ text_most }
        ensures { Puts self.old (field n) self.new 21 }
    {
        self.byte(b' ');
        self.digits(n, 20);
    }

    // A byte as two hex digits.
    #[tactic(auto, unfolding(crate::specs::Text::hex))]
    fn hex(&mut self, byte: u8)
        requires { self.old.at + 2 ≤ text_most }
        ensures { Puts self.old (hex byte) self.new 2 }
    {
        self.letters(&hex(byte));
    }

    // How the line of a read begins.
    fn byte_read(&mut self, i: usize, byte: u8)
        requires { self.old.at + 25 ≤ text_most }
        ensures { Puts self.old (114 ∷ (field i ++ (32 ∷ hex byte))) self.new 25 }
    {
        self.byte(b'r');
        self.field(i);
        self.byte(b' ');
        self.hex(byte);
    }

    // The line of a status read.
    pub(crate) fn read(&mut self, i: usize, byte: u8)
        requires { self.old.at + 26 ≤ text_most }
        ensures { Puts self.old (read_line i byte) self.new 26 }
    {
        self.byte_read(i, byte);
        self.byte(b'\n');
    }

    // The line of a data read.
    pub(crate) fn data_read(&mut self, i: usize, byte: u8, fresh: bool)
        requires { self.old.at + 28 ≤ text_most }
        ensures { Puts self.old (marked_line i byte fresh) self.new 28 }
    {
        self.byte_read(i, byte);
        self.letters(&[b' ', mark_letter(fresh), b'\n']);
    }

    // The line of a refused cycle.
    pub(crate) fn refusal(&mut self, i: usize, number: u8)
        requires { self.old.at + line_most ≤ text_most }
        ensures { Puts self.old (refusal_line i number) self.new line_most }
    {
        self.byte(b'x');
        self.field(i);
        self.field(number as usize);
        self.byte(b'\n');
    }

    // The one line of a refused file.
    pub(crate) fn bad(&mut self, number: u8)
        requires { self.old.at + 25 ≤ text_most }
        ensures { Puts self.old (bad_line number) self.new 25 }
    {
        self.letters(b"bad");
        self.field(number as usize);
        self.byte(b'\n');
    }

    // 0 or 1, after a space.
    fn flag(&mut self, f: bool)
        requires { self.old.at + 21 ≤ text_most }
        ensures { Puts self.old (field (flag f)) self.new 21 }
    {
        self.field(usize::from(f));
    }

    // The new command set's three numbers, and the end of the line.
    fn three(&mut self, beside: Beside)
        requires { self.old.at + 64 ≤ text_most }
        ensures { Puts self.old (three_fields beside) self.new 64 }
    {
        self.field(beside.com0 as usize);
        self.field(beside.duty as usize);
        self.field(beside.inversion as usize);
        self.byte(b'\n');
    }

    // How the end line ends: with the three in the new set.
    fn line_end(&mut self, beside: Beside)
        requires { self.old.at + 64 ≤ text_most }
        ensures { Puts self.old (line_end beside) self.new 64 }
    {
        if is_new(beside.set) {
            self.three(beside);
        } else {
            self.byte(b'\n');
        }
    }

    // The line after the cycles.
    pub(crate) fn end(&mut self, registers: Registers)
        requires { self.old.at + 277 ≤ text_most }
        ensures { Puts self.old (end_line registers) self.new 277 }
    {
        self.letters(b"end");
        self.field(registers.page as usize);
        self.field(registers.column.0 as usize);
        self.field(registers.start_line as usize);
        self.flag(registers.shl);
        self.flag(registers.adc);
        self.flag(registers.reverse);
        self.flag(registers.entire);
        self.flag(registers.on);
        self.flag(modifying(registers.modify_read));
        self.field(registers.contrast as usize);
        self.line_end(registers.beside);
    }

    // The line of the update's length.
    pub(crate) fn update(&mut self, n: usize)
        requires { self.old.at + 28 ≤ text_most }
        ensures { Puts self.old (update_line n) self.new 28 }
    {
        self.letters(b"update");
        self.field(n);
        self.byte(b'\n');
    }
}
