// One dot: which line a row shows, which column a segment shows, and when a dot is lit.
ghost use Rattle.std.specs.Prelude.{◌≡◌, ◌≤◌, ◌<◌};
ghost use Rattle.glass.specs.Dot.{line_of, column_of, cell_bit, dot_of, dot_at, lit_of};

use crate::bit::bit_of;
use crate::frame::{Glass, Segment};
use paper::sheet::Chip;
use registers::Column;

// Row k shows line (start + k) mod 64 if SHL is 0, (start + rows - 1 - k) mod 64 if 1.
#[tactic(auto, unfolding(crate::specs::Dot::line_of))]
fn line_of<C: Chip>(start: u8, shl: bool, row: usize) -> usize
    requires { row < C.sheet.rows }
    ensures { (result ≡ line_of C.sheet.rows start shl row) × (result < 64) }
{
    if shl {
        (start as usize + (C::sheet().rows - 1 - row)) % 64
    } else {
        (start as usize + row) % 64
    }
}

// The ADC rule: segment s shows column s if ADC is 0, the last column less s if 1.
#[tactic(auto, unfolding(crate::specs::Dot::column_of))]
fn column_of<C: Chip>(adc: bool, segment: Segment) -> Column
    requires { segment.0 < C.sheet.width }
    ensures { (result.0 ≡ column_of C.sheet.width adc segment.0) × (result.0 < C.sheet.width) }
{
    if adc {
        Column((C::sheet().width - 1) as u8 - segment.0)
    } else {
        Column(segment.0)
    }
}

// Whether a dot is lit, by the steps of the KS0713 data sheet (002): off, then entire display, then reverse, each under its heading.
#[tactic(auto, unfolding(crate::specs::Dot::dot_of))]
fn dot(on: bool, entire: bool, reverse: bool, bit: bool) -> bool
    ensures { result ≡ dot_of on entire reverse bit }
{
    // DISPLAY ON/OFF: "Turns the display ON or OFF". That off comes before entire display stands elsewhere, under POWER SAVE
    // (COMPOUND INSTRUCTION), figure 16: [ Display OFF ], [ Entire Display ON ], and then [ All COM/SEG outputs : VSS ].
    let off = !on;
    if off {
        return false;
    }
    // ENTIRE DISPLAY ON / OFF: "Forces all LCD points to be turned on regardless of the contents of the display data RAM";
    // it "has priority over the reverse display ON / OFF instruction".
    if entire {
        return true;
    }
    // NORMAL / REVERSE DISPLAY: "Reverses the display status on the LCD panel".
    // REV 1 (Reverse): with a RAM bit of 1 the "LCD pixel is not illuminated", with one of 0 it "is illuminated".
    if reverse {
        return !bit;
    }
    // REV 0 (Normal): with a RAM bit of 1 the "LCD pixel is illuminated", with one of 0 it "is not illuminated".
    bit
}

impl<'a, C: Chip> Glass<'a, C> {
    // The bit of a line in a column: line 8p + b is bit b on page p, and line 64, the icons, is bit 0 on page 8.
    #[tactic(auto, using(crate::proofs::Places::line_place), unfolding(crate::specs::Dot::cell_bit))]
    fn cell_bit(&self, line: usize, column: Column) -> bool
        requires { (line ≤ 64) × (column.0 < C.sheet.width) }
        ensures { result ≡ cell_bit C.sheet.width self.now.memory.now line column.0 }
    {
        let at = C::sheet().width * (line / 8) + column.0 as usize;
        bit_of(self.memory[at], line % 8)
    }

    // The dot of a line under a segment.
    #[tactic(auto, unfolding(crate::specs::Dot::dot_at))]
    fn dot_at(&self, line: usize, segment: Segment) -> bool
        requires { (line ≤ 64) × (segment.0 < C.sheet.width) }
        ensures { result ≡ dot_at C.sheet.width self.now.registers self.now.memory.now line segment.0 }
    {
        let registers = self.registers;
        let column = column_of::<C>(registers.adc, segment);
        let bit = self.cell_bit(line, column);
        dot(registers.on, registers.entire, registers.reverse, bit)
    }

    // The dot of a row under a segment: the commons scroll, the icon row, row 64, shows line 64 always, and there are no other rows.
    #[tactic(auto, using(paper::proofs::Tests::tests), unfolding(crate::specs::Dot::lit_of))]
    pub(crate) fn lit(&self, row: usize, segment: Segment) -> bool
        requires { segment.0 < C.sheet.width }
        ensures { result ≡ lit_of C.sheet self.now.registers self.now.memory.now row segment.0 }
    {
        if row < C::sheet().rows {
            let line = line_of::<C>(self.registers.start_line, self.registers.shl, row);
            return self.dot_at(line, segment);
        }
        if row == 64 {
            return self.dot_at(64, segment);
        }
        false
    }
}
