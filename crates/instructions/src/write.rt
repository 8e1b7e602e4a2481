// The writer: one instruction, as one byte with its free bits 0.
ghost use Rattle.std.specs.Prelude.{◌≡◌, ◌+◌, ◌≤◌};
ghost use Rattle.paper.specs.Told.{told};
ghost use Rattle.instructions.specs.Write.{field_of, flag_of, IsWritten};

use crate::instruction::Instruction;
use paper::refusal::Refusal;
use paper::sheet::Chip;

// A value in the field of `count` values that starts at byte `base`.
pub(crate) fn field(base: u8, count: u8, value: u8) -> Result<u8, Refusal>
    requires { base + count ≤ 256 }
    ensures { told result ≡ field_of base count value }
{
    if value < count {
        return Ok(base + value);
    }
    Err(Refusal::OutsideField)
}

// One of two bytes, by a flag.
fn flag(off: u8, on: u8, value: bool) -> Result<u8, Refusal>
    ensures { told result ≡ flag_of off on value }
{
    if value {
        return Ok(on);
    }
    Ok(off)
}

// Writes one instruction of a chip as a byte with its free bits 0. Refuses with 6.
pub fn write_instruction<C: Chip>(instruction: Instruction) -> Result<u8, Refusal>
    ensures { IsWritten C.sheet instruction result }
{
    match instruction {
        Instruction::ColumnLow(v) => field(0x00, 16, v),
        Instruction::ColumnHigh(v) => field(0x10, C::sheet().highs, v),
        Instruction::Resistor(v) => field(0x20, 8, v),
        Instruction::Power(v) => field(0x28, 8, v),
        Instruction::StartLine(v) => field(0x40, 64, v),
        Instruction::ContrastNext => Ok(0x81),
        Instruction::ContrastValue(v) => field(0x00, 64, v),
        Instruction::Adc(f) => flag(0xa0, 0xa1, f),
        Instruction::Bias(f) => flag(0xa2, 0xa3, f),
        Instruction::Entire(f) => flag(0xa4, 0xa5, f),
        Instruction::Reverse(f) => flag(0xa6, 0xa7, f),
        Instruction::IndicatorOff => Ok(0xac),
        Instruction::IndicatorOn => Ok(0xad),
        Instruction::IndicatorValue(v) => field(0x00, 4, v),
        Instruction::Display(f) => flag(0xae, 0xaf, f),
        Instruction::Page(v) => field(0xb0, 16, v),
        Instruction::Shl(f) => flag(0xc0, 0xc8, f),
        Instruction::ModifyReadOn => Ok(0xe0),
        Instruction::ModifyReadOff => Ok(0xee),
        Instruction::Reset => Ok(0xe2),
        Instruction::Nop => Ok(0xe3),
    }
}
