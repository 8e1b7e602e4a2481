// The reader: one byte, with what is awaited.
ghost use Rattle.std.specs.Prelude.{◌≡◌};
ghost use Rattle.paper.specs.Told.{told};
ghost use Rattle.instructions.specs.Read.{room_in, read_by, IsRead};

use crate::class::class_of;
use crate::instruction::{Awaited, Instruction};
use paper::refusal::Refusal;
use paper::sheet::{Chip, Sheet};

// The high part of a column, less the bit that the counter has no room for.
fn room_in(highs: u8, high: u8) -> u8
    ensures { result ≡ room_in highs high }
{
    if high < highs { high } else { high - highs }
}

// What a byte of a class is read as.
#[tactic(auto, using(paper::proofs::Tests::tests), unfolding(crate::specs::Read::read_by))]
fn read_by(chip: Sheet, class: u8, byte: u8) -> Result<Instruction, Refusal>
    ensures { told result ≡ read_by chip class byte }
{
    match class {
        1 => Ok(Instruction::ColumnLow(byte % 16)),
        2 => Ok(Instruction::ColumnHigh(room_in(chip.highs, byte % 16))),
        3 => Ok(Instruction::Resistor(byte % 8)),
        4 => Ok(Instruction::Power(byte % 8)),
        5 => Ok(Instruction::StartLine(byte % 64)),
        6 => Ok(Instruction::ContrastNext),
        7 => Ok(Instruction::Adc(byte % 2 == 1)),
        8 => Ok(Instruction::Bias(byte % 2 == 1)),
        9 => Ok(Instruction::Entire(byte % 2 == 1)),
        10 => Ok(Instruction::Reverse(byte % 2 == 1)),
        11 => Ok(Instruction::IndicatorOff),
        12 => Ok(Instruction::IndicatorOn),
        13 => Ok(Instruction::Display(byte % 2 == 1)),
        14 => Ok(Instruction::Page(byte % 16)),
        15 => Ok(Instruction::Shl(8 <= byte % 16)),
        16 => Ok(Instruction::ModifyReadOn),
        17 => Ok(Instruction::ModifyReadOff),
        18 => Ok(Instruction::Reset),
        19 => Ok(Instruction::Nop),
        _ => Err(Refusal::Unassigned),
    }
}

// Reads one byte, for any chip's sheet. A second byte is taken whatever its value; where one of the new set is awaited, none of this
// set is read.
#[tactic(auto, unfolding(crate::specs::Read::read_first))]
pub fn read_for(chip: Sheet, awaited: Awaited, byte: u8) -> Result<Instruction, Refusal>
    ensures { IsRead chip awaited byte result }
{
    match awaited {
        Awaited::Nothing => read_by(chip, class_of(byte), byte),
        Awaited::Contrast => Ok(Instruction::ContrastValue(byte % 64)),
        Awaited::Indicator => Ok(Instruction::IndicatorValue(byte % 4)),
        Awaited::Com0 | Awaited::Duty | Awaited::Inversion => Err(Refusal::OutOfRange),
    }
}

// Reads one byte of a chip, with what is awaited. Refuses with 2 where that is a byte of the new set, and with 4.
pub fn read_instruction<C: Chip>(awaited: Awaited, byte: u8) -> Result<Instruction, Refusal>
    ensures { IsRead C.sheet awaited byte result }
{
    read_for(C::sheet(), awaited, byte)
}
