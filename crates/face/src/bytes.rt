// The instructions by number, and how a byte that was read or written is told.
ghost use Rattle.std.specs.Prelude.{◌≡◌};
ghost use Rattle.paper.specs.Answers.{Answers};
ghost use Rattle.paper.specs.Told.{told};
ghost use Rattle.face.specs.Bytes.{number_of, value_of, numbered, unnamed, by_number, named, told_named, ReadOn, WrittenIf};

use instructions::instruction::{Awaited, Instruction};
use instructions::read::read_instruction;
use instructions::write::write_instruction;
use paper::refusal::Refusal;
use paper::sheet::Chip;
use state::packed::flag_byte;

// An instruction's number, in the order of the table. No `From`: C's numbers are this crate's, and the enum is not.
fn number_of(instruction: Instruction) -> u8
    ensures { result ≡ number_of instruction }
{
    match instruction {
        Instruction::ColumnLow(_) => 0,
        Instruction::ColumnHigh(_) => 1,
        Instruction::Resistor(_) => 2,
        Instruction::Power(_) => 3,
        Instruction::StartLine(_) => 4,
        Instruction::ContrastNext => 5,
        Instruction::ContrastValue(_) => 6,
        Instruction::Adc(_) => 7,
        Instruction::Bias(_) => 8,
        Instruction::Entire(_) => 9,
        Instruction::Reverse(_) => 10,
        Instruction::IndicatorOff => 11,
        Instruction::IndicatorOn => 12,
        Instruction::IndicatorValue(_) => 13,
        Instruction::Display(_) => 14,
        Instruction::Page(_) => 15,
        Instruction::Shl(_) => 16,
        Instruction::ModifyReadOn => 17,
        Instruction::ModifyReadOff => 18,
        Instruction::Reset => 19,
        Instruction::Nop => 20,
    }
}

// An instruction's value: a flag is 0 or 1, and there is 0 where there is none.
fn value_of(instruction: Instruction) -> u8
    ensures { result ≡ value_of instruction }
{
    match instruction {
        Instruction::ColumnLow(v)
        | Instruction::ColumnHigh(v)
        | Instruction::Resistor(v)
        | Instruction::Power(v)
        | Instruction::StartLine(v)
        | Instruction::ContrastValue(v)
        | Instruction::IndicatorValue(v)
        | Instruction::Page(v) => v,
        Instruction::Adc(f)
        | Instruction::Bias(f)
        | Instruction::Entire(f)
        | Instruction::Reverse(f)
        | Instruction::Display(f)
        | Instruction::Shl(f) => flag_byte(f),
        Instruction::ContrastNext
        | Instruction::IndicatorOff
        | Instruction::IndicatorOn
        | Instruction::ModifyReadOn
        | Instruction::ModifyReadOff
        | Instruction::Reset
        | Instruction::Nop => 0,
    }
}

// Whether a number and a value name no instruction.
fn names_none(number: u8, value: u8) -> bool
    ensures { result ≡ unnamed number value }
{
    let flag = ((7 <= number) & (number <= 10)) | (number == 14) | (number == 16);
    let bare = (number == 5) | (number == 11) | (number == 12) | (17 <= number);
    (20 < number) | (flag & (1 < value)) | (bare & (0 < value))
}

// The instruction of a number, with a value; 20 is the last.
#[tactic(auto, using(paper::proofs::Tests::tests), unfolding(crate::specs::Bytes::by_number))]
fn by_number(number: u8, value: u8) -> Instruction
    ensures { result ≡ by_number number value }
{
    match number {
        0 => Instruction::ColumnLow(value),
        1 => Instruction::ColumnHigh(value),
        2 => Instruction::Resistor(value),
        3 => Instruction::Power(value),
        4 => Instruction::StartLine(value),
        5 => Instruction::ContrastNext,
        6 => Instruction::ContrastValue(value),
        7 => Instruction::Adc(value == 1),
        8 => Instruction::Bias(value == 1),
        9 => Instruction::Entire(value == 1),
        10 => Instruction::Reverse(value == 1),
        11 => Instruction::IndicatorOff,
        12 => Instruction::IndicatorOn,
        13 => Instruction::IndicatorValue(value),
        14 => Instruction::Display(value == 1),
        15 => Instruction::Page(value),
        16 => Instruction::Shl(value == 1),
        17 => Instruction::ModifyReadOn,
        18 => Instruction::ModifyReadOff,
        19 => Instruction::Reset,
        _ => Instruction::Nop,
    }
}

// What a number and a value name.
#[tactic(auto, unfolding(crate::specs::Bytes::named))]
pub fn named_by(number: u8, value: u8) -> Option<Instruction>
    ensures { told_named result ≡ named number value }
{
    if names_none(number, value) {
        return None;
    }
    Some(by_number(number, value))
}

// What a number and a value name, written. Refuses with 6.
pub fn write_by<C: Chip>(number: u8, value: u8) -> Result<u8, Refusal>
    ensures { WrittenIf C.sheet (named number value) result }
{
    let instruction = named_by(number, value).ok_or(Refusal::OutsideField)?;
    write_instruction::<C>(instruction)
}

// One byte read, with what is awaited by its number. Refuses with 2, 4.
pub fn read_by<C: Chip>(awaited: u8, byte: u8) -> Result<Instruction, Refusal>
    ensures { ReadOn C.sheet awaited byte result }
{
    let awaited = Awaited::try_from(awaited)?;
    read_instruction::<C>(awaited, byte)
}

// What was read, by its number and value.
pub fn tell_read(answer: Result<Instruction, Refusal>, number: &mut u8, value: &mut u8) -> u8
    ensures { Answers (told answer) numbered (number.old, value.old) (number.new, value.new) result }
{
    match answer {
        Ok(instruction) => {
            *number = number_of(instruction);
            *value = value_of(instruction);
            0
        }
        Err(refusal) => refusal.into(),
    }
}
