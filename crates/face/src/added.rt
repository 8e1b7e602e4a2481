// The instructions of the new command set by number, as `bytes.rt` has the old set's: the tables have nothing in common but their form,
// which a trait would only say a third time; how one that was read is told, and how a switch is.
ghost use Rattle.std.specs.Prelude.{◌≡◌};
ghost use Rattle.paper.specs.Answers.{Answers};
ghost use Rattle.paper.specs.Told.{told};
ghost use Rattle.instructions.specs.Added.{IsWrittenAdded};
ghost use Rattle.state.specs.Packed.{packed};
ghost use Rattle.face.specs.Added.{added_number, added_value, added_numbered, unnamed_added, by_added_number, named_added, told_named_added, ReadAddedOn, SwitchedOn};
ghost use Rattle.face.specs.Bytes.{WrittenBy};

use instructions::added::{Added, CommandSet, read_added, write_added};
use instructions::instruction::Awaited;
use paper::refusal::Refusal;
use paper::sheet::Chip;
use registers::Registers;
use registers::switch::switch_set;
use state::packed::{State, pack};
use state::unfit::registers_in;

// An instruction's number (no `From`, as in `bytes.rt`), in order 13's order, each second byte after the byte that announces it.
fn number_of(added: Added) -> u8
    ensures { result ≡ added_number added }
{
    match added {
        Added::Com0Next => 0,
        Added::Com0Value(_) => 1,
        Added::DutyNext => 2,
        Added::DutyValue(_) => 3,
        Added::InversionNext => 4,
        Added::InversionValue(_) => 5,
        Added::FrameInversion => 6,
    }
}

// An instruction's value, 0 where there is none.
fn value_of(added: Added) -> u8
    ensures { result ≡ added_value added }
{
    match added {
        Added::Com0Value(v) | Added::DutyValue(v) | Added::InversionValue(v) => v,
        Added::Com0Next | Added::DutyNext | Added::InversionNext | Added::FrameInversion => 0,
    }
}

// Whether a number and a value name no instruction.
fn names_none(number: u8, value: u8) -> bool
    ensures { result ≡ unnamed_added number value }
{
    (6 < number) | ((number % 2 == 0) & (0 < value))
}

// The instruction of a number, with a value; 6 is the last.
#[tactic(auto, using(paper::proofs::Tests::tests), unfolding(crate::specs::Added::by_added_number))]
fn by_number(number: u8, value: u8) -> Added
    ensures { result ≡ by_added_number number value }
{
    match number {
        0 => Added::Com0Next,
        1 => Added::Com0Value(value),
        2 => Added::DutyNext,
        3 => Added::DutyValue(value),
        4 => Added::InversionNext,
        5 => Added::InversionValue(value),
        _ => Added::FrameInversion,
    }
}

// What a number and a value name.
#[tactic(auto, unfolding(crate::specs::Added::named_added))]
pub fn named_added(number: u8, value: u8) -> Option<Added>
    ensures { told_named_added result ≡ named_added number value }
{
    if names_none(number, value) {
        return None;
    }
    Some(by_number(number, value))
}

// What a number and a value name, written. Refuses with 6.
pub fn write_added_by(number: u8, value: u8) -> Result<u8, Refusal>
    ensures { WrittenBy IsWrittenAdded (named_added number value) result }
{
    let added = named_added(number, value).ok_or(Refusal::OutsideField)?;
    write_added(added)
}

// One byte read, with what is awaited by its number. Refuses with 2, 4.
pub fn read_added_by(awaited: u8, byte: u8) -> Result<Added, Refusal>
    ensures { ReadAddedOn awaited byte result }
{
    let awaited = Awaited::try_from(awaited)?;
    read_added(awaited, byte)
}

// What was read, by its number and value.
pub fn tell_added(answer: Result<Added, Refusal>, number: &mut u8, value: &mut u8) -> u8
    ensures { Answers (told answer) added_numbered (number.old, value.old) (number.new, value.new) result }
{
    match answer {
        Ok(added) => {
            *number = number_of(added);
            *value = value_of(added);
            0
        }
        Err(refusal) => refusal.into(),
    }
}

// The switch on the registers that the state stands for, to the set of a number. Refuses with 2, 13.
pub fn switch_on<C: Chip>(state: &State, set: u8) -> Result<Registers, Refusal>
    ensures { SwitchedOn C.sheet state.now set result }
{
    let registers = registers_in(state, false)?;
    let set = CommandSet::try_from(set)?;
    switch_set::<C>(registers, set)
}

// A switch: the state after it.
pub fn tell_switched(answer: Result<Registers, Refusal>, state: &mut State) -> u8
    ensures { Answers (told answer) packed state.old state.new result }
{
    match answer {
        Ok(after) => {
            *state = pack(after);
            0
        }
        Err(refusal) => refusal.into(),
    }
}
