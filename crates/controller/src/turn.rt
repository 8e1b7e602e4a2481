// One cycle for who plays many: its answer taken apart, with the registers after it whatever was answered.
ghost use Rattle.std.specs.Prelude.{◌≡◌};
ghost use Rattle.controller.specs.Cycle.{outcome};
ghost use Rattle.controller.specs.State.{after_by};
ghost use Rattle.controller.specs.Turn.{turn_of, IsTurn};

use crate::cycle::{Answer, cycle};
use paper::refusal::Refusal;
use paper::sheet::Chip;
use registers::Registers;

// The registers after a cycle; and in numbers, as the outputs of C's lists of cycles hold them: the refusal, 0 for none; 1 where it read
// a byte, else 0; the byte, 0 where it read none; and 1 where that is a fresh byte of a data read, else 0.
#[derive(Clone, Copy, Debug, PartialEq, Eq)]
pub struct Turn {
    pub registers: Registers,
    pub number: u8,
    pub read: u8,
    pub byte: u8,
    pub fresh: u8,
}

// The registers after an answer: a status read and a refused cycle change none.
pub fn registers_after(registers: Registers, answer: Result<Answer, Refusal>) -> Registers
    ensures { result ≡ after_by registers (outcome answer).registers }
{
    // A match that answers the one or the other was tried: with it a cycle of a list misses its bar (docs/BENCHMARKS.md), since both sets
    // of registers must stand in memory.
    let mut after = registers;
    match answer {
        Ok(Answer::Done(next) | Answer::Read(next, _, _)) => {
            after = next;
        }
        Ok(Answer::Status(_)) | Err(_) => (),
    }
    after
}

// An answer in numbers.
fn tell(registers: Registers, answer: Result<Answer, Refusal>) -> Turn
    ensures { result ≡ turn_of registers (outcome answer) }
{
    let quiet = Turn {
        registers: registers_after(registers, answer),
        number: 0,
        read: 0,
        byte: 0,
        fresh: 0,
    };
    match answer {
        Ok(Answer::Done(_)) => quiet,
        Ok(Answer::Status(byte)) => Turn {
            read: 1,
            byte,
            ..quiet
        },
        Ok(Answer::Read(_, byte, mark)) => Turn {
            read: 1,
            byte,
            fresh: u8::from(mark),
            ..quiet
        },
        Err(refusal) => Turn {
            number: refusal.into(),
            ..quiet
        },
    }
}

// Plays one bus cycle on a chip, as `cycle` does, and takes its answer apart.
pub fn take_turn<C: Chip>(registers: Registers, memory: &mut [u8], kind: u8, value: u8) -> Turn
    ensures { IsTurn C.sheet registers memory.old kind value result memory.new }
{
    tell(registers, cycle::<C>(registers, memory, kind, value))
}
