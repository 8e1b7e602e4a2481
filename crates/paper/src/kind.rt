// The six kinds of a bus cycle, and the number of each.
ghost use Rattle.std.specs.Prelude.{◌≡◌};
ghost use Rattle.paper.specs.Kind.{kind_number, IsKind};

use crate::refusal::Refusal;

#[derive(Clone, Copy, Debug, PartialEq, Eq)]
pub enum Kind {
    Instruction,
    DataWrite,
    StatusRead,
    DataRead,
    PinLow,
    PinHigh,
}

impl From<Kind> for u8 {
    ghost from_gives = { λ k n. n ≡ kind_number k };

    fn from(kind: Kind) -> u8 {
        match kind {
            Kind::Instruction => 0,
            Kind::DataWrite => 1,
            Kind::StatusRead => 2,
            Kind::DataRead => 3,
            Kind::PinLow => 4,
            Kind::PinHigh => 5,
        }
    }
}

// A number above 5 is no kind: refused with 9.
impl TryFrom<u8> for Kind {
    type Error = Refusal;

    ghost try_from_gives = { IsKind };

    fn try_from(number: u8) -> Result<Self, Refusal> {
        match number {
            0 => Ok(Kind::Instruction),
            1 => Ok(Kind::DataWrite),
            2 => Ok(Kind::StatusRead),
            3 => Ok(Kind::DataRead),
            4 => Ok(Kind::PinLow),
            5 => Ok(Kind::PinHigh),
            _ => Err(Refusal::WrongCycle),
        }
    }
}
