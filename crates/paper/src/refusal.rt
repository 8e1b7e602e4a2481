// What a call is refused with, in the order of document 01's table, then by order.
ghost use Rattle.std.specs.Prelude.{◌≡◌};
ghost use Rattle.paper.specs.Refusal.{number_of};

#[derive(Clone, Copy, Debug, PartialEq, Eq)]
pub enum Refusal {
    // A picture, memory or frame buffer is not nine pages.
    WrongSize,
    // A register is outside its range.
    OutOfRange,
    // Pin low, and the cycle is kind 0, 1 or 3.
    PinLow,
    // Instruction byte unassigned and nothing awaited.
    Unassigned,
    // Either output shorter than the stream needs.
    ShortOutput,
    // A value to write is outside its field.
    OutsideField,
    // Job shorter than 8 bytes.
    ShortJob,
    // N, P, an offset or the total is wrong.
    WrongHeader,
    // Kind above 5, or value not 0 in kinds 2 to 5.
    WrongCycle,
    // Order 11: a text no list of cycles has.
    NoText,
    // Order 13: a byte is awaited at a switch of the command set.
    AwaitedAtSwitch,
}

// The number that a refusal carries. No refusal is 0.
impl From<Refusal> for u8 {
    ghost from_gives = { λ r n. n ≡ number_of r };

    fn from(refusal: Refusal) -> u8 {
        match refusal {
            Refusal::WrongSize => 1,
            Refusal::OutOfRange => 2,
            Refusal::PinLow => 3,
            Refusal::Unassigned => 4,
            Refusal::ShortOutput => 5,
            Refusal::OutsideField => 6,
            Refusal::ShortJob => 7,
            Refusal::WrongHeader => 8,
            Refusal::WrongCycle => 9,
            Refusal::NoText => 11,
            Refusal::AwaitedAtSwitch => 13,
        }
    }
}
