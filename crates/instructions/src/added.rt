// The KS0759's command set, which stands beside the old one: its instructions, one for each row of order 13 and one for each second
// byte, their reader and their writer. No byte of it depends on the chip.
ghost use Rattle.std.specs.Prelude.{◌≡◌};
ghost use Rattle.paper.specs.Told.{told};
ghost use Rattle.instructions.specs.Numbers.{set_byte, IsSet};
ghost use Rattle.instructions.specs.Added.{is_new, of_other, added_first, IsReadAdded, IsWrittenAdded};

use crate::instruction::Awaited;
use crate::write::field;
use paper::refusal::Refusal;

// Which command set is in force.
#[derive(Clone, Copy, Debug, PartialEq, Eq)]
pub enum CommandSet {
    Old,
    New,
}

impl From<CommandSet> for u8 {
    ghost from_gives = { λ s n. n ≡ set_byte s };

    fn from(set: CommandSet) -> u8 {
        match set {
            CommandSet::Old => 0,
            CommandSet::New => 1,
        }
    }
}

// A number above 1 is refused with 2.
impl TryFrom<u8> for CommandSet {
    type Error = Refusal;

    ghost try_from_gives = { IsSet };

    fn try_from(number: u8) -> Result<Self, Refusal> {
        match number {
            0 => Ok(CommandSet::Old),
            1 => Ok(CommandSet::New),
            _ => Err(Refusal::OutOfRange),
        }
    }
}

#[derive(Clone, Copy, Debug, PartialEq, Eq)]
pub enum Added {
    // 44-47: the next instruction byte is initial COM0, and that byte.
    Com0Next,
    Com0Value(u8),
    // 48-4B: the next instruction byte is the partial duty, and that byte.
    DutyNext,
    DutyValue(u8),
    // 4C-4F: the next instruction byte is the line inversion, and that byte.
    InversionNext,
    InversionValue(u8),
    // E4: back to frame inversion.
    FrameInversion,
}

// Whether a set is the new one: what definitions and the other crates speak by.
pub fn is_new(set: CommandSet) -> bool
    ensures { result ≡ is_new set }
{
    set == CommandSet::New
}

// Whether the awaited byte is one of the other set than the one in force.
pub fn of_other(set: CommandSet, awaited: Awaited) -> bool
    ensures { result ≡ of_other set awaited }
{
    let new = is_new(set);
    match awaited {
        Awaited::Nothing => false,
        Awaited::Contrast | Awaited::Indicator => new,
        Awaited::Com0 | Awaited::Duty | Awaited::Inversion => !new,
    }
}

// A byte where nothing is awaited.
#[tactic(auto, using(paper::proofs::Tests::tests), unfolding(crate::specs::Added::added_first))]
fn read_first(byte: u8) -> Result<Added, Refusal>
    ensures { told result ≡ added_first byte }
{
    match byte {
        0x44..=0x47 => Ok(Added::Com0Next),
        0x48..=0x4b => Ok(Added::DutyNext),
        0x4c..=0x4f => Ok(Added::InversionNext),
        0xe4 => Ok(Added::FrameInversion),
        _ => Err(Refusal::Unassigned),
    }
}

// Reads one byte of the new set, with what is awaited. Refuses with 2 where that is a byte of the old set, and with 4. A second byte is
// taken whatever its value.
pub fn read_added(awaited: Awaited, byte: u8) -> Result<Added, Refusal>
    ensures { IsReadAdded awaited byte result }
{
    match awaited {
        Awaited::Nothing => read_first(byte),
        Awaited::Contrast | Awaited::Indicator => Err(Refusal::OutOfRange),
        Awaited::Com0 => Ok(Added::Com0Value(byte % 128)),
        Awaited::Duty => Ok(Added::DutyValue(byte % 128)),
        Awaited::Inversion => Ok(Added::InversionValue(byte % 32)),
    }
}

// Writes one instruction of the new set as a byte with its free bits 0. Refuses with 6.
pub fn write_added(added: Added) -> Result<u8, Refusal>
    ensures { IsWrittenAdded added result }
{
    match added {
        Added::Com0Next => Ok(0x44),
        Added::Com0Value(v) => field(0x00, 128, v),
        Added::DutyNext => Ok(0x48),
        Added::DutyValue(v) => field(0x00, 128, v),
        Added::InversionNext => Ok(0x4c),
        Added::InversionValue(v) => field(0x00, 32, v),
        Added::FrameInversion => Ok(0xe4),
    }
}
