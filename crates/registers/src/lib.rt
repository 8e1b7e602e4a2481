// The registers, by value: what they are, their ranges, a setter for each, their start values, and the switch between the command sets.
#![tactic(auto)]

ghost use Rattle.std.specs.Prelude.{◌≡◌};
ghost use Rattle.registers.specs.Beside.{outside_beside};
ghost use Rattle.registers.specs.Registers.{saved_of, outside};

use instructions::added::{CommandSet, of_other};
use instructions::instruction::Awaited;
use paper::sheet::Sheet;

pub mod setters;
pub mod start;
pub mod switch;

// A column address, on the memory side.
#[derive(Clone, Copy, Debug, PartialEq, Eq)]
pub struct Column(pub u8);

// Modify-read: off, or on with its saved column.
#[derive(Clone, Copy, Debug, PartialEq, Eq)]
pub enum ModifyRead {
    Off,
    On(Column),
}

// What the new command set has beside the registers of the sheet: which set is in force, initial COM0, partial duty, and after how many
// lines the drive is inverted, 0 for frame inversion.
#[derive(Clone, Copy, Debug, PartialEq, Eq)]
pub struct Beside {
    pub set: CommandSet,
    pub com0: u8,
    pub duty: u8,
    pub inversion: u8,
}

#[derive(Clone, Copy, Debug, PartialEq, Eq)]
pub struct Registers {
    pub page: u8,
    pub column: Column,
    pub start_line: u8,
    pub contrast: u8,
    pub resistor: u8,
    pub power: u8,
    pub bias: bool,
    pub adc: bool,
    pub shl: bool,
    pub reverse: bool,
    pub entire: bool,
    pub on: bool,
    pub indicator: bool,
    pub indicator_value: u8,
    pub holder: u8,
    pub pin_low: bool,
    pub modify_read: ModifyRead,
    pub awaited: Awaited,
    // the mark of a data read: one made now would be fresh
    pub fresh: bool,
    pub beside: Beside,
}

// The saved column, 0 where there is none; `state` has the like, private too: a public one would be a promise more for one line.
fn saved_column(mode: ModifyRead) -> u8
    ensures { result ≡ saved_of mode }
{
    match mode {
        ModifyRead::Off => 0,
        ModifyRead::On(c) => c.0,
    }
}

// Whether one of the three numbers can't be set, or a byte of the other set is awaited.
fn outside_beside(awaited: Awaited, beside: Beside) -> bool
    ensures { result ≡ outside_beside awaited beside }
{
    (79 < beside.com0)
        | (beside.duty < 17)
        | (81 < beside.duty)
        | (beside.inversion == 1)
        | (beside.inversion == 2)
        | (33 < beside.inversion)
        | of_other(beside.set, awaited)
}

// Whether a register is outside its range. A bool and the holder never are.
pub fn outside_range(chip: Sheet, registers: Registers) -> bool
    ensures { result ≡ outside chip registers }
{
    let columns = chip.highs as usize * 16;
    let saved = saved_column(registers.modify_read);
    (15 < registers.page)
        | (columns <= registers.column.0 as usize)
        | (63 < registers.start_line)
        | (63 < registers.contrast)
        | (7 < registers.resistor)
        | (7 < registers.power)
        | (3 < registers.indicator_value)
        | (columns <= saved as usize)
        | outside_beside(registers.awaited, registers.beside)
}
