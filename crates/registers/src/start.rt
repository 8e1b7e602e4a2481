// The start values, and the registers at power-up.
ghost use Rattle.std.specs.Prelude.{◌≡◌};
ghost use Rattle.registers.specs.Registers.{start, PoweredUp, PoweredUpIn};

use crate::{Beside, Column, ModifyRead, Registers};
use instructions::added::CommandSet;
use instructions::instruction::Awaited;
use paper::sheet::{Chip, Sheet};

// Every register at its start value in the old command set, with the holder and the pin as given.
pub fn started(chip: Sheet, holder: u8, low: bool) -> Registers
    ensures { result ≡ start chip holder low }
{
    Registers {
        page: 0,
        column: Column(0),
        start_line: 0,
        contrast: 32,
        resistor: chip.resistor,
        power: 0,
        bias: false,
        adc: false,
        shl: false,
        reverse: false,
        entire: false,
        on: false,
        indicator: false,
        indicator_value: 0,
        holder,
        pin_low: low,
        modify_read: ModifyRead::Off,
        awaited: Awaited::Nothing,
        fresh: false,
        beside: Beside {
            set: CommandSet::Old,
            com0: 0,
            duty: 81,
            inversion: 0,
        },
    }
}

// A chip's registers at power-up: pin low then high, holder 0.
pub fn power_up<C: Chip>() -> Registers
    ensures { PoweredUp C.sheet result }
{
    started(C::sheet(), 0, false)
}

// The same in a command set.
pub fn power_up_in<C: Chip>(set: CommandSet) -> Registers
    ensures { PoweredUpIn C.sheet set result }
{
    power_up::<C>().with_set(set)
}
