// The power state.
ghost use Rattle.std.specs.Prelude.{◌≡◌};
ghost use Rattle.glass.specs.Power.{power_of, IsPower};

use paper::refusal::Refusal;
use paper::sheet::Chip;
use registers::{Registers, outside_range};

#[derive(Clone, Copy, Debug, PartialEq, Eq)]
pub enum PowerState {
    Normal,
    Sleep,
    Standby,
}

// Display off with entire display on is sleep if the indicator is off and standby if on; all else is normal.
#[tactic(auto, unfolding(crate::specs::Power::power_of))]
fn state_of(registers: Registers) -> PowerState
    ensures { result ≡ power_of registers }
{
    if !registers.on & registers.entire {
        if registers.indicator {
            return PowerState::Standby;
        }
        return PowerState::Sleep;
    }
    PowerState::Normal
}

// The power state of a chip. Refuses with 2.
pub fn power_state<C: Chip>(registers: Registers) -> Result<PowerState, Refusal>
    ensures { IsPower C.sheet registers result }
{
    if outside_range(C::sheet(), registers) {
        return Err(Refusal::OutOfRange);
    }
    Ok(state_of(registers))
}
