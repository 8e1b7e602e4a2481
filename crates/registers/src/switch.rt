// The switch between the command sets.
ghost use Rattle.registers.specs.Switch.{IsSwitched};

use crate::{Registers, outside_range};
use instructions::added::CommandSet;
use instructions::instruction::Awaited;
use paper::refusal::Refusal;
use paper::sheet::Chip;

// Puts a chip's registers into a command set, and changes nothing else. It is no bus cycle: the reset pin may be low, and the mark
// of a data read stays. Refuses with 2, and with 13 where a byte is awaited, of either set.
#[tactic(auto, unfolding(crate::specs::Switch::switched))]
pub fn switch_set<C: Chip>(registers: Registers, set: CommandSet) -> Result<Registers, Refusal>
    ensures { IsSwitched C.sheet registers set result }
{
    if outside_range(C::sheet(), registers) {
        return Err(Refusal::OutOfRange);
    }
    if registers.awaited != Awaited::Nothing {
        return Err(Refusal::AwaitedAtSwitch);
    }
    Ok(registers.with_set(set))
}
