// The switch between the command sets on the KS0717. The new set's bytes are the same on both chips: their reader and writer are
// panel's.
ghost use Rattle.paper.specs.Sheet.{sheet0717};
ghost use Rattle.face.specs.Added.{SwitchOut};

use face::added::{switch_on, tell_switched};
use paper::sheet::Ks0717;
use state::packed::State;

// Puts the state into a command set, 0 old, 1 new. Refuses with 2, 13.
#[unsafe(no_mangle)]
pub extern "C" fn panel0717_switch_set(state: &mut State, set: u8) -> u8
    ensures { SwitchOut sheet0717 state.old set state.new result }
{
    tell_switched(switch_on::<Ks0717>(&*state, set), state)
}
