// The new command set: its instructions by number, read and written, and the switch between the sets on the KS0713.
ghost use Rattle.paper.specs.Sheet.{sheet0713};
ghost use Rattle.face.specs.Added.{ReadAddedOut, WriteAddedOut, SwitchOut};

use face::added::{read_added_by, switch_on, tell_added, tell_switched, write_added_by};
use face::value::tell_value;
use paper::sheet::Ks0713;
use state::packed::State;

// Writes an instruction of the new set by its number and value as a byte. Refuses with 6.
#[unsafe(no_mangle)]
pub extern "C" fn panel_write_added(number: u8, value: u8, byte: &mut u8) -> u8
    ensures { WriteAddedOut number value byte.old byte.new result }
{
    tell_value(write_added_by(number, value), byte)
}

// Reads one byte of the new set as an instruction's number and value. Refuses with 2, 4.
#[unsafe(no_mangle)]
pub extern "C" fn panel_read_added(awaited: u8, byte: u8, number: &mut u8, value: &mut u8) -> u8
    ensures { ReadAddedOut awaited byte (number.old, value.old) (number.new, value.new) result }
{
    tell_added(read_added_by(awaited, byte), number, value)
}

// Puts the state into a command set, 0 old, 1 new. Refuses with 2, 13.
#[unsafe(no_mangle)]
pub extern "C" fn panel_switch_set(state: &mut State, set: u8) -> u8
    ensures { SwitchOut sheet0713 state.old set state.new result }
{
    tell_switched(switch_on::<Ks0713>(&*state, set), state)
}
