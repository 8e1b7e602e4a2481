// The KS0713 over its packed state: power-up, one cycle, the lit frame, the power state and V0.
ghost use Rattle.paper.specs.Sheet.{sheet0713};
ghost use Rattle.face.specs.Chip.{PowerUpOut, CycleOut, FrameOut, PowerOut, VoltageOut};

use face::chip::{cycle_on, frame_on, power_on, tell_cycle, tell_frame, tell_power, tell_voltage};
use glass::voltage::v0;
use paper::sheet::Ks0713;
use registers::start::power_up;
use state::packed::{State, pack};

// The state at power-up. Refuses nothing.
#[unsafe(no_mangle)]
pub extern "C" fn panel_power_up(state: &mut State) -> u8
    ensures { PowerUpOut sheet0713 state.new result }
{
    *state = pack(power_up::<Ks0713>());
    0
}

// One cycle on the bus. A byte that is read goes to `byte`, and `read` becomes 1; after a data read `fresh` is 1 where that byte is
// fresh, 0 where it is stale. Refuses with 1, 2, 9, 3, 4.
#[unsafe(no_mangle)]
pub extern "C" fn panel_cycle(
    state: &mut State,
    memory: &mut [u8],
    kind: u8,
    value: u8,
    read: &mut u8,
    byte: &mut u8,
    fresh: &mut u8,
) -> u8
    ensures { CycleOut sheet0713 state.old memory.old kind value read.old byte.old fresh.old
        state.new memory.new read.new byte.new fresh.new result }
{
    tell_cycle(
        cycle_on::<Ks0713>(&*state, memory, kind, value),
        state,
        read,
        byte,
        fresh,
    )
}

// Draws the lit frame. Refuses with 1, 2.
#[unsafe(no_mangle)]
pub extern "C" fn panel_frame(state: &State, memory: &[u8], frame: &mut [u8]) -> u8
    ensures { FrameOut sheet0713 state.now memory.now frame.old frame.new result }
{
    tell_frame(frame_on::<Ks0713>(state, memory, frame))
}

// The power state: 0 normal, 1 sleep, 2 standby. Refuses with 2.
#[unsafe(no_mangle)]
pub extern "C" fn panel_power_state(state: &State, answer: &mut u8) -> u8
    ensures { PowerOut sheet0713 state.now answer.old answer.new result }
{
    tell_power(power_on::<Ks0713>(state), answer)
}

// V0 in millivolts, as a number of fifteenths. Refuses with 2.
#[unsafe(no_mangle)]
pub extern "C" fn panel_v0(resistor: u8, contrast: u8, numerator: &mut u32) -> u8
    ensures { VoltageOut resistor contrast numerator.old numerator.new result }
{
    tell_voltage(v0::<Ks0713>(resistor, contrast), numerator)
}
