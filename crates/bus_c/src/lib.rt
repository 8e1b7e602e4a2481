// The bus's C face: the call of the crate bus that include/bus.h declares.
#![tactic(auto)]

ghost use Rattle.bus.specs.Run.{outputs};
ghost use Rattle.bus.specs.Packed.{RunOut};

use state::packed::State;

// Plays the cycles: the state and the memory become what they are after them, and each cycle's answer goes into the outputs.
// Refuses with 1, 2, 5.
#[unsafe(no_mangle)]
pub extern "C" fn bus_run(
    state: &mut State,
    memory: &mut [u8],
    cycles: &[u8],
    numbers: &mut [u8],
    reads: &mut [u8],
    bytes: &mut [u8],
    fresh: &mut [u8],
) -> u8
    ensures { RunOut state.old memory.old cycles.now (outputs numbers.old reads.old bytes.old fresh.old)
        state.new memory.new (outputs numbers.new reads.new bytes.new fresh.new) result }
{
    bus::packed::bus_run(state, memory, cycles, numbers, reads, bytes, fresh)
}
