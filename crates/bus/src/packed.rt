// A list of cycles on the packed state, for C: the state is unpacked once, before the first cycle, and packed once, after the last.
ghost use Rattle.bus.specs.Run.{outputs};
ghost use Rattle.bus.specs.Packed.{RunOn, RunOut};

use crate::run::run;
use paper::refusal::Refusal;
use paper::sheet::{Chip, Ks0713};
use registers::Registers;
use state::packed::{State, pack};
use state::unfit::registers_in;

// The cycles on the registers that the state stands for.
fn run_on(
    state: &State,
    memory: &mut [u8],
    cycles: &[u8],
    numbers: &mut [u8],
    reads: &mut [u8],
    bytes: &mut [u8],
    fresh: &mut [u8],
) -> Result<Registers, Refusal>
    ensures { RunOn state.now memory.old cycles.now (outputs numbers.old reads.old bytes.old fresh.old)
        result memory.new (outputs numbers.new reads.new bytes.new fresh.new) }
{
    let size = 9 * Ks0713::sheet().width;
    let registers = registers_in(state, memory.len() != size)?;
    run::<Ks0713>(registers, memory, cycles, numbers, reads, bytes, fresh)
}

// Plays the cycles: the state and the memory become what they are after them, and each cycle's answer goes into the outputs.
// Refuses with 1, 2, 5.
pub fn bus_run(
    state: &mut State,
    memory: &mut [u8],
    cycles: &[u8],
    numbers: &mut [u8],
    reads: &mut [u8],
    bytes: &mut [u8],
    fresh: &mut [u8],
) -> u8
    ensures { RunOut state.old memory.old cycles.now (outputs numbers.old reads.old bytes.old fresh.old)
        state.new memory.new (outputs numbers.new reads.new bytes.new fresh.new) result }
{
    match run_on(&*state, memory, cycles, numbers, reads, bytes, fresh) {
        Ok(registers) => {
            *state = pack(registers);
            0
        }
        Err(refusal) => refusal.into(),
    }
}
