// How a cycle, a frame, a power state and V0 are made on the packed state, and told.
ghost use Rattle.std.specs.Prelude.{◌≡◌};
ghost use Rattle.paper.specs.Answers.{Answers};
ghost use Rattle.paper.specs.Told.{told};
ghost use Rattle.face.specs.Chip.{CycledOn, CycleTold, ShownOn, PoweredOn, power_byte};

use controller::cycle::{Answer, cycle};
use glass::frame::frame;
use glass::power::{PowerState, power_state};
use glass::voltage::Fraction;
use paper::refusal::Refusal;
use paper::sheet::Chip;
use state::packed::{State, flag_byte, pack};
use state::unfit::registers_in;

// One cycle on the registers that the state stands for.
#[tactic(auto, unfolding(planner::specs::Pictures::misfit))]
pub fn cycle_on<C: Chip>(
    state: &State,
    memory: &mut [u8],
    kind: u8,
    value: u8,
) -> Result<Answer, Refusal>
    ensures { CycledOn C.sheet state.now memory.old kind value result memory.new }
{
    let size = 9 * C::sheet().width;
    let registers = registers_in(state, memory.len() != size)?;
    cycle::<C>(registers, memory, kind, value)
}

// A cycle: the state after it, a byte that was read, with `read` 1, and whether a data read's is fresh.
pub fn tell_cycle(
    answer: Result<Answer, Refusal>,
    state: &mut State,
    read: &mut u8,
    byte: &mut u8,
    fresh: &mut u8,
) -> u8
    ensures { CycleTold answer state.old read.old byte.old fresh.old
        state.new read.new byte.new fresh.new result }
{
    match answer {
        Ok(Answer::Done(after)) => {
            *state = pack(after);
            0
        }
        Ok(Answer::Status(status)) => {
            *read = 1;
            *byte = status;
            0
        }
        Ok(Answer::Read(after, holder, mark)) => {
            *state = pack(after);
            *read = 1;
            *byte = holder;
            *fresh = flag_byte(mark);
            0
        }
        Err(refusal) => refusal.into(),
    }
}

// The lit frame of the registers that the state stands for.
#[tactic(auto, unfolding(planner::specs::Pictures::misfit))]
pub fn frame_on<C: Chip>(state: &State, memory: &[u8], out: &mut [u8]) -> Result<(), Refusal>
    ensures { ShownOn C.sheet state.now memory.now out.old result out.new }
{
    let size = 9 * C::sheet().width;
    let registers = registers_in(state, (memory.len() != size) | (out.len() != size))?;
    frame::<C>(registers, memory, out)
}

// A frame, which stands where it was drawn.
pub fn tell_frame(answer: Result<(), Refusal>) -> u8
    ensures { result ≡ (told answer).number }
{
    match answer {
        Ok(()) => 0,
        Err(refusal) => refusal.into(),
    }
}

// The power state of the registers that the state stands for.
pub fn power_on<C: Chip>(state: &State) -> Result<PowerState, Refusal>
    ensures { PoweredOn C.sheet state.now result }
{
    let registers = registers_in(state, false)?;
    power_state::<C>(registers)
}

// A power state as a byte: 0 normal, 1 sleep, 2 standby. No `From`: the number is C's, and the enum another crate's.
fn power_byte(power: PowerState) -> u8
    ensures { result ≡ power_byte power }
{
    match power {
        PowerState::Normal => 0,
        PowerState::Sleep => 1,
        PowerState::Standby => 2,
    }
}

// A power state.
pub fn tell_power(answer: Result<PowerState, Refusal>, power: &mut u8) -> u8
    ensures { Answers (told answer) power_byte power.old power.new result }
{
    match answer {
        Ok(state) => {
            *power = power_byte(state);
            0
        }
        Err(refusal) => refusal.into(),
    }
}

// V0's numerator.
pub fn tell_voltage(answer: Result<Fraction, Refusal>, numerator: &mut u32) -> u8
    ensures { Answers (told answer) (λ f. f.numerator) numerator.old numerator.new result }
{
    match answer {
        Ok(volts) => {
            *numerator = volts.numerator;
            0
        }
        Err(refusal) => refusal.into(),
    }
}
