// The cycles of a list of bytes, one after the other, each with its answer.
ghost use Rattle.std.specs.Prelude.{◌≡◌, ◌/◌, ◌≤◌, ◌<◌, length, MatchResult};
ghost use Rattle.paper.specs.Refusal.{number_of};
ghost use Rattle.controller.specs.State.{state};
ghost use Rattle.bus.specs.Cycles.{cycles_of};
ghost use Rattle.bus.specs.Run.{outputs, run_refusal, IsRun};
ghost use Rattle.bus.specs.Filling.{TurnPut, Filled};

use controller::turn::take_turn;
use paper::refusal::Refusal;
use paper::sheet::Chip;
use registers::{Registers, outside_range};

// One cycle, with its answer put into the outputs at i. The four outputs are lent one by one, as C lends them to `bus_run`.
fn turn_at<C: Chip>(
    registers: Registers,
    memory: &mut [u8],
    kind: u8,
    value: u8,
    i: usize,
    numbers: &mut [u8],
    reads: &mut [u8],
    bytes: &mut [u8],
    fresh: &mut [u8],
) -> Registers
    requires { (i < length numbers.old) × (i < length reads.old) × (i < length bytes.old) × (i < length fresh.old) }
    ensures { TurnPut C.sheet (state registers memory.old) (kind, value) (outputs numbers.old reads.old bytes.old fresh.old) i
        (state result memory.new) (outputs numbers.new reads.new bytes.new fresh.new) }
{
    let turn = take_turn::<C>(registers, memory, kind, value);
    numbers[i] = turn.number;
    reads[i] = turn.read;
    bytes[i] = turn.byte;
    fresh[i] = turn.fresh;
    turn.registers
}

// All the cycles, each with its answer put into outputs that have room for them.
fn play_all<C: Chip>(
    registers: Registers,
    memory: &mut [u8],
    cycles: &[u8],
    numbers: &mut [u8],
    reads: &mut [u8],
    bytes: &mut [u8],
    fresh: &mut [u8],
) -> Registers
    requires { (length cycles.now / 2 ≤ length numbers.old) × (length cycles.now / 2 ≤ length reads.old) × (length cycles.now / 2 ≤ length bytes.old) × (length cycles.now / 2 ≤ length fresh.old) }
    ensures { Filled C.sheet (state registers memory.old) (cycles_of cycles.now) (outputs numbers.old reads.old bytes.old fresh.old) 0
        (state result memory.new) (outputs numbers.new reads.new bytes.new fresh.new) }
{
    let mut after = registers;
    for (i, cycle) in cycles.chunks_exact(2).enumerate() {
        after = turn_at::<C>(
            after, memory, cycle[0], cycle[1], i, numbers, reads, bytes, fresh,
        );
    }
    after
}

// Whether a run is refused, and with what.
#[tactic(auto, using(paper::proofs::Tests::tests), unfolding(crate::specs::Run::run_refusal))]
fn check<C: Chip>(registers: Registers, memory: usize, short: bool) -> Result<(), Refusal>
    ensures { MatchResult result (λ _. run_refusal C.sheet registers memory short ≡ 0) (λ e. run_refusal C.sheet registers memory short ≡ number_of e) }
{
    if memory != 9 * C::sheet().width {
        return Err(Refusal::WrongSize);
    }
    if outside_range(C::sheet(), registers) {
        return Err(Refusal::OutOfRange);
    }
    if short {
        return Err(Refusal::ShortOutput);
    }
    Ok(())
}

// Plays the cycles on a chip, two bytes a cycle: kind, value; a last odd byte is no cycle. Answers the registers after them, and
// puts each cycle's answer into the outputs: its number, whether it read a byte (1 or 0), the byte (0 where it read none), and whether
// that is a fresh byte of a data read (1 or 0). A cycle that is refused changes nothing, and the next is played. Refuses the whole list
// with 1, 2, 5, tested in this order, and then leaves memory and outputs as they were. Longer outputs keep their rest.
pub fn run<C: Chip>(
    registers: Registers,
    memory: &mut [u8],
    cycles: &[u8],
    numbers: &mut [u8],
    reads: &mut [u8],
    bytes: &mut [u8],
    fresh: &mut [u8],
) -> Result<Registers, Refusal>
    ensures { IsRun C.sheet registers memory.old cycles.now (outputs numbers.old reads.old bytes.old fresh.old)
        result memory.new (outputs numbers.new reads.new bytes.new fresh.new) }
{
    let count = cycles.len() / 2;
    let short = (numbers.len() < count)
        | (reads.len() < count)
        | (bytes.len() < count)
        | (fresh.len() < count);
    check::<C>(registers, memory.len(), short)?;
    Ok(play_all::<C>(registers, memory, cycles, numbers, reads, bytes, fresh))
}
