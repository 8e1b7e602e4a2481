// A list of cycles, looked through.
ghost use Rattle.std.specs.Prelude.{◌≡◌};
ghost use Rattle.bus.specs.Cycles.{cycles_of};
ghost use Rattle.recorder.specs.Cycles.{any_wrong};

use controller::cycle::not_a_cycle;

// Whether one of the cycles is none.
pub(crate) fn wrong_cycles(cycles: &[u8]) -> bool
    ensures { result ≡ any_wrong (cycles_of cycles.now) }
{
    cycles
        .chunks_exact(2)
        .any(|cycle| not_a_cycle(cycle[0], cycle[1]))
}
