// The registers and the memory after a job's cycles.
ghost use Rattle.std.specs.Prelude.{◌≤◌, length};
ghost use Rattle.viewer.specs.Played.{FromPowerUp, Played};

use crate::good::Good;
use bus::run::run;
use input::room;
use instructions::added::CommandSet;
use jobs::memory::Memory;
use paper::sheet::Ks0713;
use registers::Registers;
use registers::start::power_up_in;

// The cycles of a list from power-up in a command set: the registers after them. A memory that fits and room for every answer are never
// refused.
fn from_power_up(set: CommandSet, memory: &mut Memory, cycles: &[u8]) -> Registers
    requires { length cycles.now ≤ 32000 }
    ensures { FromPowerUp set cycles.now memory.old result memory.new }
{
    let mut numbers = room::<16000>();
    let mut reads = room::<16000>();
    let mut bytes = room::<16000>();
    let mut fresh = room::<16000>();
    run::<Ks0713>(
        power_up_in::<Ks0713>(set),
        memory,
        cycles,
        &mut numbers,
        &mut reads,
        &mut bytes,
        &mut fresh,
    )
    .unwrap()
}

impl<'a> Good<'a> {
    // All its cycles, from power-up: the registers after them.
    pub(crate) fn after(&self, memory: &mut Memory) -> Registers
        ensures { Played self.now.file.now self.now.job memory.old result memory.new }
    {
        from_power_up(self.job.set, memory, self.cycles())
    }
}
