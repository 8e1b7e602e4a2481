// The update from the memory to the wanted picture, one cycle a line.
ghost use Rattle.std.specs.Prelude.{◌≡◌, ◌≤◌, length, Ok};
ghost use Rattle.planner.specs.Sent.{IsUpdate};

use crate::good::Good;
use input::room;
use jobs::memory::Memory;
use paper::sheet::Ks0713;
use planner::update::update;

// The update put into room for any update, which is never refused: answers how many cycles it has.
fn sent(memory: &Memory, wanted: &[u8], out: &mut [u8], kinds: &mut [u8]) -> usize
    requires { (length wanted.now ≡ 1188) × (1215 ≤ length out.old) × (1215 ≤ length kinds.old) }
    ensures { IsUpdate 132 memory.now wanted.now out.old kinds.old (Ok result) out.new kinds.new
        × (result ≤ length out.new) × (result ≤ length kinds.new) }
{
    update::<Ks0713>(memory, wanted, out, kinds).unwrap()
}

// One cycle's line: its kind, a space, its byte.
fn write_cycle(rt: &impl Print, kind: u8, byte: u8) -> bool {
    println!(rt; "{kind} {byte:02x}").is_ok()
}

// The lines of cycles, as far as they can be written.
fn write_cycles(rt: &impl Print, bytes: &[u8], kinds: &[u8]) -> bool {
    kinds
        .iter()
        .zip(bytes)
        .all(|(kind, byte)| write_cycle(rt, *kind, *byte))
}

// The update's lines.
fn write_update(rt: &impl Print, memory: &Memory, wanted: &[u8]) -> bool
    requires { length wanted.now ≡ 1188 }
{
    let mut out = room::<1215>();
    let mut kinds = room::<1215>();
    let n = sent(memory, wanted, &mut out, &mut kinds);
    write_cycles(rt, &out[..n], &kinds[..n])
}

impl<'a> Good<'a> {
    // Writes the update to picture 2, and answers whether it could be written. A job with fewer pictures has no wanted one.
    pub(crate) fn stream(&self, rt: &(impl Print + Eprint), memory: &Memory) -> bool {
        if self.job.pictures < 2 {
            let _ = rt.eprint("viewer: the job has no wanted picture\n");
            return true;
        }
        let from = 8 + 2 * self.job.cycles + 1188;
        let to = from + 1188;
        write_update(rt, memory, &self.file[from..to])
    }
}
