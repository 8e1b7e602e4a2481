// The memory at power-up.
ghost use Rattle.std.specs.Prelude.{◌≡◌, ◌+◌, ◌*◌, min, length, get_or, replicate};
ghost use Rattle.jobs.specs.Memory.{filled_up, start_memory};

use crate::header::Job;

// What a chip's memory holds.
pub type Memory = [u8; 1188];

// A memory of zeros (fixed memory: no heap). It stands in a function of its own, so that its bytes are not computed where it is used.
fn blank() -> Memory
    ensures { (1188 ≡ length result) × (result ≡ replicate 1188 0) }
{
    [0; 1188]
}

// The first 1,188 bytes, 0 where there are none.
fn load(bytes: &[u8]) -> Memory
    ensures { (1188 ≡ length result) × (result ≡ filled_up 1188 bytes.now) }
{
    let mut memory = blank();
    let n = bytes.len().min(1188);
    memory[..n].copy_from_slice(&bytes[..n]);
    memory
}

// Where the pictures of a file with so many bytes begin, its end if it has none. No sum here can be too large.
fn pictures_from(total: usize, cycles: usize) -> usize
    ensures { result ≡ min (8 + 2 * cycles) total }
{
    cycles.saturating_mul(2).saturating_add(8).min(total)
}

// The memory at power-up: picture 1, or zeros. Bytes that a file does not have are 0.
#[tactic(auto, using(crate::proofs::Loading::start_zeros, crate::proofs::Loading::start_picture))]
pub fn start_memory(file: &[u8], job: Job) -> Memory
    ensures { (1188 ≡ length result) × (result ≡ filled_up 1188 (start_memory file.now job)) }
{
    if job.pictures < 1 {
        return blank();
    }
    let from = pictures_from(file.len(), job.cycles);
    load(&file[from..])
}
