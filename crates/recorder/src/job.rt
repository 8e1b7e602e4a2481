// Job files, written.
ghost use Rattle.std.specs.Prelude.{◌≡◌, ◌≤◌, ◌<◌, length};
ghost use Rattle.recorder.specs.Job.{most_pictures, count_field, header_bytes, wrong_pictures, IsWrittenJob};

use crate::cycles::wrong_cycles;
use instructions::added::{CommandSet, is_new};
use paper::refusal::Refusal;

// Whether so many bytes are not `count` pictures. No product here can be too large.
#[tactic(auto, using(crate::proofs::Answers::pictures_test))]
pub(crate) fn wrong_pictures(total: usize, count: usize) -> bool
    ensures { result ≡ wrong_pictures total count }
{
    (total / 1188 != count) | (total % 1188 != 0)
}

// The most pictures that a job of a command set can have.
fn most_pictures(set: CommandSet) -> usize
    ensures { (result ≡ most_pictures set) × (result ≤ 2) }
{
    if is_new(set) { 1 } else { 2 }
}

// The picture count field.
fn count_field(set: CommandSet, count: usize) -> usize
    requires { count ≤ 2 }
    ensures { (result ≡ count_field set count) × (result < 65536) }
{
    if is_new(set) { 256 + count } else { count }
}

// The header of n cycles, with the picture count field: four 16-bit numbers, low byte first.
#[tactic(auto, unfolding(crate::specs::Job::header_bytes, crate::specs::Job::word_bytes))]
fn header(n: usize, field: usize) -> [u8; 8]
    requires { (n ≤ 16000) × (field < 65536) }
    ensures { result ≡ header_bytes n field }
{
    let [n0, n1] = (n as u16).to_le_bytes();
    let [field0, field1] = (field as u16).to_le_bytes();
    let [pictures0, pictures1] = ((8 + 2 * n) as u16).to_le_bytes();
    [n0, n1, 8, 0, field0, field1, pictures0, pictures1]
}

// A slice's bytes, copied over one that is as long. Not by `copy_from_slice`: for that the archive would take `memmove` from
// outside.
fn copy(from: &[u8], to: &mut [u8])
    requires { length from.now ≡ length to.old }
    ensures { to.new ≡ from.now }
{
    for (i, byte) in from.iter().enumerate() {
        to[i] = *byte;
    }
}

// Writes a job file that powers up in a command set, from cycles and `count` pictures, one behind the other. Answers the file's length;
// refuses with 1 where the pictures are not `count` of 1,188 bytes, with 6 where there are more than 16,000 cycles or two pictures, in the
// new set one, or a cycle is none, with 5 where the output is shorter than the file, tested in this order, and leaves the output then. A
// longer output keeps its bytes past the file.
pub fn write_job(
    set: CommandSet,
    cycles: &[u8],
    count: usize,
    pictures: &[u8],
    out: &mut [u8],
) -> Result<usize, Refusal>
    ensures { IsWrittenJob set cycles.now count pictures.now out.old result out.new }
{
    let n = cycles.len() / 2;
    if wrong_pictures(pictures.len(), count) {
        return Err(Refusal::WrongSize);
    }
    if 16000 < n {
        return Err(Refusal::OutsideField);
    }
    if most_pictures(set) < count {
        return Err(Refusal::OutsideField);
    }
    if wrong_cycles(cycles) {
        return Err(Refusal::OutsideField);
    }
    let behind = 8 + 2 * n;
    let total = behind + pictures.len();
    if out.len() < total {
        return Err(Refusal::ShortOutput);
    }
    copy(&header(n, count_field(set, count)), &mut out[..8]);
    copy(&cycles[..2 * n], &mut out[8..behind]);
    copy(pictures, &mut out[behind..total]);
    Ok(total)
}
