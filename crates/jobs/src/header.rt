// A job file's header and its cycles: what is refused, and with which number.
ghost use Rattle.std.specs.Prelude.{◌≡◌, ◌+◌, ◌*◌, ◌<◌, ◌≤◌, length};
ghost use Rattle.jobs.specs.Header.{word_at, set_in, wrong_count, wrong_sizes, wrong_cycles, IsHeader};

use controller::cycle::not_a_cycle;
use instructions::added::CommandSet;
use paper::refusal::Refusal;

// A good job: how many cycles and how many pictures it has, and the command set that it powers up in.
#[derive(Clone, Copy, Debug, PartialEq, Eq)]
pub struct Job {
    pub cycles: usize,
    pub pictures: usize,
    pub set: CommandSet,
}

// A 16-bit number, low byte first.
#[tactic(auto, unfolding(crate::specs::Header::word_at))]
fn word(file: &[u8], at: usize) -> usize
    requires { at + 1 < length file.now }
    ensures { (result ≡ word_at file.now at) × (result < 65536) }
{
    usize::from(u16::from_le_bytes([file[at], file[at + 1]]))
}

// The command set of a picture count field.
fn set_in(p: usize) -> CommandSet
    ensures { result ≡ set_in p }
{
    if p < 256 {
        CommandSet::Old
    } else {
        CommandSet::New
    }
}

// Whether a picture count field is wrong.
#[tactic(auto, using(paper::proofs::Tests::tests), unfolding(crate::specs::Header::wrong_count))]
fn wrong_count(p: usize) -> bool
    ensures { result ≡ wrong_count p }
{
    !matches!(p, 0..=2 | 256 | 257)
}

// Whether a count, an offset or the total is wrong.
#[tactic(auto, unfolding(crate::specs::Header::wrong_sizes))]
fn wrong_sizes(n: usize, cycles: usize, p: usize, pictures: usize, total: usize) -> bool
    requires { n < 65536 }
    ensures { result ≡ wrong_sizes n cycles p pictures total }
{
    (16000 < n)
        || (cycles != 8)
        || wrong_count(p)
        || (pictures != 8 + 2 * n)
        || (total != 8 + 2 * n + 1188 * (p % 256))
}

// Whether one of the n cycles is no cycle. By index, as the definition has it; `recorder` asks it of a list without a header.
fn wrong_cycles(file: &[u8], n: usize) -> bool
    requires { 8 + 2 * n ≤ length file.now }
    ensures { result ≡ wrong_cycles file.now 0 n }
{
    (0..n).any(|i| not_a_cycle(file[8 + 2 * i], file[9 + 2 * i]))
}

// Reads a job file. Refuses with 7 where it is shorter than a header, with 8 where a count, an offset or the total is wrong,
// with 9 where a cycle is none, tested in this order; or answers how many cycles and pictures it has, and its command set.
#[tactic(auto, using(paper::proofs::Tests::tests, crate::proofs::Scan::sizes_right), unfolding(crate::specs::Header::header_of))]
pub fn read_header(file: &[u8]) -> Result<Job, Refusal>
    ensures { IsHeader file.now result }
{
    if file.len() < 8 {
        return Err(Refusal::ShortJob);
    }
    let n = word(file, 0);
    let p = word(file, 4);
    if wrong_sizes(n, word(file, 2), p, word(file, 6), file.len()) {
        return Err(Refusal::WrongHeader);
    }
    if wrong_cycles(file, n) {
        return Err(Refusal::WrongCycle);
    }
    Ok(Job {
        cycles: n,
        pictures: p % 256,
        set: set_in(p),
    })
}
