// Bytes put into a lent output from a place on. A byte past the output's end is counted and not stored, so the same calls measure
// (on any output) and write (on one that is long enough). An output and a place are two parameters, for two functions: what `jobs` has for
// this, `Text`, is private to it, since its methods have a `requires`, which no public function has.
ghost use Rattle.std.specs.Prelude.{◌≡◌, ◌+◌, ◌≤◌, length, set};
ghost use Rattle.jobs.specs.Output.{Put};

// Byte `at` of an output, where there is one.
pub(crate) fn store(out: &mut [u8], at: usize, byte: u8)
    ensures { out.new ≡ set out.old at byte }
{
    if at < out.len() {
        out[at] = byte;
    }
}

// All bytes of a slice.
pub(crate) fn put_all(out: &mut [u8], at: usize, from: &[u8]) -> usize
    requires { at + length from.now ≤ 100000 }
    ensures { Put out.old at from.now out.new result (length from.now) }
{
    for (i, byte) in from.iter().enumerate() {
        store(out, at + i, *byte);
    }
    at + from.len()
}
