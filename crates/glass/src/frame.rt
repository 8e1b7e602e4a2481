// The lit frame: a picture's layout, with segments for columns and rows for lines.
ghost use Rattle.std.specs.Prelude.{◌≡◌, ◌+◌, ◌*◌, ◌<◌, length, MatchResult};
ghost use Rattle.paper.specs.Refusal.{number_of};
ghost use Rattle.glass.specs.Frame.{strip_byte, frame_of, refusal, IsShown};
ghost use Rattle.glass.specs.Filling.{DrawnTo};

use crate::bit::weight;
use paper::refusal::Refusal;
use paper::sheet::Chip;
use registers::{Registers, outside_range};
use std::marker::PhantomData;

// A segment number, on the glass side.
#[derive(Clone, Copy, Debug, PartialEq, Eq)]
pub struct Segment(pub u8);

// What a chip shows its dots by: the registers, and a memory of nine pages.
#[derive(Drop)]
pub(crate) struct Glass<'a, C: Chip> {
    pub(crate) registers: Registers,
    pub(crate) memory: &'a [u8],
    chip: PhantomData<C>,
    ghost pages: { length memory.now ≡ 9 * C.sheet.width },
}

impl<'a, C: Chip> Glass<'a, C> {
    // A strip under a segment: bit b is row 8 * strip + b.
    #[tactic(auto, using(crate::proofs::Bits::step, crate::proofs::Bits::room), unfolding(crate::specs::Bit::sum_of, crate::specs::Frame::strip_byte))]
    fn strip_byte(&self, strip: usize, segment: Segment) -> u8
        requires { (strip < 9) × (segment.0 < C.sheet.width) }
        ensures { result ≡ strip_byte C.sheet self.now.registers self.now.memory.now strip segment.0 }
    {
        let mut sum: u8 = 0;
        for b in 0..8 {
            let on = self.lit(8 * strip + b, segment);
            sum += weight(on, b);
        }
        sum
    }

    // One strip: byte width * strip + segment is that strip under that segment.
    fn fill_strip(&self, strip: usize, out: &mut [u8])
        requires { (strip < 9) × DrawnTo C.sheet self.now.registers self.now.memory.now (C.sheet.width * strip) out.old }
        ensures { DrawnTo C.sheet self.now.registers self.now.memory.now (C.sheet.width * (strip + 1)) out.new }
    {
        let width = C::sheet().width;
        for under in 0..width {
            let segment = Segment(under as u8);
            out[width * strip + under] = self.strip_byte(strip, segment);
        }
    }

    // The whole frame, strip by strip, so that the compiler finds a strip's lines once and not under
    // each segment.
    #[tactic(auto, using(crate::proofs::Filling::drawn_whole))]
    fn fill(&self, out: &mut [u8])
        requires { length out.old ≡ 9 * C.sheet.width }
        ensures { out.new ≡ frame_of C.sheet self.now.registers self.now.memory.now }
    {
        for strip in 0..9 {
            self.fill_strip(strip, out);
        }
    }
}

// Whether a frame can be drawn: what a frame call is refused with, if it is.
#[tactic(auto, using(paper::proofs::Tests::tests), unfolding(crate::specs::Frame::refusal))]
fn check<C: Chip>(registers: Registers, memory: usize, frame: usize) -> Result<(), Refusal>
    ensures { MatchResult result (λ _. refusal C.sheet registers memory frame ≡ 0) (λ e. refusal C.sheet registers memory frame ≡ number_of e) }
{
    let size = 9 * C::sheet().width;
    if (memory != size) | (frame != size) {
        return Err(Refusal::WrongSize);
    }
    if outside_range(C::sheet(), registers) {
        return Err(Refusal::OutOfRange);
    }
    Ok(())
}

// Draws the lit frame of a chip into `out`; rows that the chip lacks are dark. Refuses with 1, 2, tested in this order; a refusal
// leaves `out` as it was. Not inlined: within a call for C the KS0717's loops take a quarter more instructions.
#[inline(never)]
#[tactic(auto, using(crate::proofs::Places::long))]
pub fn frame<C: Chip>(registers: Registers, memory: &[u8], out: &mut [u8]) -> Result<(), Refusal>
    ensures { IsShown C.sheet registers memory.now out.old result out.new }
{
    check::<C>(registers, memory.len(), out.len())?;
    let glass: Glass<C> = Glass {
        registers,
        memory,
        chip: PhantomData,
    };
    glass.fill(out);
    Ok(())
}
