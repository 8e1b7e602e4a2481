// The redraw: four instructions, then all nine pages as one stretch each.
ghost use Rattle.std.specs.Prelude.{◌≤◌, ◌<◌};
ghost use Rattle.std.proofs.Math.Option.{none};
ghost use Rattle.streams.specs.Stretch.{emit};
ghost use Rattle.streams.specs.Redraw.{opening, whole_pages};
ghost use Rattle.planner.specs.Output.{Room, Wrote, page_group};
ghost use Rattle.planner.specs.Sent.{IsRedraw};

use crate::output::{CONTRAST_NEXT, INDICATOR_OFF, NOP, put_address, put_two};
use crate::picture::Picture;
use paper::refusal::Refusal;
use paper::sheet::Chip;

// E3, AC, 81 and the contrast, at the start of both outputs.
fn put_opening(contrast: u8, out: &mut [u8], kinds: &mut [u8]) -> usize
    requires { Room (opening contrast) out.old kinds.old 0 }
    ensures { Wrote (opening contrast) out.old kinds.old 0 out.new kinds.new result }
{
    let next = put_two(out, kinds, 0, NOP, INDICATOR_OFF);
    put_two(out, kinds, next, CONTRAST_NEXT, contrast)
}

impl<'a> Picture<'a> {
    // A whole page as one stretch.
    fn redraw_page(self, page: usize, out: &mut [u8], kinds: &mut [u8], at: usize) -> usize
        requires { (page < 9) × Room (page_group self.width self.bytes.now page) out.old kinds.old at }
        ensures { Wrote (page_group self.entry.width self.entry.bytes.now page) out.old kinds.old at out.new kinds.new result }
    {
        let start = put_address(out, kinds, at, page, 0);
        self.put_wanted(page, 0, self.width, out, kinds, start)
    }

    // All nine pages.
    fn redraw_pages(self, out: &mut [u8], kinds: &mut [u8], from: usize) -> usize
        requires { Room (emit none (whole_pages self.width self.bytes.now 0 9)) out.old kinds.old from }
        ensures { Wrote (emit none (whole_pages self.entry.width self.entry.bytes.now 0 9)) out.old kinds.old from out.new kinds.new result }
    {
        let mut at = from;
        for page in 0..9 {
            at = self.redraw_page(page, out, kinds, at);
        }
        at
    }
}

// Sends the bytes that set the whole picture and the contrast, whatever was shown before, to `out`
// and their kinds to `kinds`, and answers how many: 1,219 for the KS0713, 931 for the KS0717. Refuses with 1 where the picture is
// not nine pages of the chip, then with 6 where the contrast is above 63, then with 5 where an output is shorter
// than the stream; a refusal leaves both outputs as they were.
pub fn redraw<C: Chip>(
    wanted: &[u8],
    contrast: u8,
    out: &mut [u8],
    kinds: &mut [u8],
) -> Result<usize, Refusal>
    ensures { IsRedraw C.sheet.width wanted.now contrast out.old kinds.old result out.new kinds.new }
{
    let picture = Picture::of::<C>(wanted)?;
    if 63 < contrast {
        return Err(Refusal::OutsideField);
    }
    let need = 4 + 9 * (picture.width + 3);
    if (out.len() < need) | (kinds.len() < need) {
        return Err(Refusal::ShortOutput);
    }
    let start = put_opening(contrast, out, kinds);
    Ok(picture.redraw_pages(out, kinds, start))
}
