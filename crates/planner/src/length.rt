// The update's length, by the paper's formula.
ghost use Rattle.std.specs.Prelude.{◌≡◌, ◌+◌, ◌-◌, ◌≤◌, ◌<◌, min};
ghost use Rattle.streams.specs.Length.{page_length, update_length};
ghost use Rattle.streams.specs.Tally.{Counted};
ghost use Rattle.planner.specs.Count.{IsLength};

use crate::picture::Pair;
use paper::refusal::Refusal;
use paper::sheet::Chip;

// A page's bytes so far without its page byte, and the column from which a new stretch costs no
// more than going on: at first 0, so that the first differing column starts one.
#[derive(Clone, Copy)]
struct Tally {
    bytes: usize,
    anew: usize,
}

// What a gap costs: its columns written again, or the two column bytes of a new stretch.
fn gap_cost(gap: usize) -> usize
    ensures { result ≡ min gap 2 }
{
    if gap < 2 { gap } else { 2 }
}

impl<'a> Pair<'a> {
    ghost use Rattle.planner.specs.Pair.{apart};

    // One column more. One that differs costs its own byte, and min(gap, 2) for the columns since the
    // last one that did: they are column + 2 - anew, and 2 or more where none has differed yet.
    fn count_column(self, page: usize, column: usize, tally: Tally) -> Tally
        requires { (page < 9) × (column < self.wanted.width) × (tally.anew ≤ column + 2)
            × Counted (apart self page) self.wanted.width tally.bytes (column + 2 - tally.anew) column }
        ensures { (result.anew ≤ column + 1 + 2)
            × Counted (apart self.entry page) self.entry.wanted.width result.bytes (column + 1 + 2 - result.anew) (column + 1) }
    {
        if self.differ(page, column) {
            let between = gap_cost(column + 2 - tally.anew);
            return Tally {
                bytes: tally.bytes + 1 + between,
                anew: column + 3,
            };
        }
        tally
    }

    // The bytes of one page's work: none for an equal page, else those of its columns and the page byte.
    pub(crate) fn page_length(self, page: usize) -> usize
        requires { page < 9 }
        ensures { result ≡ page_length (apart self.entry page) self.entry.wanted.width }
    {
        if self.same_page(page) {
            return 0;
        }
        let mut tally = Tally { bytes: 0, anew: 0 };
        for column in 0..self.wanted.width {
            tally = self.count_column(page, column, tally);
        }
        if tally.bytes == 0 {
            return 0;
        }
        tally.bytes + 1
    }

    // The bytes of all nine pages. Inlined, so that the compiler knows the width.
    #[inline(always)]
    pub(crate) fn pages_length(self) -> usize
        ensures { result ≡ update_length self.entry.wanted.width self.entry.recorded.now self.entry.wanted.bytes.now }
    {
        let mut bytes = 0;
        for page in 0..9 {
            bytes += self.page_length(page);
        }
        bytes
    }
}

// How many bytes the update has, in one pass. Refuses with 1 where a picture is not nine pages of the chip.
pub fn update_length<C: Chip>(recorded: &[u8], wanted: &[u8]) -> Result<usize, Refusal>
    ensures { IsLength C.sheet.width recorded.now wanted.now result }
{
    let pair = Pair::of::<C>(recorded, wanted)?;
    Ok(pair.pages_length())
}
