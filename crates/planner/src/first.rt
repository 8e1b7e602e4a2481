// The first difference of two pictures.
ghost use Rattle.std.specs.Prelude.{◌≡◌, ◌≤◌, ◌<◌};
ghost use Rattle.planner.specs.Equal.{Past};
ghost use Rattle.planner.specs.First.{first_from, place_of, IsFirst};

use crate::picture::Pair;
use paper::refusal::Refusal;
use paper::sheet::Chip;

// A place of the memory.
#[derive(Clone, Copy, Debug, PartialEq, Eq)]
pub struct Place {
    pub page: usize,
    pub column: usize,
}

impl<'a> Pair<'a> {
    ghost use Rattle.planner.specs.Pair.{apart};

    // A column up to which none from `from` on differs: past the last one on an equal page, else `from` itself.
    fn passed(self, page: usize, from: usize) -> usize
        requires { page < 9 }
        ensures { from ≤ self.entry.wanted.width → Past (apart self.entry page) self.entry.wanted.width from result }
    {
        if self.same_page(page) {
            return self.wanted.width;
        }
        from
    }

    // Stops at the first difference found, page by page.
    fn scan(self) -> Option<Place>
        ensures { place_of result ≡ first_from self.entry.wanted.width self.entry.recorded.now self.entry.wanted.bytes.now 0 9 }
    {
        let mut found = None;
        'pages: for page in 0..9 {
            // No `for` over the columns: a turn passes all equal ones at once.
            let mut column = self.passed(page, 0);
            while column < self.wanted.width {
                if self.differ(page, column) {
                    found = Some(Place { page, column });
                    break 'pages;
                }
                column = self.past_equal(page, column + 1);
            }
        }
        found
    }
}

// The page and column of the first differing byte, page by page, or that there is none; on page 8
// only bit 0 counts. Refuses with 1 where a picture is not nine pages of the chip.
pub fn first_difference<C: Chip>(recorded: &[u8], wanted: &[u8]) -> Result<Option<Place>, Refusal>
    ensures { IsFirst C.sheet.width recorded.now wanted.now result }
{
    let pair = Pair::of::<C>(recorded, wanted)?;
    Ok(pair.scan())
}
