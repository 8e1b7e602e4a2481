// Equal columns: whether a page has no others, and how to get past them. A loop that looks at every
// column and stops at none is compiled to compare sixteen at a time.
ghost use Rattle.std.specs.Prelude.{◌≡◌, ◌-◌, ◌≤◌, ◌<◌, eqb};
ghost use Rattle.streams.specs.Length.{differing};
ghost use Rattle.planner.specs.Equal.{Past};

use crate::picture::Pair;

// The columns that are compared at once.
const BLOCK: usize = 16;

impl<'a> Pair<'a> {
    ghost use Rattle.planner.specs.Pair.{apart};

    // Whether none of the columns from `from` up to and without `to` differs on a page.
    fn same_columns(self, page: usize, from: usize, to: usize) -> bool
        requires { (page < 9) × (to ≤ self.wanted.width) }
        ensures { result ≡ eqb (differing (apart self.entry page) from (to - from)) 0 }
    {
        let mut same = true;
        for column in from..to {
            same = same & !self.differ(page, column);
        }
        same
    }

    // Whether a page shows the same in both pictures: none of its columns differs.
    pub(crate) fn same_page(self, page: usize) -> bool
        requires { page < 9 }
        ensures { result ≡ eqb (differing (apart self.entry page) 0 self.entry.wanted.width) 0 }
    {
        self.same_columns(page, 0, self.wanted.width)
    }

    // Past the blocks of equal columns that begin at `from`.
    fn past_blocks(self, page: usize, from: usize) -> usize
        requires { (page < 9) × (from ≤ self.wanted.width) }
        ensures { Past (apart self.entry page) self.entry.wanted.width from result }
    {
        // No `for`: a turn passes a whole block, and what is answered is where the blocks end.
        let mut column = from;
        while column + BLOCK <= self.wanted.width {
            let same = self.same_columns(page, column, column + BLOCK);
            if !same {
                return column;
            }
            column += BLOCK;
        }
        column
    }

    // Past the equal columns that begin at `from`, one by one.
    fn past_columns(self, page: usize, from: usize) -> usize
        requires { (page < 9) × (from ≤ self.wanted.width) }
        ensures { Past (apart self.entry page) self.entry.wanted.width from result }
    {
        for column in from..self.wanted.width {
            if self.differ(page, column) {
                return column;
            }
        }
        self.wanted.width
    }

    // Past all equal columns that begin at `from`: whole blocks of them at once, then one by one.
    pub(crate) fn past_equal(self, page: usize, from: usize) -> usize
        requires { (page < 9) × (from ≤ self.wanted.width) }
        ensures { Past (apart self.entry page) self.entry.wanted.width from result }
    {
        let column = self.past_blocks(page, from);
        self.past_columns(page, column)
    }
}
