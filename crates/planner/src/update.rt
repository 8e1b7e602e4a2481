// The update: one walk over the columns, which carries the chip's own column counter.
ghost use Rattle.std.specs.Prelude.{◌≡◌, ◌+◌, ◌≤◌, ◌<◌, cond, ◌||◌};
ghost use Rattle.streams.specs.Length.{update_length};
ghost use Rattle.streams.specs.Walk.{lead, walk_pages};
ghost use Rattle.planner.specs.Output.{Room, Wrote, column_piece, shorter};
ghost use Rattle.planner.specs.Sent.{IsUpdate};

use crate::output::{DATA, put, put_address, put_column};
use crate::picture::{Pair, Picture};
use paper::refusal::Refusal;
use paper::sheet::Chip;

// Where the next cycle goes, whether this page's byte is out, and the column after the last byte.
#[derive(Clone, Copy)]
struct Pen {
    at: usize,
    sent: bool,
    next: usize,
}

impl<'a> Picture<'a> {
    // What goes ahead of a differing column's byte: the bytes of at most 2 equal columns between, or
    // else the address of a new stretch, with the page byte where it is not out yet.
    fn put_lead(
        self,
        page: usize,
        column: usize,
        pen: Pen,
        out: &mut [u8],
        kinds: &mut [u8],
    ) -> usize
        requires { (page < 9) × (column < self.width) × (pen.next ≤ self.width)
            × Room (lead self.width self.bytes.now page pen.sent pen.next column) out.old kinds.old pen.at }
        ensures { Wrote (lead self.entry.width self.entry.bytes.now page pen.sent pen.next column)
            out.old kinds.old pen.at out.new kinds.new result }
    {
        let at = pen.at;
        let next = pen.next;
        if pen.sent {
            if column <= next + 2 {
                return self.put_wanted(page, next, column, out, kinds, at);
            }
            return put_column(out, kinds, at, column);
        }
        put_address(out, kinds, at, page, column)
    }
}

impl<'a> Pair<'a> {
    ghost use Rattle.planner.specs.Pair.{apart, page_walk};

    // One column: an equal one sends nothing, a differing one what goes ahead of it and its byte.
    fn update_column(
        self,
        page: usize,
        column: usize,
        pen: Pen,
        out: &mut [u8],
        kinds: &mut [u8],
    ) -> Pen
        requires { (page < 9) × (column < self.wanted.width) × (pen.next ≤ self.wanted.width)
            × Room (column_piece self.wanted.width self.recorded.now self.wanted.bytes.now page pen.sent pen.next column)
            out.old kinds.old pen.at }
        ensures { Wrote (column_piece self.entry.wanted.width self.entry.recorded.now self.entry.wanted.bytes.now page pen.sent pen.next column)
            out.old kinds.old pen.at out.new kinds.new result.at
            × (result.sent ≡ (apart self.entry page column || pen.sent))
            × (result.next ≡ cond (apart self.entry page column) (column + 1) pen.next) }
    {
        if self.differ(page, column) {
            let byte = self.wanted.shown_at(page, column);
            let led = self.wanted.put_lead(page, column, pen, out, kinds);
            let at = put(out, kinds, led, DATA, byte);
            return Pen {
                at,
                sent: true,
                next: column + 1,
            };
        }
        pen
    }

    // One page's work, from index `at` on. Inlined, as what calls it is, so that the compiler knows the width.
    #[inline(always)]
    fn update_page(self, page: usize, out: &mut [u8], kinds: &mut [u8], at: usize) -> usize
        requires { (page < 9) × Room (page_walk self page) out.old kinds.old at }
        ensures { Wrote (page_walk self.entry page) out.old kinds.old at out.new kinds.new result }
    {
        let mut pen = Pen {
            at,
            sent: false,
            next: 0,
        };
        // No `for`: a turn passes an equal column together with all equal ones after it.
        let mut column = 0;
        while column < self.wanted.width {
            if self.differ(page, column) {
                pen = self.update_column(page, column, pen, out, kinds);
                column += 1;
            } else {
                column = self.past_equal(page, column + 1);
            }
        }
        pen.at
    }

    // The same, walked only where the page differs: an equal page has no work. It stands outside the
    // walk, so that the compiler takes the two loops apart.
    #[inline(always)]
    pub(crate) fn update_differing(
        self,
        page: usize,
        out: &mut [u8],
        kinds: &mut [u8],
        at: usize,
    ) -> usize
        requires { (page < 9) × Room (page_walk self page) out.old kinds.old at }
        ensures { Wrote (page_walk self.entry page) out.old kinds.old at out.new kinds.new result }
    {
        if self.same_page(page) {
            return at;
        }
        self.update_page(page, out, kinds, at)
    }

    // All nine pages, in rising order.
    fn update_pages(self, out: &mut [u8], kinds: &mut [u8]) -> usize
        requires { Room (walk_pages self.wanted.width self.recorded.now self.wanted.bytes.now 0 9) out.old kinds.old 0 }
        ensures { Wrote (walk_pages self.entry.wanted.width self.entry.recorded.now self.entry.wanted.bytes.now 0 9)
            out.old kinds.old 0 out.new kinds.new result }
    {
        let mut at = 0;
        for page in 0..9 {
            at = self.update_differing(page, out, kinds, at);
        }
        at
    }

    // Whether an output of a length is shorter than the update. The update's length is counted only
    // where one is shorter than the longest update.
    fn too_short(self, out: usize, kinds: usize) -> bool
        ensures { result ≡ shorter out kinds (update_length self.entry.wanted.width self.entry.recorded.now self.entry.wanted.bytes.now) }
    {
        let most = 9 * (self.wanted.width + 3);
        if (out < most) | (kinds < most) {
            let need = self.pages_length();
            return (out < need) | (kinds < need);
        }
        false
    }
}

// Sends the bytes that turn the recorded picture into the wanted one to `out`, their kinds to
// `kinds`, and answers how many. Refuses with 1 where a picture is not nine pages of the chip, then with 5
// where an output is shorter than the stream; a refusal leaves both outputs as they were.
pub fn update<C: Chip>(
    recorded: &[u8],
    wanted: &[u8],
    out: &mut [u8],
    kinds: &mut [u8],
) -> Result<usize, Refusal>
    ensures { IsUpdate C.sheet.width recorded.now wanted.now out.old kinds.old result out.new kinds.new }
{
    let pair = Pair::of::<C>(recorded, wanted)?;
    if pair.too_short(out.len(), kinds.len()) {
        return Err(Refusal::ShortOutput);
    }
    Ok(pair.update_pages(out, kinds))
}
