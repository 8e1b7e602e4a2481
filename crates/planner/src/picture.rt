// What a picture shows at a page and a column, and where two pictures differ.
ghost use Rattle.std.specs.Prelude.{◌≡◌, ◌*◌, ◌≤◌, ◌<◌, ◌||◌, length, MatchResult, true};
ghost use Rattle.paper.specs.declared.refusal.Refusal.TheVariants.{WrongSize};
ghost use Rattle.controller.specs.Memory.{cell_of};
ghost use Rattle.streams.specs.Picture.{shown};
ghost use Rattle.planner.specs.Pictures.{misfit};
ghost use Rattle.planner.specs.Output.{Fits};

use paper::refusal::Refusal;
use paper::sheet::Chip;

// A picture of nine pages of `width` columns.
#[derive(Clone, Copy)]
pub(crate) struct Picture<'a> {
    pub(crate) bytes: &'a [u8],
    pub(crate) width: usize,
    ghost fits: { Fits width bytes.now },
}

// The wanted picture, and the recorded one, as long: one width for both, so that the compiler finds a
// place in them once.
#[derive(Clone, Copy)]
pub(crate) struct Pair<'a> {
    recorded: &'a [u8],
    pub(crate) wanted: Picture<'a>,
    ghost long: { length recorded.now ≡ 9 * wanted.width },
}

// A byte as a page holds it: on page 8 only bit 0 exists. `controller` has the like, private too, for a page register. A page is a number
// here: it comes from 0..9 or from who calls, and each use is an index.
fn cell(page: usize, byte: u8) -> u8
    ensures { result ≡ cell_of page byte }
{
    if page == 8 { byte % 2 } else { byte }
}

impl<'a> Picture<'a> {
    ghost use Rattle.planner.specs.Pair.{PictureOf};

    // The picture of a chip that the bytes are, which must be nine pages.
    #[tactic(auto, using(paper::proofs::Tests::tests), unfolding(crate::specs::Pictures::misfit))]
    pub(crate) fn of<C: Chip>(bytes: &'a [u8]) -> Result<Picture<'a>, Refusal>
        ensures { MatchResult result (PictureOf C.sheet.width bytes.now) (λ e. (misfit C.sheet.width bytes.now ≡ true) × (e ≡ WrongSize)) }
    {
        let width = C::sheet().width;
        if bytes.len() != 9 * width {
            return Err(Refusal::WrongSize);
        }
        Ok(Picture { bytes, width })
    }

    // What it shows at a page and a column.
    pub(crate) fn shown_at(self, page: usize, column: usize) -> u8
        requires { (page < 9) × (column < self.width) }
        ensures { result ≡ shown self.entry.width self.entry.bytes.now page column }
    {
        cell(page, self.bytes[self.width * page + column])
    }
}

impl<'a> Pair<'a> {
    ghost use Rattle.planner.specs.Pair.{apart, PairOf};

    // The pair of a chip that the bytes are: both must be nine pages.
    pub(crate) fn of<C: Chip>(recorded: &'a [u8], wanted: &'a [u8]) -> Result<Pair<'a>, Refusal>
        ensures { MatchResult result (PairOf C.sheet.width recorded.now wanted.now)
            (λ e. ((misfit C.sheet.width recorded.now || misfit C.sheet.width wanted.now) ≡ true) × (e ≡ WrongSize)) }
    {
        let recorded = Picture::of::<C>(recorded)?.bytes;
        let wanted = Picture::of::<C>(wanted)?;
        Ok(Pair { recorded, wanted })
    }

    // Whether the two differ at a page and a column.
    pub(crate) fn differ(self, page: usize, column: usize) -> bool
        requires { (page < 9) × (column < self.wanted.width) }
        ensures { result ≡ apart self.entry page column }
    {
        let recorded = Picture {
            bytes: self.recorded,
            width: self.wanted.width,
        };
        recorded.shown_at(page, column) != self.wanted.shown_at(page, column)
    }
}
