// How a place is told.
ghost use Rattle.paper.specs.Answers.{Answers};
ghost use Rattle.planner.specs.First.{told_found};
ghost use Rattle.face.specs.Pictures.{place_out};

use paper::refusal::Refusal;
use planner::first::Place;

// The first differing byte: `found` 1 with its page and column, or `found` 0 where there is none; then page and column stay.
pub fn tell_found(
    answer: Result<Option<Place>, Refusal>,
    found: &mut u8,
    page: &mut usize,
    column: &mut usize,
) -> u8
    ensures { Answers (told_found answer) (place_out (page.old, column.old))
        (found.old, page.old, column.old) (found.new, page.new, column.new) result }
{
    match answer {
        Ok(Some(place)) => {
            *found = 1;
            *page = place.page;
            *column = place.column;
            0
        }
        Ok(None) => {
            *found = 0;
            0
        }
        Err(refusal) => refusal.into(),
    }
}
