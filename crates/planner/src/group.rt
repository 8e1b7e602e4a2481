// One page of the update by itself: its group, which begins with its page byte.
ghost use Rattle.std.specs.Prelude.{◌≡◌, ◌≤◌, ◌<◌};
ghost use Rattle.streams.specs.Length.{page_length};
ghost use Rattle.planner.specs.Output.{shorter};
ghost use Rattle.planner.specs.Group.{IsGroup};

use crate::picture::Pair;
use paper::refusal::Refusal;
use paper::sheet::Chip;

impl<'a> Pair<'a> {
    ghost use Rattle.planner.specs.Pair.{apart};

    // Whether an output of a length is shorter than the page's group. The group's length is counted
    // only where one is shorter than the longest group, a whole page with its address.
    fn group_short(self, page: usize, out: usize, kinds: usize) -> bool
        requires { page < 9 }
        ensures { result ≡ shorter out kinds (page_length (apart self.entry page) self.entry.wanted.width) }
    {
        let most = self.wanted.width + 3;
        if (out < most) | (kinds < most) {
            let need = self.page_length(page);
            return (out < need) | (kinds < need);
        }
        false
    }
}

// Sends one page's part of the update to `out`, its kinds to `kinds`, and answers how many bytes:
// none where the page does not differ. Refuses with 1 where a picture is not nine pages of the chip, then with
// 6 where the page is above 8, then with 5 where an output is shorter than the group; a refusal
// leaves both outputs as they were.
pub fn page_group<C: Chip>(
    recorded: &[u8],
    wanted: &[u8],
    page: usize,
    out: &mut [u8],
    kinds: &mut [u8],
) -> Result<usize, Refusal>
    ensures { IsGroup C.sheet.width recorded.now wanted.now page out.old kinds.old result out.new kinds.new }
{
    let pair = Pair::of::<C>(recorded, wanted)?;
    if 8 < page {
        return Err(Refusal::OutsideField);
    }
    if pair.group_short(page, out.len(), kinds.len()) {
        return Err(Refusal::ShortOutput);
    }
    Ok(pair.update_differing(page, out, kinds, 0))
}
