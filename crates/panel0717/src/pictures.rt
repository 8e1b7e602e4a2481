// Two pictures of the KS0717, or one: the first difference, and the streams that show what is wanted.
ghost use Rattle.face.specs.Pictures.{FirstOut, LengthOut, UpdateOut, GroupOut, RedrawOut};

use face::pictures::tell_found;
use face::value::tell_value;
use paper::sheet::Ks0717;
use planner::first::first_difference;
use planner::group::page_group;
use planner::length::update_length;
use planner::redraw::redraw;
use planner::update::update;

// The first differing byte: `found` 1 with its page and column, or `found` 0 where the pictures are the same; then page and
// column stay. Refuses with 1.
#[unsafe(no_mangle)]
pub extern "C" fn panel0717_first_difference(
    recorded: &[u8],
    wanted: &[u8],
    found: &mut u8,
    page: &mut usize,
    column: &mut usize,
) -> u8
    ensures { FirstOut 100 recorded.now wanted.now (found.old, page.old, column.old)
        (found.new, page.new, column.new) result }
{
    tell_found(
        first_difference::<Ks0717>(recorded, wanted),
        found,
        page,
        column,
    )
}

// How many bytes the update has. Refuses with 1.
#[unsafe(no_mangle)]
pub extern "C" fn panel0717_update_length(recorded: &[u8], wanted: &[u8], count: &mut usize) -> u8
    ensures { LengthOut 100 recorded.now wanted.now count.old count.new result }
{
    tell_value(update_length::<Ks0717>(recorded, wanted), count)
}

// The update's bytes and kinds, and how many. Refuses with 1, 5.
#[unsafe(no_mangle)]
pub extern "C" fn panel0717_update(
    recorded: &[u8],
    wanted: &[u8],
    out: &mut [u8],
    kinds: &mut [u8],
    count: &mut usize,
) -> u8
    ensures { UpdateOut 100 recorded.now wanted.now out.old kinds.old count.old
        out.new kinds.new count.new result }
{
    tell_value(update::<Ks0717>(recorded, wanted, out, kinds), count)
}

// One page's group of the update: its bytes and kinds, and how many. Refuses with 1, 6, 5.
#[unsafe(no_mangle)]
pub extern "C" fn panel0717_page_group(
    recorded: &[u8],
    wanted: &[u8],
    page: usize,
    out: &mut [u8],
    kinds: &mut [u8],
    count: &mut usize,
) -> u8
    ensures { GroupOut 100 recorded.now wanted.now page out.old kinds.old count.old
        out.new kinds.new count.new result }
{
    tell_value(
        page_group::<Ks0717>(recorded, wanted, page, out, kinds),
        count,
    )
}

// The redraw's bytes and kinds, and how many. Refuses with 1, 6, 5.
#[unsafe(no_mangle)]
pub extern "C" fn panel0717_redraw(
    wanted: &[u8],
    contrast: u8,
    out: &mut [u8],
    kinds: &mut [u8],
    count: &mut usize,
) -> u8
    ensures { RedrawOut 100 wanted.now contrast out.old kinds.old count.old
        out.new kinds.new count.new result }
{
    tell_value(redraw::<Ks0717>(wanted, contrast, out, kinds), count)
}
