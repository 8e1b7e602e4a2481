// Display memory, over a chip's width: one byte stored, one byte loaded, and the column after it.
ghost use Rattle.std.specs.Prelude.{◌≡◌, ◌*◌, length};
ghost use Rattle.controller.specs.Memory.{cell_of, is_cell, stored, loaded, advanced};

use paper::sheet::Chip;
use registers::Column;

// A byte as a page holds it: on page 8 only bit 0 exists. `planner` has the like for its pages, private too.
#[tactic(auto, using(paper::proofs::Tests::tests), unfolding(crate::specs::Memory::cell_of))]
fn cell(page: u8, value: u8) -> u8
    ensures { result ≡ cell_of page value }
{
    if page == 8 { value % 2 } else { value }
}

// Whether there is a cell at a page and column.
#[tactic(auto, unfolding(crate::specs::Memory::is_cell))]
fn is_cell<C: Chip>(page: u8, column: Column) -> bool
    ensures { result ≡ is_cell C.sheet.width page column.0 }
{
    (page < 9) & ((column.0 as usize) < C::sheet().width)
}

// A data write: stored where there is such a cell, otherwise nothing is stored.
#[tactic(auto, using(crate::proofs::Cells::cell_inside), unfolding(crate::specs::Memory::stored))]
pub(crate) fn store<C: Chip>(memory: &mut [u8], page: u8, column: Column, value: u8)
    requires { length memory.old ≡ 9 * C.sheet.width }
    ensures { memory.new ≡ stored C.sheet.width memory.old page column.0 value }
{
    if is_cell::<C>(page, column) {
        let at = C::sheet().width * (page as usize) + column.0 as usize;
        memory[at] = cell(page, value);
    }
}

// A data read's load: 0 where there is no such cell.
#[tactic(auto, using(crate::proofs::Cells::cell_inside), unfolding(crate::specs::Memory::loaded))]
pub(crate) fn load<C: Chip>(memory: &[u8], page: u8, column: Column) -> u8
    requires { length memory.now ≡ 9 * C.sheet.width }
    ensures { result ≡ loaded C.sheet.width memory.now page column.0 }
{
    if is_cell::<C>(page, column) {
        let at = C::sheet().width * (page as usize) + column.0 as usize;
        return cell(page, memory[at]);
    }
    0
}

// The column after a data cycle: from the width up it stays.
#[tactic(auto, using(paper::proofs::Tests::tests), unfolding(crate::specs::Memory::advanced))]
pub(crate) fn advance<C: Chip>(column: Column) -> Column
    ensures { result.0 ≡ advanced C.sheet.width column.0 }
{
    if C::sheet().width <= column.0 as usize {
        return column;
    }
    Column(column.0 + 1)
}
