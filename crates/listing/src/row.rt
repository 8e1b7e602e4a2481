// Where a row of the table ends.
ghost use Rattle.listing.specs.Row.{Begins, IsRow};

use instructions::class::class_of;

// The last byte of the row that begins at `first`.
pub(crate) fn row_end(first: u8) -> u8
    requires { Begins first }
    ensures { IsRow first result }
{
    let class = class_of(first);
    (first..255)
        .find(|last| class_of(*last + 1) != class)
        .unwrap_or(255)
}
