// Putting bus cycles into the two outputs: a cycle's byte into the one, its kind into the other.
ghost use Rattle.std.specs.Prelude.{◌-◌, ◌≤◌, ◌<◌, [], ◌∷◌, map};
ghost use Rattle.controller.specs.Chip.{page_cycle, data_cycle};
ghost use Rattle.streams.specs.Stretch.{column_bytes};
ghost use Rattle.streams.specs.Update.{wanted_bytes};
ghost use Rattle.planner.specs.Output.{Room, Wrote, two_cycles};

use crate::picture::Picture;

// The instruction bytes of a stream; the page byte and the column bytes carry a value besides.
const PAGE: u8 = 0xb0;

const COLUMN_HIGH: u8 = 0x10;

const COLUMN_LOW: u8 = 0x00;

pub(crate) const NOP: u8 = 0xe3;

pub(crate) const INDICATOR_OFF: u8 = 0xac;

pub(crate) const CONTRAST_NEXT: u8 = 0x81;

// The kinds of a stream's cycles.
pub(crate) const INSTRUCTION: u8 = 0;

pub(crate) const DATA: u8 = 1;

// One cycle, at index `at` of both outputs. Answers the index after it.
pub(crate) fn put(out: &mut [u8], kinds: &mut [u8], at: usize, kind: u8, byte: u8) -> usize
    requires { Room ((kind, byte) ∷ []) out.old kinds.old at }
    ensures { Wrote ((kind, byte) ∷ []) out.old kinds.old at out.new kinds.new result }
{
    out[at] = byte;
    kinds[at] = kind;
    at + 1
}

// Two instructions, from index `at` on. Each output is written by itself, so that the compiler can
// join its bytes.
pub(crate) fn put_two(out: &mut [u8], kinds: &mut [u8], at: usize, first: u8, second: u8) -> usize
    requires { Room (two_cycles first second) out.old kinds.old at }
    ensures { Wrote (two_cycles first second) out.old kinds.old at out.new kinds.new result }
{
    out[at] = first;
    out[at + 1] = second;
    kinds[at] = INSTRUCTION;
    kinds[at + 1] = INSTRUCTION;
    at + 2
}

// The two column bytes: 10 + high part, then 00 + low part.
pub(crate) fn put_column(out: &mut [u8], kinds: &mut [u8], at: usize, column: usize) -> usize
    requires { (column < 256) × Room (column_bytes column) out.old kinds.old at }
    ensures { Wrote (column_bytes column) out.old kinds.old at out.new kinds.new result }
{
    let high = COLUMN_HIGH + (column / 16) as u8;
    let low = COLUMN_LOW + (column % 16) as u8;
    put_two(out, kinds, at, high, low)
}

// The page byte, then the two column bytes.
pub(crate) fn put_address(
    out: &mut [u8],
    kinds: &mut [u8],
    at: usize,
    page: usize,
    column: usize,
) -> usize
    requires { (page < 9) × (column < 256) × Room (page_cycle page ∷ column_bytes column) out.old kinds.old at }
    ensures { Wrote (page_cycle page ∷ column_bytes column) out.old kinds.old at out.new kinds.new result }
{
    let next = put(out, kinds, at, INSTRUCTION, PAGE + page as u8);
    put_column(out, kinds, next, column)
}

impl<'a> Picture<'a> {
    // Its bytes on a page, from column `from` up to and without column `to`.
    pub(crate) fn put_wanted(
        self,
        page: usize,
        from: usize,
        to: usize,
        out: &mut [u8],
        kinds: &mut [u8],
        at: usize,
    ) -> usize
        requires { (page < 9) × (to ≤ self.width)
            × Room (map data_cycle (wanted_bytes self.width self.bytes.now page from (to - from))) out.old kinds.old at }
        ensures { Wrote (map data_cycle (wanted_bytes self.entry.width self.entry.bytes.now page from (to - from)))
            out.old kinds.old at out.new kinds.new result }
    {
        let mut next = at;
        for column in from..to {
            let byte = self.shown_at(page, column);
            next = put(out, kinds, next, DATA, byte);
        }
        next
    }
}
