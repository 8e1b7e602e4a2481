// The planner: the longest update, and room for a redraw.
ghost use Rattle.std.specs.Prelude.{◌≤◌, length};

use crate::buffers::{ones, zeros};
use crate::print::{line, number, refused, word};
use paper::refusal::Refusal;
use paper::sheet::{Chip, Ks0713};
use planner::first::{Place, first_difference};
use planner::length::update_length;
use planner::redraw::redraw;
use planner::update::update;

pub(crate) fn answer(rt: &impl Print, bytes: Result<usize, Refusal>) {
    match bytes {
        Ok(n) => {
            word(rt, b" bytes");
            number(rt, n);
        }
        Err(refusal) => refused(rt, refusal),
    }
    line(rt);
}

pub(crate) fn found(rt: &impl Print, place: Result<Option<Place>, Refusal>) {
    match place {
        Ok(Some(place)) => {
            word(rt, b" at");
            number(rt, place.page);
            number(rt, place.column);
        }
        Ok(None) => word(rt, b" nothing"),
        Err(refusal) => refused(rt, refusal),
    }
    line(rt);
}

// The update into one output.
fn one_update<C: Chip>(
    rt: &impl Print,
    recorded: &[u8],
    wanted: &[u8],
    out: &mut [u8],
    kinds: &mut [u8],
) {
    word(rt, b"every cell differs:");
    answer(rt, update_length::<C>(recorded, wanted));
    word(rt, b"an output of");
    number(rt, out.len());
    answer(rt, update::<C>(recorded, wanted, out, kinds));
}

// Every cell differs: an output that is one byte shorter is too short.
pub(crate) fn every_cell<C: Chip>(
    rt: &impl Print,
    recorded: &[u8],
    wanted: &[u8],
    out: &mut [u8],
    kinds: &mut [u8],
)
    requires { 1 ≤ length out.old }
{
    let short = out.len() - 1;
    one_update::<C>(rt, recorded, wanted, &mut out[..short], kinds);
    one_update::<C>(rt, recorded, wanted, out, kinds);
}

fn differences(rt: &impl Print, recorded: &[u8], wanted: &[u8]) {
    word(rt, b"first difference:");
    found(rt, first_difference::<Ks0713>(recorded, wanted));
    word(rt, b"first difference of equal pictures:");
    found(rt, first_difference::<Ks0713>(recorded, recorded));
    word(rt, b"a picture of 1,214 bytes:");
    let misfit = zeros::<1214>();
    found(rt, first_difference::<Ks0713>(recorded, &misfit));
}

// 1,215 bytes.
pub(crate) fn lengths(rt: &impl Print) {
    let recorded = zeros::<1188>();
    let wanted = ones::<1188>();
    let mut out = zeros::<1215>();
    let mut kinds = zeros::<1215>();
    every_cell::<Ks0713>(rt, &recorded, &wanted, &mut out, &mut kinds);
    differences(rt, &recorded, &wanted);
}

fn one_redraw<C: Chip>(
    rt: &impl Print,
    wanted: &[u8],
    contrast: u8,
    out: &mut [u8],
    kinds: &mut [u8],
) {
    word(rt, b"a redraw into");
    number(rt, out.len());
    answer(rt, redraw::<C>(wanted, contrast, out, kinds));
}

// An output that is one byte shorter is too short for a redraw: 5; it is given: the bytes. A contrast of 64: 6.
pub(crate) fn redraws_into<C: Chip>(
    rt: &impl Print,
    wanted: &[u8],
    out: &mut [u8],
    kinds: &mut [u8],
)
    requires { 1 ≤ length out.old }
{
    let short = out.len() - 1;
    one_redraw::<C>(rt, wanted, 32, &mut out[..short], kinds);
    one_redraw::<C>(rt, wanted, 32, out, kinds);
    one_redraw::<C>(rt, wanted, 64, out, kinds);
}

// 1,219 bytes.
pub(crate) fn redraws(rt: &impl Print) {
    let wanted = ones::<1188>();
    let mut out = zeros::<1219>();
    let mut kinds = zeros::<1219>();
    redraws_into::<Ks0713>(rt, &wanted, &mut out, &mut kinds);
}
