// What page_group refuses, and in which order: 1, 6, 5. And the KS0717's.
use crate::groups::{recorded, told, wanted};
use crate::say::{say, words};
use paper::sheet::{Ks0713, Ks0717};
use planner::group::page_group;

// A page, into outputs as they are lent.
fn into(rt: &impl Print, page: usize, out: &mut [u8], kinds: &mut [u8]) {
    let before = recorded();
    let after = wanted();
    say(rt, b"page ", page);
    say(rt, b" into ", out.len());
    say(rt, b" and ", kinds.len());
    words(rt, b":");
    told(rt, page_group::<Ks0713>(&before, &after, page, out, kinds));
    words(rt, b"\n");
}

// Page 8 has a group, page 9 none: 6, before 5.
pub(crate) fn pages(rt: &impl Print) {
    let mut out = [0; 135];
    let mut kinds = [0; 135];
    into(rt, 8, &mut out, &mut kinds);
    into(rt, 9, &mut out, &mut kinds);
    let mut short = [0; 3];
    into(rt, 9, &mut short, &mut kinds);
}

// The group of page 8 has 4 bytes: either output of 3 is too short, both of 4 are enough.
pub(crate) fn room(rt: &impl Print) {
    let mut three = [0; 3];
    let mut four = [0; 4];
    let mut kinds = [0; 4];
    into(rt, 8, &mut three, &mut kinds);
    into(rt, 8, &mut four, &mut three);
    into(rt, 8, &mut four, &mut kinds);
}

fn sized(rt: &impl Print, name: &[u8], before: &[u8], after: &[u8]) {
    let mut out = [0; 135];
    let mut kinds = [0; 135];
    words(rt, name);
    told(
        rt,
        page_group::<Ks0713>(before, after, 9, &mut out, &mut kinds),
    );
    words(rt, b"\n");
}

// Either picture of another size: 1, before 6.
pub(crate) fn sizes(rt: &impl Print) {
    let picture = recorded();
    let short = [0; 1187];
    let long = [0; 1189];
    sized(rt, b"a recorded picture of 1,187:", &short, &picture);
    sized(rt, b"a wanted picture of 1,189:", &picture, &long);
}

// Every column of a page: 103 bytes; and the other chip's pictures are refused.
pub(crate) fn second_chip(rt: &impl Print) {
    let before = [0; 900];
    let after = [255; 900];
    let mut out = [0; 103];
    let mut kinds = [0; 103];
    words(rt, b"the KS0717, page 4, every column differs:");
    told(
        rt,
        page_group::<Ks0717>(&before, &after, 4, &mut out, &mut kinds),
    );
    words(rt, b"\n");
    let other = recorded();
    words(rt, b"the KS0717 with a picture of 1,188:");
    told(
        rt,
        page_group::<Ks0717>(&before, &other, 4, &mut out, &mut kinds),
    );
    words(rt, b"\n");
}
