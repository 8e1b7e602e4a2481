// A picture that differs on pages 0, 3 and 8: its groups in three orders, each played from power-up. A line for each order: the
// pages, the bytes of each group, whether the memory is then the update's byte for byte, and where the chip stands.
use crate::play::{play, same, stands};
use crate::say::{say, say_refused, words};
use paper::refusal::Refusal;
use paper::sheet::Ks0713;
use planner::group::page_group;
use planner::length::update_length;
use planner::update::update;
use registers::Registers;
use registers::start::power_up;

pub(crate) fn recorded() -> [u8; 1188] {
    [0; 1188]
}

// Page 0 differs at columns 10 and 12, page 3 at column 0, page 8 at column 131; page 5 does not.
pub(crate) fn wanted() -> [u8; 1188] {
    let mut picture = recorded();
    picture[10] = 1;
    picture[12] = 2;
    picture[396] = 255;
    picture[1187] = 255;
    picture
}

// A memory that shows the recorded picture: on page 8 other bits than bit 0 may stand in it.
fn memory() -> [u8; 1188] {
    let mut memory = recorded();
    memory[1186] = 254;
    memory[1187] = 254;
    memory
}

pub(crate) fn told(rt: &impl Print, answer: Result<usize, Refusal>) {
    match answer {
        Ok(n) => say(rt, b" ", n),
        Err(refusal) => say_refused(rt, refusal.into()),
    }
}

// One page's group: its length is printed, and its cycles are played.
fn send(rt: &impl Print, registers: Registers, memory: &mut [u8], page: usize) -> Registers {
    let before = recorded();
    let after = wanted();
    let mut out = [0; 135];
    let mut kinds = [0; 135];
    match page_group::<Ks0713>(&before, &after, page, &mut out, &mut kinds) {
        Ok(n) => {
            say(rt, b" ", n);
            play(rt, registers, memory, &out[..n], &kinds[..n])
        }
        Err(refusal) => {
            say_refused(rt, refusal.into());
            registers
        }
    }
}

// The memory after the whole update.
fn updated(rt: &impl Print, memory: &mut [u8]) {
    let before = recorded();
    let after = wanted();
    let mut out = [0; 1215];
    let mut kinds = [0; 1215];
    match update::<Ks0713>(&before, &after, &mut out, &mut kinds) {
        Ok(n) => {
            play(rt, power_up::<Ks0713>(), memory, &out[..n], &kinds[..n]);
        }
        Err(refusal) => say_refused(rt, refusal.into()),
    }
}

fn heading(rt: &impl Print, pages: &[usize]) {
    words(rt, b"pages");
    for page in pages {
        say(rt, b" ", *page);
    }
    words(rt, b": bytes");
}

// The groups of some pages, one after the other, from power-up.
fn send_all(rt: &impl Print, memory: &mut [u8], pages: &[usize]) -> Registers {
    let mut registers = power_up::<Ks0713>();
    for page in pages {
        registers = send(rt, registers, memory, *page);
    }
    registers
}

fn in_order(rt: &impl Print, pages: &[usize]) {
    let mut groups = memory();
    let mut whole = memory();
    heading(rt, pages);
    let registers = send_all(rt, &mut groups, pages);
    updated(rt, &mut whole);
    same(rt, &groups, &whole);
    stands(rt, registers);
    words(rt, b"\n");
}

pub(crate) fn three_orders(rt: &impl Print) {
    let before = recorded();
    let after = wanted();
    words(rt, b"the update has");
    told(rt, update_length::<Ks0713>(&before, &after));
    words(rt, b" bytes\n");
    in_order(rt, &[0, 3, 8]);
    in_order(rt, &[8, 3, 0]);
    in_order(rt, &[3, 8, 0]);
}

// Fewer groups than the update has, and a page that does not differ: the memory is another, and the chip stands elsewhere.
pub(crate) fn too_few(rt: &impl Print) {
    in_order(rt, &[8, 5, 3]);
}

// No page differs: there is no group, and no output is needed.
pub(crate) fn equal_pictures(rt: &impl Print) {
    let picture = recorded();
    let mut none: [u8; 0] = [];
    let mut kinds: [u8; 0] = [];
    words(rt, b"equal pictures, outputs of 0:");
    told(
        rt,
        page_group::<Ks0713>(&picture, &picture, 3, &mut none, &mut kinds),
    );
    words(rt, b" bytes\n");
}
