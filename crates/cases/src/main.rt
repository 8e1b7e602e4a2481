// Document 01's cases that are run, the orders', and one case for each instruction: the output is compared with `stdout`.
#![tactic(auto)]

mod buffers;
mod chip;
mod glass_cases;
mod ks0717;
mod ks0759;
mod print;
mod recording;
mod stream_cases;

use paper::sheet::{Ks0713, Ks0717};

fn main(rt: HostRuntime) {
    chip::instructions(&rt);
    chip::cycles(&rt);
    chip::resets(&rt);
    glass_cases::frames(&rt);
    glass_cases::powers(&rt);
    glass_cases::voltages::<Ks0713>(&rt);
    stream_cases::lengths(&rt);
    stream_cases::redraws(&rt);
    ks0717::heading(&rt);
    ks0717::cycles(&rt);
    ks0717::instructions(&rt);
    ks0717::frames(&rt);
    ks0717::powers(&rt);
    glass_cases::voltages::<Ks0717>(&rt);
    ks0717::lengths(&rt);
    ks0717::redraws(&rt);
    recording::texts(&rt);
    recording::long_texts(&rt);
    recording::writings(&rt);
    recording::jobs(&rt);
    recording::picture_counts(&rt);
    recording::long_jobs(&rt);
    ks0759::heading(&rt);
    ks0759::bytes(&rt);
    ks0759::cycles(&rt);
    ks0759::switches(&rt);
    ks0759::glass(&rt);
    ks0759::writings(&rt);
    recording::new_jobs(&rt);
}
