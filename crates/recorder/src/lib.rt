// Recording: job files written from cycles and pictures, and the text form of cycles, written and read.
// Cycles are bytes, two a cycle, kind and value; a last odd byte is no cycle.
#![tactic(auto)]

pub mod c;
mod cycles;
pub mod job;
mod line;
mod put;
pub mod text;
