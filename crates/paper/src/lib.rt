// The ground floor: refusals and their numbers, the kinds of cycles, and what differs from chip to chip. Whatever knows the chip looks
// down on it.
#![tactic(auto)]

pub mod kind;
pub mod refusal;
pub mod sheet;
