// Lists of cycles, played by value: the registers stay registers from one cycle to the next.
#![tactic(auto)]

pub mod packed;
pub mod run;
