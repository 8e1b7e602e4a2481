// The controller seen from its bus: display memory and one cycle.
#![tactic(auto)]

mod added;
pub mod cycle;
mod execute;
mod memory;
pub mod turn;
