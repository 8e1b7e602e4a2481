// The glass: which dots are lit, the power state, and V0.
#![tactic(auto)]

pub mod bit;
mod dot;
pub mod frame;
pub mod power;
pub mod voltage;
