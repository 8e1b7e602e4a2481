// The registers in 32 bytes, as C holds them: packed, unpacked, and which bytes stand for no registers. Nothing here is exported.
#![tactic(auto)]

pub mod packed;
pub mod unfit;
