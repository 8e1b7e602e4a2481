// What the C faces of both chips share: how an answer of the crates below is told in C. The number of its refusal is answered, 0 for
// none; a value goes into the parameters that are lent for it, and a refusal leaves them as they were. Each
// `tell_..` puts another value, so what they share is the answer's two arms: a closure that puts would say them no shorter.
#![tactic(auto)]

pub mod added;
pub mod bytes;
pub mod chip;
pub mod pictures;
pub mod value;
