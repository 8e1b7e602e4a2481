// The KS0717's C face: the calls of the crates below, over lent bytes. Each answers the number of its refusal, 0 for none; what it gives
// goes through the parameters that it is lent, and a refusal leaves them as they were. No call has memory of its own.
// Each call is `panel`'s for the other chip: C needs a name for each, so they are no generic function.
#![tactic(auto)]

pub mod added;
pub mod bytes;
pub mod chip;
pub mod pictures;
