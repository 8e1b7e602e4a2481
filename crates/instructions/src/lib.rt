// The instruction bytes: the class of a byte, what it is read as, and what an instruction is written as; and the same of the command
// set beside them.
#![tactic(auto)]

pub mod added;
pub mod class;
pub mod instruction;
pub mod read;
pub mod write;
