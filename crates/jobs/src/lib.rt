// Job files: their header, and the whole text that playing one gives.
#![tactic(auto)]

pub mod header;
pub mod memory;
pub mod play;
pub mod text;
