// The planner: the first difference, the update's length, the update, its page groups and the redraw.
#![tactic(auto)]

mod equal;
pub mod first;
pub mod group;
pub mod length;
mod output;
mod picture;
pub mod redraw;
pub mod update;
