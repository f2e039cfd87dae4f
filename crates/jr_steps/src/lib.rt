//! The contract of the steps: what one thread may do to the words of a room, one atomic operation at a time, and what it knows of them.
#![tactic(auto)]

mod known;
mod loads;
mod steps;

pub use jr_model::Role;
pub use known::{Holdings, Known, KnownHeader, Move, OwnRange};
pub use loads::{GateLoad, SlotLoad, TopLoad};
pub use steps::Steps;
