//! The gate: native calls enter it and leave it, and a collection shuts it, announced or not, and opens it again, over any steps.
#![tactic(auto)]

mod announced;
mod inside;
mod shut;

pub use announced::{Announced, announce};
pub use inside::{Inside, enter};
pub use shut::{Shut, shut_gate};
