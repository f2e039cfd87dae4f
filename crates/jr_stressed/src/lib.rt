//! Calls under stress: by a plan their caller collects before each n-th, and by its seed refuses some that may be refused.
#![tactic(auto)]

pub mod laws;
mod plan;
mod stressable;
mod stressed;
mod stressed_env;
mod turns;

pub use plan::Stress;
pub use stressable::Stressable;
pub use stressed::Stressed;
pub use turns::Turns;
