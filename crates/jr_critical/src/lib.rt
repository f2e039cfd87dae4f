//! The levels of a critical region: arrays and strings that a thread reads and writes in one stay, over any steps.
#![tactic(auto)]

mod level;
mod levels;

pub use levels::Levels;
