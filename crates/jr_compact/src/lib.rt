//! Arrays that a collector moves down, over any steps.
#![tactic(auto)]

mod compacting;
mod placed;
mod sliding;

pub use compacting::compact;
pub use placed::PlacedObject;
