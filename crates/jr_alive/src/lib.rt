//! Why an object is alive, by a dump: what leads to it from a root, and what would go with it.
#![tactic(auto)]

mod drawing;
mod dump;
mod groups;
mod laws;
mod paths;
mod retaining;
mod search;

pub use drawing::NotDrawn;
pub use dump::Dump;
pub use groups::Group;
pub use laws::dumps_tell_what_is_reached;
pub use paths::{Edge, Path};
pub use search::Root;
