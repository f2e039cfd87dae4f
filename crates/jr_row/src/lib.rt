//! Global and weak global references in the slots of the row: created, looked up and deleted within a stay, over any steps.
#![tactic(auto)]

mod creating;
mod deleting;
mod looking;

pub use creating::create;
pub use deleting::delete;
pub use looking::{look, object_found};
