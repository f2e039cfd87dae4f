//! The threads of a room: native code that each runs over an env of its own, from the room's opening to its close.
#![tactic(auto)]

mod closing;
mod listing;
mod native;
mod queue;
mod running;

pub use listing::collect_and_dump;
pub use native::NativeCode;
pub use queue::{HandedOn, NoMessage, NoteQueue, QueueEnd};
pub use running::{Ran, run_native, run_native_listing};
