//! Copies of the elements of arrays and strings: made in a stay over any steps, changed apart from the room, and written back or given up by mode.
#![tactic(auto)]

mod copying;
mod elements;
mod texts;

pub use copying::{put_back, read_all};
pub use elements::{Elements, discard_left, elements_of};
pub use texts::{text_of, utf16_of};
