//! The heap: objects, their headers and elements, and array space, over any steps.
#![tactic(auto)]

mod element;
mod kinds;
mod laws;
mod object;
mod part;
mod range;
mod space;

pub use element::{read, read_element, write, write_element};
pub use kinds::{is_array, is_objects, is_plain, is_text};
pub use laws::{headers_hold, headers_stay_known, objects_are_lists};
pub use object::{Numbers, header, publish};
pub use part::{read_part, write_part};
pub use range::Range;
pub use space::{fill, fill_from, reserve};
