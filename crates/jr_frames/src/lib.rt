//! The local references of one thread, in frames: the table, where each call is a constant amount of work, but for the making of a table, its counts, and the question whether a pop frees a place;
//! and over any steps the references that native code hands in.
#![tactic(auto)]

mod counting;
mod explaining;
mod finding;
mod frame_walk;
mod frames;
mod free;
mod held;
mod laws;
mod local;
mod place;
mod pop;
mod reference;
mod resolving;

pub use counting::LocalCounts;
pub use explaining::{Explanation, explain};
pub use finding::find;
pub use frames::Frames;
pub use free::free_all;
pub use held::Held;
pub use laws::{
    a_word_is_one_thing, taking_the_oldest_is_a_pop, taking_the_oldest_of_each_frame_frees_all,
};
pub use local::{delete_local, new_local};
pub use pop::pop_frame;
pub use reference::{Reference, lies_outside, names_kind};
pub use resolving::{resolve, resolve_both, type_of};
