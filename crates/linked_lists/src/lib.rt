//! Lists of numbers, linked both ways in one array, where each change is a constant amount of work.
#![tactic(auto)]

mod linked_lists;
mod links;

pub use linked_lists::LinkedLists;
