//! An env's collections, over plain words and over a room that several threads share.

pub(crate) mod announced;
pub(crate) mod chains;
mod markers;
pub(crate) mod rows;
mod threads;
