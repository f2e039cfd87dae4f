//! A room and the envs of its native threads behind pointers, for programs in C and Rust.
#![tactic(auto)]

mod array_parts;
mod arrays;
mod attaching;
mod batches;
mod behind;
mod calling;
mod census;
mod clearing;
mod collecting;
mod copies;
mod dumping;
mod frames;
mod freeing;
mod handles;
mod held;
mod in_region;
mod listing;
mod marker_call;
mod parts;
mod presence;
mod references;
mod region_elements;
mod region_parts;
mod regions;
mod reply;
mod rooms;
mod rows;
mod strings;
mod telling;
mod thread_call;
