//! Runs scripts of JNI calls: the calls of one thread over atomic steps, and what the threads of a script print.
#![tactic(auto)]

mod advance;
mod all;
mod ask;
mod binding;
mod board;
mod buffer;
mod commands;
mod copied_units;
mod gathering;
mod hold;
mod laws;
mod ledger;
mod names;
mod nobody;
mod number;
mod opening;
mod outcome;
mod part;
mod perform;
mod printed;
mod region;
mod reply;
mod room_board;
mod run;
mod runnable;
mod sighting;
mod sightings;
mod single;
mod starting;
mod task;
mod to_end;
mod words;

pub use all::run_all;
pub use board::{Board, Posts};
pub use hold::{Hold, NoHold};
pub use jr_syntax::{Reason, Script, ScriptFault, parse, print};
pub use laws::{a_script_that_was_read_can_be_run, runs_mean};
pub use reply::Reply;
pub use run::run_thread;
pub use sightings::Sightings;
pub use single::run_one;
pub use task::Task;
pub use to_end::run_to_end;
