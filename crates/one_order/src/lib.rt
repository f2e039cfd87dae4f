//! One order of what several threads do, from what each of them tells.
#![tactic(auto)]

mod laws;

pub use laws::there_is_one_order;
