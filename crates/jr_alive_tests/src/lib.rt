//! Tests of what a dump says of why objects are alive, over a dump that is written by hand.
#![tactic(auto)]

#[cfg(test)]
mod alive;
