//! Where whoever runs a script may hold its threads up, and is told what each command is answered.

use crate::reply::Reply;
use jr_word::Fault;

/// What each thread of a script comes to around each of its commands. It is told the thread's number and the line of the script on which the command stands.
pub trait Hold {
    /// Called before a command begins.
    fn before(&self, thread: u8, line: usize);

    /// Called once a command was answered, with its answer.
    fn after(&self, thread: u8, line: usize, answer: &Result<Reply, Fault>);
}

/// Holds nobody up.
#[derive(Clone, Copy, Debug)]
pub struct NoHold;

impl Hold for NoHold {
    fn before(&self, _thread: u8, _line: usize) {}

    fn after(&self, _thread: u8, _line: usize, _answer: &Result<Reply, Fault>) {}
}
