//! Scripts.

use crate::sequence::Sequence;
use crate::thread::ThreadPart;
use jr_word::Config;

/// What is run in a room.
#[derive(Debug, Drop)]
pub struct Script {
    /// The sizes of the room.
    pub config: Config,
    /// The parts of the threads, in their order.
    pub threads: Sequence<ThreadPart>,
}
