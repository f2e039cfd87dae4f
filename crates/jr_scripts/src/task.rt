//! What a thread of a script is given to run.

use jr_syntax::Command;

/// The commands of a thread, and how they are run.
#[derive(Clone, Copy)]
pub struct Task<'a> {
    /// The line of the script on which the first command stands.
    pub first: usize,
    /// How often a call that is raced or barred is made, in all.
    pub turns: u64,
    /// The commands, in their order.
    pub commands: &'a [Command],
}
