//! What goes from thread to thread, and what comes of it.
use jr_rule::Summary;
use jr_word::Handle;

/// A message of the first thread to the second.
#[derive(Clone, Copy, Drop)]
pub(crate) enum Handed {
    /// Its global reference, with a note of all that it had seen once it had made it.
    Reference(Handle),
    /// That the other is to go on.
    Turn,
}

/// What a thread found.
#[derive(Clone, Copy, Drop)]
pub(crate) enum Found {
    /// What the first found.
    Shared {
        /// How many threads were inside as a collection was refused.
        inside: u32,
        /// Whether its weak reference is to null after the next one.
        cleared: bool,
        /// The type of its global reference, once it is deleted.
        kind: u8,
    },
    /// What the second found.
    Visited {
        /// The second element of the first one's array.
        read: i32,
    },
}

/// What both found, and what stood as the room was closed.
#[derive(Clone, Copy, Drop)]
pub(crate) struct Report {
    /// What the second thread read in the first one's array.
    pub(crate) read: i32,
    /// How many threads were inside as a collection of the first was refused.
    pub(crate) inside: u32,
    /// Whether its weak reference is to null after the next one.
    pub(crate) cleared: bool,
    /// The type of its global reference, which it deleted.
    pub(crate) kind: u8,
    /// What stood in the room as it was closed.
    pub(crate) left: Summary,
}
