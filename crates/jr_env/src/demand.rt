//! What a call asks of the room, and may be refused for want of.

/// What a call asks of the room, and may be refused for want of.
#[derive(Clone, Copy, Debug, PartialEq, Eq)]
pub enum Demand {
    /// Nothing.
    Nothing,
    /// A slot, for a global or a weak reference: E8 says that there is none.
    Slot,
    /// The number of an object, and so many words: E11 says that there is no number, E10 that there are too few words, and E12 that another thread took some meanwhile.
    Object(u64),
}
