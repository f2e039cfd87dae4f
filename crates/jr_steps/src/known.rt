//! What passes know. Contracts and the rule of the row speak of it; no value of it is made.
use jr_model::Event;
use jr_word::{Config, HeaderParts};
use std::collections::LinkedList;

/// Words of array space that are a pass's own, from a place on, until it publishes them.
pub struct OwnRange {
    /// The place of its first word.
    pub place: u32,
    /// What its words are.
    pub words: LinkedList<u64>,
}

/// A header that a pass knows, or knows no more.
pub struct KnownHeader {
    /// The number of the object.
    pub object: u16,
    /// Its header, none where it is known no more.
    pub header: Option<HeaderParts>,
}

/// A move that is not finished: so many elements of the object, from the first on, stand from the new place on.
pub struct Move {
    /// The number of the object.
    pub object: u16,
    /// Its new place.
    pub place: u32,
    /// How many of its elements stand there.
    pub done: u32,
}

/// What a pass holds in its stay or its collection, beside what it has seen: the newest first, so that it hides an older one of its place or object; and the move that it has not finished.
pub struct Holdings {
    /// The ranges that are its own.
    pub ranges: LinkedList<OwnRange>,
    /// The headers that it knows, or knows no more.
    pub headers: LinkedList<KnownHeader>,
    /// The move that it has not finished.
    pub moving: Option<Move>,
}

/// What one pass knows: its room and thread, the history that it has seen, in which all its own events stand, what it holds, and how many steps it has taken, each one operation on one word.
pub struct Known {
    /// The sizes of its room.
    pub config: Config,
    /// The last serial of a slot or a local place.
    pub last: u32,
    /// The number of its thread.
    pub thread: u8,
    /// The history that it has seen.
    pub seen: LinkedList<Event>,
    /// What it holds.
    pub holdings: Holdings,
    /// How many steps it has taken.
    pub taken: u64,
}
