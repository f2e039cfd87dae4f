//! What a room that closes tells of itself.

/// How many references and objects stand, and how many words are reserved.
#[derive(Clone, Copy, Debug, PartialEq, Eq)]
pub struct Summary {
    /// Global references.
    pub globals: u32,
    /// Weak global references, cleared ones too.
    pub weaks: u32,
    /// Objects that are present.
    pub live: u32,
    /// Words of array space that are reserved.
    pub used: u32,
}
