//! What a thread of a script keeps from one command to the next.

use crate::names::Names;
use jr_syntax::Name;
use std::alloc::Global;

/// What a thread keeps from one command to the next, but for the region in which it may stand.
#[derive(Drop)]
pub(crate) struct Ledger {
    /// Where the memory of what it makes comes from.
    pub(crate) alloc: Global,
    /// What its names stand for.
    pub(crate) names: Names,
    /// The words that it posted and heard, each with its name.
    pub(crate) words: Vec<(Name, u64)>,
}

impl Ledger {
    ghost use Rattle.std.specs.Prelude.{◌≡◌, []};
    ghost use Rattle.jr_scripts.specs.Names.{no_names};

    /// That of a thread before its first command; takes no memory.
    pub(crate) fn new(alloc: Global) -> Ledger
        ensures names { result.names ≡ no_names }
        ensures words { result.words.items ≡ [] }
    {
        Ledger {
            alloc,
            names: Names::new(alloc),
            words: Vec::new(alloc),
        }
    }
}
