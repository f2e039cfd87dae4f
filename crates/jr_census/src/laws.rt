//! What a census foretells.
ghost use Rattle.std.specs.Prelude.{ℕ};
ghost use Rattle.jr_word.specs.declared.config.Config.{Config};
ghost use Rattle.jr_census.specs.Laws.{CollectionIsForetold};

/// A census foretells a collection that leaves nothing out, where its shut finds the tables that the census told of.
/// It drops just the objects that were told as unreached, of each kind so many and with so many words. It leaves as many words used as were told as reached, and frees as many as were told as freed.
pub fn censuses_foretell_collections()
    ensures { (c : Config) (last : ℕ) → CollectionIsForetold c last }
{}
