//! What a dump tells of the machine.
ghost use Rattle.std.specs.Prelude.{ℕ};
ghost use Rattle.jr_word.specs.declared.config.Config.{Config};
ghost use Rattle.jr_alive.specs.Laws.{DumpTellsWhatIsReached};

/// A dump of the state of a legal history tells by its notes what the machine says is reached there: an object has a path from a root exactly where a collection would keep it.
pub fn dumps_tell_what_is_reached()
    ensures { (c : Config) (last : ℕ) → DumpTellsWhatIsReached c last }
{}
