//! The critical region of a thread of a script: its levels, each with a name.

ghost use Rattle.std.specs.Prelude.{◌≡◌, ◌∷◌, []};
ghost use Rattle.jr_scripts.specs.Places.{level_wanted, newest};

use arrayvec::ArrayVec;
use jr_critical::Levels;
use jr_model::LEVELS;
use jr_syntax::Name;
use jr_word::Fault;

/// The levels of a critical region, and their names, the first first.
pub struct NamedLevels {
    pub(crate) levels: Levels,
    pub(crate) names: ArrayVec<Name, LEVELS>,
}

/// A region of one level.
pub(crate) fn first(levels: Levels, name: &Name) -> NamedLevels
    ensures levels { result.levels ≡ levels }
    ensures names { result.names.items ≡ name.now ∷ [] }
{
    let mut names = ArrayVec::new();
    names.push(name.copy());
    NamedLevels { levels, names }
}

/// The number of the newest level of a name, none where no level has it.
fn newest_level(names: &ArrayVec<Name, LEVELS>, name: &Name) -> Option<usize>
    ensures { result ≡ newest names.now.items name.now }
{
    let mut found = None;
    for (i, level) in names.iter().enumerate() {
        if level == name {
            found = Some(i);
        }
    }
    found
}

impl NamedLevels {
    /// The number of the level that a name means, the newest one of that name.
    ///
    /// # Errors
    ///
    /// E2 where no level has the name.
    pub(crate) fn level(&self, name: &Name) -> Result<usize, Fault>
        ensures { result ≡ level_wanted (newest self.now.names.items name.now) }
    {
        newest_level(&self.names, name).ok_or(Fault::Stale)
    }
}
