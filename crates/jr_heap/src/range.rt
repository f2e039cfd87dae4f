//! Words of array space.
ghost use Rattle.std.specs.Prelude.{◌≡◌, ◌+◌, ◌≤◌};
ghost use Rattle.jr_word.specs.declared.config.TheConstants.Config.{MOST_WORDS};

/// Words of array space that a pass reserved in its stay and did not publish. It may be dropped: its words stay reserved then.
#[derive(Debug, PartialEq, Eq, Drop)]
pub struct Range {
    pub(crate) place: u32,
    pub(crate) length: u32,
    ghost fits: { place + length ≤ MOST_WORDS },
    ghost empty: { length ≡ 0 → place ≡ 0 },
}
