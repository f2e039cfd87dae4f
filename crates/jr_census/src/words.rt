//! How many words of array space are used, and what for.
ghost use Rattle.std.specs.Prelude.{◌≡◌};
ghost use Rattle.jr_model.specs.declared.event.Role.TheVariants.{Collecting};
ghost use Rattle.jr_steps.specs.Knowing.{MayKnow, ShowsUsed};
ghost use Rattle.jr_census.specs.Counts.{HaveWords};
ghost use Rattle.jr_census.specs.Telling.{LoadsTell, HasUsed};

use jr_steps::Steps;

/// How many words of array space are used, and what for.
#[derive(Clone, Copy, Debug, PartialEq, Eq)]
pub struct WordCounts {
    /// How many are used: those of the objects that are present, and lost ones.
    pub used: u32,
    /// Those that no object has: creations reserved them that were refused afterwards.
    pub lost: u32,
    /// Those of the objects that are reached: how many a collection would leave used.
    pub reached: u32,
    /// The others, which a collection would free: lost ones, and those of the objects that nothing reaches.
    pub freed: u32,
}

/// Looks how many words are used, where so many of them are those of the objects that are present, and so many those of such as nothing reaches.
pub(crate) fn count_words<S: Steps>(steps: &mut S, present: u32, unreached: u32) -> WordCounts
    requires role { (S.facts steps.old).stands.role ≡ Collecting }
    requires few { MayKnow S.facts steps.old (HasUsed present unreached) }
    ensures { LoadsTell S.facts (λ j. 1) steps.old steps.new (λ k. HaveWords present unreached result × ShowsUsed result.used k) }
{
    let used = steps.scan_top();
    let reached = present - unreached;
    WordCounts {
        used,
        lost: used - present,
        reached,
        freed: used - reached,
    }
}
