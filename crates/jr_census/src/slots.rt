//! What slots have: references, cleared ones, and slots that are used no more.
ghost use Rattle.std.specs.Prelude.{◌≡◌};
ghost use Rattle.jr_model.specs.declared.event.Role.TheVariants.{Collecting};
ghost use Rattle.jr_steps.specs.Knowing.{state_of};
ghost use Rattle.jr_census.specs.Counts.{AreSlots};
ghost use Rattle.jr_census.specs.Telling.{LoadsTell};

use jr_steps::Steps;
use jr_word::SlotParts;

/// How many references stand in slots, and how many slots are used no more.
#[derive(Clone, Copy, Debug, PartialEq, Eq)]
pub struct Slots {
    /// Global references.
    pub globals: u32,
    /// Weak global references, cleared ones too.
    pub weaks: u32,
    /// Weak global references that are cleared.
    pub cleared: u32,
    /// Slots whose last serial was given, and in which no reference stands: they are used no more.
    pub retired: u32,
}

impl Slots {
    ghost use Rattle.std.specs.Prelude.{◌≡◌};
    ghost use Rattle.jr_census.specs.Counts.{AreFew, with_slot};

    /// None.
    const NONE: Slots = Slots {
        globals: 0,
        weaks: 0,
        cleared: 0,
        retired: 0,
    };

    /// These and what a slot has.
    fn with(self, slot: SlotParts) -> Self
        requires { AreFew 65535 self }
        ensures { result ≡ with_slot self slot }
    {
        match slot {
            SlotParts::Global { .. } => Slots {
                globals: self.globals + 1,
                ..self
            },
            SlotParts::Weak {
                serial: _,
                object: None,
            } => Slots {
                weaks: self.weaks + 1,
                cleared: self.cleared + 1,
                ..self
            },
            SlotParts::Weak {
                serial: _,
                object: Some(_),
            } => Slots {
                weaks: self.weaks + 1,
                ..self
            },
            SlotParts::Retired { .. } => Slots {
                retired: self.retired + 1,
                ..self
            },
            SlotParts::Free { .. } => self,
        }
    }
}

/// Counts what the slots have.
pub(crate) fn count_slots<S: Steps>(steps: &mut S) -> Slots
    requires role { (S.facts steps.old).stands.role ≡ Collecting }
    ensures { LoadsTell S.facts (λ j. j.config.slots) steps.old steps.new (λ k. AreSlots k.config.slots k.last (state_of k) result) }
{
    let slots = steps.config().slots;
    let mut counted = Slots::NONE;
    for index in 0..slots {
        let slot = steps.scan_slot(index as u16);
        counted = counted.with(slot);
    }
    counted
}
