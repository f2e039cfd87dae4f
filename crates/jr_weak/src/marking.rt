//! Marking as a whole.
ghost use Rattle.std.specs.Prelude.{◌≡◌};
ghost use Rattle.jr_model.specs.declared.event.Role.TheVariants.{Collecting};
ghost use Rattle.jr_steps.specs.Knowing.{MayKnow, CanReopen};
ghost use Rattle.jr_compact.specs.Counting.{SawWithin};
ghost use Rattle.jr_weak.specs.Counting.{marking_steps};
ghost use Rattle.jr_weak.specs.Marking.{IsMarkedNow};
ghost use Rattle.jr_weak.specs.Markers.{room_of, marks_of};

use crate::marker::Marker;
use jr_steps::Steps;

impl Marker {
    /// Marks all objects that are reached during a collection, and no others: those of global references and of all threads' local ones, and with each object array what it names.
    /// Marks of earlier collections are taken away first. It has no event.
    ///
    /// # Operations
    ///
    /// A look at each slot, at each local place of every thread and at the header of each object that is marked, and a load for each element of an object array among these:
    /// at the most one for each slot, local place, object and word of the room.
    pub fn mark<S: Steps>(&mut self, steps: &mut S)
        requires role { (S.facts steps.old).stands.role ≡ Collecting }
        requires room { room_of self.old ≡ (S.facts steps.old).stands.config.objects }
        requires can { MayKnow S.facts steps.old CanReopen }
        ensures room { room_of self.new ≡ room_of self.old }
        ensures marks { SawWithin S.facts (λ j. marking_steps j.config) steps.old steps.new CanReopen (λ j k. IsMarkedNow (marks_of self.new) k) }
    {
        self.forget();
        self.mark_globals(steps);
        self.mark_locals(steps);
        self.follow(steps);
    }
}
