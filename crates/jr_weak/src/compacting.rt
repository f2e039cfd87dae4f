//! Moving what is marked together.
ghost use Rattle.std.specs.Prelude.{◌≡◌, ◌+◌, [], ◌∷◌};
ghost use Rattle.jr_model.specs.declared.event.Act.TheVariants.{Settle};
ghost use Rattle.jr_model.specs.declared.event.Role.TheVariants.{Collecting};
ghost use Rattle.jr_steps.specs.Knowing.{MayKnow};
ghost use Rattle.jr_gate.specs.Acting.{ActedTo};
ghost use Rattle.jr_compact.specs.Compacting.{AreCompacted};
ghost use Rattle.jr_compact.specs.Counting.{TakesWithin};
ghost use Rattle.jr_weak.specs.Markers.{room_of, marks_of};
ghost use Rattle.jr_weak.specs.Sweeping.{AreDropped};

use crate::marker::Marker;
use jr_compact::compact;
use jr_steps::Steps;

impl Marker {
    /// Moves all arrays together, once only marked objects are present, as after `drop_unreached`, and sets how many words are used, which it answers. The marks stay. Its one event is the last.
    ///
    /// # Operations
    ///
    /// A look at the header of each marked object, a load and a store for each element that moves, a store for the header of each array that moves, and one at the top:
    /// at the most one for each object for which the marker has room, three for each word that is used then, and the last.
    pub fn compact<S: Steps>(&mut self, steps: &mut S) -> u32
        requires role { (S.facts steps.old).stands.role ≡ Collecting }
        requires dropped { MayKnow S.facts steps.old (AreDropped (marks_of self.old)) }
        ensures room { room_of self.new ≡ room_of self.old }
        ensures marks { marks_of self.new ≡ marks_of self.old }
        ensures acts { ActedTo S.facts steps.old steps.new (Settle result ∷ []) (AreDropped (marks_of self.old)) (λ j k. AreCompacted result j k
            × TakesWithin (room_of self.old + (result + result + result) + 1) j k) }
    {
        compact(steps, &self.found[..self.count], &mut self.noted)
    }
}
