//! Dropping the objects that are not marked.
ghost use Rattle.std.specs.Prelude.{◌≡◌, ◌≤◌};
ghost use Rattle.jr_model.specs.declared.event.Role.TheVariants.{Collecting};
ghost use Rattle.jr_steps.specs.Knowing.{MayKnow};
ghost use Rattle.jr_weak.specs.Listing.{over_front};
ghost use Rattle.jr_weak.specs.Markers.{marks_of};
ghost use Rattle.jr_weak.specs.Sweeping.{AreCleared, MayDrop, SweepsNumber, DropsUnreached};

use crate::listing::write_at;
use crate::marker::Marker;
use jr_steps::Steps;

impl Marker {
    /// Drops an object if it is present and not marked, and tells its number where it did.
    fn drop_number<S: Steps>(&self, steps: &mut S, object: u16) -> Option<u16>
        requires role { (S.facts steps.old).stands.role ≡ Collecting }
        requires number { (1 ≤ object) × (object ≤ (S.facts steps.old).stands.config.objects) }
        requires can { MayKnow S.facts steps.old (MayDrop (marks_of self.now)) }
        ensures { SweepsNumber S.facts (marks_of self.now) object steps.old steps.new result }
    {
        if self.is_marked(object) {
            return None;
        }
        let _header = steps.scan_header(object)?;
        steps.drop_header(object);
        Some(object)
    }

    /// Drops each present object that is not marked, once, and tells how many. No weak reference may name one of them, as after `clear_weak`.
    /// It lists the numbers of what it drops at the front of the buffer, in their order, as many as there is room for. An empty buffer will do.
    ///
    /// # Operations
    ///
    /// A look at the header of each object number that is not marked, and a store for each object that it drops: at the most two for each number.
    pub fn drop_unreached<S: Steps>(&self, steps: &mut S, numbers: &mut [u16]) -> u32
        requires role { (S.facts steps.old).stands.role ≡ Collecting }
        requires cleared { MayKnow S.facts steps.old (AreCleared (marks_of self.now)) }
        ensures { (z : DropsUnreached S.facts (marks_of self.now) steps.old steps.new result) × (numbers.new ≡ over_front numbers.old z.dropped) }
    {
        let objects = steps.config().objects;
        let mut dropped = 0;
        for index in 0..objects {
            if let Some(number) = self.drop_number(steps, (index + 1) as u16) {
                write_at(numbers, dropped, number);
                dropped += 1;
            }
        }
        dropped
    }
}
