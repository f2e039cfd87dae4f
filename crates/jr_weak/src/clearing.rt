//! Clearing the weak references to objects that are not marked.
ghost use Rattle.std.specs.Prelude.{◌≡◌, ◌<◌, map};
ghost use Rattle.jr_model.specs.declared.event.Role.TheVariants.{Collecting};
ghost use Rattle.jr_steps.specs.Knowing.{MayKnow};
ghost use Rattle.jr_weak.specs.Listing.{native_handle, over_front};
ghost use Rattle.jr_weak.specs.Marks.{weak_in};
ghost use Rattle.jr_weak.specs.Marking.{IsMarkedNow};
ghost use Rattle.jr_weak.specs.Markers.{marks_of};
ghost use Rattle.jr_weak.specs.Sweeping.{SweepsSlot, ClearsUnreached};

use crate::listing::write_at;
use crate::marker::Marker;
use jr_steps::Steps;
use jr_word::{Handle, HandleParts, RefKind, SlotParts};

/// The serial and the object of a slot's weak reference, if one stands and is not cleared.
fn weak_of(parts: SlotParts) -> Option<(u32, u16)>
    ensures { result ≡ weak_in parts }
{
    match parts {
        SlotParts::Weak {
            serial,
            object: Some(object),
        } => Some((serial, object)),
        _ => None,
    }
}

impl Marker {
    /// Clears the weak reference of a slot if its object is not marked, and tells its handle where it did.
    fn clear_slot<S: Steps>(&self, steps: &mut S, index: u16) -> Option<Handle>
        requires role { (S.facts steps.old).stands.role ≡ Collecting }
        requires row { index < (S.facts steps.old).stands.config.slots }
        requires marked { MayKnow S.facts steps.old (IsMarkedNow (marks_of self.now)) }
        ensures { SweepsSlot S.facts (marks_of self.now) index steps.old steps.new result }
    {
        let parts = steps.scan_slot(index);
        let (serial, object) = weak_of(parts)?;
        if self.is_marked(object) {
            return None;
        }
        steps.wipe(index, serial, object);
        Some(Handle::pack(HandleParts {
            kind: RefKind::Weak,
            serial,
            index,
            owner: 0,
        }))
    }

    /// Clears each weak reference that is not cleared to an object that is not marked, once, and tells how many. The marks have to be those of `mark`.
    /// It lists the handles of what it clears at the front of the buffer, in their order, as many as there is room for. An empty buffer will do.
    ///
    /// # Operations
    ///
    /// A look at each slot, and an exchange for each reference that it clears: at the most two for each slot.
    pub fn clear_weak<S: Steps>(&self, steps: &mut S, handles: &mut [Handle]) -> u32
        requires role { (S.facts steps.old).stands.role ≡ Collecting }
        requires marked { MayKnow S.facts steps.old (IsMarkedNow (marks_of self.now)) }
        ensures { (z : ClearsUnreached S.facts (marks_of self.now) steps.old steps.new result) × (handles.new ≡ over_front handles.old (map native_handle z.cleared)) }
    {
        let slots = steps.config().slots;
        let mut cleared = 0;
        for index in 0..slots {
            if let Some(handle) = self.clear_slot(steps, index as u16) {
                write_at(handles, cleared, handle);
                cleared += 1;
            }
        }
        cleared
    }
}
