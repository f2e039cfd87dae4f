//! The machine's steps at references.

use crate::machine::{Machine, Verdict, add, must};
use crate::seen::Did;
use crate::step::Step;
use jr_model::Found;
use jr_steps::SlotLoad;
use jr_word::{HandleParts, RefKind, SlotParts};

impl Machine {
    /// A step of a thread that is within, at a slot.
    pub(crate) fn refer(&mut self, thread: u8, step: Step) -> Verdict {
        match step {
            Step::SeeSlot(index, name, parts) => {
                self.is_slot(index, parts)?;
                self.look(thread, index, name)
            }
            Step::Claim(handle, object, Ok(())) => self.create(thread, handle, object),
            Step::Claim(handle, _, Err(parts)) => {
                self.is_slot(handle.index, parts)?;
                must(
                    self.next_serial(handle.index) != Some(handle.serial),
                    "a free slot was not given",
                )
            }
            Step::Free(handle, won) => self.delete(thread, handle, won),
            _ => Err("no step at a slot"),
        }
    }

    /// A slot says what stands there, and which serial is next.
    pub(crate) fn is_slot(&self, index: u16, parts: SlotParts) -> Verdict {
        let right = match parts {
            SlotParts::Free { serial } => self.next_serial(index) == Some(serial),
            SlotParts::Retired { .. } => {
                self.next_serial(index).is_none() && self.standing(index).is_none()
            }
            SlotParts::Global { serial, object } => {
                self.is_standing(RefKind::Global, serial, index, Found::Object(object))
            }
            SlotParts::Weak { serial, object } => {
                let found = match object {
                    Some(object) => Found::Object(object),
                    None => Found::Cleared,
                };
                self.is_standing(RefKind::Weak, serial, index, found)
            }
        };
        must(right, "a slot said what was not so")
    }

    /// Whether this reference stands in a slot, and for this.
    fn is_standing(&self, kind: RefKind, serial: u32, index: u16, found: Found) -> bool {
        let handle = handle_of(kind, serial, index);
        match self.standing(index) {
            Some(it) => it == handle && self.find(handle) == found,
            None => false,
        }
    }

    /// What a look at a handle finds, its call has seen.
    fn look(&mut self, thread: u8, index: u16, name: SlotLoad) -> Verdict {
        if let SlotLoad::Look(handle) = name {
            must(handle.index == index, "a look at a handle in another slot")?;
            let mut seen = self.seen(thread);
            seen.kind = Some(handle.kind);
            seen.found = Some(self.find(handle));
            self.set_seen(thread, seen);
        }
        Ok(())
    }

    /// A reference is made, whose handle was never given.
    fn create(&mut self, thread: u8, handle: HandleParts, object: u16) -> Verdict {
        must(
            self.next_serial(handle.index) == Some(handle.serial),
            "a slot was given that was not free, or a serial again",
        )?;
        must(
            self.header(object).is_some(),
            "a reference to an absent object was made",
        )?;
        self.did(thread, Did::Made(handle));
        add(&mut self.made, handle)?;
        add(&mut self.found, Found::Object(object))
    }

    /// A reference is deleted where it still stands.
    fn delete(&mut self, thread: u8, handle: HandleParts, won: bool) -> Verdict {
        let stands = self.find(handle) != Found::Stale;
        must(stands || !won, "a reference was deleted that did not stand")?;
        must(!stands || won, "a reference that stood was not deleted")?;
        self.did(thread, Did::Deleted(won));
        self.set(handle, Found::Stale);
        Ok(())
    }
}

/// The handle of a slot's reference.
pub(crate) fn handle_of(kind: RefKind, serial: u32, index: u16) -> HandleParts {
    HandleParts {
        kind,
        serial,
        index,
        owner: 0,
    }
}
