//! The roots of what is reached: the objects of global references, and of local ones of all threads.
ghost use Rattle.std.specs.Prelude.{◌≡◌, ◌<◌, ◌*◌, vec_len};
ghost use Rattle.jr_model.specs.declared.event.Role.TheVariants.{Collecting};
ghost use Rattle.jr_weak.specs.Marks.{global_in, local_in, HasGlobals, HasLocalsOf, HasLocals};
ghost use Rattle.jr_weak.specs.Marking.{MarksAll};

use crate::marker::Marker;
use jr_steps::Steps;
use jr_word::{LocalParts, SlotParts};

/// The object of a slot's global reference.
fn global_of(parts: SlotParts) -> Option<u16>
    ensures { result ≡ global_in parts }
{
    match parts {
        SlotParts::Global { serial: _, object } => Some(object),
        _ => None,
    }
}

/// The object of a local word.
fn local_of(parts: LocalParts) -> Option<u16>
    ensures { result ≡ local_in parts }
{
    match parts {
        LocalParts::Free => None,
        LocalParts::Object(object) => Some(object),
    }
}

impl Marker {
    /// Marks the object of each global reference.
    pub(crate) fn mark_globals<S: Steps>(&mut self, steps: &mut S)
        requires role { (S.facts steps.old).stands.role ≡ Collecting }
        requires room { vec_len self.old.found ≡ (S.facts steps.old).stands.config.objects }
        ensures room { vec_len self.new.found ≡ vec_len self.old.found }
        ensures marks { MarksAll S.facts (λ j. j.config.slots) self.old.marked.items self.new.marked.items steps.old steps.new HasGlobals }
    {
        let slots = steps.config().slots;
        for index in 0..slots {
            let parts = steps.scan_slot(index as u16);
            self.reach_if(global_of(parts));
        }
    }

    /// Marks the object of each local reference of a thread.
    pub(crate) fn mark_locals_of<S: Steps>(&mut self, steps: &mut S, thread: u8)
        requires role { (S.facts steps.old).stands.role ≡ Collecting }
        requires room { vec_len self.old.found ≡ (S.facts steps.old).stands.config.objects }
        requires thread { thread < (S.facts steps.old).stands.config.threads }
        ensures room { vec_len self.new.found ≡ vec_len self.old.found }
        ensures marks { MarksAll S.facts (λ j. j.config.locals) self.old.marked.items self.new.marked.items steps.old steps.new (HasLocalsOf thread) }
    {
        let places = steps.config().locals;
        for place in 0..places {
            let parts = steps.scan_local(thread, place as u16);
            self.reach_if(local_of(parts));
        }
    }

    /// Marks the object of each local reference of all threads.
    pub(crate) fn mark_locals<S: Steps>(&mut self, steps: &mut S)
        requires role { (S.facts steps.old).stands.role ≡ Collecting }
        requires room { vec_len self.old.found ≡ (S.facts steps.old).stands.config.objects }
        ensures room { vec_len self.new.found ≡ vec_len self.old.found }
        ensures marks { MarksAll S.facts (λ j. j.config.threads * j.config.locals) self.old.marked.items self.new.marked.items steps.old steps.new HasLocals }
    {
        let threads = steps.config().threads;
        for thread in 0..threads {
            self.mark_locals_of(steps, thread as u8);
        }
    }
}
