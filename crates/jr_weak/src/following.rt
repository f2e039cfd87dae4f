//! What is reached through arrays of objects: a work list is followed to its end.
ghost use Rattle.std.specs.Prelude.{◌≡◌, ◌≤◌, ◌+◌, vec_len};
ghost use Rattle.jr_model.specs.declared.event.Role.TheVariants.{Collecting};
ghost use Rattle.jr_model.specs.State.{length_of};
ghost use Rattle.jr_steps.specs.Knowing.{MayKnow, state_of};
ghost use Rattle.jr_weak.specs.Marks.{IsMarked, IsBefore, IsObjectWord, HasElementsOf, HasElements};
ghost use Rattle.jr_weak.specs.Marking.{IsMarking, MarksAll};

use crate::marker::Marker;
use jr_heap::is_objects;
use jr_steps::Steps;

/// The object that an element of an object array names.
fn object_of(word: u64) -> Option<u16>
    ensures { IsObjectWord word result }
{
    match word {
        1..=0xffff => Some(word as u16),
        _ => None,
    }
}

impl Marker {
    /// Marks each object that an array of objects names.
    pub(crate) fn mark_elements<S: Steps>(&mut self, steps: &mut S, object: u16)
        requires role { (S.facts steps.old).stands.role ≡ Collecting }
        requires number { (1 ≤ object) × (object ≤ (S.facts steps.old).stands.config.objects) }
        requires room { vec_len self.old.found ≡ (S.facts steps.old).stands.config.objects }
        requires marked { IsMarked self.old.marked.items object }
        requires marking { MayKnow S.facts steps.old (IsMarking self.old.marked.items) }
        ensures room { vec_len self.new.found ≡ vec_len self.old.found }
        ensures before { IsBefore self.old.count self.old.found.items self.new.count self.new.found.items }
        ensures marks { MarksAll S.facts (λ j. length_of ((state_of j).objects object) + 1) self.old.marked.items self.new.marked.items steps.old steps.new (HasElementsOf object) }
    {
        let Some(header) = steps.scan_header(object) else {
            return;
        };
        if !is_objects(header.kind) {
            return;
        }
        for index in 0..header.length {
            let word = steps.scan_element(object, header, index);
            self.reach_if(object_of(word));
        }
    }

    /// Marks all that the arrays name which are marked, and so on.
    pub(crate) fn follow<S: Steps>(&mut self, steps: &mut S)
        requires role { (S.facts steps.old).stands.role ≡ Collecting }
        requires room { vec_len self.old.found ≡ (S.facts steps.old).stands.config.objects }
        requires marking { MayKnow S.facts steps.old (IsMarking self.old.marked.items) }
        ensures room { vec_len self.new.found ≡ vec_len self.old.found }
        ensures marks { MarksAll S.facts (λ j. j.config.objects + j.config.words) self.old.marked.items self.new.marked.items steps.old steps.new HasElements }
    {
        let objects = self.found.len();
        for next in 0..objects {
            if next >= self.count {
                return;
            }
            let object = self.found[next];
            self.mark_elements(steps, object);
        }
    }
}
