//! The buffers of a collector: marks of objects, and the objects that were found.
ghost use Rattle.std.specs.Prelude.{◌≡◌, ◌≤◌, vec_len};
ghost use Rattle.jr_weak.specs.Marks.{IsQueue};

use jr_compact::PlacedObject;
use jr_word::{Config, Fault};
use std::alloc::{AllocError, Global};

/// Room for a mark of each object of a room, and for the objects that were found, in their order. All of it is taken when it is made, and it serves for any number of collections.
#[derive(Drop)]
pub struct Marker {
    pub(crate) marked: Vec<bool>,
    pub(crate) found: Vec<u16>,
    pub(crate) noted: Vec<PlacedObject>,
    pub(crate) count: usize,
    ghost queue: { IsQueue marked.items found.items count },
    ghost same_room: { vec_len noted ≡ vec_len found },
    ghost few: { vec_len found ≤ 65535 },
}

impl Marker {
    ghost use Rattle.std.specs.Prelude.{◌≡◌, ◌↔◌, ◌⊎◌, ◌≤◌, ◌<◌, IsTrue, ℕ, false, nat_eq, Some, Err, IfOk, IfErr, Contains, vec_len};
    ghost use Rattle.std.specs.List.{IsDistinct};
    ghost use Rattle.jr_word.specs.declared.fault.Fault.TheVariants.{Memory, Size};
    ghost use Rattle.jr_word.specs.Config.{in_limits};
    ghost use Rattle.jr_weak.specs.Marks.{IsMarked, IsBefore, with_mark};
    ghost use Rattle.jr_weak.specs.Markers.{room_of, marks_of};

    /// A marker for a room of these sizes, in which nothing is marked. It takes all the memory that a collection needs.
    ///
    /// # Errors
    ///
    /// E17 exactly where the sizes are beyond their limits, so that there is no such room; E16 where the memory was refused.
    pub fn new(alloc: Global, config: Config) -> Result<Self, Fault>
        ensures size { (result ≡ Err Size) ↔ (in_limits config ≡ false) }
        ensures memory { IfErr result (λ e. (e ≡ Size) ⊎ (e ≡ Memory)) }
        ensures room { IfOk result (λ m. room_of m ≡ config.objects) }
        ensures none { IfOk result (λ m. (o : ℕ) → ¬ (IsMarked (marks_of m) o)) }
    {
        if !config.in_limits() {
            return Err(Fault::Size);
        }
        Marker::unmarked(alloc, config.objects).map_err(|_| Fault::Memory)
    }

    /// A marker in which nothing is marked.
    fn unmarked(alloc: Global, objects: u32) -> Result<Marker, AllocError>
        requires { objects ≤ 65535 }
        ensures room { IfOk result (λ m. room_of m ≡ objects) }
        ensures none { IfOk result (λ m. (o : ℕ) → ¬ (IsMarked (marks_of m) o)) }
    {
        let room = objects as usize;
        let marked = vec![in alloc; false; room + 1]?;
        // (not zeros, as the noted ones aren't either: so the memory is written here, and not by the first collection)
        let found = vec![in alloc; u16::MAX; room]?;
        let noted = vec![in alloc; PlacedObject::UNUSED; room]?;
        Ok(Marker {
            marked,
            found,
            noted,
            count: 0,
        })
    }

    /// Whether it was made for a room of so many objects.
    pub fn fits(&self, objects: u32) -> bool
        ensures { IsTrue result ↔ room_of self.now ≡ objects }
    {
        self.found.len() == objects as usize
    }

    /// Whether an object is marked.
    pub fn is_marked(&self, object: u16) -> bool
        ensures { IsTrue result ↔ IsMarked (marks_of self.now) object }
    {
        let at = usize::from(object);
        at < self.marked.len() && self.marked[at]
    }

    /// The objects that are marked, each once.
    pub fn found(&self) -> &[u16]
        ensures each { (o : ℕ) → Contains result.now o ↔ IsMarked (marks_of self.now) o }
        ensures once { IsDistinct nat_eq result.now }
    {
        &self.found[..self.count]
    }

    /// Takes all marks away.
    pub(crate) fn forget(&mut self)
        ensures none { (o : ℕ) → ¬ (IsMarked (marks_of self.new) o) }
        ensures room { room_of self.new ≡ room_of self.old }
    {
        self.marked.fill(false);
        self.count = 0;
    }

    /// Marks an object, once.
    pub(crate) fn reach(&mut self, object: u16)
        requires number { (1 ≤ object) × (object ≤ vec_len self.old.found) }
        ensures marked { self.new.marked.items ≡ with_mark self.old.marked.items (Some object) }
        ensures room { vec_len self.new.found ≡ vec_len self.old.found }
        ensures before { IsBefore self.old.count self.old.found.items self.new.count self.new.found.items }
    {
        let at = usize::from(object);
        if !self.marked[at] {
            self.marked[at] = true;
            self.found[self.count] = object;
            self.count += 1;
        }
    }

    /// Marks an object, if one is given.
    pub(crate) fn reach_if(&mut self, object: Option<u16>)
        requires number { (o : ℕ) → object ≡ Some o → (1 ≤ o) × (o ≤ vec_len self.old.found) }
        ensures marked { self.new.marked.items ≡ with_mark self.old.marked.items object }
        ensures room { vec_len self.new.found ≡ vec_len self.old.found }
        ensures before { IsBefore self.old.count self.old.found.items self.new.count self.new.found.items }
    {
        if let Some(object) = object {
            self.reach(object);
        }
    }
}
