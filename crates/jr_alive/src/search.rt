//! A search through a dump, the nearest objects first.
ghost use Rattle.std.specs.Prelude.{◌≡◌, IfOk};
ghost use Rattle.jr_alive.specs.Searching.{IsSearched};

use crate::dump::{Dump, has_references, object_of};
use jr_word::{Handle, HandleParts, LocalParts, RefKind, SlotParts};
use std::alloc::{AllocError, Global};

/// A reference that keeps its object alive by itself.
#[derive(Clone, Copy, Debug, PartialEq, Eq)]
pub enum Root {
    /// The global reference of a slot, with its serial.
    Global { slot: u16, serial: u32 },
    /// The local reference of a thread's place.
    Local { thread: usize, place: usize },
}

impl Root {
    ghost use Rattle.std.specs.Prelude.{◌≡◌};
    ghost use Rattle.jr_alive.specs.Handles.{root_handle};

    /// The handle of a global reference. None of a local one, whose serial is its thread's own: no dump has it.
    pub fn handle(self) -> Option<Handle>
        ensures { result ≡ root_handle self }
    {
        match self {
            Root::Global { slot, serial } => Some(Handle::pack(HandleParts {
                kind: RefKind::Global,
                serial,
                index: slot,
                owner: 0,
            })),
            Root::Local { .. } => None,
        }
    }
}

/// What names an object on its path from a root.
#[derive(Clone, Copy, Debug, PartialEq, Eq)]
pub(crate) enum Origin {
    /// A root.
    Root(Root),
    /// The element of an object array.
    Element { array: u16, index: u32 },
}

/// What is found of an object: what names it on a path from a root with so many edges.
#[derive(Clone, Copy, Debug, PartialEq, Eq)]
pub(crate) struct Entry {
    pub(crate) origin: Origin,
    pub(crate) depth: usize,
}

/// What is found of each object, by its number, and the objects in the order in which they were found.
#[derive(Drop)]
pub(crate) struct Search {
    pub(crate) entries: Vec<Option<Entry>>,
    queue: Vec<u16>,
}

impl Search {
    ghost use Rattle.std.specs.Prelude.{◌≡◌, ◌≤◌, ◌<◌, ◌+◌, OnOk, IfOk, ℕ, is_some};
    ghost use Rattle.jr_alive.specs.Graph.{IsRoot, IsInDump, IsEdge};
    ghost use Rattle.jr_alive.specs.declared.search.Root.{Root};
    ghost use Rattle.jr_alive.specs.declared.search.Root.TheVariants as root;
    ghost use Rattle.jr_alive.specs.Searching.{AreWithin, ComesFrom, Grows, HasArrayElements, HasRoots, IsSearched, IsEntered, IsSearching, depth_of, entry_at};

    /// A search in which nothing is found.
    fn new(alloc: Global, dump: &Dump) -> Result<Self, AllocError>
        ensures stands { IfOk result (λ s. (x : ℕ) → IsSearching dump.now x s.entries.items s.queue.items) }
        ensures roots { IfOk result (λ s. AreWithin 0 s.entries.items) }
    {
        let entries = vec![in alloc; None; dump.headers.len() + 1]?;
        let queue = Vec::with_capacity(alloc, dump.headers.len())?;
        Ok(Search { entries, queue })
    }

    /// What is found of an object.
    pub(crate) fn entry(&self, object: u16) -> Option<Entry>
        ensures { result ≡ entry_at self.now.entries.items object }
    {
        let at = usize::from(object);
        if at < self.entries.len() {
            self.entries[at]
        } else {
            None
        }
    }

    /// Notes what names an object, if the dump has it and it isn't found yet.
    fn reach(
        &mut self,
        dump: &Dump,
        without: u16,
        object: u16,
        entry: Entry,
    ) -> Result<(), AllocError>
        requires stands { IsSearching dump.now without self.old.entries.items self.old.queue.items }
        requires farthest { AreWithin entry.depth self.old.entries.items }
        requires named { IsInDump dump.now without object → ComesFrom dump.now without self.old.entries.items object entry.depth entry.origin }
        ensures stands { OnOk result (IsSearching dump.now without self.new.entries.items self.new.queue.items) }
        ensures farthest { OnOk result (AreWithin entry.depth self.new.entries.items) }
        ensures grows { OnOk result (Grows self.old.entries.items self.old.queue.items self.new.entries.items self.new.queue.items) }
        ensures found { OnOk result (IsInDump dump.now without object → IsEntered self.new.entries.items object) }
    {
        if dump.header(object, without).is_none() || self.entry(object).is_some() {
            return Ok(());
        }
        self.queue.push(object)?;
        self.entries[usize::from(object)] = Some(entry);
        Ok(())
    }

    /// Reaches the objects of global references.
    fn reach_globals(&mut self, dump: &Dump, without: u16) -> Result<(), AllocError>
        requires stands { IsSearching dump.now without self.old.entries.items self.old.queue.items }
        requires nearest { AreWithin 0 self.old.entries.items }
        ensures stands { OnOk result (IsSearching dump.now without self.new.entries.items self.new.queue.items) }
        ensures nearest { OnOk result (AreWithin 0 self.new.entries.items) }
        ensures found { OnOk result ((i n o : ℕ) → IsRoot dump.now (root.Global i n) o → IsInDump dump.now without o → IsEntered self.new.entries.items o) }
    {
        for (index, parts) in dump.slots.iter().enumerate() {
            if let SlotParts::Global { serial, object } = *parts {
                let slot = index as u16;
                let origin = Origin::Root(Root::Global { slot, serial });
                self.reach(dump, without, object, Entry { origin, depth: 0 })?;
            }
        }
        Ok(())
    }

    /// Reaches the objects of local references.
    fn reach_locals(&mut self, dump: &Dump, without: u16) -> Result<(), AllocError>
        requires stands { IsSearching dump.now without self.old.entries.items self.old.queue.items }
        requires nearest { AreWithin 0 self.old.entries.items }
        ensures stands { OnOk result (IsSearching dump.now without self.new.entries.items self.new.queue.items) }
        ensures nearest { OnOk result (AreWithin 0 self.new.entries.items) }
        ensures grows { OnOk result (Grows self.old.entries.items self.old.queue.items self.new.entries.items self.new.queue.items) }
        ensures found { OnOk result ((t p o : ℕ) → IsRoot dump.now (root.Local t p) o → IsInDump dump.now without o → IsEntered self.new.entries.items o) }
    {
        let places = dump.places as usize;
        for (index, parts) in dump.locals.iter().enumerate() {
            if let LocalParts::Object(object) = *parts {
                let (thread, place) = (index / places, index % places);
                let origin = Origin::Root(Root::Local { thread, place });
                self.reach(dump, without, object, Entry { origin, depth: 0 })?;
            }
        }
        Ok(())
    }

    /// Reaches the objects that an array names, which is found at this depth.
    fn reach_elements(
        &mut self,
        dump: &Dump,
        without: u16,
        array: u16,
        depth: usize,
    ) -> Result<(), AllocError>
        requires stands { IsSearching dump.now without self.old.entries.items self.old.queue.items }
        requires array { IsEntered self.old.entries.items array }
        requires depth { depth ≡ depth_of self.old.entries.items array }
        requires few { depth + 1 < 18446744073709551616 }
        requires farthest { AreWithin (depth + 1) self.old.entries.items }
        ensures stands { OnOk result (IsSearching dump.now without self.new.entries.items self.new.queue.items) }
        ensures farthest { OnOk result (AreWithin (depth + 1) self.new.entries.items) }
        ensures grows { OnOk result (Grows self.old.entries.items self.old.queue.items self.new.entries.items self.new.queue.items) }
        ensures found { OnOk result ((i o : ℕ) → IsEdge dump.now without array i o → IsEntered self.new.entries.items o) }
    {
        let Some(header) = dump.header(array, without) else {
            return Ok(());
        };
        if !has_references(header.kind) {
            return Ok(());
        }
        for index in 0..header.length {
            if let Some(object) = object_of(dump.word(header, index)) {
                let origin = Origin::Element { array, index };
                self.reach(
                    dump,
                    without,
                    object,
                    Entry {
                        origin,
                        depth: depth + 1,
                    },
                )?;
            }
        }
        Ok(())
    }

    /// Reaches what the arrays name that are found, and so on.
    fn follow(&mut self, dump: &Dump, without: u16) -> Result<(), AllocError>
        requires stands { IsSearching dump.now without self.old.entries.items self.old.queue.items }
        requires nearest { AreWithin 0 self.old.entries.items }
        requires roots { HasRoots dump.now without self.old.entries.items }
        ensures done { OnOk result (IsSearched dump.now without self.new.entries.items) }
    {
        for next in 0..self.entries.len() {
            if next >= self.queue.len() {
                return Ok(());
            }
            let array = self.queue[next];
            let depth = self.depth(array);
            self.reach_elements(dump, without, array, depth)?;
        }
        Ok(())
    }

    /// Whether an object is found.
    pub(crate) fn has(&self, object: u16) -> bool
        ensures { result ≡ is_some (entry_at self.now.entries.items object) }
    {
        self.entry(object).is_some()
    }

    /// How many edges an object is from its root, 0 where it isn't found.
    fn depth(&self, object: u16) -> usize
        ensures { result ≡ depth_of self.now.entries.items object }
    {
        match self.entry(object) {
            None => 0,
            Some(entry) => entry.depth,
        }
    }
}

/// Searches a dump from its roots, once an object is taken out, 0 for none. It takes memory for each object, and looks at each reference once.
pub(crate) fn reach_all(alloc: Global, dump: &Dump, without: u16) -> Result<Search, AllocError>
    ensures { IfOk result (λ s. IsSearched dump.now without s.entries.items) }
{
    let mut reached = Search::new(alloc, dump)?;
    reached.reach_globals(dump, without)?;
    reached.reach_locals(dump, without)?;
    reached.follow(dump, without)?;
    Ok(reached)
}
