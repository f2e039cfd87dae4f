//! A dump that owns its notes, and how it is read.
ghost use Rattle.std.specs.Prelude.{◌≡◌, ◌≤◌, ◌↔◌, IsTrue, IfOk, IfSome, Some, vec_len};
ghost use Rattle.jr_word.specs.declared.kind.Kind.TheVariants.{Objects};
ghost use Rattle.jr_alive.specs.Places.{in_place, in_slot};

use jr_word::{Config, Fault, Handle, HeaderParts, Kind, LocalParts, RefKind, SlotParts};
use std::alloc::{AllocError, Global};

/// What stands in a room at one step, as `dump` of an env notes it in these four lists.
#[derive(Drop)]
pub struct Dump {
    /// What each slot has, by its index.
    pub slots: Vec<SlotParts>,
    /// How many local places each thread has, at least 1.
    pub places: u32,
    /// What each local place has: those of a thread behind those of the threads before it.
    pub locals: Vec<LocalParts>,
    /// The header of each object, by its number less 1. Its place is that of the first element among the words.
    pub headers: Vec<Option<HeaderParts>>,
    /// The words of the elements.
    pub words: Vec<u64>,
    ghost some: { 1 ≤ places },
    ghost indexed: { vec_len slots ≤ 65536 },
    ghost few: { vec_len headers ≤ 65535 },
}

/// Room for so many notes.
fn blank<T: Copy>(alloc: Global, note: T, count: u32) -> Result<Vec<T>, AllocError>
    ensures { IfOk result (λ v. vec_len v ≡ count) }
{
    vec![in alloc; note; count as usize]
}

/// Whether the elements of an object of the kind name objects.
pub(crate) fn has_references(kind: Kind) -> bool
    ensures { IsTrue result ↔ kind ≡ Objects }
{
    matches!(kind, Kind::Objects)
}

/// The number of the object that an element's word names, if it can be one.
pub(crate) fn object_of(word: u64) -> Option<u16>
    ensures sound { IfSome result (λ o. o ≡ word) }
    ensures complete { 1 ≤ word → word ≤ 65535 → result ≡ Some word }
{
    match word {
        1..=0xffff => Some(word as u16),
        _ => None,
    }
}

/// The object that a reference of the kind and the serial names, by what its slot has.
fn in_slot(kind: RefKind, serial: u32, slot: SlotParts) -> Option<u16>
    ensures { result ≡ in_slot kind serial slot }
{
    match (kind, slot) {
        (
            RefKind::Global,
            SlotParts::Global {
                serial: given,
                object,
            },
        ) if given == serial => { Some(object) }
        (
            RefKind::Weak,
            SlotParts::Weak {
                serial: given,
                object,
            },
        ) if given == serial => object,
        _ => None,
    }
}

/// The object that a local reference names, by what its place has.
fn in_place(local: LocalParts) -> Option<u16>
    ensures { result ≡ in_place local }
{
    match local {
        LocalParts::Free => None,
        LocalParts::Object(object) => Some(object),
    }
}

impl Dump {
    ghost use Rattle.std.specs.Prelude.{◌≡◌, ◌≤◌, ◌↔◌, ◌⊎◌, ◌<◌, ◌≢◌, true, false, None, Err, IfOk, IfErr};
    ghost use Rattle.jr_word.specs.declared.fault.Fault.TheVariants.{Memory, Size};
    ghost use Rattle.jr_word.specs.Config.{in_limits};
    ghost use Rattle.jr_word.specs.declared.handle.HandleParts.{HandleParts};
    ghost use Rattle.jr_word.specs.Handle.{IsHandle, handle_word};
    ghost use Rattle.jr_alive.specs.Handles.{noted_local, object_named, noted_slot};
    ghost use Rattle.jr_alive.specs.Graph.{HasRoomFor, noted_header, noted_word};

    /// Room for a dump of a room of these sizes.
    ///
    /// # Errors
    ///
    /// E17 exactly where the sizes are beyond their limits, so that there is no such room; E16 where the memory was refused.
    pub fn new(alloc: Global, config: Config) -> Result<Self, Fault>
        ensures size { (result ≡ Err Size) ↔ (in_limits config ≡ false) }
        ensures memory { IfErr result (λ e. (e ≡ Size) ⊎ (e ≡ Memory)) }
        ensures room { IfOk result (λ d. HasRoomFor config d) }
    {
        if !config.in_limits() {
            return Err(Fault::Size);
        }
        Dump::blank(alloc, config).map_err(|_| Fault::Memory)
    }

    /// The same, of sizes within their limits.
    fn blank(alloc: Global, config: Config) -> Result<Self, AllocError>
        requires { in_limits config ≡ true }
        ensures { IfOk result (λ d. HasRoomFor config d) }
    {
        Ok(Dump {
            slots: blank(alloc, SlotParts::Free { serial: 0 }, config.slots)?,
            places: config.locals,
            locals: blank(alloc, LocalParts::Free, config.threads * config.locals)?,
            headers: blank(alloc, None, config.objects)?,
            words: blank(alloc, 0, config.words)?,
        })
    }

    /// The number of the object that a handle named at the dump's step. None where its reference was deleted or cleared, or the word is no handle.
    /// A local handle is looked up by its thread and its place alone: no note has its serial.
    pub fn object_of(&self, handle: Handle) -> Option<u16>
        ensures named { (p : HandleParts) → IsHandle p → handle.0 ≡ handle_word p → result ≡ object_named self.now p }
        ensures none { ((p : HandleParts) → IsHandle p → handle.0 ≢ handle_word p) → result ≡ None }
    {
        let parts = Handle::parts(handle.0)?;
        let index = usize::from(parts.index);
        match parts.kind {
            RefKind::Local => in_place(self.local(usize::from(parts.owner), index)),
            RefKind::Global | RefKind::Weak => in_slot(parts.kind, parts.serial, self.slot(index)),
        }
    }

    /// What a slot has, as a free one beyond the slots.
    fn slot(&self, index: usize) -> SlotParts
        ensures { result ≡ noted_slot self.now index }
    {
        if index < self.slots.len() {
            self.slots[index]
        } else {
            SlotParts::Free { serial: 0 }
        }
    }

    /// What a local place of a thread has, as a free one beyond the places.
    fn local(&self, thread: usize, place: usize) -> LocalParts
        requires { thread < 256 }
        ensures { result ≡ noted_local self.now thread place }
    {
        let places = self.places as usize;
        if place >= places {
            return LocalParts::Free;
        }
        let at = thread * places + place;
        if at < self.locals.len() {
            self.locals[at]
        } else {
            LocalParts::Free
        }
    }

    /// The header of an object, if the dump has it and it isn't the one that is taken out, 0 for none.
    pub(crate) fn header(&self, object: u16, without: u16) -> Option<HeaderParts>
        ensures { result ≡ noted_header self.now without object }
    {
        let index = usize::from(object).wrapping_sub(1);
        if object == 0 || object == without || index >= self.headers.len() {
            return None;
        }
        self.headers[index]
    }

    /// The word of an element, 0 beyond the words.
    pub(crate) fn word(&self, header: HeaderParts, index: u32) -> u64
        ensures { result ≡ noted_word self.now header index }
    {
        let at = header.place as usize + index as usize;
        if at < self.words.len() {
            self.words[at]
        } else {
            0
        }
    }
}
