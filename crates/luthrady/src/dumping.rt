//! A dump: what each slot, each local place and each object number of a room has, in rows of numbers.
ghost use Rattle.std.specs.Prelude.{◌≡◌, ◌*◌, Err, IfErr, IfOk, None, Some, length, vec_len};
ghost use Rattle.jr_weak.specs.Listing.{over_front};
ghost use Rattle.jr_word.specs.declared.fault.Fault.TheVariants.{Memory};
ghost use Rattle.jr_env.specs.Envs.{Does};
ghost use Rattle.luthrady.specs.Doings.{WasDoneBy};
ghost use Rattle.luthrady.specs.Dumped.{DumpReplied, DumpsNotes, DumpsRows, HasNotesFor, dump_by, local_row, object_row, slot_row};
ghost use Rattle.luthrady.specs.Places.{absence};

use crate::behind::{env_of, is_env};
use crate::collecting::some;
use crate::handles::EnvHandle;
use crate::held::{Native, Presence};
use crate::reply::{Reply, nothing_reply};
use crate::rows::{RowOf, write_rows};
use jr_env::Env;
use jr_steps::Steps;
use jr_word::{Config, Fault, HeaderParts, LocalParts, SlotParts};
use std::alloc::Global;

/// What a slot has.
#[repr(C)]
#[derive(Clone, Copy)]
pub struct Slot {
    /// 2 a global reference, 3 a weak one, as a luthrady_ref_type; 0 none, and 1 none any more.
    pub state: u32,
    /// The serial of the reference, or that of the slot's next one. A reference's word is state + 4 * serial + 2^34 * the slot's index.
    pub serial: u32,
    /// The identity of the object that the reference names, 0 where it names none.
    pub object: u32,
}

/// What a number of an object has.
#[repr(C)]
#[derive(Clone, Copy)]
pub struct Object {
    /// The object's kind, a luthrady_kind, 0 where no object has the number.
    pub kind: u32,
    /// How many elements it has.
    pub length: u32,
    /// Where its first element stands among the words.
    pub place: u32,
}

impl RowOf<SlotParts> for Slot {
    ghost form = { slot_row };

    fn row_of(note: SlotParts) -> Self {
        let (state, serial, object) = match note {
            SlotParts::Free { serial } => (0, serial, 0),
            SlotParts::Retired { serial } => (1, serial, 0),
            SlotParts::Global { serial, object } => (2, serial, object),
            SlotParts::Weak {
                serial,
                object: None,
            } => (3, serial, 0),
            SlotParts::Weak {
                serial,
                object: Some(object),
            } => (3, serial, object),
        };
        Slot {
            state,
            serial,
            object: u32::from(object),
        }
    }
}

impl RowOf<LocalParts> for u16 {
    ghost form = { local_row };

    fn row_of(note: LocalParts) -> Self {
        match note {
            LocalParts::Free => 0,
            LocalParts::Object(object) => object,
        }
    }
}

impl RowOf<Option<HeaderParts>> for Object {
    ghost form = { object_row };

    fn row_of(note: Option<HeaderParts>) -> Self {
        match note {
            None => Object {
                kind: 0,
                length: 0,
                place: 0,
            },
            Some(header) => Object {
                kind: header.kind.code() as u32,
                length: header.length,
                place: header.place,
            },
        }
    }
}

/// Notes what each slot, each local place of each thread and each object number of the room has, at one step that shuts the gate for it, and changes nothing.
/// It writes a row for each at the front of four buffers, as many as there is room for. What lies behind stays. The room has as many as its sizes say.
/// A slot's row is that of its index. A local place has the identity of the object that its reference names, 0 where it has none: a thread's places stand behind those of the threads before it.
/// An object's row is that of its identity less one. Its elements' words stand in a row from its place on: that of an array of objects is the identity of the element's object, 0 for NULL.
///
/// # Errors
///
/// E21 where no env stands behind the handle; E19 in a critical region; E16 where memory for the notes was refused; else those of `Env::dump`.
///
/// Nothing has changed then, the rows are as they were, and the thread stands outside. Over one thread it is refused by E16 alone.
#[unsafe(no_mangle)]
pub extern "C" fn luthrady_dump(
    alloc: Global,
    env: &mut EnvHandle,
    slots: &mut [Slot],
    locals: &mut [u16],
    objects: &mut [Object],
    words: &mut [u64],
) -> Reply
    ensures { DumpReplied None env.old env.new result
        (record { slots = slots.old; locals = locals.old; objects = objects.old; words = words.old })
        (record { slots = slots.new; locals = locals.new; objects = objects.new; words = words.new }) }
{
    nothing_reply(dump(alloc, env, None, slots, locals, objects, words))
}

/// Notes what stands in the room as `luthrady_dump` does, but announces it first, and tries so many times to shut the gate, at least once.
///
/// # Errors
///
/// E21 where no env stands behind the handle; E19 in a critical region; E16 where memory for the notes was refused; else those of `Env::dump_announced`.
///
/// Nothing has changed then, the rows are as they were, and the thread stands outside. Over one thread it is refused by E16 alone.
#[unsafe(no_mangle)]
pub extern "C" fn luthrady_dump_announced(
    alloc: Global,
    env: &mut EnvHandle,
    tries: u32,
    slots: &mut [Slot],
    locals: &mut [u16],
    objects: &mut [Object],
    words: &mut [u64],
) -> Reply
    ensures { DumpReplied (Some tries) env.old env.new result
        (record { slots = slots.old; locals = locals.old; objects = objects.old; words = words.old })
        (record { slots = slots.new; locals = locals.new; objects = objects.new; words = words.new }) }
{
    nothing_reply(dump(alloc, env, Some(tries), slots, locals, objects, words))
}

/// Takes a dump by the env behind a pointer.
///
/// # Errors
///
/// E21 where no env stands behind the handle; E19 in a critical region; else those of `dump_by`.
fn dump(
    alloc: Global,
    handle: &mut EnvHandle,
    tries: Option<u32>,
    slots: &mut [Slot],
    locals: &mut [u16],
    objects: &mut [Object],
    words: &mut [u64],
) -> Result<(), Fault>
    ensures call { WasDoneBy (λ a b. DumpsRows tries
        (record { slots = slots.old; locals = locals.old; objects = objects.old; words = words.old })
        (record { slots = slots.new; locals = locals.new; objects = objects.new; words = words.new }) a.env b.env result)
        (result ≡ Err (absence handle.old)) handle.old handle.new }
    ensures kept { IfErr result (λ e. (slots.new ≡ slots.old) × (locals.new ≡ locals.old) × (objects.new ≡ objects.old) × (words.new ≡ words.old)) }
{
    if !is_env(handle) {
        return Err(Fault::NotFresh);
    }
    match &mut env_of(handle).presence {
        Presence::Ready(native) => {
            dump_by(alloc, &mut *native, tries, slots, locals, objects, words)
        }
        Presence::Critical(_) => Err(Fault::InCritical),
        Presence::Detached => Err(Fault::NotFresh),
    }
}

/// Takes a dump by a thread's env.
///
/// # Errors
///
/// Those of `notes_of`.
fn dump_by(
    alloc: Global,
    native: &mut Native,
    tries: Option<u32>,
    slots: &mut [Slot],
    locals: &mut [u16],
    objects: &mut [Object],
    words: &mut [u64],
) -> Result<(), Fault>
    ensures call { DumpsRows tries
        (record { slots = slots.old; locals = locals.old; objects = objects.old; words = words.old })
        (record { slots = slots.new; locals = locals.new; objects = objects.new; words = words.new }) native.old.env native.new.env result }
    ensures kept { IfErr result (λ e. (slots.new ≡ slots.old) × (locals.new ≡ locals.old) × (objects.new ≡ objects.old) × (words.new ≡ words.old)) }
    ensures marker { native.new.marker ≡ native.old.marker }
{
    match notes_of(alloc, &mut native.env, tries) {
        Ok(notes) => {
            write_rows(&notes.slots, slots);
            write_rows(&notes.locals, locals);
            write_rows(&notes.headers, objects);
            write_words(&notes.words, words);
            Ok(())
        }
        Err(fault) => Err(fault),
    }
}

/// Writes as many words as there is room for.
fn write_words(notes: &[u64], words: &mut [u64])
    ensures { words.new ≡ over_front words.old notes.now }
{
    let count = words.len().min(notes.len());
    words[..count].copy_from_slice(&notes[..count]);
}

/// Notes of a dump, in memory of their own.
#[derive(Drop)]
pub struct Notes {
    pub(crate) slots: Vec<SlotParts>,
    pub(crate) locals: Vec<LocalParts>,
    pub(crate) headers: Vec<Option<HeaderParts>>,
    pub(crate) words: Vec<u64>,
}

/// Takes a dump, announced with so many tries if it is.
///
/// # Errors
///
/// E16 where memory was refused; else those of `take`.
fn notes_of<S: Steps>(alloc: Global, env: &mut Env<S>, tries: Option<u32>) -> Result<Notes, Fault>
    ensures { DumpsNotes tries env.old env.new result }
{
    let Ok(room) = room_for(alloc, env.held.steps.config()) else {
        return Err(Fault::Memory);
    };
    let Notes {
        mut slots,
        mut locals,
        mut headers,
        mut words,
    } = room;
    match take(
        env,
        tries,
        &mut slots,
        &mut locals,
        &mut headers,
        &mut words,
    ) {
        Ok(()) => Ok(Notes {
            slots,
            locals,
            headers,
            words,
        }),
        Err(fault) => Err(fault),
    }
}

/// Takes a dump in room for it, announced with so many tries if it is.
///
/// # Errors
///
/// Those of `Env::dump` and `Env::dump_announced`.
fn take<S: Steps>(
    env: &mut Env<S>,
    tries: Option<u32>,
    slots: &mut [SlotParts],
    locals: &mut [LocalParts],
    headers: &mut [Option<HeaderParts>],
    words: &mut [u64],
) -> Result<(), Fault>
    requires slots { length slots.old ≡ (S.facts env.old.held.steps).stands.config.slots }
    requires locals { length locals.old ≡ (S.facts env.old.held.steps).stands.config.threads * (S.facts env.old.held.steps).stands.config.locals }
    requires headers { length headers.old ≡ (S.facts env.old.held.steps).stands.config.objects }
    requires words { length words.old ≡ (S.facts env.old.held.steps).stands.config.words }
    ensures call { Does env.old env.new (dump_by tries slots.new locals.new headers.new words.new) result }
    ensures slots { length slots.new ≡ length slots.old }
    ensures locals { length locals.new ≡ length locals.old }
    ensures headers { length headers.new ≡ length headers.old }
    ensures words { length words.new ≡ length words.old }
{
    match tries {
        None => env.dump(slots, locals, headers, words),
        Some(tries) => env.dump_announced(some(tries), slots, locals, headers, words),
    }
}

/// Room for the notes of a room of these sizes.
///
/// # Errors
///
/// E16 where memory was refused.
fn room_for(alloc: Global, config: Config) -> Result<Notes, Fault>
    ensures memory { IfErr result (λ e. e ≡ Memory) }
    ensures room { IfOk result (λ n. HasNotesFor config n) }
{
    let places = config.threads as usize * config.locals as usize;
    Ok(Notes {
        slots: blank(alloc, SlotParts::Free { serial: 0 }, config.slots as usize)?,
        locals: blank(alloc, LocalParts::Free, places)?,
        headers: blank(alloc, None, config.objects as usize)?,
        words: blank(alloc, 0, config.words as usize)?,
    })
}

/// Room for so many notes.
///
/// # Errors
///
/// E16 where memory was refused.
fn blank<T: Copy>(alloc: Global, note: T, count: usize) -> Result<Vec<T>, Fault>
    ensures memory { IfErr result (λ e. e ≡ Memory) }
    ensures size { IfOk result (λ v. vec_len v ≡ count) }
{
    let Ok(notes) = vec![in alloc; note; count] else {
        return Err(Fault::Memory);
    };
    Ok(notes)
}
