//! Notes of what each slot, each local place and each object has, while the gate is shut.
ghost use Rattle.std.specs.Prelude.{◌≡◌, ◌≤◌, ◌<◌, ◌+◌, ◌*◌, ℕ, None, length, slice_index_or};
ghost use Rattle.jr_word.specs.declared.local.LocalParts.TheVariants.{Free};
ghost use Rattle.jr_model.specs.declared.event.Role.TheVariants.{Collecting};
ghost use Rattle.jr_model.specs.State.{length_of};
ghost use Rattle.jr_steps.specs.Knowing.{state_of, CanReopen, MayKnow};
ghost use Rattle.jr_census.specs.Dumps.{HasObjects, HasPlaces, HasPlacesOf, HasRoom, HasSlots, BeginsAt, KeepsNumber, noted_length};
ghost use Rattle.jr_census.specs.Telling.{LoadsTell};

use jr_steps::Steps;
use jr_word::{HeaderParts, LocalParts, SlotParts};

/// Notes what each slot has.
pub(crate) fn note_slots<S: Steps>(steps: &mut S, slots: &mut [SlotParts])
    requires role { (S.facts steps.old).stands.role ≡ Collecting }
    requires room { length slots.old ≡ (S.facts steps.old).stands.config.slots }
    ensures room { length slots.new ≡ length slots.old }
    ensures told { LoadsTell S.facts (λ j. j.config.slots) steps.old steps.new (λ k. HasSlots k.config.slots k.last (state_of k) slots.new) }
{
    let count = steps.config().slots;
    for index in 0..count {
        slots[index as usize] = steps.scan_slot(index as u16);
    }
}

/// Notes what each local place of a thread has, from a place of the notes on.
fn note_locals_of<S: Steps>(steps: &mut S, thread: u8, start: u32, locals: &mut [LocalParts])
    requires role { (S.facts steps.old).stands.role ≡ Collecting }
    requires thread { thread < (S.facts steps.old).stands.config.threads }
    requires few { length locals.old ≤ 262144 }
    requires room { start + (S.facts steps.old).stands.config.locals ≤ length locals.old }
    ensures size { length locals.new ≡ length locals.old }
    ensures before { (at : ℕ) → at < start → slice_index_or locals.new at Free ≡ slice_index_or locals.old at Free }
    ensures told { LoadsTell S.facts (λ j. j.config.locals) steps.old steps.new (λ k. HasPlacesOf start k.config.locals ((state_of k).locals thread) locals.new) }
{
    let places = steps.config().locals;
    for place in 0..places {
        locals[(start + place) as usize] = steps.scan_local(thread, place as u16);
    }
}

/// Notes what each local place of each thread has.
pub(crate) fn note_locals<S: Steps>(steps: &mut S, locals: &mut [LocalParts])
    requires role { (S.facts steps.old).stands.role ≡ Collecting }
    requires room { length locals.old ≡ (S.facts steps.old).stands.config.threads * (S.facts steps.old).stands.config.locals }
    ensures room { length locals.new ≡ length locals.old }
    ensures told { LoadsTell S.facts (λ j. j.config.threads * j.config.locals) steps.old steps.new (λ k. HasPlaces k.config.threads k.config.locals (state_of k) locals.new) }
{
    let config = steps.config();
    for thread in 0..config.threads {
        note_locals_of(steps, thread as u8, thread * config.locals, locals);
    }
}

/// Notes an object's elements from a word of the notes on, and tells its header, with that word as its place.
fn note_object<S: Steps>(
    steps: &mut S,
    object: u16,
    start: u32,
    words: &mut [u64],
) -> Option<HeaderParts>
    requires role { (S.facts steps.old).stands.role ≡ Collecting }
    requires number { (1 ≤ object) × (object ≤ (S.facts steps.old).stands.config.objects) }
    requires few { length words.old ≤ 1048576 }
    requires can { MayKnow S.facts steps.old (HasRoom object start (length words.old)) }
    ensures size { length words.new ≡ length words.old }
    ensures begins { BeginsAt start result }
    ensures before { (at : ℕ) → at < start → slice_index_or words.new at 0 ≡ slice_index_or words.old at 0 }
    ensures told { LoadsTell S.facts (λ j. length_of ((state_of j).objects object) + 1) steps.old steps.new (λ k. KeepsNumber (state_of k) object result words.new) }
{
    let Some(header) = steps.scan_header(object) else {
        return None;
    };
    for index in 0..header.length {
        words[(start + index) as usize] = steps.scan_element(object, header, index);
    }
    Some(HeaderParts {
        place: start,
        ..header
    })
}

/// The length of an object, by its header, 0 for none.
fn length_in(header: Option<HeaderParts>) -> u32
    ensures { result ≡ noted_length header }
{
    match header {
        None => 0,
        Some(header) => header.length,
    }
}

/// Notes what each object has.
pub(crate) fn note_objects<S: Steps>(
    steps: &mut S,
    headers: &mut [Option<HeaderParts>],
    words: &mut [u64],
)
    requires role { (S.facts steps.old).stands.role ≡ Collecting }
    requires headers { length headers.old ≡ (S.facts steps.old).stands.config.objects }
    requires words { length words.old ≡ (S.facts steps.old).stands.config.words }
    requires can { MayKnow S.facts steps.old CanReopen }
    ensures headers { length headers.new ≡ length headers.old }
    ensures words { length words.new ≡ length words.old }
    ensures told { LoadsTell S.facts (λ j. j.config.objects + j.config.words) steps.old steps.new (λ k. HasObjects k.config.objects (state_of k) headers.new words.new) }
{
    let objects = steps.config().objects;
    let mut start = 0;
    for index in 0..objects {
        let header = note_object(steps, (index + 1) as u16, start, words);
        headers[index as usize] = header;
        start += length_in(header);
    }
}
