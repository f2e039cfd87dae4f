//! A dump: what each slot, each local place and each object of a room has at one step, to be looked at once the gate is open again.
ghost use Rattle.std.specs.Prelude.{◌≡◌, ◌≤◌, ◌+◌, ◌*◌, ℕ, [], ◌∷◌, length, IsOk, IfOk, IfErr, OnErr};
ghost use Rattle.jr_word.specs.declared.fault.Fault.TheVariants.{Busy};
ghost use Rattle.jr_model.specs.declared.event.Role.TheVariants.{Outside};
ghost use Rattle.jr_model.specs.declared.event.Act.TheVariants.{ShutBusy};
ghost use Rattle.jr_steps.specs.Knowing.{anything, keeps, CanReopen, IsLone, MayKnow, Took};
ghost use Rattle.jr_gate.specs.Stays.{IsOwnCollection};
ghost use Rattle.jr_weak.specs.Collecting.{GivesUp};
ghost use Rattle.jr_weak.specs.Waiting.{ShutsActByAct};
ghost use Rattle.jr_census.specs.Taking.{NotesOnce, TakesDump, TakesDumpAnnounced, noting_steps};

use crate::dump::{note_locals, note_objects, note_slots};
use jr_gate::{Shut, shut_gate};
use jr_steps::Steps;
use jr_weak::shut_announced;
use jr_word::{Fault, HeaderParts, LocalParts, SlotParts};

/// Notes what each slot, each local place and each object has at the step that shuts the gate for it, and opens the gate again. It is handed room for it:
/// a place for each slot, one for each local place of each thread, one for each object number, and one for each word of array space.
/// A slot's is the one of its index, those of a thread's local places stand in their order behind those of the threads before it, and an object's header that of its number less one,
/// none where no object has it; the place that the header says is that of the first element among the words. It changes nothing in the room, takes no memory, and never waits.
/// The thread has to stand outside.
///
/// # Errors
///
/// E14 with how many threads were inside, knocking, announcing or collecting at the step that shuts the gate, at least 1.
///
/// Nothing has changed then, and the notes are as they were. Over one thread, and over plain words, it is never refused.
///
/// # Operations
///
/// One where it is refused. Else a look at each slot, at each local place of every thread and at the header of each object number, a load for each element, and two at the gate:
/// at the most one for each slot, local place, object and word of the room, and two.
pub fn take_dump<S: Steps>(
    steps: &mut S,
    slots: &mut [SlotParts],
    locals: &mut [LocalParts],
    headers: &mut [Option<HeaderParts>],
    words: &mut [u64],
) -> Result<(), Fault>
    requires outside { (S.facts steps.old).stands.role ≡ Outside }
    requires slots { length slots.old ≡ (S.facts steps.old).stands.config.slots }
    requires locals { length locals.old ≡ (S.facts steps.old).stands.config.threads * (S.facts steps.old).stands.config.locals }
    requires headers { length headers.old ≡ (S.facts steps.old).stands.config.objects }
    requires words { length words.old ≡ (S.facts steps.old).stands.config.words }
    ensures slots { length slots.new ≡ length slots.old }
    ensures locals { length locals.new ≡ length locals.old }
    ensures headers { length headers.new ≡ length headers.old }
    ensures words { length words.new ≡ length words.old }
    ensures ok { IfOk result (λ _. TakesDump S.facts steps.old steps.new slots.new locals.new headers.new words.new) }
    ensures err { IfErr result (λ e. (n : ℕ) × (e ≡ Busy n) × (1 ≤ n) × Took S.facts steps.old steps.new (ShutBusy n ∷ []) anything keeps) }
    ensures kept_slots { OnErr result (slots.new ≡ slots.old) }
    ensures kept_locals { OnErr result (locals.new ≡ locals.old) }
    ensures kept_headers { OnErr result (headers.new ≡ headers.old) }
    ensures kept_words { OnErr result (words.new ≡ words.old) }
    ensures alone { IsLone (S.facts steps.old).stands → IsOk result }
{
    let shut = shut_gate(steps)?;
    note(steps, shut, slots, locals, headers, words);
    Ok(())
}

/// Takes a dump as `take_dump` does, but announces it first, so that nobody is let in any more.
/// It tries so many times to shut the gate, which is refused while another thread is inside or knocks, and takes the announcement back where the last try is refused, too.
/// It takes no memory and never waits. The thread has to stand outside.
///
/// # Errors
///
/// E14 with how many threads were inside, knocking, announcing or collecting, at least 1, where another thread kept the gate closed already;
/// E23 with two counts of the open gate, where another thread went in or out between the look at it and the announcement;
/// E14 with how many other threads were inside or knocking at the last try, at least 1.
///
/// Nothing has changed then, the notes are as they were, and the thread stands outside. Over one thread, and over plain words, it is never refused.
///
/// # Operations
///
/// Up to the shut of the gate those of `shut_announced`; from then on those of `take_dump`.
pub fn take_dump_announced<S: Steps>(
    steps: &mut S,
    tries: u32,
    slots: &mut [SlotParts],
    locals: &mut [LocalParts],
    headers: &mut [Option<HeaderParts>],
    words: &mut [u64],
) -> Result<(), Fault>
    requires outside { (S.facts steps.old).stands.role ≡ Outside }
    requires tries { 1 ≤ tries }
    requires slots { length slots.old ≡ (S.facts steps.old).stands.config.slots }
    requires locals { length locals.old ≡ (S.facts steps.old).stands.config.threads * (S.facts steps.old).stands.config.locals }
    requires headers { length headers.old ≡ (S.facts steps.old).stands.config.objects }
    requires words { length words.old ≡ (S.facts steps.old).stands.config.words }
    ensures slots { length slots.new ≡ length slots.old }
    ensures locals { length locals.new ≡ length locals.old }
    ensures headers { length headers.new ≡ length headers.old }
    ensures words { length words.new ≡ length words.old }
    ensures ok { IfOk result (λ _. TakesDumpAnnounced S.facts steps.old steps.new tries slots.new locals.new headers.new words.new) }
    ensures counted { IfOk result (λ _. ShutsActByAct S.facts steps.old steps.new tries (λ c. noting_steps c + 1)) }
    ensures err { IfErr result (λ e. GivesUp S.facts steps.old steps.new tries e) }
    ensures kept_slots { OnErr result (slots.new ≡ slots.old) }
    ensures kept_locals { OnErr result (locals.new ≡ locals.old) }
    ensures kept_headers { OnErr result (headers.new ≡ headers.old) }
    ensures kept_words { OnErr result (words.new ≡ words.old) }
    ensures alone { IsLone (S.facts steps.old).stands → IsOk result }
{
    let shut = shut_announced(steps, tries)?;
    note(steps, shut, slots, locals, headers, words);
    Ok(())
}

/// Notes while the gate is shut for it, and opens the gate.
fn note<S: Steps>(
    steps: &mut S,
    shut: Shut,
    slots: &mut [SlotParts],
    locals: &mut [LocalParts],
    headers: &mut [Option<HeaderParts>],
    words: &mut [u64],
)
    requires own { IsOwnCollection shut (S.facts steps.old).stands }
    requires closed { MayKnow S.facts steps.old CanReopen }
    requires slots { length slots.old ≡ (S.facts steps.old).stands.config.slots }
    requires locals { length locals.old ≡ (S.facts steps.old).stands.config.threads * (S.facts steps.old).stands.config.locals }
    requires headers { length headers.old ≡ (S.facts steps.old).stands.config.objects }
    requires words { length words.old ≡ (S.facts steps.old).stands.config.words }
    ensures slots { length slots.new ≡ length slots.old }
    ensures locals { length locals.new ≡ length locals.old }
    ensures headers { length headers.new ≡ length headers.old }
    ensures words { length words.new ≡ length words.old }
    ensures all { NotesOnce S.facts steps.old steps.new slots.new locals.new headers.new words.new }
{
    note_slots(steps, slots);
    note_locals(steps, locals);
    note_objects(steps, headers, words);
    shut.reopen(steps);
}
