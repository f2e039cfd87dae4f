//! What stands where a note was learned, and notes that are pinned, which several threads learn, each as often as it likes.
ghost use Rattle.std.specs.Prelude.{◌≡◌, ◌++◌, true, ℕ};
ghost use Rattle.jr_word.specs.declared.handle.HandleParts.{HandleParts};
ghost use Rattle.jr_model.specs.declared.event.Found.TheVariants.{Object};
ghost use Rattle.jr_model.specs.declared.event.Role.TheVariants.{Outside};
ghost use Rattle.jr_model.specs.History.{History, state};
ghost use Rattle.jr_model.specs.Laws.{IsFoundAs};
ghost use Rattle.jr_model.specs.StandingReferences.{NoneDeletes};
ghost use Rattle.jr_rule.specs.Passes.{IsOpened};
ghost use Rattle.jr_rule.specs.Rooms.{IsPinnedThere, seen_by_note};
ghost use Rattle.jr_rule.specs.Sites.{IsSiteOf};
ghost use Rattle.jr_steps.specs.declared.known.Known.{Known};

use crate::references::{find, opened};
use jr_env::{Env, NativeInterface};
use jr_fixtures::{LAST, has_type, next_pass, opened_env};
use jr_model::references_stand_until_deleted;
use jr_rule::{NoteOf, Pass, PinnedNote, Room, RoomSteps, Site, SiteSteps, StepsIn, ThreadNumber};
use jr_steps::Steps;
use jr_word::{Config, Fault, Handle};
use std::alloc::Global;
use std::marker::Brand;
use std::process::Abort;
use std::sync::Wait;
use std::test::Fail;
use std::thread;
use std::thread::Threads;

/// A room of four threads.
const FOUR: Config = Config {
    threads: 4,
    slots: 4,
    objects: 8,
    words: 16,
    locals: 16,
};

/// In how many turns a thread tries to learn.
const TURNS: u32 = 10_000;

/// Learns the note in each of many turns in which no other thread is just doing so. In how many it did.
fn learns_often(steps: &mut RoomSteps<'_, LAST>, pinned: &PinnedNote) -> u32
    requires { IsPinnedThere steps.old pinned.now }
{
    let mut learned = 0u32;
    for _ in 0..TURNS {
        if steps.learn_pinned(pinned) {
            learned = learned.saturating_add(1);
        }
    }
    learned
}

/// Learns the note in a thread of its own, while another one does.
fn both_learn<R: Threads + Wait + Sync>(
    rt: &R,
    first: &mut RoomSteps<'_, LAST>,
    second: &mut RoomSteps<'_, LAST>,
    pinned: &PinnedNote,
) -> (u32, u32)
    requires first { IsPinnedThere first.old pinned.now }
    requires second { IsPinnedThere second.old pinned.now }
{
    thread::join(
        rt,
        || learns_often(first, pinned),
        || learns_often(second, pinned),
    )
}

/// An env learns a note. So each reference that stood where the note was made, and that nobody has deleted since, stands here: a global one with its object, a weak one with it, or cleared.
pub(crate) fn learns<Q: Site, S: StepsIn<Q>>(env: &mut Env<S>, note: NoteOf<Q>)
    ensures { (k : Known) → (S.facts env.new.held.steps).knows k → (h : HandleParts) (o : ℕ) → (state (seen_by_note note.note)).refs h ≡ Object o → (since : History)
        × (seen_by_note note.note ++ since ≡ k.seen) × (NoneDeletes h since → IsFoundAs h o ((state k.seen).refs h)) }
{
    references_stand_until_deleted();
    env.learn(note);
}

/// A global reference to a new array.
fn shared_array<S: Steps>(env: &mut Env<S>) -> Result<Handle, Fault> {
    let array = env.new_array::<i32>(3)?;
    Ok(Handle::or_null(env.new_global_ref(array)?))
}

/// Two envs in one thread: the second makes a note once it has made a reference, and the first learns it, and finds the reference. A note that nobody learns, and one that says less, change nothing.
fn find_by_note<Q: Site, S: StepsIn<Q>, U: StepsIn<Q>>(
    rt: &impl Abort,
    first: &mut Env<S>,
    second: &mut Env<U>,
) -> Result<(), Fail> {
    let early = second.note();
    let shared = shared_array(second)?;
    let _ = second.note();
    let note = second.note();
    learns(first, note);
    first.learn(early);
    find(rt, first, second, shared)
}

/// A pinned note is learned, and again: whoever has learned it finds the reference.
fn learn_again<Q: Site, S: StepsIn<Q>, U: StepsIn<Q>>(
    rt: &impl Abort,
    first: &mut Env<S>,
    second: &mut Env<U>,
) -> Result<(), Fail> {
    let shared = shared_array(second)?;
    let pinned = second.pin();
    assert!(rt; first.learn_pinned(&pinned));
    assert!(rt; first.learn_pinned(&pinned));
    let again = first.pin();
    assert!(rt; second.learn_pinned(&again));
    has_type(first, shared, 2)
}

/// What is tried of two envs of one site.
#[derive(Clone, Copy)]
enum Case {
    /// A note that one thread learns.
    Note,
    /// A note that stays.
    Pinned,
}

/// Tries it in two envs over steps of passes that were not used.
fn try_over<Q: Site, S: StepsIn<Q> + Drop, U: StepsIn<Q> + Drop>(
    rt: &impl Abort,
    first: S,
    second: U,
    case: Case,
) -> Result<(), Fail>
    requires first { (S.facts first).stands.role ≡ Outside }
    requires first_fresh { (S.facts first).stands.fresh ≡ true }
    requires second { (U.facts second).stands.role ≡ Outside }
    requires second_fresh { (U.facts second).stands.fresh ≡ true }
{
    let mut first = opened_env(first);
    let mut second = opened_env(second);
    match case {
        Case::Note => find_by_note::<Q, _, _>(rt, &mut first, &mut second),
        Case::Pinned => learn_again::<Q, _, _>(rt, &mut first, &mut second),
    }
}

/// Tries it over passes of the site's room.
fn try_in_site<Q: Site, T: ThreadNumber, U: ThreadNumber>(
    rt: &impl Abort,
    room: &Room<LAST>,
    first: Pass,
    second: Pass,
    case: Case,
) -> Result<(), Fail>
    requires opened { IsOpened room.now.row first × IsOpened room.now.row second }
    requires first { IsSiteOf Q.room Q.sizes T.number room.now first }
    requires second { IsSiteOf Q.room Q.sizes U.number room.now second }
{
    let first = SiteSteps::<LAST, Q, T>::new(room, first);
    let second = SiteSteps::<LAST, Q, U>::new(room, second);
    try_over::<Q, _, _>(rt, first, second, case)
}

/// Tries it in a room that is opened for it.
fn try_notes(rt: &impl Abort, alloc: Global, case: Case) -> Result<(), Fail> {
    let (room, first, second) = opened(alloc)?;
    try_in_site::<Brand, Brand, Brand>(rt, &room, first, second, case)
}

#[test]
fn who_learns_a_note_finds_its_reference(rt: HostRuntime) -> Result<(), Fail> {
    try_notes(&rt, rt.alloc(), Case::Note)
}

#[test]
fn a_pinned_note_is_learned_again(rt: HostRuntime) -> Result<(), Fail> {
    try_notes(&rt, rt.alloc(), Case::Pinned)
}

/// Two threads learn one note side by side, in many turns each. No copy is lost: a third learns it afterwards.
#[test]
fn two_threads_learn_one_note(rt: HostRuntime) -> Result<(), Fail> {
    let (room, mut passes) = Room::<LAST>::open(rt.alloc(), FOUR)?;
    let fourth = next_pass(&room, &mut passes)?;
    let third = next_pass(&room, &mut passes)?;
    let second = next_pass(&room, &mut passes)?;
    let first = next_pass(&room, &mut passes)?;
    let mut steps = RoomSteps::new(&room, fourth);
    let pinned = steps.pin();
    let mut first = RoomSteps::new(&room, first);
    let mut second = RoomSteps::new(&room, second);
    let mut third = RoomSteps::new(&room, third);
    let (one, other) = both_learn(&rt, &mut first, &mut second, &pinned);
    assert!(rt; one > 0 || other > 0);
    assert!(rt; third.learn_pinned(&pinned));
    Ok(())
}
