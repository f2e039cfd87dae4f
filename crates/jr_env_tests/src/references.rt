//! References of another kind than is deleted, envs of passes that are not fresh, threads that meet, and searches that go round, over plain words and over a room.

ghost use Rattle.std.specs.Prelude.{◌≡◌, IfOk};
ghost use Rattle.jr_model.specs.declared.event.Role.TheVariants.{Outside};
ghost use Rattle.jr_rule.specs.Passes.{IsAt, IsOpened};

use crate::checked::are_told;
use crate::row::has_words;
use assertions::assert_same;
use jr_env::{Env, NativeInterface};
use jr_fixtures::{EnvTest, LAST, alone, has_type, made, next_pass, opened_env, refusal};
use jr_rule::{Pass, PlainSteps, Room, RoomSteps};
use jr_steps::Steps;
use jr_word::{Config, Fault, Handle};
use std::alloc::Global;
use std::process::Abort;
use std::test::Fail;

/// A room of two threads with four slots and 16 local places each.
pub(crate) const TWO: Config = Config {
    threads: 2,
    slots: 4,
    objects: 8,
    words: 16,
    locals: 16,
};

/// A room with three slots and one object.
const THREE_SLOTS: Config = Config {
    slots: 3,
    ..Config::LEAST
};

/// Malformed: all ones.
const ONES: Handle = Handle(u64::MAX);

/// Local, of thread 0 and of thread 1, with serial 0 at the first place.
const OWN: Handle = Handle(1);

const FOREIGN: Handle = Handle(0x4_0000_0000_0001);

/// Local, of a third thread.
const NO_THREAD: Handle = Handle(0x8_0000_0000_0001);

/// Local, at a seventeenth place of thread 0.
const NO_PLACE: Handle = Handle(0x40_0000_0001);

/// Global, and weak, with a fifth slot.
const NO_SLOT: Handle = Handle(0x10_0000_0002);

const NO_WEAK_SLOT: Handle = Handle(0x10_0000_0003);

/// The words of a local, a global and a weak global reference to one object.
#[derive(Drop)]
struct OfEach {
    local: Handle,
    global: Handle,
    weak: Handle,
}

/// A reference of each kind.
fn of_each<S: Steps>(env: &mut Env<S>) -> Result<OfEach, Fail> {
    let local = env.new_plain()?;
    let global = made(env.new_global_ref(local))?;
    let weak = made(env.new_weak_global_ref(local))?;
    Ok(OfEach {
        local,
        global,
        weak,
    })
}

/// What deleting a word as a local reference is refused with.
fn refused_as_local<S: Steps>(rt: &impl Abort, env: &mut Env<S>, of: &OfEach) {
    let rows = [
        (of.global, Fault::WrongKind),
        (of.weak, Fault::WrongKind),
        (NO_SLOT, Fault::WrongKind),
        (NO_WEAK_SLOT, Fault::WrongKind),
        (ONES, Fault::Stale),
        (NO_PLACE, Fault::Stale),
        (NO_THREAD, Fault::Stale),
        (FOREIGN, Fault::Foreign),
    ];
    for (word, fault) in rows {
        assert_same!(rt; refusal(env.delete_local_ref(word)), Some(fault); at word);
    }
}

/// Which types the three references have.
fn have_types<S: Steps>(
    rt: &impl Abort,
    env: &mut Env<S>,
    of: &OfEach,
    wanted: [u8; 3],
) -> Result<(), Fail> {
    has_type(env, of.local, wanted[0])?;
    has_type(env, of.global, wanted[1])?;
    has_type(env, of.weak, wanted[2])
}

/// What deleting a word as a global and as a weak global reference is refused with, where it is; of the two references of these kinds each is deleted.
fn refused_as_global<S: Steps>(rt: &impl Abort, env: &mut Env<S>, of: &OfEach) {
    let rows = [
        (of.local, Some(Fault::WrongKind), Some(Fault::WrongKind)),
        (of.weak, Some(Fault::WrongKind), None),
        (FOREIGN, Some(Fault::WrongKind), Some(Fault::WrongKind)),
        (NO_WEAK_SLOT, Some(Fault::WrongKind), Some(Fault::Stale)),
        (NO_SLOT, Some(Fault::Stale), Some(Fault::WrongKind)),
        (ONES, Some(Fault::Stale), Some(Fault::Stale)),
        (of.global, None, Some(Fault::WrongKind)),
    ];
    for (word, of_global, of_weak) in rows {
        assert_same!(rt; refusal(env.delete_global_ref(word)), of_global; at word);
        assert_same!(rt; refusal(env.delete_weak_global_ref(word)), of_weak; at word);
    }
}

/// A reference of each kind is deleted by the call for its kind alone, and what was refused stands.
#[derive(Drop)]
struct DeletedByKind;

impl<R: Abort> EnvTest<R> for DeletedByKind {
    fn run<S: Steps>(self, rt: &R, _alloc: Global, env: &mut Env<S>) -> Result<(), Fail> {
        let of = of_each(env)?;
        refused_as_local(rt, env, &of);
        have_types(rt, env, &of, [1, 2, 3])?;
        refused_as_global(rt, env, &of);
        have_types(rt, env, &of, [1, 0, 0])
    }
}

#[test]
fn a_reference_is_deleted_by_the_call_for_its_kind_alone(rt: HostRuntime) -> Result<(), Fail> {
    alone(&rt, rt.alloc(), TWO, DeletedByKind)
}

/// A watcher is told each refusal, with what its words are.
#[derive(Drop)]
struct AreTold;

impl<R: Abort> EnvTest<R> for AreTold {
    fn run<S: Steps>(self, rt: &R, alloc: Global, env: &mut Env<S>) -> Result<(), Fail> {
        are_told(rt, alloc, env)
    }
}

#[test]
fn each_refusal_is_told_with_what_its_words_are(rt: HostRuntime) -> Result<(), Fail> {
    alone(&rt, rt.alloc(), TWO, AreTold)
}

/// The steps, handed back by a refusal of an env.
fn refused<S: Steps + Drop>(rt: &impl Abort, env: Result<Env<S>, (S, Fault)>) -> Result<S, Fail> {
    match env {
        Ok(_) => Err("the pass is not fresh")?,
        Err((steps, fault)) => {
            assert_same!(rt; fault, Fault::NotFresh);
            assert!(rt; !steps.fresh());
            Ok(steps)
        }
    }
}

/// Of steps whose pass was spent no env is made. They are handed back.
fn refused_once_spent<S: Steps + Drop>(rt: &impl Abort, steps: S) -> Result<S, Fail>
    requires { (S.facts steps).stands.role ≡ Outside }
{
    let mut steps = steps;
    assert!(rt; steps.fresh());
    steps.spend();
    refused(rt, Env::new(steps))
}

/// Of steps that an env made a local reference with no other env is made. They are handed back.
fn refused_after_an_env<S: Steps + Drop>(rt: &impl Abort, steps: S) -> Result<S, Fail>
    requires { (S.facts steps).stands.role ≡ Outside }
{
    let Ok(mut env) = Env::new(steps) else {
        return Err("the pass is fresh")?;
    };
    assert!(rt; !env.held.steps.fresh());
    assert_same!(rt; env.new_plain()?, OWN);
    refused(rt, Env::new(env.into_pass()))
}

/// The one or the other.
fn refused_later<S: Steps + Drop>(rt: &impl Abort, steps: S, has_env: bool) -> Result<S, Fail>
    requires { (S.facts steps).stands.role ≡ Outside }
{
    if has_env {
        refused_after_an_env(rt, steps)
    } else {
        refused_once_spent(rt, steps)
    }
}

/// Checks the words of a row over whose steps no env is made, since they were spent, or had an env before.
fn leaves(rt: &impl Abort, alloc: Global, has_env: bool, row: &[u64]) -> Result<(), Fail> {
    let steps = PlainSteps::<LAST>::new(alloc, Config::LEAST)?;
    let steps = refused_later(rt, steps, has_env)?;
    has_words(rt, &steps.cells.words, row);
    Ok(())
}

#[test]
fn an_env_is_made_of_a_fresh_pass_alone(rt: HostRuntime) -> Result<(), Fail> {
    let mut row = [0; 20];
    leaves(&rt, rt.alloc(), false, &row)?;
    // Its local reference still stands.
    row[3] = 1;
    row[19] = 1;
    leaves(&rt, rt.alloc(), true, &row)
}

/// A room, and the passes of its two threads.
pub(crate) fn opened(alloc: Global) -> Result<(Room<LAST>, Pass, Pass), Fail>
    ensures { IfOk result (λ r. IsOpened r.0.row r.1 × IsOpened r.0.row r.2) }
{
    let (room, mut passes) = Room::<LAST>::open(alloc, TWO)?;
    let second = next_pass(&room, &mut passes)?;
    let first = next_pass(&room, &mut passes)?;
    Ok((room, first, second))
}

/// A global reference that the thread of a pass makes, and the pass.
fn shared_by(room: &Room<LAST>, pass: Pass) -> Result<(Handle, Pass), Fail>
    requires { IsOpened room.now.row pass }
    ensures { IfOk result (λ r. IsAt room.now.row r.1) }
{
    let mut env = opened_env(RoomSteps::new(room, pass));
    let shared = shared_in(&mut env);
    let pass = env.into_pass().into_pass();
    Ok((shared?, pass))
}

/// A thread finds what a reference names: its first local reference is to it.
fn finds_as_own<S: Steps>(rt: &impl Abort, env: &mut Env<S>, shared: Handle) -> Result<(), Fail> {
    let own = made(env.new_local_ref(shared))?;
    assert_same!(rt; own, OWN);
    Ok(())
}

/// The same of a thread by its env, whose pass is spent.
fn finds_by_env<S: Steps + Drop>(
    rt: &impl Abort,
    mut env: Env<S>,
    shared: Handle,
) -> Result<(), Fail> {
    assert!(rt; !env.held.steps.fresh());
    finds_as_own(rt, &mut env, shared)
}

/// The pass of another thread, once an env over a pass has met it.
fn met_by(
    rt: &impl Abort,
    room: &Room<LAST>,
    pass: Pass,
    shared: Handle,
    other: Pass,
) -> Result<Pass, Fail>
    requires own { IsOpened room.now.row pass }
    requires other { IsAt room.now.row other }
    ensures { IfOk result (λ p. IsAt room.now.row p) }
{
    let mut env = opened_env(RoomSteps::new(room, pass));
    let other = env.meet(other);
    finds_by_env(rt, env, shared)?;
    Ok(other)
}

#[test]
fn who_meets_another_finds_its_reference(rt: HostRuntime) -> Result<(), Fail> {
    let (room, first, second) = opened(rt.alloc())?;
    let (shared, second) = shared_by(&room, second)?;
    let second = met_by(&rt, &room, first, shared, second)?;
    // The pass that was met is as it was: of thread 1, and not fresh.
    let steps = RoomSteps::new(&room, second);
    assert_same!(&rt; steps.thread(), 1);
    assert!(rt; !steps.fresh());
    Ok(())
}

/// A global reference that the thread of an env makes.
fn shared_in<S: Steps>(env: &mut Env<S>) -> Result<Handle, Fail>
    requires { (S.facts env.old.held.steps).stands.role ≡ Outside }
    ensures room { (S.facts env.new.held.steps).stands.room ≡ (S.facts env.old.held.steps).stands.room }
    ensures config { (S.facts env.new.held.steps).stands.config ≡ (S.facts env.old.held.steps).stands.config }
    ensures last { (S.facts env.new.held.steps).stands.last ≡ (S.facts env.old.held.steps).stands.last }
{
    let object = env.new_plain()?;
    made(env.new_global_ref(object))
}

/// Both threads find what the reference names, each by a local reference of its own; then the second makes its next global one.
pub(crate) fn find<S: Steps, U: Steps>(
    rt: &impl Abort,
    first: &mut Env<S>,
    second: &mut Env<U>,
    shared: Handle,
) -> Result<(), Fail> {
    finds_as_own(rt, first, shared)?;
    assert!(rt; first.is_same_object(OWN, shared)?);
    assert!(rt; second.is_same_object(FOREIGN, shared)?);
    is_next(rt, second, FOREIGN, Handle(0x4_0000_0002))
}

/// The same, where the reference was made.
fn both_find<S: Steps + Drop>(
    rt: &impl Abort,
    mut first: Env<S>,
    mut second: Env<S>,
    shared: Result<Handle, Fail>,
) -> Result<(), Fail> {
    find(rt, &mut first, &mut second, shared?)
}

/// Two envs in one thread: once the first has met the second, it finds a reference that this one made, by its handle. The second is as it was:
/// its local reference stands, and its next global one follows.
#[test]
fn who_meets_another_env_finds_its_reference(rt: HostRuntime) -> Result<(), Fail> {
    let (room, first, second) = opened(rt.alloc())?;
    let mut first = opened_env(RoomSteps::new(&room, first));
    let mut second = opened_env(RoomSteps::new(&room, second));
    let shared = shared_in(&mut second);
    first.meet_env(&mut second);
    both_find(&rt, first, second, shared)
}

/// Makes a global reference, which has the word.
fn is_next<S: Steps>(
    rt: &impl Abort,
    env: &mut Env<S>,
    object: Handle,
    wanted: Handle,
) -> Result<(), Fail> {
    let next = made(env.new_global_ref(object))?;
    assert_same!(rt; next, wanted);
    Ok(())
}

/// Each search for a free slot begins behind the newest reference of the pass, and goes on at slot 0 behind the last one.
#[derive(Drop)]
struct GoesRound;

impl<R: Abort> EnvTest<R> for GoesRound {
    fn run<S: Steps>(self, rt: &R, _alloc: Global, env: &mut Env<S>) -> Result<(), Fail> {
        let local = env.new_plain()?;
        is_next(rt, env, local, Handle(2))?;
        is_next(rt, env, local, Handle(0x4_0000_0002))?;
        env.delete_global_ref(Handle(2))?;
        is_next(rt, env, local, Handle(0x8_0000_0002))?;
        is_next(rt, env, local, Handle(6))?;
        assert_same!(rt; refusal(env.new_global_ref(local)), Some(Fault::RowFull));
        Ok(())
    }
}

#[test]
fn searches_go_round(rt: HostRuntime) -> Result<(), Fail> {
    alone(&rt, rt.alloc(), THREE_SLOTS, GoesRound)
}
