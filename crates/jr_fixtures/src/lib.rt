//! Rooms and envs for tests, and what their calls answer. Nothing here ends the process: it is in tests alone that a crate may.
#![tactic(auto)]

ghost use Rattle.std.specs.Prelude.{◌≡◌, true, All, IfOk};
ghost use Rattle.jr_model.specs.declared.event.Role.TheVariants.{Outside};
ghost use Rattle.jr_rule.specs.Passes.{IsOpened};
ghost use Rattle.jr_rule.specs.Rooms.{IsOfRoom};
ghost use Rattle.jr_steps.specs.Knowing.{Spent};

use jr_env::{Env, NativeInterface};
use jr_model::Summary;
use jr_rule::{Pass, PlainSteps, Room, RoomSteps};
use jr_steps::Steps;
use jr_weak::Marker;
use jr_word::{Config, Fault, Handle, LAST_SERIAL};
use std::alloc::Global;
use std::test::Fail;

/// The last serial of a slot or a local place.
pub const LAST: u32 = LAST_SERIAL;

/// The env over a fresh pass, which is spent.
pub fn opened_env<S: Steps + Drop>(steps: S) -> Env<S>
    requires outside { (S.facts steps).stands.role ≡ Outside }
    requires fresh { (S.facts steps).stands.fresh ≡ true }
    ensures { Spent S.facts steps result.held.steps }
{
    let Ok(env) = Env::new(steps) else {
        unreachable!();
    };
    env
}

/// The env over plain words in which nothing stands.
pub fn plain_env(alloc: Global, config: Config) -> Result<Env<PlainSteps<LAST>>, Fault> {
    let steps = PlainSteps::new(alloc, config)?;
    Ok(opened_env(steps))
}

/// A test of an env in which nothing was done. It is handed what it aborts by, of which no library speaks.
pub trait EnvTest<R> {
    /// Runs it.
    fn run<S: Steps>(self, rt: &R, alloc: Global, env: &mut Env<S>) -> Result<(), Fail>;
}

/// Runs a test over plain words, which are made for it: an env that a test makes itself is dear to prove.
pub fn alone<T: EnvTest<R> + Drop, R>(
    rt: &R,
    alloc: Global,
    config: Config,
    test: T,
) -> Result<(), Fail> {
    let mut env = plain_env(alloc, config)?;
    test.run(rt, alloc, &mut env)
}

/// What is missing where the passes are at their end.
pub type NoPass = &'static str;

/// The last of the passes of a room, whatever its last serial.
pub fn next_pass<const SERIAL: u32>(
    _room: &Room<SERIAL>,
    passes: &mut Vec<Pass>,
) -> Result<Pass, NoPass>
    requires { All (λ p. IsOpened _room.now.row p) passes.old.items }
    ensures others { All (λ p. IsOpened _room.now.row p) passes.new.items }
    ensures pass { IfOk result (λ p. IsOpened _room.now.row p) }
{
    let Some(pass) = passes.pop() else {
        return Err("there is no pass for each thread");
    };
    Ok(pass)
}

/// The steps over the last of the passes.
pub fn next_steps<'a>(
    room: &'a Room<LAST>,
    passes: &mut Vec<Pass>,
) -> Result<RoomSteps<'a, LAST>, NoPass>
    requires { All (λ p. IsOpened room.now.row p) passes.old.items }
    ensures others { All (λ p. IsOpened room.now.row p) passes.new.items }
    ensures outside { IfOk result (λ s. s.role ≡ Outside) }
{
    let pass = next_pass(room, passes)?;
    Ok(RoomSteps::new(room, pass))
}

/// The env over the last of the passes.
pub fn next_env<'a, const SERIAL: u32>(
    room: &'a Room<SERIAL>,
    passes: &mut Vec<Pass>,
) -> Result<Env<RoomSteps<'a, SERIAL>>, NoPass>
    requires { All (λ p. IsOpened room.now.row p) passes.old.items }
    ensures { All (λ p. IsOpened room.now.row p) passes.new.items }
{
    let pass = next_pass(room, passes)?;
    Ok(opened_env(RoomSteps::new(room, pass)))
}

/// What stands in a room that is closed with the pass of a thread that took no step: `None` where a thread is in the room.
pub fn closed(room: Room<LAST>, pass: Pass) -> Option<Summary>
    requires { IsOfRoom room pass }
{
    room.close(pass).ok()
}

/// The reference that a call made to an object.
pub fn made(answer: Result<Option<Handle>, Fault>) -> Result<Handle, Fail> {
    match answer {
        Ok(Some(handle)) => Ok(handle),
        Ok(None) => Err("it is to no object")?,
        Err(fault) => Err(fault)?,
    }
}

/// What a call is refused with, if it is.
pub fn refusal<A: Drop>(answer: Result<A, Fault>) -> Option<Fault> {
    answer.err()
}

/// Whether a call answers with this refusal, or with none.
pub fn is_refused<A: Drop>(answer: Result<A, Fault>, wanted: Option<Fault>) -> bool {
    answer.err() == wanted
}

/// Checks the type of the reference that a word is: 1 local, 2 global, 3 weak global, and 0 where it is none.
pub fn has_type<S: Steps>(env: &mut Env<S>, word: Handle, wanted: u8) -> Result<(), Fail> {
    let found = env.get_object_ref_type(word)?;
    if found == wanted {
        Ok(())
    } else {
        Err(Fail::new(format_args!("the type of {word:?} is {found}, not {wanted}")))
    }
}

/// How many weak references a collection cleared, how many objects it dropped, and how many words are used then. The marker is made for it.
pub fn collected<S: Steps>(alloc: Global, env: &mut Env<S>) -> Result<[u32; 3], Fault> {
    let mut marker = Marker::new(alloc, env.held.steps.config())?;
    let collected = env.collect(&mut marker)?;
    Ok([collected.cleared, collected.dropped, collected.used])
}

/// Checks these three numbers of a collection.
pub fn collects<S: Steps>(alloc: Global, env: &mut Env<S>, wanted: [u32; 3]) -> Result<(), Fail> {
    let found = collected(alloc, env)?;
    if found == wanted {
        Ok(())
    } else {
        Err(Fail::new(format_args!("collected {found:?}, not {wanted:?}")))
    }
}
