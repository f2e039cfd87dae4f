//! Tests of threads that share a room: each has a room of its own, which is made here alone.
ghost use Rattle.std.specs.Prelude.{◌≡◌, All, IfOk};
ghost use Rattle.jr_model.specs.declared.event.Role.TheVariants.{Outside};
ghost use Rattle.jr_rule.specs.Passes.{IsOpened};
ghost use Rattle.jr_rule.specs.Rooms.{IsOfRoom};

use assertions::assert_same;
use jr_env::Env;
use jr_fixtures::{LAST, NoPass, next_env, next_pass, next_steps};
use jr_rule::{Left, Pass, Room};
use jr_steps::Steps;
use jr_word::{Config, Fault};
use std::alloc::Global;
use std::process::Abort;
use std::test::Fail;

/// A room of five threads, with few words.
const FIVE: Config = Config {
    threads: 5,
    slots: 4,
    objects: 4,
    words: 8,
    locals: 16,
};

/// A test of threads that share a room.
pub(crate) trait RoomTest {
    /// Runs it, over the steps of two threads that are outside and the envs of two others.
    fn run<S: Steps + Drop, R: Abort>(
        rt: &R,
        alloc: Global,
        first: &mut S,
        second: S,
        env: &mut Env<S>,
        other: &mut Env<S>,
    ) -> Result<(), Fail>
        requires first { (S.facts first.old).stands.role ≡ Outside }
        requires second { (S.facts second).stands.role ≡ Outside };
}

/// Runs a test where there is a pass for each. What may be missing is found here, over any steps, since a test that does it itself is dear to prove.
fn run_over<T: RoomTest, S: Steps + Drop, R: Abort>(
    rt: &R,
    alloc: Global,
    first: Result<S, NoPass>,
    second: Result<S, NoPass>,
    env: Result<Env<S>, NoPass>,
    other: Result<Env<S>, NoPass>,
) -> Result<(), Fail>
    requires first { IfOk first (λ s. (S.facts s).stands.role ≡ Outside) }
    requires second { IfOk second (λ s. (S.facts s).stands.role ≡ Outside) }
{
    let mut first = first?;
    let second = second?;
    let mut env = env?;
    let mut other = other?;
    T::run(rt, alloc, &mut first, second, &mut env, &mut other)
}

/// A room is not closed, since a thread is inside or announces: the room and the pass, as they are handed back.
fn is_left(rt: &impl Abort, room: Room<LAST>, pass: Pass) -> Result<(Room<LAST>, Pass), Fail>
    requires { IsOfRoom room pass }
    ensures { IfOk result (λ r. IsOfRoom r.0 r.1) }
{
    let Err(left) = room.close(pass) else {
        return Err("a thread is inside or announces")?;
    };
    let Left { room, pass, fault } = left;
    assert_same!(rt; fault, Fault::LeftInside(1));
    Ok((room, pass))
}

/// Runs a test in a room that is opened for it. The room is handed back, and the passes that are left.
fn opened_for<T: RoomTest, R: Abort>(rt: &R, alloc: Global) -> Result<(Room<LAST>, Vec<Pass>), Fail>
    ensures { IfOk result (λ r. All (λ p. IsOpened r.0.row p) r.1.items) }
{
    let (room, mut passes) = Room::<LAST>::open(alloc, FIVE)?;
    let first = next_steps(&room, &mut passes);
    let second = next_steps(&room, &mut passes);
    let other = next_env(&room, &mut passes);
    let env = next_env(&room, &mut passes);
    run_over::<T, _, _>(rt, alloc, first, second, env, other)?;
    Ok((room, passes))
}

/// Runs a test in a room.
pub(crate) fn in_a_room<T: RoomTest, R: Abort>(rt: &R, alloc: Global) -> Result<(), Fail> {
    opened_for::<T, _>(rt, alloc)?;
    Ok(())
}

/// Runs a test in which the steps of a thread are dropped that is not outside: the room is not closed, however often that is tried.
pub(crate) fn in_a_room_for_good<T: RoomTest, R: Abort>(rt: &R, alloc: Global) -> Result<(), Fail> {
    let (room, mut passes) = opened_for::<T, _>(rt, alloc)?;
    let pass = next_pass(&room, &mut passes)?;
    let (room, pass) = is_left(rt, room, pass)?;
    is_left(rt, room, pass)?;
    Ok(())
}
