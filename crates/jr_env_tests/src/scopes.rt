//! Calls that are made of others: a frame and a copy round a closure, stays and regions that are opened with patience, strong references made of weak ones, and a region that ends with all its levels.

use assertions::assert_same;
use jr_env::{
    Env, NativeInterface, Patience, with_array_elements, with_local_frame,
    with_local_frame_returning,
};
use jr_fixtures::{EnvTest, alone, has_type, made, refusal};
use jr_model::Mode;
use jr_steps::Steps;
use jr_word::{Config, Fault, Handle};
use std::alloc::Global;
use std::process::Abort;
use std::test::Fail;

/// The sizes of the room.
const SIZES: Config = Config {
    threads: 1,
    slots: 4,
    objects: 4,
    words: 16,
    locals: 16,
};

/// What was made in a frame has no reference behind it.
fn leaves_its_frame<S: Steps>(env: &mut Env<S>) -> Result<(), Fail> {
    let array = with_local_frame(env, 4, Patience::LONG, |env| env.new_array::<i32>(2)).map_err(
        |unscoped| unscoped.fault(),
    )?;
    has_type(env, array?, 0)
}

/// What was made in a frame is handed on to the frame below, by a reference of its own; where nothing was made, so is the refusal.
fn hands_on_from_its_frame<S: Steps>(rt: &impl Abort, env: &mut Env<S>) -> Result<(), Fail> {
    let string = with_local_frame_returning(
        env,
        4,
        Patience::LONG,
        |env| env.new_string(&[104]),
    ).map_err(|unscoped| unscoped.fault())?;
    assert_same!(rt; env.get_string_length(Handle::or_null(string?)), Ok(1));
    let refused = with_local_frame_returning(
        env,
        4,
        Patience::LONG,
        |env| env.new_array::<i32>(17),
    ).map_err(|unscoped| unscoped.fault())?;
    assert_same!(rt; refusal(refused), Some(Fault::SpaceFull(3)));
    Ok(())
}

/// A region over an array of two elements ends with both its levels.
fn ends_with_both<S: Steps>(
    rt: &impl Abort,
    env: &mut Env<S>,
    first: Handle,
    second: Handle,
) -> Result<(), Fail> {
    let mut region = env.get_array_critical(first)?;
    let nested = region.nest_array(second);
    region.release_all();
    assert_same!(rt; nested, Ok(1));
    assert_same!(rt; env.get_array_length(first), Ok(2));
    Ok(())
}

/// A weak reference becomes a local and a global one, and a region over the array ends with both its levels.
fn becomes_strong<S: Steps>(rt: &impl Abort, env: &mut Env<S>, array: Handle) -> Result<(), Fail> {
    let weak = made(env.new_weak_global_ref(array))?;
    let local = made(env.upgrade_local(weak))?;
    let global = made(env.upgrade_global(weak))?;
    has_type(env, local, 1)?;
    has_type(env, global, 2)?;
    ends_with_both(rt, env, local, global)
}

/// The numbers of an array are turned round in a copy, which is released.
fn is_turned_round<S: Steps>(
    rt: &impl Abort,
    alloc: Global,
    env: &mut Env<S>,
    array: Handle,
) -> Result<(), Fail> {
    env.set_array_region(array, 0, &[1, 2])?;
    let count = with_array_elements(
        env,
        alloc,
        array,
        Mode::Copy,
        Patience::LONG,
        |numbers: &mut [i32]| {
            numbers.reverse();
            numbers.len()
        },
    )
    .map_err(|unreleased| unreleased.fault())?;
    assert_same!(rt; count, 2);
    Ok(())
}

/// A stay and two regions are opened with patience.
fn are_opened<S: Steps>(rt: &impl Abort, env: &mut Env<S>, array: Handle) -> Result<(), Fail> {
    let mut stay = env.retry_stay(Patience::LONG)?;
    let string = stay.new_string(&[104]);
    stay.end();
    let mut region = env.retry_array_critical(array, Patience::LONG)?;
    let first = region.get::<i32>(0, 0);
    region.release_all();
    let mut region = env.retry_string_critical(string?, Patience::LONG)?;
    let unit = region.get::<u16>(0, 0);
    region.release_all();
    assert_same!(rt; first, Ok(2));
    assert_same!(rt; unit, Ok(104));
    Ok(())
}

/// Tries these calls.
#[derive(Drop)]
struct MadeOfOthers;

impl<R: Abort> EnvTest<R> for MadeOfOthers {
    fn run<S: Steps>(self, rt: &R, alloc: Global, env: &mut Env<S>) -> Result<(), Fail> {
        leaves_its_frame(env)?;
        hands_on_from_its_frame(rt, env)?;
        let array = env.new_array::<i32>(2)?;
        is_turned_round(rt, alloc, env, array)?;
        are_opened(rt, env, array)?;
        becomes_strong(rt, env, array)
    }
}

#[test]
fn calls_are_made_of_others(rt: HostRuntime) -> Result<(), Fail> {
    alone(&rt, rt.alloc(), SIZES, MadeOfOthers)
}
