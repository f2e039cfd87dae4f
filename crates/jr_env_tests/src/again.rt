//! Calls that are made again, and one behind a collection, over plain words.

use assertions::assert_same;
use jr_env::calls::{DeleteLocalRef, NewArray, SetArrayRegion};
use jr_env::{Env, NativeInterface, Patience, with_patience};
use jr_fixtures::{EnvTest, alone, refusal};
use jr_steps::Steps;
use jr_weak::Marker;
use jr_word::{Config, Fault, Handle};
use std::alloc::Global;
use std::process::Abort;
use std::test::Fail;

/// Checks the two numbers of an array.
fn has_ints<S: Steps>(
    rt: &impl Abort,
    env: &mut Env<S>,
    array: Handle,
    wanted: [i32; 2],
) -> Result<(), Fail> {
    let mut numbers = [5, 5];
    env.get_array_region(array, 0, &mut numbers)?;
    assert_same!(rt; numbers, wanted);
    Ok(())
}

/// What a new array of so many numbers answers, behind a collection where no room is left. The marker is made for it.
fn array_behind<S: Steps>(
    alloc: Global,
    env: &mut Env<S>,
    length: u32,
) -> Result<Result<Handle, Fault>, Fault> {
    let mut marker = Marker::new(alloc, env.held.steps.config())?;
    Ok(env.retry_collecting(&mut marker, NewArray::<i32>::of(length), Patience::of(3)))
}

/// A room of two objects and four words.
const FEW: Config = Config {
    objects: 2,
    words: 4,
    ..Config::LEAST
};

/// An array that leaves too few words for another. The reference to it is deleted.
fn fill<S: Steps>(rt: &impl Abort, env: &mut Env<S>) -> Result<(), Fail> {
    let first = env.retry(NewArray::<i32>::of(3), Patience::of(0))?;
    let full = env.retry(NewArray::<i32>::of(2), Patience::of(3));
    assert_same!(rt; refusal(full), Some(Fault::SpaceFull(3)));
    env.retry(DeleteLocalRef(first), Patience::of(3))?;
    Ok(())
}

/// An array is written, and the reference to it deleted.
fn write<S: Steps>(rt: &impl Abort, env: &mut Env<S>, array: Handle) -> Result<(), Fail> {
    env.retry(SetArrayRegion(array, 1, &[7]), Patience::of(0))?;
    has_ints(rt, env, array, [0, 7])?;
    env.retry(DeleteLocalRef(array), Patience::of(3))?;
    Ok(())
}

/// An array is made where there is room, and behind a collection where there is none, or not at all.
#[derive(Drop)]
struct MadeBehind;

impl<R: Abort> EnvTest<R> for MadeBehind {
    fn run<S: Steps>(self, rt: &R, alloc: Global, env: &mut Env<S>) -> Result<(), Fail> {
        fill(rt, env)?;
        let second = array_behind(alloc, env, 2)??;
        write(rt, env, second)?;
        let third = array_behind(alloc, env, 5)?;
        assert_same!(rt; refusal(third), Some(Fault::SpaceFull(0)));
        Ok(())
    }
}

#[test]
fn an_array_is_made_behind_a_collection(rt: HostRuntime) -> Result<(), Fail> {
    alone(&rt, rt.alloc(), FEW, MadeBehind)
}

/// Counts a call, which is refused so often before it answers how often it was made.
fn counted(calls: &mut u32, refusals: u32, fault: Fault) -> Result<u32, Fault> {
    *calls = calls.wrapping_add(1);
    if *calls > refusals {
        Ok(*calls)
    } else {
        Err(fault)
    }
}

/// Checks what comes of a closure that is refused so often before it answers how often it was called, and how often that was.
fn is_called(
    rt: &impl Abort,
    patience: Patience,
    refusals: u32,
    fault: Fault,
    wanted: Result<u32, Fault>,
    times: u32,
) {
    let mut calls = 0u32;
    let answer = with_patience(
        &mut calls,
        patience,
        |calls| counted(calls, refusals, fault),
    );
    assert_same!(rt; answer, wanted; at (refusals, fault));
    assert_same!(rt; calls, times; at (refusals, fault));
}

#[test]
fn a_closure_is_called_again(rt: HostRuntime) {
    let (few, barred, full) = (Patience::of(3), Fault::Barred, Fault::ObjectsFull);
    is_called(&rt, few, 0, barred, Ok(1), 1);
    is_called(&rt, few, 3, barred, Ok(4), 4);
    is_called(&rt, few, 4, barred, Err(barred), 4);
    is_called(&rt, few, 1, full, Err(full), 1);
    is_called(&rt, few.waiting_for_room(), 1, full, Ok(2), 2);
    let stale = Fault::Stale;
    is_called(&rt, few.without_yields(), 9, stale, Err(stale), 1);
    assert_same!(&rt; Patience::LONG.more, 4_194_304);
}
