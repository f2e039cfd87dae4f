//! One thread under stress, over plain words: which refusals come, and that collections do.

use jr::calls::{DeleteGlobalRef, DeleteLocalRef, NewArray, NewGlobalRef};
use jr::{Config, Env, Fault, Handle, NativeCall, NativeCaller, Steps, Stress, Stressed};
use jr_fixtures::{collected, plain_env};
use std::alloc::Global;
use std::process::Abort;
use std::test::Fail;

/// A room that fifty arrays of two elements don't fit in, unless what nothing reaches is collected.
const SMALL: Config = Config {
    slots: 16,
    objects: 32,
    words: 64,
    ..Config::LEAST
};

/// How often a call is made at the most.
const TRIES: u32 = 100;

/// How often each refusal came, by its number.
type Counts = [u32; 24];

/// Counts a refusal.
fn count(counts: &mut Counts, fault: Fault) {
    if let Some(count) = counts.get_mut(fault.number() as usize) {
        *count = count.wrapping_add(1);
    }
}

/// Makes a call until it isn't refused, and counts its refusals.
fn until_made<S: Steps, N: NativeCaller<S>, C: NativeCall<S> + Copy>(
    caller: &mut N,
    call: C,
    counts: &mut Counts,
) -> Result<C::Answer, Fault> {
    for _ in 0..TRIES {
        match caller.make(call) {
            Ok(made) => return Ok(made),
            Err(fault) => count(counts, fault),
        }
    }
    caller.make(call)
}

/// Makes an array and a global reference to it, and deletes both again.
fn come_and_go<S: Steps, N: NativeCaller<S>>(
    caller: &mut N,
    counts: &mut Counts,
) -> Result<(), Fault> {
    let array = until_made(caller, NewArray::<i32>::of(2), counts)?;
    let shared = until_made(caller, NewGlobalRef(array), counts)?;
    until_made(caller, DeleteGlobalRef(Handle::or_null(shared)), counts)?;
    until_made(caller, DeleteLocalRef(array), counts)
}

/// How often each refusal came to fifty arrays that come and go under stress.
fn stressed_counts<S: Steps>(
    alloc: Global,
    env: &mut Env<S>,
    plan: Stress,
) -> Result<Counts, Fault> {
    let marker = env.marker(alloc)?;
    let mut stressed = Stressed::new(env, marker, plan);
    let mut counts = [0; 24];
    for _ in 0..50 {
        come_and_go(&mut stressed, &mut counts)?;
    }
    Ok(counts)
}

/// The same in a room of its own, in which nothing is left.
fn counts_of(rt: &impl Abort, alloc: Global, plan: Stress) -> Result<Counts, Fail> {
    let mut env = plain_env(alloc, SMALL)?;
    let counts = stressed_counts(alloc, &mut env, plan)?;
    assert!(rt; collected(alloc, &mut env)?[2] == 0);
    Ok(counts)
}

/// Whether refusals of no other number came than E8, E10, E11, E12 and E13.
fn are_listed(counts: &Counts) -> bool {
    let listed = counts[8..14].iter().copied().fold(0u32, u32::wrapping_add);
    let all = counts.iter().copied().fold(0u32, u32::wrapping_add);
    counts[9] == 0 && listed == all
}

/// Each of the five refusals comes, and no other, and the room is collected often enough. By one seed the same refusals come again.
#[test]
fn each_refusal_comes(rt: HostRuntime) -> Result<(), Fail> {
    let mut all = [0u32; 24];
    for seed in 0..20 {
        let counts = counts_of(&rt, rt.alloc(), Stress::of(seed))?;
        assert!(rt; are_listed(&counts));
        assert!(rt; counts == counts_of(&rt, rt.alloc(), Stress::of(seed))?);
        for (sum, count) in all.iter_mut().zip(counts) {
            *sum = sum.wrapping_add(count);
        }
    }
    assert!(rt; all[8] > 0 && all[10] > 0 && all[11] > 0 && all[12] > 0 && all[13] > 0);
    Ok(())
}

/// A plan makes no refusal that it doesn't have.
#[test]
fn a_plan_has_its_refusals(rt: HostRuntime) -> Result<(), Fail> {
    let plan = Stress {
        row_full: false,
        raced: false,
        ..Stress::of(7)
    };
    let counts = counts_of(&rt, rt.alloc(), plan)?;
    assert!(rt; counts[8] == 0 && counts[12] == 0 && counts[13] > 0);
    Ok(())
}

/// Without collections the room is full after 32 arrays: E10, however often the call is made.
#[test]
fn nothing_collects_where_the_plan_does_not(rt: HostRuntime) -> Result<(), Fail> {
    let mut env = plain_env(rt.alloc(), SMALL)?;
    let plan = Stress {
        collects_each: 0,
        refuses_each: 0,
        ..Stress::of(7)
    };
    match stressed_counts(rt.alloc(), &mut env, plan) {
        Err(Fault::SpaceFull(64)) => Ok(()),
        other => Err(Fail::new(format_args!("it made fifty: {:?}", other?))),
    }
}
