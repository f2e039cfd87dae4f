//! Chains of as many arrays as there may be, each of which names the one before, followed without recursion.

use jr_env::{Env, NativeInterface};
use jr_fixtures::{EnvTest, alone, collects, has_type, made};
use jr_steps::Steps;
use jr_word::{Config, Handle};
use std::alloc::Global;
use std::process::Abort;
use std::test::Fail;

/// How many arrays a chain has.
const LINKS: u32 = 60_000;

/// A room for one chain.
const LONG: Config = Config {
    threads: 1,
    slots: 4,
    objects: LINKS,
    words: LINKS,
    locals: 16,
};

/// The last of a chain of arrays of one element, each of which names the one before, from the first one on.
fn chain<S: Steps>(env: &mut Env<S>, first: Handle, links: u32) -> Result<Handle, Fail> {
    let mut last = first;
    for _ in 1..links {
        let next = env.new_object_array(1, last)?;
        env.delete_local_ref(last)?;
        last = next;
    }
    Ok(last)
}

/// Lets the first of a chain name the last, so that each is reached from each.
fn close<S: Steps>(env: &mut Env<S>, first: Handle, last: Handle) -> Result<(), Fail> {
    env.set_object_array_element(first, 0, last)?;
    env.delete_local_ref(last)?;
    let found = made(env.get_object_array_element(first, 0))?;
    env.delete_local_ref(found)?;
    Ok(())
}

/// A chain stands while its last is named, and is dropped then.
#[derive(Drop)]
struct ReachesAChain;

impl<R: Abort> EnvTest<R> for ReachesAChain {
    fn run<S: Steps>(self, _rt: &R, alloc: Global, env: &mut Env<S>) -> Result<(), Fail> {
        let first = env.new_object_array(1, Handle::NULL)?;
        let last = chain(env, first, LINKS)?;
        collects(alloc, env, [0, 0, 60_000])?;
        env.delete_local_ref(last)?;
        collects(alloc, env, [0, 60_000, 0])
    }
}

#[test]
fn a_chain_is_reached_from_its_last(rt: HostRuntime) -> Result<(), Fail> {
    alone(&rt, rt.alloc(), LONG, ReachesAChain)
}

/// A cycle stands while one of it is named, and is dropped then.
#[derive(Drop)]
struct ReachesACycle;

impl<R: Abort> EnvTest<R> for ReachesACycle {
    fn run<S: Steps>(self, _rt: &R, alloc: Global, env: &mut Env<S>) -> Result<(), Fail> {
        let first = env.new_object_array(1, Handle::NULL)?;
        let kept = made(env.new_global_ref(first))?;
        let word = made(env.new_weak_global_ref(first))?;
        let last = chain(env, first, LINKS)?;
        close(env, kept, last)?;
        collects(alloc, env, [0, 0, 60_000])?;
        env.delete_global_ref(kept)?;
        collects(alloc, env, [1, 60_000, 0])?;
        has_type(env, word, 3)
    }
}

#[test]
fn a_cycle_is_reached_from_any_and_else_dropped(rt: HostRuntime) -> Result<(), Fail> {
    alone(&rt, rt.alloc(), LONG, ReachesACycle)
}
