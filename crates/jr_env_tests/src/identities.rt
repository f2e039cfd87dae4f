//! An object's identity: its references share it, of two threads too, two objects don't, and a collection that moves the object leaves it.

use assertions::assert_same;
use jr_env::{Env, NativeInterface};
use jr_fixtures::{EnvTest, LAST, NoPass, alone, collects, made, next_env, refusal};
use jr_rule::Room;
use jr_steps::Steps;
use jr_word::{Config, Fault, Handle};
use std::alloc::Global;
use std::process::Abort;
use std::test::Fail;

/// A room of two threads.
const TWO: Config = Config {
    threads: 2,
    slots: 4,
    objects: 8,
    words: 16,
    locals: 16,
};

/// Malformed: all ones.
const ONES: Handle = Handle(u64::MAX);

/// Local, of thread 1.
const FOREIGN: Handle = Handle(0x4_0000_0000_0001);

/// Two references have one identity, and are to one object; or neither.
fn compare<S: Steps>(
    rt: &impl Abort,
    env: &mut Env<S>,
    pair: [Handle; 2],
    wanted: bool,
) -> Result<(), Fail> {
    let [left, right] = pair;
    let one = env.identity_of(left)? == env.identity_of(right)?;
    assert_same!(rt; one, wanted; at pair);
    assert_same!(rt; env.is_same_object(left, right)?, wanted; at pair);
    Ok(())
}

/// References of each kind to one object share its identity, and no other object has it.
fn are_shared<S: Steps>(rt: &impl Abort, env: &mut Env<S>, array: Handle) -> Result<(), Fail> {
    let other = env.new_plain()?;
    let local = made(env.new_local_ref(array))?;
    let weak = made(env.new_weak_global_ref(array))?;
    let global = made(env.new_global_ref(weak))?;
    for word in [array, local, weak, global] {
        compare(rt, env, [array, word], true)?;
        compare(rt, env, [other, word], false)?;
    }
    env.delete_local_ref(other)?;
    env.delete_local_ref(local)?;
    env.delete_global_ref(global)?;
    env.delete_weak_global_ref(weak)?;
    assert_same!(rt; refusal(env.identity_of(weak)), Some(Fault::Stale));
    Ok(())
}

/// What has no identity.
fn are_refused<S: Steps>(rt: &impl Abort, env: &mut Env<S>) {
    let rows = [
        (Handle::NULL, Fault::Null),
        (ONES, Fault::Stale),
        (FOREIGN, Fault::Foreign),
    ];
    for (word, fault) in rows {
        assert_same!(rt; refusal(env.identity_of(word)), Some(fault); at word);
    }
}

/// A collection that drops an array moves the one behind it, and leaves that its identity. A weak reference that it clears has none.
fn are_kept<S: Steps>(rt: &impl Abort, alloc: Global, env: &mut Env<S>) -> Result<(), Fail> {
    are_refused(rt, env);
    let first = env.new_array::<i32>(3)?;
    let array = env.new_array::<i32>(2)?;
    env.set_array_region(array, 0, &[3, 4])?;
    are_shared(rt, env, array)?;
    let weak = made(env.new_weak_global_ref(first))?;
    let identity = env.identity_of(array)?;
    assert!(rt; env.identity_of(weak)? != identity);
    env.delete_local_ref(first)?;
    collects(alloc, env, [1, 2, 2])?;
    assert_same!(rt; env.identity_of(array)?, identity);
    assert_same!(rt; refusal(env.identity_of(weak)), Some(Fault::Null));
    let mut elements = [0; 2];
    env.get_array_region(array, 0, &mut elements)?;
    assert_same!(rt; elements, [3, 4]);
    let next = env.new_array::<i32>(1)?;
    assert!(rt; env.identity_of(next)? != identity);
    Ok(())
}

#[derive(Drop)]
struct KeepsIdentity;

impl<R: Abort> EnvTest<R> for KeepsIdentity {
    fn run<S: Steps>(self, rt: &R, alloc: Global, env: &mut Env<S>) -> Result<(), Fail> {
        are_kept(rt, alloc, env)
    }
}

#[test]
fn a_moved_object_keeps_its_identity(rt: HostRuntime) -> Result<(), Fail> {
    alone(&rt, rt.alloc(), TWO, KeepsIdentity)
}

/// What two threads are told of one object: the first by a local reference, the second by a global one.
fn told_to_two<S: Steps>(one: &mut Env<S>, other: &mut Env<S>) -> Result<[u16; 2], Fail> {
    let _before = one.new_plain()?;
    let text = one.new_string(&[104, 105])?;
    let global = made(one.new_global_ref(text))?;
    Ok([one.identity_of(text)?, other.identity_of(global)?])
}

/// Two threads are told one identity, where there is an env for each.
fn are_told_one<S: Steps + Drop>(
    rt: &impl Abort,
    one: Result<Env<S>, NoPass>,
    other: Result<Env<S>, NoPass>,
) -> Result<(), Fail> {
    let (mut one, mut other) = (one?, other?);
    let [first, second] = told_to_two(&mut one, &mut other)?;
    assert_same!(rt; first, second);
    Ok(())
}

#[test]
fn two_threads_are_told_one_identity(rt: HostRuntime) -> Result<(), Fail> {
    let (room, mut passes) = Room::<LAST>::open(rt.alloc(), TWO)?;
    let one = next_env(&room, &mut passes);
    let other = next_env(&room, &mut passes);
    are_told_one(&rt, one, other)
}
