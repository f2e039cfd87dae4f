//! What scripts can't show of frames: a capacity of 32 bits, and local references that are freed while their env goes on.

use assertions::assert_same;
use jr_env::{Env, NativeInterface};
use jr_fixtures::{EnvTest, alone, has_type, made, refusal};
use jr_steps::Steps;
use jr_word::{Config, Fault, Handle};
use std::alloc::Global;
use std::process::Abort;
use std::test::Fail;

/// That many places are free and no more: a capacity is ensured, and refused where one is missing.
pub(crate) fn are_free<S: Steps>(
    rt: &impl Abort,
    env: &mut Env<S>,
    places: u8,
) -> Result<(), Fail> {
    env.ensure_local_capacity(u32::from(places))?;
    for more in [u32::from(places) + 1, u32::MAX] {
        assert_same!(rt; refusal(env.ensure_local_capacity(more)), Some(Fault::LocalsFull); at more);
        assert_same!(rt; refusal(env.push_local_frame(more)), Some(Fault::LocalsFull); at more);
    }
    Ok(())
}

/// A local reference of the base frame, one that was deleted, and one of the third frame.
fn in_three_frames<S: Steps>(env: &mut Env<S>) -> Result<[Handle; 3], Fail> {
    let object = env.new_plain()?;
    let deleted = made(env.new_local_ref(object))?;
    env.push_local_frame(2)?;
    env.push_local_frame(2)?;
    let upper = made(env.new_local_ref(object))?;
    env.delete_local_ref(deleted)?;
    Ok([object, deleted, upper])
}

/// A local reference is freed.
fn is_freed<S: Steps>(rt: &impl Abort, env: &mut Env<S>, local: Handle) -> Result<(), Fail> {
    has_type(env, local, 0)?;
    assert_same!(rt; refusal(env.new_local_ref(local)), Some(Fault::Stale); at local);
    Ok(())
}

/// References of three frames are freed, all places are free again and the base frame alone is open, and those that are not local stand.
#[derive(Drop)]
struct FreesAll;

impl<R: Abort> EnvTest<R> for FreesAll {
    fn run<S: Steps>(self, rt: &R, _alloc: Global, env: &mut Env<S>) -> Result<(), Fail> {
        let locals = in_three_frames(env)?;
        let global = made(env.new_global_ref(locals[0]))?;
        env.free_locals()?;
        for local in locals {
            is_freed(rt, env, local)?;
        }
        are_free(rt, env, 16)?;
        assert_same!(rt; refusal(env.pop_local_frame(global)), Some(Fault::NoFrame));
        let again = made(env.new_local_ref(global))?;
        env.free_locals()?;
        env.free_locals()?;
        has_type(env, again, 0)?;
        has_type(env, global, 2)
    }
}

#[test]
fn locals_are_freed(rt: HostRuntime) -> Result<(), Fail> {
    alone(&rt, rt.alloc(), Config::LEAST, FreesAll)
}
