//! Numbers that an env tells: local references, frames and places, and words of array space that are used.

use assertions::assert_same;
use jr_env::{Env, LocalCounts, NativeInterface};
use jr_fixtures::{EnvTest, alone, collects, made};
use jr_steps::Steps;
use jr_word::Config;
use std::alloc::Global;
use std::process::Abort;
use std::test::Fail;

/// A room with 16 local places, and 8 words of array space.
const SIZES: Config = Config {
    objects: 8,
    words: 8,
    ..Config::LEAST
};

/// Checks the numbers of frames, of references that stand, of free places and of those that were given.
fn have<S: Steps>(rt: &impl Abort, env: &Env<S>, frames: usize, numbers: [u16; 3]) {
    let [standing, free, given] = numbers;
    let wanted = LocalCounts {
        frames,
        standing,
        free,
        given,
    };
    assert_same!(rt; env.local_counts(), wanted);
    assert_same!(rt; env.held.frames.free_places(), u32::from(free));
}

/// References are counted as they are made and deleted, in two frames; the most that stood stays told.
fn count_locals<S: Steps>(rt: &impl Abort, env: &mut Env<S>) -> Result<(), Fail> {
    have(rt, env, 1, [0, 16, 0]);
    let object = env.new_plain()?;
    let second = made(env.new_local_ref(object))?;
    have(rt, env, 1, [2, 14, 2]);
    env.push_local_frame(2)?;
    let upper = made(env.new_local_ref(object))?;
    made(env.new_local_ref(object))?;
    have(rt, env, 2, [4, 12, 4]);
    env.delete_local_ref(second)?;
    env.delete_local_ref(upper)?;
    have(rt, env, 2, [2, 14, 4]);
    made(env.new_local_ref(object))?;
    have(rt, env, 2, [3, 13, 4]);
    env.pop_local_frame(object)?;
    have(rt, env, 1, [2, 14, 4]);
    env.free_locals()?;
    have(rt, env, 1, [0, 16, 4]);
    Ok(())
}

/// Words are used as they are reserved, until a collection.
fn count_words<S: Steps>(rt: &impl Abort, alloc: Global, env: &mut Env<S>) -> Result<(), Fail> {
    assert_same!(rt; env.words_used()?, 0);
    let array = env.new_array::<i64>(3)?;
    env.new_string(&[104, 105])?;
    assert_same!(rt; env.words_used()?, 5);
    env.delete_local_ref(array)?;
    assert_same!(rt; env.words_used()?, 5);
    // (the array, and the plain object whose local references were counted)
    collects(alloc, env, [0, 2, 2])?;
    assert_same!(rt; env.words_used()?, 2);
    Ok(())
}

#[derive(Drop)]
struct TellsNumbers;

impl<R: Abort> EnvTest<R> for TellsNumbers {
    fn run<S: Steps>(self, rt: &R, alloc: Global, env: &mut Env<S>) -> Result<(), Fail> {
        count_locals(rt, env)?;
        count_words(rt, alloc, env)
    }
}

#[test]
fn numbers_are_told(rt: HostRuntime) -> Result<(), Fail> {
    alone(&rt, rt.alloc(), SIZES, TellsNumbers)
}
