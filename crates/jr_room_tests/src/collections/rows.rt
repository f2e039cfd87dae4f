//! The words that a collection leaves.

use crate::plain::leaves_words;
use jr_env::{Env, NativeInterface};
use jr_fixtures::{EnvTest, collects, made};
use jr_steps::Steps;
use jr_word::Config;
use std::alloc::Global;
use std::process::Abort;
use std::test::Fail;

/// A room with two slots, two objects and eight words. Its row has 30 words: the gate, the top, the slots from 2 on, the local places from 4 on, the headers from 20 on, and the elements from 22 on.
const PAIR: Config = Config {
    threads: 1,
    slots: 2,
    objects: 2,
    words: 8,
    locals: 16,
};

/// Makes two arrays, of which no reference but a weak one names the first.
fn fills<S: Steps>(env: &mut Env<S>) -> Result<(), Fail> {
    let gone = env.new_array::<i32>(1)?;
    env.set_array_region(gone, 0, &[9])?;
    made(env.new_weak_global_ref(gone))?;
    let kept = env.new_array::<i64>(2)?;
    env.set_array_region(kept, 0, &[5i64, -6])?;
    env.delete_local_ref(gone)?;
    Ok(())
}

/// They are made.
#[derive(Drop)]
struct Filled;

impl<R: Abort> EnvTest<R> for Filled {
    fn run<S: Steps>(self, _rt: &R, _alloc: Global, env: &mut Env<S>) -> Result<(), Fail> {
        fills(env)
    }
}

/// They are made, and a collection behind it.
#[derive(Drop)]
struct FilledAndCollected;

impl<R: Abort> EnvTest<R> for FilledAndCollected {
    fn run<S: Steps>(self, _rt: &R, alloc: Global, env: &mut Env<S>) -> Result<(), Fail> {
        fills(env)?;
        collects(alloc, env, [1, 1, 2])
    }
}

/// The weak reference is cleared and its array dropped, and the other array has moved by one place, over its own elements. What stood behind them is left, and is no array's.
#[test]
fn a_collection_leaves_these_words(rt: HostRuntime) -> Result<(), Fail> {
    let mut row = [0; 30];
    row[1] = 3;
    row[2] = 0x4_0000_0003;
    row[5] = 2;
    row[20] = 0x16;
    row[21] = 0x1000_0027;
    row[22] = 9;
    row[23] = 5;
    row[24] = 0xFFFF_FFFF_FFFF_FFFA;
    leaves_words(&rt, rt.alloc(), PAIR, &row, Filled)?;
    row[1] = 2;
    row[2] = 3;
    row[20] = 0;
    row[21] = 0x27;
    row[22] = 5;
    row[23] = 0xFFFF_FFFF_FFFF_FFFA;
    leaves_words(&rt, rt.alloc(), PAIR, &row, FilledAndCollected)
}
