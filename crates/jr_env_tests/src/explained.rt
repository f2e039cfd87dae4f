//! What words are told to be, as references are made, cleared and deleted.

use crate::references::TWO;
use assertions::assert_same;
use jr_env::{Env, Explanation, NativeInterface};
use jr_fixtures::{EnvTest, alone, made};
use jr_steps::Steps;
use jr_word::{Handle, Kind, RefKind};
use std::alloc::Global;
use std::process::Abort;
use std::test::Fail;

/// Checks what a word is told to be.
fn is_told<S: Steps>(
    rt: &impl Abort,
    env: &mut Env<S>,
    word: Handle,
    wanted: Explanation,
) -> Result<(), Fail> {
    assert_same!(rt; env.explain(word)?, wanted; at word);
    Ok(())
}

/// Checks that a word is told to be of a reference that stands.
fn stands<S: Steps>(
    rt: &impl Abort,
    env: &mut Env<S>,
    word: Handle,
    kind: RefKind,
    object: Option<Kind>,
) -> Result<(), Fail> {
    is_told(rt, env, word, Explanation::Standing { kind, object })
}

/// Checks words of a room of two threads, four slots and sixteen local places, in which nothing has stood yet.
fn told_of_none<S: Steps>(rt: &impl Abort, env: &mut Env<S>) -> Result<(), Fail> {
    let rows = [
        (Handle::NULL, Explanation::Null),
        (Handle(u64::MAX), Explanation::Malformed),
        // A fifth slot, a seventeenth place, a third thread, and the first place of the second.
        (Handle(0x10_0000_0002), Explanation::Outside),
        (Handle(0x40_0000_0001), Explanation::Outside),
        (Handle(0x8_0000_0000_0001), Explanation::Outside),
        (Handle(0x4_0000_0000_0001), Explanation::Foreign),
        // The first local, global and weak reference.
        (Handle(1), Explanation::NotGiven),
        (Handle(2), Explanation::NotGiven),
        (Handle(3), Explanation::NotGiven),
    ];
    for (word, told) in rows {
        is_told(rt, env, word, told)?;
    }
    Ok(())
}

/// Checks the words of a slot whose reference is deleted, by both kinds, and the words that it gives next.
fn told_of_gone<S: Steps>(rt: &impl Abort, env: &mut Env<S>, word: Handle) -> Result<(), Fail> {
    is_told(rt, env, word, Explanation::Gone)?;
    is_told(rt, env, Handle(word.0 ^ 1), Explanation::Gone)?;
    is_told(
        rt,
        env,
        Handle(word.0.wrapping_add(4)),
        Explanation::NotGiven,
    )
}

/// What a word is told to be in a stay.
fn told_in_stay<S: Steps>(env: &mut Env<S>, word: Handle) -> Result<Explanation, Fail> {
    let mut stay = env.stay()?;
    let told = stay.explain(word);
    stay.end();
    Ok(told?)
}

/// Each word is told to be what it is.
#[derive(Drop)]
struct AreExplained;

impl<R: Abort> EnvTest<R> for AreExplained {
    fn run<S: Steps>(self, rt: &R, alloc: Global, env: &mut Env<S>) -> Result<(), Fail> {
        told_of_none(rt, env)?;
        let string = env.new_string(&[7])?;
        let weak = made(env.new_weak_global_ref(string))?;
        let array = env.new_array::<i32>(2)?;
        let global = made(env.new_global_ref(array))?;
        stands(rt, env, string, RefKind::Local, Some(Kind::Text))?;
        stands(rt, env, weak, RefKind::Weak, Some(Kind::Text))?;
        stands(rt, env, global, RefKind::Global, Some(Kind::Int))?;
        is_told(rt, env, Handle(weak.0 ^ 1), Explanation::OtherKind)?;
        is_told(rt, env, Handle(global.0 ^ 1), Explanation::OtherKind)?;
        env.delete_local_ref(string)?;
        is_told(rt, env, string, Explanation::Gone)?;
        let mut marker = env.marker(alloc)?;
        env.collect(&mut marker)?;
        stands(rt, env, weak, RefKind::Weak, None)?;
        env.delete_weak_global_ref(weak)?;
        env.delete_global_ref(global)?;
        told_of_gone(rt, env, weak)?;
        told_of_gone(rt, env, global)?;
        assert_same!(rt; told_in_stay(env, global)?, Explanation::Gone);
        Ok(())
    }
}

#[test]
fn each_word_is_told_what_it_is(rt: HostRuntime) -> Result<(), Fail> {
    alone(&rt, rt.alloc(), TWO, AreExplained)
}
