//! The calls that the floor has not: numbers, what is done about a refusal where none comes, and callers over an env.

use crate::calls::{LONG, TimedCall, make_each};
use crate::case::Env;
use jr_env::calls::GetArrayLength;
use jr_env::{Handed, NativeInterface, Patience, call_beneath};
use jr_steps::Steps;
use jr_stressed::{Stress, Stressed};
use jr_word::{Fault, Handle};
use std::alloc::Global;

/// How often a call is made again.
const MORE: u64 = 3;

/// By what the stress draws.
const SEED: u64 = 7;

/// A stress that does nothing but draw.
const DRAWS: Stress = Stress {
    seed: SEED,
    collects_each: 0,
    refuses_each: 0,
    row_full: false,
    space_full: false,
    objects_full: false,
    raced: false,
    barred: false,
};

/// Which of these calls is made.
#[derive(Clone, Copy)]
pub(crate) enum OtherCase {
    Identity,
    WordsUsed,
    /// With a reference that is made before, and deleted behind.
    LocalCounts,
    /// Of a weak reference that is not cleared.
    DeleteCleared,
    /// Of a call that is not refused.
    RetryCollecting,
    /// By a closure over the env beneath.
    Beneath,
    /// Under a stress that only draws.
    Drawn,
    /// Under the usual stress: a collection before each fifth call, and one of four refused.
    Stressed,
}

impl OtherCase {
    /// Its name.
    pub(crate) fn name(self) -> &'static str {
        match self {
            OtherCase::Identity => "identity_of(global)",
            OtherCase::WordsUsed => "words_used",
            OtherCase::LocalCounts => "new_local_ref,local_counts,delete_local_ref",
            OtherCase::DeleteCleared => "delete_cleared(standing)",
            OtherCase::RetryCollecting => "retry_collecting(get_array_length)",
            OtherCase::Beneath => "call_beneath(get_array_length)",
            OtherCase::Drawn => "stressed_by_draws(get_array_length)",
            OtherCase::Stressed => "stressed(get_array_length)",
        }
    }

    /// Makes the call with each of the handles: how often it answered as it should.
    pub(crate) fn make_all<S: Steps>(
        self,
        env: &mut Env<S>,
        alloc: Global,
        handed: &[Handle],
    ) -> usize {
        match self {
            OtherCase::Identity => make_each(env, handed, Identity),
            OtherCase::WordsUsed => make_each(env, handed, WordsUsed),
            OtherCase::LocalCounts => make_each(env, handed, LocalCounts),
            OtherCase::DeleteCleared => make_each(env, handed, DeleteCleared),
            OtherCase::RetryCollecting => retry_each(env, alloc, handed),
            OtherCase::Beneath => make_each(env, handed, Beneath),
            OtherCase::Drawn => stress_each(env, alloc, handed, DRAWS),
            OtherCase::Stressed => stress_each(env, alloc, handed, Stress::of(SEED)),
        }
    }
}

/// The identity of what a reference names.
#[derive(Clone, Copy)]
struct Identity;

impl<S: Steps> TimedCall<S, Env<S>> for Identity {
    fn is_right(&self, env: &mut Env<S>, _first: Handle, at: Handle) -> bool {
        env.identity_of(at).is_ok()
    }
}

/// How many words are used.
#[derive(Clone, Copy)]
struct WordsUsed;

impl<S: Steps> TimedCall<S, Env<S>> for WordsUsed {
    fn is_right(&self, env: &mut Env<S>, _first: Handle, _at: Handle) -> bool {
        env.words_used().is_ok()
    }
}

/// How many local references stand. One is made and deleted, since the compiler counts but once where nothing changes.
#[derive(Clone, Copy)]
struct LocalCounts;

impl<S: Steps> TimedCall<S, Env<S>> for LocalCounts {
    fn is_right(&self, env: &mut Env<S>, _first: Handle, at: Handle) -> bool {
        let Ok(Some(local)) = env.new_local_ref(at) else {
            return false;
        };
        let counts = env.local_counts();
        env.delete_local_ref(local).is_ok() && counts.standing <= counts.given
    }
}

/// A weak reference that is not cleared stays.
#[derive(Clone, Copy)]
struct DeleteCleared;

impl<S: Steps> TimedCall<S, Env<S>> for DeleteCleared {
    fn is_right(&self, env: &mut Env<S>, _first: Handle, at: Handle) -> bool {
        matches!(env.delete_cleared(at, Patience::of(MORE)), Ok(false))
    }
}

/// A closure over the env asks how many elements an array has.
#[derive(Clone, Copy)]
struct Beneath;

impl<S: Steps> TimedCall<S, Env<S>> for Beneath {
    fn is_right(&self, env: &mut Env<S>, _first: Handle, at: Handle) -> bool {
        let length = |env: &mut Env<S>| env.get_array_length(at);
        matches!(
            call_beneath(env, "GetArrayLength", Handed::One(at), length),
            Ok(LONG)
        )
    }
}

/// Asks how many elements each array has, with a collection where the room is full: how often it was told.
fn retry_each<S: Steps>(env: &mut Env<S>, alloc: Global, handed: &[Handle]) -> usize {
    let Ok(mut marker) = env.marker(alloc) else {
        return 0;
    };
    let mut right = 0usize;
    for handle in handed {
        let length = GetArrayLength(*handle);
        if matches!(
            env.retry_collecting(&mut marker, length, Patience::of(MORE)),
            Ok(LONG)
        ) {
            right = right.saturating_add(1);
        }
    }
    right
}

/// Asks under a stress how many elements each array has: how often it was told, or refused as at a shut gate.
fn stress_each<S: Steps>(
    env: &mut Env<S>,
    alloc: Global,
    handed: &[Handle],
    plan: Stress,
) -> usize {
    let Ok(marker) = env.marker(alloc) else {
        return 0;
    };
    let mut stressed = Stressed::new(env, marker, plan);
    let mut right = 0usize;
    for handle in handed {
        if matches!(
            stressed.get_array_length(*handle),
            Ok(LONG) | Err(Fault::Barred)
        ) {
            right = right.saturating_add(1);
        }
    }
    right
}
