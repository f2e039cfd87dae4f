//! The calls, of which each is a type: so the loop that makes it is a loop of its own.

use crate::case::FrameCase;
use jr_env::{Env, NativeInterface};
use jr_steps::Steps;
use jr_word::Handle;

/// How many local references a frame is asked to have room for.
const CAPACITY: u32 = 16;

/// How many elements the array has whose length is told.
pub(crate) const LONG: u32 = 4_096;

/// A call, or some that belong together, by an env or another who makes them over the same steps.
pub(crate) trait TimedCall<S: Steps, N> {
    /// Makes it, with the first handle and another one: whether it answered as it should.
    fn is_right(&self, made: &mut N, first: Handle, at: Handle) -> bool;
}

/// A call that is made by an env, in a stay, and by each of them with a watcher.
pub(crate) trait AnyCall {
    /// Makes it, with the first handle and another one: whether it answered as it should.
    fn is_right_by<S: Steps, N: NativeInterface<S>>(
        &self,
        made: &mut N,
        first: Handle,
        at: Handle,
    ) -> bool;
}

/// Such a call as a part of the loop that makes it.
#[derive(Clone, Copy)]
pub(crate) struct Inline<C>(pub(crate) C);

impl<S: Steps, N: NativeInterface<S>, C: AnyCall> TimedCall<S, N> for Inline<C> {
    #[inline(always)]
    fn is_right(&self, made: &mut N, first: Handle, at: Handle) -> bool {
        self.0.is_right_by(made, first, at)
    }
}

/// Such a call as a function of its own and no part of the loop that makes it, as none is of native code.
#[derive(Clone, Copy)]
pub(crate) struct Apart<C>(pub(crate) C);

impl<S: Steps, N: NativeInterface<S>, C: AnyCall> TimedCall<S, N> for Apart<C> {
    #[inline(never)]
    fn is_right(&self, made: &mut N, first: Handle, at: Handle) -> bool {
        self.0.is_right_by(made, first, at)
    }
}

/// Makes a call with one handle and each of some: how often it answered as it should.
#[inline(always)]
pub(crate) fn make_some<S: Steps, N, C: TimedCall<S, N> + Copy>(
    made: &mut N,
    first: Handle,
    handed: &[Handle],
    call: C,
) -> usize {
    let mut right = 0;
    for handle in handed {
        if call.is_right(made, first, *handle) {
            right += 1;
        }
    }
    right
}

/// Makes a call with the first handle and each of them: how often it answered as it should.
pub(crate) fn make_each<S: Steps, N, C: TimedCall<S, N> + Copy>(
    made: &mut N,
    handed: &[Handle],
    call: C,
) -> usize {
    match handed.first() {
        Some(first) => make_some(made, *first, handed, call),
        None => 0,
    }
}

/// What NULL is.
#[derive(Clone, Copy)]
pub(crate) struct TypeOfNull;

impl AnyCall for TypeOfNull {
    #[inline(always)]
    fn is_right_by<S: Steps, N: NativeInterface<S>>(
        &self,
        made: &mut N,
        _first: Handle,
        at: Handle,
    ) -> bool {
        matches!(made.get_object_ref_type(at), Ok(0))
    }
}

/// What a global reference is.
#[derive(Clone, Copy)]
pub(crate) struct TypeOfGlobal;

impl AnyCall for TypeOfGlobal {
    #[inline(always)]
    fn is_right_by<S: Steps, N: NativeInterface<S>>(
        &self,
        made: &mut N,
        _first: Handle,
        at: Handle,
    ) -> bool {
        matches!(made.get_object_ref_type(at), Ok(2))
    }
}

/// A global reference.
#[derive(Clone, Copy)]
pub(crate) struct NewGlobal;

impl AnyCall for NewGlobal {
    #[inline(always)]
    fn is_right_by<S: Steps, N: NativeInterface<S>>(
        &self,
        made: &mut N,
        _first: Handle,
        at: Handle,
    ) -> bool {
        matches!(made.new_global_ref(at), Ok(Some(_)))
    }
}

/// A global reference is deleted.
#[derive(Clone, Copy)]
pub(crate) struct DeleteGlobal;

impl AnyCall for DeleteGlobal {
    #[inline(always)]
    fn is_right_by<S: Steps, N: NativeInterface<S>>(
        &self,
        made: &mut N,
        _first: Handle,
        at: Handle,
    ) -> bool {
        made.delete_global_ref(at).is_ok()
    }
}

/// A local reference.
#[derive(Clone, Copy)]
pub(crate) struct NewLocal;

impl AnyCall for NewLocal {
    #[inline(always)]
    fn is_right_by<S: Steps, N: NativeInterface<S>>(
        &self,
        made: &mut N,
        _first: Handle,
        at: Handle,
    ) -> bool {
        matches!(made.new_local_ref(at), Ok(Some(_)))
    }
}

/// A local reference is deleted.
#[derive(Clone, Copy)]
pub(crate) struct DeleteLocal;

impl AnyCall for DeleteLocal {
    #[inline(always)]
    fn is_right_by<S: Steps, N: NativeInterface<S>>(
        &self,
        made: &mut N,
        _first: Handle,
        at: Handle,
    ) -> bool {
        made.delete_local_ref(at).is_ok()
    }
}

/// Whether two references name one object.
#[derive(Clone, Copy)]
pub(crate) struct Same;

impl AnyCall for Same {
    #[inline(always)]
    fn is_right_by<S: Steps, N: NativeInterface<S>>(
        &self,
        made: &mut N,
        first: Handle,
        at: Handle,
    ) -> bool {
        matches!(made.is_same_object(first, at), Ok(true))
    }
}

/// How many elements an array has.
#[derive(Clone, Copy)]
pub(crate) struct Length;

impl AnyCall for Length {
    #[inline(always)]
    fn is_right_by<S: Steps, N: NativeInterface<S>>(
        &self,
        made: &mut N,
        _first: Handle,
        at: Handle,
    ) -> bool {
        matches!(made.get_array_length(at), Ok(LONG))
    }
}

/// A plain object.
#[derive(Clone, Copy)]
pub(crate) struct NewPlain;

impl<S: Steps> TimedCall<S, Env<S>> for NewPlain {
    fn is_right(&self, env: &mut Env<S>, _first: Handle, _at: Handle) -> bool {
        env.new_plain().is_ok()
    }
}

/// A weak global reference.
#[derive(Clone, Copy)]
pub(crate) struct NewWeak;

impl<S: Steps> TimedCall<S, Env<S>> for NewWeak {
    fn is_right(&self, env: &mut Env<S>, _first: Handle, at: Handle) -> bool {
        matches!(env.new_weak_global_ref(at), Ok(Some(_)))
    }
}

/// A weak global reference is deleted.
#[derive(Clone, Copy)]
pub(crate) struct DeleteWeak;

impl<S: Steps> TimedCall<S, Env<S>> for DeleteWeak {
    fn is_right(&self, env: &mut Env<S>, _first: Handle, at: Handle) -> bool {
        env.delete_weak_global_ref(at).is_ok()
    }
}

/// A frame without references.
#[derive(Clone, Copy)]
struct Empty;

impl<S: Steps> TimedCall<S, Env<S>> for Empty {
    fn is_right(&self, env: &mut Env<S>, _first: Handle, at: Handle) -> bool {
        env.ensure_local_capacity(CAPACITY).is_ok()
            && env.push_local_frame(CAPACITY).is_ok()
            && matches!(env.pop_local_frame(at), Ok(None))
    }
}

/// A frame of four references.
#[derive(Clone, Copy)]
struct OfFour;

impl<S: Steps> TimedCall<S, Env<S>> for OfFour {
    fn is_right(&self, env: &mut Env<S>, _first: Handle, at: Handle) -> bool {
        frame_of_four(env, at).is_some()
    }
}

/// A local reference, and all are freed.
#[derive(Clone, Copy)]
struct FreeOne;

impl<S: Steps> TimedCall<S, Env<S>> for FreeOne {
    fn is_right(&self, env: &mut Env<S>, _first: Handle, at: Handle) -> bool {
        matches!(env.new_local_ref(at), Ok(Some(_))) && env.free_locals().is_ok()
    }
}

impl FrameCase {
    /// Makes the calls with each of the handles: how often they answered as they should.
    pub(crate) fn make_all<S: Steps>(self, env: &mut Env<S>, handed: &[Handle]) -> usize {
        match self {
            FrameCase::Empty => make_each(env, handed, Empty),
            FrameCase::OfFour => make_each(env, handed, OfFour),
            FrameCase::FreeOne => make_each(env, handed, FreeOne),
        }
    }
}

/// A frame with four local references to what a reference names, whose result is one more and is deleted.
fn frame_of_four<S: Steps>(env: &mut Env<S>, handle: Handle) -> Option<()> {
    env.push_local_frame(CAPACITY).ok()?;
    for _ in 0..4 {
        env.new_local_ref(handle).ok()??;
    }
    let kept = env.pop_local_frame(handle).ok()??;
    env.delete_local_ref(kept).ok()
}
