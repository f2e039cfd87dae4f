//! The calls that copy elements out and back.

use crate::calls::{TimedCall, make_each};
use crate::case::Env;
use jr_elements::discard_left;
use jr_env::NativeInterface;
use jr_model::Mode;
use jr_steps::Steps;
use jr_word::Handle;
use std::alloc::Global;

/// Which copies are made.
#[derive(Clone, Copy)]
pub(crate) enum CopyCase {
    /// Of all elements of an array of so many, which are released with a copy back.
    Back(u32),
    /// The same, where they are committed first and then given up.
    Committed(u32),
    /// Of all units of a string.
    Text,
}

/// How many units the string has.
const UNITS: usize = 64;

impl CopyCase {
    /// Its name.
    pub(crate) fn name(self) -> &'static str {
        match self {
            CopyCase::Back(64) => "get_array_elements(64),release_array_elements(copy)",
            CopyCase::Back(_) => "get_array_elements(4096),release_array_elements(copy)",
            CopyCase::Committed(64) => {
                "get_array_elements(64),release_array_elements(commit),release_array_elements(abort)"
            }
            CopyCase::Committed(_) => {
                "get_array_elements(4096),release_array_elements(commit),release_array_elements(abort)"
            }
            CopyCase::Text => "get_string_chars(64)",
        }
    }

    /// The array or string at which the calls are made.
    pub(crate) fn array<S: Steps>(self, env: &mut Env<S>) -> Option<Handle> {
        match self {
            CopyCase::Back(length) | CopyCase::Committed(length) => {
                env.new_array::<i32>(length).ok()
            }
            CopyCase::Text => env.new_string(&[0; UNITS]).ok(),
        }
    }

    /// Makes the calls with each of the handles: how often they answered as they should.
    pub(crate) fn make_all<S: Steps>(
        self,
        env: &mut Env<S>,
        alloc: Global,
        handed: &[Handle],
    ) -> usize {
        match self {
            CopyCase::Back(_) => make_each(env, handed, Back(alloc)),
            CopyCase::Committed(_) => make_each(env, handed, Committed(alloc)),
            CopyCase::Text => make_each(env, handed, Text(alloc)),
        }
    }
}

/// All elements are copied out, and back.
#[derive(Clone, Copy)]
struct Back(Global);

impl<S: Steps> TimedCall<S, Env<S>> for Back {
    fn is_right(&self, env: &mut Env<S>, _first: Handle, at: Handle) -> bool {
        copy_back(env, self.0, at).is_some()
    }
}

/// All elements are copied out, committed and given up.
#[derive(Clone, Copy)]
struct Committed(Global);

impl<S: Steps> TimedCall<S, Env<S>> for Committed {
    fn is_right(&self, env: &mut Env<S>, _first: Handle, at: Handle) -> bool {
        commit(env, self.0, at).is_some()
    }
}

/// All units of a string are copied out.
#[derive(Clone, Copy)]
struct Text(Global);

impl<S: Steps> TimedCall<S, Env<S>> for Text {
    fn is_right(&self, env: &mut Env<S>, _first: Handle, at: Handle) -> bool {
        env.get_string_chars(self.0, at).is_ok()
    }
}

/// Copies all elements out, and back.
fn copy_back<S: Steps>(env: &mut Env<S>, alloc: Global, array: Handle) -> Option<()> {
    let elements = env.get_array_elements::<i32>(alloc, array).ok()?;
    discard_left(env.release_array_elements(array, elements, Mode::Copy)).ok()
}

/// Copies all elements out, commits them, and gives them up.
fn commit<S: Steps>(env: &mut Env<S>, alloc: Global, array: Handle) -> Option<()> {
    let elements = env.get_array_elements::<i32>(alloc, array).ok()?;
    match env.release_array_elements(array, elements, Mode::Commit) {
        Ok(Some(kept)) => discard_left(env.release_array_elements(array, kept, Mode::Abort)).ok(),
        Ok(None) => None,
        Err((elements, _)) => {
            elements.discard();
            None
        }
    }
}
