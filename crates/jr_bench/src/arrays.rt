//! The calls at arrays.

use crate::calls::{Inline, LONG, Length, TimedCall, make_each};
use crate::case::Env;
use jr_env::NativeInterface;
use jr_steps::Steps;
use jr_word::{Fault, Handle};

/// Which call at an array is made.
#[derive(Clone, Copy)]
pub(crate) enum ArrayCase {
    Length,
    CopyOut(usize),
    CopyIn(usize),
    Copy,
    New,
    GetElement,
    SetElement,
}

/// How many elements a new array has.
const SHORT: u32 = 16;

/// How many elements are copied from array to array.
const COPIED: usize = 64;

/// How often an array is made again where another thread was faster at its words.
const TRIES: u32 = 1_000;

impl ArrayCase {
    /// Its name.
    pub(crate) fn name(self) -> &'static str {
        match self {
            ArrayCase::Length => "get_array_length",
            ArrayCase::CopyOut(1) => "get_array_region(1)",
            ArrayCase::CopyOut(64) => "get_array_region(64)",
            ArrayCase::CopyOut(_) => "get_array_region(4096)",
            ArrayCase::CopyIn(1) => "set_array_region(1)",
            ArrayCase::CopyIn(64) => "set_array_region(64)",
            ArrayCase::CopyIn(_) => "set_array_region(4096)",
            ArrayCase::Copy => "copy_array(64)",
            ArrayCase::New => "new_array(16)",
            ArrayCase::GetElement => "get_object_array_element",
            ArrayCase::SetElement => "set_object_array_element",
        }
    }

    /// The array at which the call is made, whose elements are integers, or the one object.
    pub(crate) fn array<S: Steps>(self, env: &mut Env<S>, object: Handle) -> Option<Handle> {
        match self {
            ArrayCase::GetElement | ArrayCase::SetElement => env.new_object_array(1, object).ok(),
            _ => env.new_array::<i32>(LONG).ok(),
        }
    }

    /// Makes the call with each of the handles: how often it answered as it should.
    pub(crate) fn make_all<S: Steps>(self, env: &mut Env<S>, handed: &[Handle]) -> usize {
        match self {
            ArrayCase::Length => make_each(env, handed, Inline(Length)),
            ArrayCase::CopyOut(length) => copy_out_each(env, handed, length),
            ArrayCase::CopyIn(length) => copy_in_each(env, handed, length),
            ArrayCase::Copy => copy_each(env, handed),
            ArrayCase::New => make_each(env, handed, New),
            ArrayCase::GetElement => make_each(env, handed, GetElement),
            ArrayCase::SetElement => make_each(env, handed, SetElement),
        }
    }
}

/// A new array.
#[derive(Clone, Copy)]
struct New;

impl<S: Steps> TimedCall<S, Env<S>> for New {
    fn is_right(&self, env: &mut Env<S>, _first: Handle, _at: Handle) -> bool {
        is_made(env)
    }
}

/// An element of an array of references.
#[derive(Clone, Copy)]
struct GetElement;

impl<S: Steps> TimedCall<S, Env<S>> for GetElement {
    fn is_right(&self, env: &mut Env<S>, _first: Handle, at: Handle) -> bool {
        matches!(env.get_object_array_element(at, 0), Ok(Some(_)))
    }
}

/// An element of an array of references is set.
#[derive(Clone, Copy)]
struct SetElement;

impl<S: Steps> TimedCall<S, Env<S>> for SetElement {
    fn is_right(&self, env: &mut Env<S>, _first: Handle, at: Handle) -> bool {
        env.set_object_array_element(at, 0, at).is_ok()
    }
}

/// Makes an array, and again as long as another thread is faster at its words: whether one was made.
fn is_made<S: Steps>(env: &mut Env<S>) -> bool {
    for _ in 0..TRIES {
        match env.new_array::<i32>(SHORT) {
            Err(Fault::Raced(..)) => {}
            answer => return answer.is_ok(),
        }
    }
    false
}

/// Copies so many elements out of each array, all of which are 0: how often that was done. The elements are looked at behind the last copy, since the compiler leaves out what nobody reads.
fn copy_out_each<S: Steps>(env: &mut Env<S>, handed: &[Handle], length: usize) -> usize {
    let mut elements = [0i32; LONG as usize];
    let Some(part) = elements.get_mut(..length) else {
        return 0;
    };
    let mut right = 0usize;
    for handle in handed {
        if env.get_array_region(*handle, 0, part).is_ok() {
            right = right.saturating_add(1);
        }
    }
    if part.contains(&0) { right } else { 0 }
}

/// Copies so many elements into each array: how often that was done.
fn copy_in_each<S: Steps>(env: &mut Env<S>, handed: &[Handle], length: usize) -> usize {
    let elements = [0i32; LONG as usize];
    let Some(part) = elements.get(..length) else {
        return 0;
    };
    let mut right = 0usize;
    for handle in handed {
        if env.set_array_region(*handle, 0, part).is_ok() {
            right = right.saturating_add(1);
        }
    }
    right
}

/// Copies elements within each array: how often that was done.
fn copy_each<S: Steps>(env: &mut Env<S>, handed: &[Handle]) -> usize {
    let mut buffer = [0i32; COPIED];
    let mut right = 0usize;
    for handle in handed {
        if env.copy_array(*handle, 0, *handle, 0, &mut buffer).is_ok() {
            right = right.saturating_add(1);
        }
    }
    right
}
