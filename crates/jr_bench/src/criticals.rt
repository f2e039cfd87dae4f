//! The calls of critical regions.

use crate::calls::{TimedCall, make_each};
use crate::case::Env;
use jr_env::{NativeInterface, Region};
use jr_model::Mode;
use jr_steps::Steps;
use jr_word::Handle;

/// What is done with critical regions.
#[derive(Clone, Copy)]
pub(crate) enum CriticalCase {
    /// Each is opened and ended.
    Open,
    /// An element of one is read.
    Get,
    /// An element of one is written.
    Set,
    /// A part of one is read.
    GetPart,
    /// A part of one is written.
    SetPart,
}

/// How many elements the array of a region has.
const LENGTH: u32 = 4_096;

/// How many elements a part has.
const PART: usize = 64;

/// The last of the elements that are reached.
const LAST_INDEX: u64 = 63;

impl CriticalCase {
    /// Its name.
    pub(crate) fn name(self) -> &'static str {
        match self {
            CriticalCase::Open => "get_array_critical,release",
            CriticalCase::Get => "get_of_region",
            CriticalCase::Set => "set_of_region",
            CriticalCase::GetPart => "get_part_of_region(64)",
            CriticalCase::SetPart => "set_part_of_region(64)",
        }
    }

    /// The array of the regions.
    pub(crate) fn array<S: Steps>(self, env: &mut Env<S>) -> Option<Handle> {
        env.new_array::<i32>(LENGTH).ok()
    }

    /// Does it with each of the handles: how often it was answered as it should be.
    pub(crate) fn make_all<S: Steps>(self, env: &mut Env<S>, handed: &[Handle]) -> usize {
        match self {
            CriticalCase::Open => make_each(env, handed, Open),
            CriticalCase::Get => read_each(env, handed),
            CriticalCase::Set => write_each(env, handed),
            CriticalCase::GetPart => read_part_each(env, handed),
            CriticalCase::SetPart => write_part_each(env, handed),
        }
    }
}

/// A region is opened, and ended.
#[derive(Clone, Copy)]
struct Open;

impl<S: Steps> TimedCall<S, Env<S>> for Open {
    fn is_right(&self, env: &mut Env<S>, _first: Handle, at: Handle) -> bool {
        is_opened(env, at)
    }
}

/// Opens a region, and ends it: whether it was opened.
fn is_opened<S: Steps>(env: &mut Env<S>, array: Handle) -> bool {
    let Ok(region) = env.get_array_critical(array) else {
        return false;
    };
    match region.release(Mode::Copy) {
        Some(_) => unreachable!(),
        None => true,
    }
}

/// The index at which an element is reached.
fn index_by(handle: Handle) -> u32 {
    (handle.0 & LAST_INDEX) as u32
}

/// Reads an element of one region for each of the handles: how often it was 0, as each is.
fn read_each<S: Steps>(env: &mut Env<S>, handed: &[Handle]) -> usize {
    let Some(first) = handed.first() else {
        return 0;
    };
    let Ok(mut region) = env.get_array_critical(*first) else {
        return 0;
    };
    let mut right = 0usize;
    for handle in handed {
        if matches!(region.get::<i32>(0, index_by(*handle)), Ok(0)) {
            right = right.saturating_add(1);
        }
    }
    match region.release(Mode::Copy) {
        Some(_) => unreachable!(),
        None => right,
    }
}

/// Writes an element of one region for each of the handles: how often that was done.
fn write_each<S: Steps>(env: &mut Env<S>, handed: &[Handle]) -> usize {
    let Some(first) = handed.first() else {
        return 0;
    };
    let Ok(mut region) = env.get_array_critical(*first) else {
        return 0;
    };
    let mut right = 0usize;
    for handle in handed {
        if region.set::<i32>(0, index_by(*handle), 0).is_ok() {
            right = right.saturating_add(1);
        }
    }
    match region.release(Mode::Copy) {
        Some(_) => unreachable!(),
        None => right,
    }
}

/// Reads a part of one region for each of the handles: how often that was done. The elements are looked at behind the last, since the compiler leaves out what nobody reads.
fn read_part_each<S: Steps>(env: &mut Env<S>, handed: &[Handle]) -> usize {
    let mut part = [0i32; PART];
    let Some(first) = handed.first() else {
        return 0;
    };
    let Ok(mut region) = env.get_array_critical(*first) else {
        return 0;
    };
    let mut right = 0usize;
    for _handle in handed {
        if region.get_part(0, 0, &mut part).is_ok() {
            right = right.saturating_add(1);
        }
    }
    region.release_all();
    if part.contains(&0) { right } else { 0 }
}

/// Writes a part of one region for each of the handles: how often that was done.
fn write_part_each<S: Steps>(env: &mut Env<S>, handed: &[Handle]) -> usize {
    let part = [0i32; PART];
    let Some(first) = handed.first() else {
        return 0;
    };
    let Ok(mut region) = env.get_array_critical(*first) else {
        return 0;
    };
    let mut right = 0usize;
    for _handle in handed {
        if region.set_part(0, 0, &part).is_ok() {
            right = right.saturating_add(1);
        }
    }
    region.release_all();
    right
}
