//! Each call that takes a reference, and with what it is refused.

use assertions::assert_same;
use jr_elements::{Elements, elements_of};
use jr_env::{Env, NativeInterface, levels_beside};
use jr_model::Mode;
use jr_steps::Steps;
use jr_word::{Fault, Handle, RefKind};
use std::alloc::{AllocError, Global};
use std::mem;
use std::process::Abort;

/// A call that takes a reference.
#[derive(Clone, Copy, Debug)]
pub(crate) enum CallOfReference {
    Delete(RefKind),
    Of(OfReference),
    Object(OfObject),
    Copy(OfCopy),
    Critical(OfRegion),
}

/// The calls that ask no more of a reference than that it stands, or is NULL.
#[derive(Clone, Copy, Debug)]
pub(crate) enum OfReference {
    NewGlobal,
    NewWeakGlobal,
    NewLocal,
    /// It takes the other word too.
    IsSame,
    PopFrame,
    /// An array without elements.
    NewArray,
}

/// The calls that ask for an object.
#[derive(Clone, Copy, Debug)]
pub(crate) enum OfObject {
    Identity,
    Kind,
    ArrayLength,
    StringLength,
    /// The element at index 0.
    GetElement,
    /// The element at index 1, which is to be what the other word names.
    SetElement,
    /// Of two ints.
    GetInts,
    /// Of two ints.
    SetInts,
}

/// The calls that copy all elements of an object, out or in.
#[derive(Clone, Copy, Debug)]
pub(crate) enum OfCopy {
    Ints,
    Chars,
    /// Of two ints that were copied in another room.
    Release(Mode),
}

/// The calls that open a region, or add a level to one.
#[derive(Clone, Copy, Debug)]
pub(crate) enum OfRegion {
    Array,
    String,
    ArrayByLevels,
    StringByLevels,
    NestArray,
    NestString,
    NestArrayByLevels,
    NestStringByLevels,
}

/// All that delete.
pub(crate) const DELETIONS: [CallOfReference; 3] = [
    CallOfReference::Delete(RefKind::Global),
    CallOfReference::Delete(RefKind::Weak),
    CallOfReference::Delete(RefKind::Local),
];

/// All that open no region in a region, and delete nothing. Of those the last one alone makes something of NULL.
pub(crate) const CALLS: [CallOfReference; 21] = [
    CallOfReference::Object(OfObject::Identity),
    CallOfReference::Object(OfObject::Kind),
    CallOfReference::Object(OfObject::ArrayLength),
    CallOfReference::Object(OfObject::StringLength),
    CallOfReference::Object(OfObject::GetElement),
    CallOfReference::Object(OfObject::SetElement),
    CallOfReference::Object(OfObject::GetInts),
    CallOfReference::Object(OfObject::SetInts),
    CallOfReference::Copy(OfCopy::Ints),
    CallOfReference::Copy(OfCopy::Chars),
    CallOfReference::Copy(OfCopy::Release(Mode::Commit)),
    CallOfReference::Copy(OfCopy::Release(Mode::Copy)),
    CallOfReference::Critical(OfRegion::Array),
    CallOfReference::Critical(OfRegion::String),
    CallOfReference::Critical(OfRegion::ArrayByLevels),
    CallOfReference::Critical(OfRegion::StringByLevels),
    CallOfReference::Of(OfReference::NewGlobal),
    CallOfReference::Of(OfReference::NewWeakGlobal),
    CallOfReference::Of(OfReference::NewLocal),
    CallOfReference::Of(OfReference::PopFrame),
    CallOfReference::Of(OfReference::NewArray),
];

/// Those that add a level to a region.
pub(crate) const NESTING: [CallOfReference; 4] = [
    CallOfReference::Critical(OfRegion::NestArray),
    CallOfReference::Critical(OfRegion::NestString),
    CallOfReference::Critical(OfRegion::NestArrayByLevels),
    CallOfReference::Critical(OfRegion::NestStringByLevels),
];

/// Those that take a second reference.
pub(crate) const OF_TWO: [CallOfReference; 2] = [
    CallOfReference::Of(OfReference::IsSame),
    CallOfReference::Object(OfObject::SetElement),
];

/// What calls are made with beside their words.
pub(crate) struct Given {
    /// An array, by which a region is opened.
    pub(crate) base: Handle,
    /// Two ints, which were copied in another room.
    pub(crate) ints: Option<Elements<i32>>,
}

impl Given {
    /// Keeps these ints in the place of those before, which are discarded.
    fn keep(&mut self, ints: Option<Elements<i32>>) {
        if let Some(before) = mem::replace(&mut self.ints, ints) {
            before.discard();
        }
    }

    /// Discards the ints.
    pub(crate) fn discard(self) {
        let Given { base: _, ints } = self;
        if let Some(ints) = ints {
            ints.discard();
        }
    }
}

/// What they are.
pub(crate) const INTS: [i32; 2] = [i32::MIN, 7];

/// The two ints as they were copied, or else such as a copy has them, made of a list.
fn ints_of(alloc: Global, kept: Option<Elements<i32>>) -> Result<Elements<i32>, AllocError> {
    match kept {
        Some(ints) => Ok(ints),
        None => Ok(elements_of(Vec::from_slice(alloc, &INTS)?)),
    }
}

/// With what a call of these words is refused, if it is. What it makes or opens is ended at once, but for an array that it makes.
pub(crate) fn refused_by<S: Steps>(
    rt: &impl Abort,
    alloc: Global,
    env: &mut Env<S>,
    given: &mut Given,
    call: CallOfReference,
    words: [Handle; 2],
) -> Option<Fault> {
    let [word, other] = words;
    match call {
        CallOfReference::Delete(kind) => deletion_refused(env, kind, word),
        CallOfReference::Of(call) => reference_refused(env, call, word, other),
        CallOfReference::Object(call) => object_refused(env, call, word, other),
        CallOfReference::Copy(OfCopy::Ints) => copy_refused(env, alloc, word),
        CallOfReference::Copy(OfCopy::Chars) => env.get_string_chars(alloc, word).err(),
        CallOfReference::Copy(OfCopy::Release(mode)) => release_refused(
            rt, alloc, env, given, word, mode,
        ),
        CallOfReference::Critical(call) => region_refused(rt, env, call, given.base, word),
    }
}

fn deletion_refused<S: Steps>(env: &mut Env<S>, kind: RefKind, word: Handle) -> Option<Fault> {
    let answer = match kind {
        RefKind::Global => env.delete_global_ref(word),
        RefKind::Weak => env.delete_weak_global_ref(word),
        RefKind::Local => env.delete_local_ref(word),
    };
    answer.err()
}

fn reference_refused<S: Steps>(
    env: &mut Env<S>,
    call: OfReference,
    word: Handle,
    other: Handle,
) -> Option<Fault> {
    match call {
        OfReference::NewGlobal => env.new_global_ref(word).err(),
        OfReference::NewWeakGlobal => env.new_weak_global_ref(word).err(),
        OfReference::NewLocal => env.new_local_ref(word).err(),
        OfReference::IsSame => env.is_same_object(word, other).err(),
        OfReference::PopFrame => pop_refused(env, word),
        OfReference::NewArray => env.new_object_array(0, word).err(),
    }
}

/// A frame that was popped is pushed again.
fn pop_refused<S: Steps>(env: &mut Env<S>, word: Handle) -> Option<Fault> {
    match env.pop_local_frame(word) {
        Ok(_) => env.push_local_frame(0).err(),
        Err(fault) => Some(fault),
    }
}

fn object_refused<S: Steps>(
    env: &mut Env<S>,
    call: OfObject,
    word: Handle,
    other: Handle,
) -> Option<Fault> {
    match call {
        OfObject::Identity => env.identity_of(word).err(),
        OfObject::Kind => env.kind_of(word).err(),
        OfObject::ArrayLength => env.get_array_length(word).err(),
        OfObject::StringLength => env.get_string_length(word).err(),
        OfObject::GetElement => env.get_object_array_element(word, 0).err(),
        OfObject::SetElement => env.set_object_array_element(word, 1, other).err(),
        OfObject::GetInts => env.get_array_region(word, 0, &mut [0i32; 2]).err(),
        OfObject::SetInts => env.set_array_region(word, 0, &[7i32; 2]).err(),
    }
}

/// Where a release is refused, or keeps the elements, they are as they were.
fn are_kept(rt: &impl Abort, ints: &Elements<i32>) {
    assert_same!(rt; ints.as_slice(), INTS.as_slice());
}

/// With what a copy of ints is refused. One that is made is discarded.
fn copy_refused<S: Steps>(env: &mut Env<S>, alloc: Global, word: Handle) -> Option<Fault> {
    match env.get_array_elements::<i32>(alloc, word) {
        Ok(copy) => {
            copy.discard();
            None
        }
        Err(fault) => Some(fault),
    }
}

/// What a release leaves of the elements is kept. Where nothing is left, others like them are given in next.
fn release_refused<S: Steps>(
    rt: &impl Abort,
    alloc: Global,
    env: &mut Env<S>,
    given: &mut Given,
    word: Handle,
    mode: Mode,
) -> Option<Fault> {
    let Ok(ints) = ints_of(alloc, given.ints.take()) else {
        return Some(Fault::Memory);
    };
    match env.release_array_elements(word, ints, mode) {
        Ok(left) => {
            given.keep(left);
            None
        }
        Err((left, fault)) => {
            are_kept(rt, &left);
            given.keep(Some(left));
            Some(fault)
        }
    }
}

fn region_refused<S: Steps>(
    rt: &impl Abort,
    env: &mut Env<S>,
    call: OfRegion,
    base: Handle,
    word: Handle,
) -> Option<Fault> {
    match call {
        OfRegion::Array => array_refused(rt, env, word),
        OfRegion::String => string_refused(rt, env, word),
        OfRegion::NestArray | OfRegion::NestString => nesting_refused(rt, env, call, base, word),
        _ => levels_refused(env, call, base, word),
    }
}

/// With what a region over an array is refused; one that is opened is ended.
fn array_refused<S: Steps>(rt: &impl Abort, env: &mut Env<S>, word: Handle) -> Option<Fault> {
    match env.get_array_critical(word) {
        Ok(region) => {
            match region.release(Mode::Copy) {
                None => {}
                Some(_) => panic!(rt; "a level is left"),
            }
            None
        }
        Err(fault) => Some(fault),
    }
}

/// The same of a region over a string.
fn string_refused<S: Steps>(rt: &impl Abort, env: &mut Env<S>, word: Handle) -> Option<Fault> {
    match env.get_string_critical(word) {
        Ok(region) => {
            match region.release(Mode::Copy) {
                None => {}
                Some(_) => panic!(rt; "a level is left"),
            }
            None
        }
        Err(fault) => Some(fault),
    }
}

/// With what a second level is refused, or else the region that it is added to. A region that one is refused to has its one level, and is ended.
fn nesting_refused<S: Steps>(
    rt: &impl Abort,
    env: &mut Env<S>,
    call: OfRegion,
    base: Handle,
    word: Handle,
) -> Option<Fault> {
    match env.get_array_critical(base) {
        Ok(mut region) => {
            let refused = if let OfRegion::NestArray = call {
                region.nest_array(word).err()
            } else {
                region.nest_string(word).err()
            };
            if let Some(left) = region.release(Mode::Copy) {
                assert!(rt; refused.is_none());
                match left.release(Mode::Copy) {
                    None => {}
                    Some(_) => panic!(rt; "a level is left"),
                }
            }
            refused
        }
        Err(fault) => Some(fault),
    }
}

/// The same of a region by its levels: of the first level, or of a second one over an array.
fn levels_refused<S: Steps>(
    env: &mut Env<S>,
    call: OfRegion,
    base: Handle,
    word: Handle,
) -> Option<Fault> {
    match call {
        OfRegion::ArrayByLevels => match levels_beside::open_array(env, word) {
            Ok(levels) => {
                levels_beside::close_all(env, levels);
                None
            }
            Err(fault) => Some(fault),
        },
        OfRegion::StringByLevels => match levels_beside::open_string(env, word) {
            Ok(levels) => {
                levels_beside::close_all(env, levels);
                None
            }
            Err(fault) => Some(fault),
        },
        OfRegion::NestArrayByLevels => array_level_refused(env, base, word),
        _ => string_level_refused(env, base, word),
    }
}

/// With what a level over an array is refused, or else the region over an array that it is added to. The region is ended.
fn array_level_refused<S: Steps>(env: &mut Env<S>, base: Handle, word: Handle) -> Option<Fault> {
    match levels_beside::open_array(env, base) {
        Ok(mut levels) => {
            let answer = levels_beside::nest_array(env, &mut levels, word);
            levels_beside::close_all(env, levels);
            answer.err()
        }
        Err(fault) => Some(fault),
    }
}

/// The same of a level over a string.
fn string_level_refused<S: Steps>(env: &mut Env<S>, base: Handle, word: Handle) -> Option<Fault> {
    match levels_beside::open_array(env, base) {
        Ok(mut levels) => {
            let answer = levels_beside::nest_string(env, &mut levels, word);
            levels_beside::close_all(env, levels);
            answer.err()
        }
        Err(fault) => Some(fault),
    }
}
