//! Critical regions that are kept from one function to the next.
ghost use Rattle.std.specs.Prelude.{◌≡◌, IfErr, length, map};
ghost use Rattle.jr_critical.specs.Levels.{in_words};
ghost use Rattle.jr_critical.specs.LevelParts.{part_read};
ghost use Rattle.jr_env.specs.Retried.{first_call, first_word};
ghost use Rattle.luthrady.specs.InRegions.{over_array, over_string};
ghost use Rattle.luthrady.specs.KeptRegions.{adding_array, adding_first, adding_string, GivesUpLevel, InItsRegion, LengthReplied, LevelReplied, OpensLevel};
ghost use Rattle.luthrady.specs.KeptRegions.{ReadsLevelElement, ReadsLevelPart, RepliedWith, TellsLevelLength, WasDoneWith, WritesLevelElement, WritesLevelPart};
ghost use Rattle.luthrady.specs.Replies.{the_number};

use crate::behind::{env_of, is_env};
use crate::handles::EnvHandle;
use crate::reply::{Reply, count_reply, number_reply};
use jr_env::levels_beside::First;
use jr_word::{Elem, Fault, Handle};

/// Opens a level of a critical region over an array whose elements are no objects, and answers its number. The first one has the number 0, and enters the region:
/// the thread is within until it is released. Each further one has the next number. Until the region ends each call by the env but those at its levels is E19, and no collection comes.
/// (JNI Specification, chapter 4, "GetPrimitiveArrayCritical")
///
/// # Errors
///
/// E21 where no env stands behind the handle; at the first level that of the gate; those of a handle to an object; E5 where it is to a plain object or a string;
/// E6 where it is to an array of objects; E17 where sixteen levels stand.
///
/// The levels that stood still stand. Where none did the thread stands outside.
#[unsafe(no_mangle)]
pub extern "C" fn luthrady_get_array_critical(env: &mut EnvHandle, array: u64) -> Reply
    ensures { LevelReplied over_array adding_array array env.old env.new result }
{
    count_reply(open_level(env, First::Array(Handle(array))))
}

/// Opens a level of a critical region over a string, as `luthrady_get_array_critical` does over an array. (JNI Specification, chapter 4, "GetStringCritical")
///
/// # Errors
///
/// E21 where no env stands behind the handle; at the first level that of the gate; those of a handle to an object; E4 where it is to no string; E17 where sixteen levels stand.
///
/// The levels that stood still stand. Where none did the thread stands outside.
#[unsafe(no_mangle)]
pub extern "C" fn luthrady_get_string_critical(env: &mut EnvHandle, string: u64) -> Reply
    ensures { LevelReplied over_string adding_string string env.old env.new result }
{
    count_reply(open_level(env, First::Text(Handle(string))))
}

/// Releases the last level of a critical region, and answers how many are left. With the first one the region ends: the thread leaves the gate, and calls by the env are made again.
/// What was written stands, whatever mode JNI would be handed. (JNI Specification, chapter 4, "ReleasePrimitiveArrayCritical", "ReleaseStringCritical")
///
/// # Errors
///
/// E21 where no env stands behind the handle; E19 where no region stands.
///
/// Nothing has changed then.
#[unsafe(no_mangle)]
pub extern "C" fn luthrady_release_critical(env: &mut EnvHandle) -> Reply
    ensures { RepliedWith the_number GivesUpLevel env.old env.new result }
{
    count_reply(give_up_level(env))
}

/// How many elements or units a level of a critical region has. Nothing has changed then.
///
/// # Errors
///
/// E21 where no env stands behind the handle; E19 where no region stands; E2 where no level of the number does.
#[unsafe(no_mangle)]
pub extern "C" fn luthrady_get_level_length(env: &mut EnvHandle, level: u32) -> Reply
    ensures { LengthReplied level env.old env.new result }
{
    number_reply(level_length(env, level))
}

/// Opens a level of a critical region, by the env behind a pointer.
///
/// # Errors
///
/// E21 where no env stands behind the handle; else those of `EnvPlace::open_level`.
fn open_level(handle: &mut EnvHandle, first: First) -> Result<usize, Fault>
    ensures { WasDoneWith (OpensLevel (first_call first) (adding_first first) (first_word first)) handle.old handle.new result }
{
    if !is_env(handle) {
        return Err(Fault::NotFresh);
    }
    env_of(handle).open_level(first)
}

/// Gives up the last level of a critical region, by the env behind a pointer.
///
/// # Errors
///
/// E21 where no env stands behind the handle; else those of `EnvPlace::give_up_level`.
fn give_up_level(handle: &mut EnvHandle) -> Result<usize, Fault>
    ensures { WasDoneWith GivesUpLevel handle.old handle.new result }
{
    if !is_env(handle) {
        return Err(Fault::NotFresh);
    }
    env_of(handle).give_up_level()
}

/// How many elements or units a level has, by the env behind a pointer.
///
/// # Errors
///
/// E21 where no env stands behind the handle; else those of `EnvPlace::length`.
fn level_length(handle: &mut EnvHandle, level: u32) -> Result<u32, Fault>
    ensures { WasDoneWith (InItsRegion (λ r s answer. (s ≡ r) × TellsLevelLength r.levels level answer)) handle.old handle.new result }
{
    if !is_env(handle) {
        return Err(Fault::NotFresh);
    }
    env_of(handle).length(level as usize)
}

/// Copies a part of a level out, by the env behind a pointer.
///
/// # Errors
///
/// E21 where no env stands behind the handle; else those of `EnvPlace::get_part`.
pub(crate) fn get_part<E: Elem>(
    handle: &mut EnvHandle,
    level: u32,
    start: u32,
    elements: &mut [E],
) -> Result<(), Fault>
    ensures call { WasDoneWith (InItsRegion (ReadsLevelPart level E.KIND start (length elements.old))) handle.old handle.new (part_read result (map E.word_of elements.new)) }
    ensures err { IfErr result (λ _. elements.new ≡ elements.old) }
{
    if !is_env(handle) {
        return Err(Fault::NotFresh);
    }
    env_of(handle).get_part(level as usize, start, elements)
}

/// Copies elements into a part of a level, by the env behind a pointer.
///
/// # Errors
///
/// E21 where no env stands behind the handle; else those of `EnvPlace::set_part`.
pub(crate) fn set_part<E: Elem>(
    handle: &mut EnvHandle,
    level: u32,
    start: u32,
    elements: &[E],
) -> Result<(), Fault>
    ensures { WasDoneWith (InItsRegion (WritesLevelPart level E.KIND start (map E.word_of elements.now))) handle.old handle.new result }
{
    if !is_env(handle) {
        return Err(Fault::NotFresh);
    }
    env_of(handle).set_part(level as usize, start, elements)
}

/// An element of a level, by the env behind a pointer.
///
/// # Errors
///
/// E21 where no env stands behind the handle; else those of `EnvPlace::get`.
pub(crate) fn get<E: Elem>(handle: &mut EnvHandle, level: u32, index: u32) -> Result<E, Fault>
    ensures { WasDoneWith (InItsRegion (ReadsLevelElement level E.KIND index)) handle.old handle.new (in_words E.word_of result) }
{
    if !is_env(handle) {
        return Err(Fault::NotFresh);
    }
    env_of(handle).get(level as usize, index)
}

/// Writes an element of a level, by the env behind a pointer.
///
/// # Errors
///
/// E21 where no env stands behind the handle; else those of `EnvPlace::set`.
pub(crate) fn set<E: Elem>(
    handle: &mut EnvHandle,
    level: u32,
    index: u32,
    value: E,
) -> Result<(), Fault>
    ensures { WasDoneWith (InItsRegion (WritesLevelElement level E.KIND index (E.word_of value))) handle.old handle.new result }
{
    if !is_env(handle) {
        return Err(Fault::NotFresh);
    }
    env_of(handle).set(level as usize, index, value)
}
