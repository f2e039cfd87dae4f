//! Copies of all elements of an array, in memory of the caller's.
ghost use Rattle.std.specs.Prelude.{◌≡◌, ◌<◌, Err, IfErr, length, map};
ghost use Rattle.std.specs.Int.{w8, w16, w32, w64};
ghost use Rattle.jr_word.specs.declared.kind.Kind.TheVariants.{Boolean, Byte, Char, Int, Long, Short};
ghost use Rattle.jr_word.specs.Elem.{bool_word, signed_word};
ghost use Rattle.jr_critical.specs.LevelParts.{part_read};
ghost use Rattle.jr_critical.specs.Levels.{objects_of, StandOver};
ghost use Rattle.jr_env.specs.StandingRegions.{StandsOn};
ghost use Rattle.luthrady.specs.Copies.{CopiesBack, CopiesOut, CopyReplied, IsModeNumber, ReleaseOfCopyReplied, ReleasesBy};
ghost use Rattle.luthrady.specs.Doings.{WasDoneBy};
ghost use Rattle.luthrady.specs.InRegions.{AreAll, ReadsAll, WritesAll};
ghost use Rattle.luthrady.specs.Places.{absence};
ghost use Rattle.luthrady.specs.Replies.{the_number};

use crate::behind::{env_of, is_env};
use crate::handles::EnvHandle;
use crate::held::{Native, Presence};
use crate::reply::{Reply, nothing_reply};
use jr_critical::Levels;
use jr_env::{Env, levels_beside};
use jr_model::Mode;
use jr_steps::Steps;
use jr_word::{Elem, Fault, Handle, Kind};

/// Copies all elements of an array of booleans out. It is one critical region. (JNI Specification, chapter 4, "Get<PrimitiveType>ArrayElements Routines")
///
/// # Errors
///
/// E21 where no env stands behind the handle; E19 in a critical region; that of the gate; those of a handle to an object; E5 where it is to a plain object or a string;
/// E6 where it is to an array of other elements; E7 where the array has another number of elements.
///
/// The elements are as they were, and nothing has changed.
#[unsafe(no_mangle)]
pub extern "C" fn luthrady_get_boolean_array_elements(
    env: &mut EnvHandle,
    array: u64,
    elements: &mut [bool],
) -> Reply
    ensures { CopyReplied Boolean env.old env.new array (length elements.old) result (map bool_word elements.old) (map bool_word elements.new) }
{
    nothing_reply(copy_out(env, Handle(array), elements))
}

/// Copies all elements of an array of bytes out. It is one critical region. (JNI Specification, chapter 4, "Get<PrimitiveType>ArrayElements Routines")
///
/// # Errors
///
/// E21 where no env stands behind the handle; E19 in a critical region; that of the gate; those of a handle to an object; E5 where it is to a plain object or a string;
/// E6 where it is to an array of other elements; E7 where the array has another number of elements.
///
/// The elements are as they were, and nothing has changed.
#[unsafe(no_mangle)]
pub extern "C" fn luthrady_get_byte_array_elements(
    env: &mut EnvHandle,
    array: u64,
    elements: &mut [i8],
) -> Reply
    ensures { CopyReplied Byte env.old env.new array (length elements.old) result (map (signed_word w8) elements.old) (map (signed_word w8) elements.new) }
{
    nothing_reply(copy_out(env, Handle(array), elements))
}

/// Copies all elements of an array of chars out. It is one critical region. (JNI Specification, chapter 4, "Get<PrimitiveType>ArrayElements Routines")
///
/// # Errors
///
/// E21 where no env stands behind the handle; E19 in a critical region; that of the gate; those of a handle to an object; E5 where it is to a plain object or a string;
/// E6 where it is to an array of other elements; E7 where the array has another number of elements.
///
/// The elements are as they were, and nothing has changed.
#[unsafe(no_mangle)]
pub extern "C" fn luthrady_get_char_array_elements(
    env: &mut EnvHandle,
    array: u64,
    elements: &mut [u16],
) -> Reply
    ensures { CopyReplied Char env.old env.new array (length elements.old) result (map the_number elements.old) (map the_number elements.new) }
{
    nothing_reply(copy_out(env, Handle(array), elements))
}

/// Copies all elements of an array of shorts out. It is one critical region. (JNI Specification, chapter 4, "Get<PrimitiveType>ArrayElements Routines")
///
/// # Errors
///
/// E21 where no env stands behind the handle; E19 in a critical region; that of the gate; those of a handle to an object; E5 where it is to a plain object or a string;
/// E6 where it is to an array of other elements; E7 where the array has another number of elements.
///
/// The elements are as they were, and nothing has changed.
#[unsafe(no_mangle)]
pub extern "C" fn luthrady_get_short_array_elements(
    env: &mut EnvHandle,
    array: u64,
    elements: &mut [i16],
) -> Reply
    ensures { CopyReplied Short env.old env.new array (length elements.old) result (map (signed_word w16) elements.old) (map (signed_word w16) elements.new) }
{
    nothing_reply(copy_out(env, Handle(array), elements))
}

/// Copies all elements of an array of ints out. It is one critical region. (JNI Specification, chapter 4, "Get<PrimitiveType>ArrayElements Routines")
///
/// # Errors
///
/// E21 where no env stands behind the handle; E19 in a critical region; that of the gate; those of a handle to an object; E5 where it is to a plain object or a string;
/// E6 where it is to an array of other elements; E7 where the array has another number of elements.
///
/// The elements are as they were, and nothing has changed.
#[unsafe(no_mangle)]
pub extern "C" fn luthrady_get_int_array_elements(
    env: &mut EnvHandle,
    array: u64,
    elements: &mut [i32],
) -> Reply
    ensures { CopyReplied Int env.old env.new array (length elements.old) result (map (signed_word w32) elements.old) (map (signed_word w32) elements.new) }
{
    nothing_reply(copy_out(env, Handle(array), elements))
}

/// Copies all elements of an array of longs out. It is one critical region. (JNI Specification, chapter 4, "Get<PrimitiveType>ArrayElements Routines")
///
/// # Errors
///
/// E21 where no env stands behind the handle; E19 in a critical region; that of the gate; those of a handle to an object; E5 where it is to a plain object or a string;
/// E6 where it is to an array of other elements; E7 where the array has another number of elements.
///
/// The elements are as they were, and nothing has changed.
#[unsafe(no_mangle)]
pub extern "C" fn luthrady_get_long_array_elements(
    env: &mut EnvHandle,
    array: u64,
    elements: &mut [i64],
) -> Reply
    ensures { CopyReplied Long env.old env.new array (length elements.old) result (map (signed_word w64) elements.old) (map (signed_word w64) elements.new) }
{
    nothing_reply(copy_out(env, Handle(array), elements))
}

/// Releases a copy of all elements of an array of booleans by the number of a mode: to copy (0) and to commit (1) write them to the array, in one critical region. To abort (2) looks at nothing.
/// (JNI Specification, chapter 4, "Release<PrimitiveType>ArrayElements Routines")
///
/// # Errors
///
/// E21 where no env stands behind the handle; E19 in a critical region; E7 where no mode has the number; that of the gate; those of a handle to an object;
/// E5 where it is to a plain object or a string; E6 where it is to an array of other elements; E7 where the array has another number of elements.
///
/// Nothing is written then.
#[unsafe(no_mangle)]
pub extern "C" fn luthrady_release_boolean_array_elements(
    env: &mut EnvHandle,
    array: u64,
    elements: &[bool],
    mode: u32,
) -> Reply
    ensures { ReleaseOfCopyReplied mode Boolean env.old env.new array (map bool_word elements.now) result }
{
    nothing_reply(release(env, Handle(array), elements, mode_of(mode)))
}

/// Releases a copy of all elements of an array of bytes by the number of a mode: to copy (0) and to commit (1) write them to the array, in one critical region. To abort (2) looks at nothing.
/// (JNI Specification, chapter 4, "Release<PrimitiveType>ArrayElements Routines")
///
/// # Errors
///
/// E21 where no env stands behind the handle; E19 in a critical region; E7 where no mode has the number; that of the gate; those of a handle to an object;
/// E5 where it is to a plain object or a string; E6 where it is to an array of other elements; E7 where the array has another number of elements.
///
/// Nothing is written then.
#[unsafe(no_mangle)]
pub extern "C" fn luthrady_release_byte_array_elements(
    env: &mut EnvHandle,
    array: u64,
    elements: &[i8],
    mode: u32,
) -> Reply
    ensures { ReleaseOfCopyReplied mode Byte env.old env.new array (map (signed_word w8) elements.now) result }
{
    nothing_reply(release(env, Handle(array), elements, mode_of(mode)))
}

/// Releases a copy of all elements of an array of chars by the number of a mode: to copy (0) and to commit (1) write them to the array, in one critical region. To abort (2) looks at nothing.
/// (JNI Specification, chapter 4, "Release<PrimitiveType>ArrayElements Routines")
///
/// # Errors
///
/// E21 where no env stands behind the handle; E19 in a critical region; E7 where no mode has the number; that of the gate; those of a handle to an object;
/// E5 where it is to a plain object or a string; E6 where it is to an array of other elements; E7 where the array has another number of elements.
///
/// Nothing is written then.
#[unsafe(no_mangle)]
pub extern "C" fn luthrady_release_char_array_elements(
    env: &mut EnvHandle,
    array: u64,
    elements: &[u16],
    mode: u32,
) -> Reply
    ensures { ReleaseOfCopyReplied mode Char env.old env.new array (map the_number elements.now) result }
{
    nothing_reply(release(env, Handle(array), elements, mode_of(mode)))
}

/// Releases a copy of all elements of an array of shorts by the number of a mode: to copy (0) and to commit (1) write them to the array, in one critical region. To abort (2) looks at nothing.
/// (JNI Specification, chapter 4, "Release<PrimitiveType>ArrayElements Routines")
///
/// # Errors
///
/// E21 where no env stands behind the handle; E19 in a critical region; E7 where no mode has the number; that of the gate; those of a handle to an object;
/// E5 where it is to a plain object or a string; E6 where it is to an array of other elements; E7 where the array has another number of elements.
///
/// Nothing is written then.
#[unsafe(no_mangle)]
pub extern "C" fn luthrady_release_short_array_elements(
    env: &mut EnvHandle,
    array: u64,
    elements: &[i16],
    mode: u32,
) -> Reply
    ensures { ReleaseOfCopyReplied mode Short env.old env.new array (map (signed_word w16) elements.now) result }
{
    nothing_reply(release(env, Handle(array), elements, mode_of(mode)))
}

/// Releases a copy of all elements of an array of ints by the number of a mode: to copy (0) and to commit (1) write them to the array, in one critical region. To abort (2) looks at nothing.
/// (JNI Specification, chapter 4, "Release<PrimitiveType>ArrayElements Routines")
///
/// # Errors
///
/// E21 where no env stands behind the handle; E19 in a critical region; E7 where no mode has the number; that of the gate; those of a handle to an object;
/// E5 where it is to a plain object or a string; E6 where it is to an array of other elements; E7 where the array has another number of elements.
///
/// Nothing is written then.
#[unsafe(no_mangle)]
pub extern "C" fn luthrady_release_int_array_elements(
    env: &mut EnvHandle,
    array: u64,
    elements: &[i32],
    mode: u32,
) -> Reply
    ensures { ReleaseOfCopyReplied mode Int env.old env.new array (map (signed_word w32) elements.now) result }
{
    nothing_reply(release(env, Handle(array), elements, mode_of(mode)))
}

/// Releases a copy of all elements of an array of longs by the number of a mode: to copy (0) and to commit (1) write them to the array, in one critical region. To abort (2) looks at nothing.
/// (JNI Specification, chapter 4, "Release<PrimitiveType>ArrayElements Routines")
///
/// # Errors
///
/// E21 where no env stands behind the handle; E19 in a critical region; E7 where no mode has the number; that of the gate; those of a handle to an object;
/// E5 where it is to a plain object or a string; E6 where it is to an array of other elements; E7 where the array has another number of elements.
///
/// Nothing is written then.
#[unsafe(no_mangle)]
pub extern "C" fn luthrady_release_long_array_elements(
    env: &mut EnvHandle,
    array: u64,
    elements: &[i64],
    mode: u32,
) -> Reply
    ensures { ReleaseOfCopyReplied mode Long env.old env.new array (map (signed_word w64) elements.now) result }
{
    nothing_reply(release(env, Handle(array), elements, mode_of(mode)))
}

/// The mode with a number, if one has it.
fn mode_of(number: u32) -> Option<Mode>
    ensures { IsModeNumber number result }
{
    match number {
        0 => Some(Mode::Copy),
        1 => Some(Mode::Commit),
        2 => Some(Mode::Abort),
        _ => None,
    }
}

/// Copies all elements of an array out, by the env behind a pointer.
///
/// # Errors
///
/// E21 where no env stands behind the handle; E19 in a critical region; else those of `copy_out_in`.
fn copy_out<E: Elem>(handle: &mut EnvHandle, array: Handle, elements: &mut [E]) -> Result<(), Fault>
    ensures call { WasDoneBy (λ a b. CopiesOut E.KIND a.env b.env array.0 (length elements.old) (part_read result (map E.word_of elements.new)))
        (result ≡ Err (absence handle.old)) handle.old handle.new }
    ensures err { IfErr result (λ _. elements.new ≡ elements.old) }
{
    if !is_env(handle) {
        return Err(Fault::NotFresh);
    }
    match &mut env_of(handle).presence {
        Presence::Ready(native) => copy_out_by(&mut *native, array, elements),
        Presence::Critical(_) => Err(Fault::InCritical),
        Presence::Detached => Err(Fault::NotFresh),
    }
}

/// Copies all elements of an array out, by a thread's env.
///
/// # Errors
///
/// Those of `copy_out_in`.
fn copy_out_by<E: Elem>(native: &mut Native, array: Handle, elements: &mut [E]) -> Result<(), Fault>
    ensures call { CopiesOut E.KIND native.old.env native.new.env array.0 (length elements.old) (part_read result (map E.word_of elements.new)) }
    ensures marker { native.new.marker ≡ native.old.marker }
    ensures err { IfErr result (λ _. elements.new ≡ elements.old) }
{
    copy_out_in(&mut native.env, array, elements)
}

/// Copies all elements of an array out, in a critical region of its own.
///
/// # Errors
///
/// Those of `Env::get_array_critical`; E6 where it has other elements; E7 where it has another number of them.
fn copy_out_in<S: Steps, E: Elem>(
    env: &mut Env<S>,
    array: Handle,
    elements: &mut [E],
) -> Result<(), Fault>
    ensures call { CopiesOut E.KIND env.old env.new array.0 (length elements.old) (part_read result (map E.word_of elements.new)) }
    ensures err { IfErr result (λ _. elements.new ≡ elements.old) }
{
    let levels = levels_beside::open_array(env, array)?;
    let answer = read_all(env, &levels, elements);
    levels_beside::close_all(env, levels);
    answer
}

/// Copies all elements at the first level out.
///
/// # Errors
///
/// E6 where its array has other elements; E7 where it has another number of them.
fn read_all<S: Steps, E: Elem>(
    env: &mut Env<S>,
    levels: &Levels,
    elements: &mut [E],
) -> Result<(), Fault>
    requires stand { StandOver levels.now env.old.held }
    requires some { 0 < length (objects_of levels.now) }
    ensures call { ReadsAll E.KIND (length elements.old) env.old.held env.new.held levels.now (part_read result (map E.word_of elements.new)) }
    ensures region { StandsOn env.old.held env.new.held levels.now levels.now }
    ensures frames { env.new.held.frames ≡ env.old.held.frames }
    ensures stand { StandOver levels.now env.new.held }
    ensures err { IfErr result (λ _. elements.new ≡ elements.old) }
{
    are_all(levels, E::KIND, elements.len())?;
    levels_beside::get_part(env, levels, 0, 0, elements)
}

/// Whether so many elements of a kind are all of the first level's array.
///
/// # Errors
///
/// E6 where it has other elements; E7 where it has another number of them.
fn are_all(levels: &Levels, kind: Kind, count: usize) -> Result<(), Fault>
    requires { 0 < length (objects_of levels.now) }
    ensures { AreAll levels.now kind count result }
{
    if levels.kind(0).code() != kind.code() {
        return Err(Fault::WrongElement);
    }
    if levels.length(0) as usize != count {
        return Err(Fault::Range);
    }
    Ok(())
}

/// Releases a copy by a mode, by the env behind a pointer.
///
/// # Errors
///
/// E21 where no env stands behind the handle; E19 in a critical region; else those of `release_by`.
fn release<E: Elem>(
    handle: &mut EnvHandle,
    array: Handle,
    elements: &[E],
    mode: Option<Mode>,
) -> Result<(), Fault>
    ensures { WasDoneBy (λ a b. ReleasesBy mode E.KIND a.env b.env array.0 (map E.word_of elements.now) result) (result ≡ Err (absence handle.old)) handle.old handle.new }
{
    if !is_env(handle) {
        return Err(Fault::NotFresh);
    }
    match &mut env_of(handle).presence {
        Presence::Ready(native) => release_by(&mut *native, array, elements, mode),
        Presence::Critical(_) => Err(Fault::InCritical),
        Presence::Detached => Err(Fault::NotFresh),
    }
}

/// Releases a copy by a mode, by a thread's env.
///
/// # Errors
///
/// E7 where there is no mode; else those of `copy_back_in`, which to abort does not make.
fn release_by<E: Elem>(
    native: &mut Native,
    array: Handle,
    elements: &[E],
    mode: Option<Mode>,
) -> Result<(), Fault>
    ensures call { ReleasesBy mode E.KIND native.old.env native.new.env array.0 (map E.word_of elements.now) result }
    ensures marker { native.new.marker ≡ native.old.marker }
{
    let Some(mode) = mode else {
        return Err(Fault::Range);
    };
    if !mode.copies_back() {
        return Ok(());
    }
    copy_back_in(&mut native.env, array, elements)
}

/// Writes all elements of an array, in a critical region of its own.
///
/// # Errors
///
/// Those of `Env::get_array_critical`; E6 where it has other elements; E7 where it has another number of them.
fn copy_back_in<S: Steps, E: Elem>(
    env: &mut Env<S>,
    array: Handle,
    elements: &[E],
) -> Result<(), Fault>
    ensures { CopiesBack E.KIND env.old env.new array.0 (map E.word_of elements.now) result }
{
    let levels = levels_beside::open_array(env, array)?;
    let answer = write_all(env, &levels, elements);
    levels_beside::close_all(env, levels);
    answer
}

/// Writes all elements at the first level.
///
/// # Errors
///
/// E6 where its array has other elements; E7 where it has another number of them.
fn write_all<S: Steps, E: Elem>(
    env: &mut Env<S>,
    levels: &Levels,
    elements: &[E],
) -> Result<(), Fault>
    requires stand { StandOver levels.now env.old.held }
    requires some { 0 < length (objects_of levels.now) }
    ensures call { WritesAll E.KIND (map E.word_of elements.now) env.old.held env.new.held levels.now result }
    ensures region { StandsOn env.old.held env.new.held levels.now levels.now }
    ensures frames { env.new.held.frames ≡ env.old.held.frames }
    ensures stand { StandOver levels.now env.new.held }
{
    are_all(levels, E::KIND, elements.len())?;
    levels_beside::set_part(env, levels, 0, 0, elements)
}
