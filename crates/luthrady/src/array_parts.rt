//! Parts of arrays.
ghost use Rattle.std.specs.Prelude.{◌≡◌, Result, map, length, IfErr};
ghost use Rattle.std.specs.Int.{w8, w16, w32, w64};
ghost use Rattle.jr_word.specs.declared.kind.Kind.TheVariants.{Boolean, Byte, Char, Int, Long, Short};
ghost use Rattle.jr_word.specs.Elem.{bool_word, signed_word};
ghost use Rattle.jr_env.specs.Deeds.{get_array_region, read_answer, set_array_region};
ghost use Rattle.jr_env.specs.Envs.{Does};
ghost use Rattle.luthrady.specs.Calls.{Replied, ReadReplied, WasMade};
ghost use Rattle.luthrady.specs.Replies.{nothing_told, the_number};

use crate::behind::{env_of, is_env};
use crate::calling::make;
use crate::handles::EnvHandle;
use crate::held::{Native, Presence};
use crate::reply::{Reply, nothing_reply};
use jr_env::NativeInterface;
use jr_env::calls::SetArrayRegion;
use jr_word::{Elem, Fault, Handle};

/// Copies booleans into a part of an array, from an index on. (JNI Specification, chapter 4, "Set<PrimitiveType>ArrayRegion Routines")
///
/// # Errors
///
/// E21 where no env stands behind the handle; E19 in a critical region; else those of `NativeInterface::set_array_region`.
#[unsafe(no_mangle)]
pub extern "C" fn luthrady_set_boolean_array_region(
    env: &mut EnvHandle,
    array: u64,
    start: u32,
    elements: &[bool],
) -> Reply
    ensures { Replied nothing_told env.old env.new (set_array_region Boolean array start (map bool_word elements.now)) result }
{
    let call = SetArrayRegion::<bool>(Handle(array), start, elements);
    nothing_reply(make(env, call))
}

/// Copies bytes into a part of an array, from an index on. (JNI Specification, chapter 4, "Set<PrimitiveType>ArrayRegion Routines")
///
/// # Errors
///
/// E21 where no env stands behind the handle; E19 in a critical region; else those of `NativeInterface::set_array_region`.
#[unsafe(no_mangle)]
pub extern "C" fn luthrady_set_byte_array_region(
    env: &mut EnvHandle,
    array: u64,
    start: u32,
    elements: &[i8],
) -> Reply
    ensures { Replied nothing_told env.old env.new (set_array_region Byte array start (map (signed_word w8) elements.now)) result }
{
    let call = SetArrayRegion::<i8>(Handle(array), start, elements);
    nothing_reply(make(env, call))
}

/// Copies chars into a part of an array, from an index on. (JNI Specification, chapter 4, "Set<PrimitiveType>ArrayRegion Routines")
///
/// # Errors
///
/// E21 where no env stands behind the handle; E19 in a critical region; else those of `NativeInterface::set_array_region`.
#[unsafe(no_mangle)]
pub extern "C" fn luthrady_set_char_array_region(
    env: &mut EnvHandle,
    array: u64,
    start: u32,
    elements: &[u16],
) -> Reply
    ensures { Replied nothing_told env.old env.new (set_array_region Char array start (map the_number elements.now)) result }
{
    let call = SetArrayRegion::<u16>(Handle(array), start, elements);
    nothing_reply(make(env, call))
}

/// Copies shorts into a part of an array, from an index on. (JNI Specification, chapter 4, "Set<PrimitiveType>ArrayRegion Routines")
///
/// # Errors
///
/// E21 where no env stands behind the handle; E19 in a critical region; else those of `NativeInterface::set_array_region`.
#[unsafe(no_mangle)]
pub extern "C" fn luthrady_set_short_array_region(
    env: &mut EnvHandle,
    array: u64,
    start: u32,
    elements: &[i16],
) -> Reply
    ensures { Replied nothing_told env.old env.new (set_array_region Short array start (map (signed_word w16) elements.now)) result }
{
    let call = SetArrayRegion::<i16>(Handle(array), start, elements);
    nothing_reply(make(env, call))
}

/// Copies ints into a part of an array, from an index on. (JNI Specification, chapter 4, "Set<PrimitiveType>ArrayRegion Routines")
///
/// # Errors
///
/// E21 where no env stands behind the handle; E19 in a critical region; else those of `NativeInterface::set_array_region`.
#[unsafe(no_mangle)]
pub extern "C" fn luthrady_set_int_array_region(
    env: &mut EnvHandle,
    array: u64,
    start: u32,
    elements: &[i32],
) -> Reply
    ensures { Replied nothing_told env.old env.new (set_array_region Int array start (map (signed_word w32) elements.now)) result }
{
    let call = SetArrayRegion::<i32>(Handle(array), start, elements);
    nothing_reply(make(env, call))
}

/// Copies longs into a part of an array, from an index on. (JNI Specification, chapter 4, "Set<PrimitiveType>ArrayRegion Routines")
///
/// # Errors
///
/// E21 where no env stands behind the handle; E19 in a critical region; else those of `NativeInterface::set_array_region`.
#[unsafe(no_mangle)]
pub extern "C" fn luthrady_set_long_array_region(
    env: &mut EnvHandle,
    array: u64,
    start: u32,
    elements: &[i64],
) -> Reply
    ensures { Replied nothing_told env.old env.new (set_array_region Long array start (map (signed_word w64) elements.now)) result }
{
    let call = SetArrayRegion::<i64>(Handle(array), start, elements);
    nothing_reply(make(env, call))
}

/// Copies a part of an array of booleans out, from an index on: as many elements as there is room for. (JNI Specification, chapter 4, "Get<PrimitiveType>ArrayRegion Routines")
///
/// # Errors
///
/// E21 where no env stands behind the handle; E19 in a critical region; else those of `NativeInterface::get_array_region`.
#[unsafe(no_mangle)]
pub extern "C" fn luthrady_get_boolean_array_region(
    env: &mut EnvHandle,
    array: u64,
    start: u32,
    elements: &mut [bool],
) -> Reply
    ensures { ReadReplied env.old env.new (get_array_region Boolean array start (length elements.old)) result (map bool_word elements.old) (map bool_word elements.new) }
{
    nothing_reply(read(env, Handle(array), start, elements))
}

/// Copies a part of an array of bytes out, from an index on: as many elements as there is room for. (JNI Specification, chapter 4, "Get<PrimitiveType>ArrayRegion Routines")
///
/// # Errors
///
/// E21 where no env stands behind the handle; E19 in a critical region; else those of `NativeInterface::get_array_region`.
#[unsafe(no_mangle)]
pub extern "C" fn luthrady_get_byte_array_region(
    env: &mut EnvHandle,
    array: u64,
    start: u32,
    elements: &mut [i8],
) -> Reply
    ensures { ReadReplied env.old env.new (get_array_region Byte array start (length elements.old)) result (map (signed_word w8) elements.old) (map (signed_word w8) elements.new) }
{
    nothing_reply(read(env, Handle(array), start, elements))
}

/// Copies a part of an array of chars out, from an index on: as many elements as there is room for. (JNI Specification, chapter 4, "Get<PrimitiveType>ArrayRegion Routines")
///
/// # Errors
///
/// E21 where no env stands behind the handle; E19 in a critical region; else those of `NativeInterface::get_array_region`.
#[unsafe(no_mangle)]
pub extern "C" fn luthrady_get_char_array_region(
    env: &mut EnvHandle,
    array: u64,
    start: u32,
    elements: &mut [u16],
) -> Reply
    ensures { ReadReplied env.old env.new (get_array_region Char array start (length elements.old)) result (map the_number elements.old) (map the_number elements.new) }
{
    nothing_reply(read(env, Handle(array), start, elements))
}

/// Copies a part of an array of shorts out, from an index on: as many elements as there is room for. (JNI Specification, chapter 4, "Get<PrimitiveType>ArrayRegion Routines")
///
/// # Errors
///
/// E21 where no env stands behind the handle; E19 in a critical region; else those of `NativeInterface::get_array_region`.
#[unsafe(no_mangle)]
pub extern "C" fn luthrady_get_short_array_region(
    env: &mut EnvHandle,
    array: u64,
    start: u32,
    elements: &mut [i16],
) -> Reply
    ensures { ReadReplied env.old env.new (get_array_region Short array start (length elements.old)) result (map (signed_word w16) elements.old) (map (signed_word w16) elements.new) }
{
    nothing_reply(read(env, Handle(array), start, elements))
}

/// Copies a part of an array of ints out, from an index on: as many elements as there is room for. (JNI Specification, chapter 4, "Get<PrimitiveType>ArrayRegion Routines")
///
/// # Errors
///
/// E21 where no env stands behind the handle; E19 in a critical region; else those of `NativeInterface::get_array_region`.
#[unsafe(no_mangle)]
pub extern "C" fn luthrady_get_int_array_region(
    env: &mut EnvHandle,
    array: u64,
    start: u32,
    elements: &mut [i32],
) -> Reply
    ensures { ReadReplied env.old env.new (get_array_region Int array start (length elements.old)) result (map (signed_word w32) elements.old) (map (signed_word w32) elements.new) }
{
    nothing_reply(read(env, Handle(array), start, elements))
}

/// Copies a part of an array of longs out, from an index on: as many elements as there is room for. (JNI Specification, chapter 4, "Get<PrimitiveType>ArrayRegion Routines")
///
/// # Errors
///
/// E21 where no env stands behind the handle; E19 in a critical region; else those of `NativeInterface::get_array_region`.
#[unsafe(no_mangle)]
pub extern "C" fn luthrady_get_long_array_region(
    env: &mut EnvHandle,
    array: u64,
    start: u32,
    elements: &mut [i64],
) -> Reply
    ensures { ReadReplied env.old env.new (get_array_region Long array start (length elements.old)) result (map (signed_word w64) elements.old) (map (signed_word w64) elements.new) }
{
    nothing_reply(read(env, Handle(array), start, elements))
}

/// Copies a part of an array out, by the env behind a pointer.
///
/// # Errors
///
/// E21 where no env stands behind the handle; E19 in a critical region; else those of `Env::get_array_region`.
fn read<E: Elem>(
    handle: &mut EnvHandle,
    array: Handle,
    start: u32,
    elements: &mut [E],
) -> Result<(), Fault>
    ensures call { WasMade handle.old handle.new (get_array_region E.KIND array.0 start (length elements.old)) (read_answer result (map E.word_of elements.new)) }
    ensures size { length elements.new ≡ length elements.old }
    ensures err { IfErr result (λ _. elements.new ≡ elements.old) }
{
    if !is_env(handle) {
        return Err(Fault::NotFresh);
    }
    match &mut env_of(handle).presence {
        Presence::Ready(native) => read_by(&mut *native, array, start, elements),
        Presence::Critical(_) => Err(Fault::InCritical),
        Presence::Detached => Err(Fault::NotFresh),
    }
}

/// Copies a part of an array out, by a thread's env.
///
/// # Errors
///
/// Those of `Env::get_array_region`.
fn read_by<E: Elem>(
    native: &mut Native,
    array: Handle,
    start: u32,
    elements: &mut [E],
) -> Result<(), Fault>
    ensures call { Does native.old.env native.new.env (get_array_region E.KIND array.0 start (length elements.old)) (read_answer result (map E.word_of elements.new)) }
    ensures marker { native.new.marker ≡ native.old.marker }
    ensures size { length elements.new ≡ length elements.old }
    ensures err { IfErr result (λ _. elements.new ≡ elements.old) }
{
    native.env.get_array_region::<E>(array, start, elements)
}
