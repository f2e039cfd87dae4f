//! Units and texts of strings.
ghost use Rattle.std.specs.Prelude.{◌≡◌, Err, IfErr, length, map};
ghost use Rattle.jr_critical.specs.LevelParts.{part_read};
ghost use Rattle.luthrady.specs.Doings.{WasDoneBy};
ghost use Rattle.luthrady.specs.Places.{absence};
ghost use Rattle.luthrady.specs.Replies.{the_number};
ghost use Rattle.luthrady.specs.Strings.{BytesReplied, MakesOfBytes, ReadsUnits, TellsText, TextReplied, UnitsReplied, put_text};

use crate::behind::{env_of, is_env};
use crate::handles::EnvHandle;
use crate::held::{Native, Presence};
use crate::reply::{Reply, count_reply, nothing_reply, reference_reply};
use jr_env::{Env, levels_beside};
use jr_steps::Steps;
use jr_word::{Fault, Handle};
use std::alloc::Global;

/// Copies a part of a string's UTF-16 units out, from an index on: as many as there is room for. It is one critical region. (JNI Specification, chapter 4, "GetStringRegion")
///
/// # Errors
///
/// E21 where no env stands behind the handle; E19 in a critical region; that of the gate; those of a handle to an object; E4 where it is to no string; E7 where the part does not lie in the string.
///
/// The units are as they were, and nothing has changed.
#[unsafe(no_mangle)]
pub extern "C" fn luthrady_get_string_region(
    env: &mut EnvHandle,
    string: u64,
    start: u32,
    units: &mut [u16],
) -> Reply
    ensures { UnitsReplied env.old env.new string start result units.old units.new }
{
    nothing_reply(read_units(env, Handle(string), start, units))
}

/// Copies a part of a string's units out, by the env behind a pointer.
///
/// # Errors
///
/// E21 where no env stands behind the handle; E19 in a critical region; else those of `read_units_in`.
fn read_units(
    handle: &mut EnvHandle,
    string: Handle,
    start: u32,
    units: &mut [u16],
) -> Result<(), Fault>
    ensures call { WasDoneBy (λ a b. ReadsUnits a.env b.env string.0 start (length units.old) (part_read result (map the_number units.new))) (result ≡ Err (absence handle.old)) handle.old handle.new }
    ensures err { IfErr result (λ _. units.new ≡ units.old) }
{
    if !is_env(handle) {
        return Err(Fault::NotFresh);
    }
    match &mut env_of(handle).presence {
        Presence::Ready(native) => read_units_by(&mut *native, string, start, units),
        Presence::Critical(_) => Err(Fault::InCritical),
        Presence::Detached => Err(Fault::NotFresh),
    }
}

/// Copies a part of a string's units out, by a thread's env.
///
/// # Errors
///
/// Those of `read_units_in`.
fn read_units_by(
    native: &mut Native,
    string: Handle,
    start: u32,
    units: &mut [u16],
) -> Result<(), Fault>
    ensures call { ReadsUnits native.old.env native.new.env string.0 start (length units.old) (part_read result (map the_number units.new)) }
    ensures marker { native.new.marker ≡ native.old.marker }
    ensures err { IfErr result (λ _. units.new ≡ units.old) }
{
    read_units_in(&mut native.env, string, start, units)
}

/// Copies a part of a string's units out, in a critical region of its own.
///
/// # Errors
///
/// Those of `Env::get_string_critical`; E7 where the part does not lie in the string.
fn read_units_in<S: Steps>(
    env: &mut Env<S>,
    string: Handle,
    start: u32,
    units: &mut [u16],
) -> Result<(), Fault>
    ensures call { ReadsUnits env.old env.new string.0 start (length units.old) (part_read result (map the_number units.new)) }
    ensures err { IfErr result (λ _. units.new ≡ units.old) }
{
    let levels = levels_beside::open_string(env, string)?;
    let answer = levels_beside::get_part(env, &levels, 0, start, units);
    levels_beside::close_all(env, levels);
    answer
}

/// A string of a text in UTF-8, and a local reference to it. The Java Native Interface's is of modified UTF-8. (JNI Specification, chapter 4, "NewStringUTF")
///
/// # Errors
///
/// E21 where no env stands behind the handle; E19 in a critical region; E18 where the bytes are no UTF-8; E16 where memory was refused; that of the gate; E9 where no local place is free;
/// those of space.
///
/// Nothing has changed then; but after E11 the words of the string stay reserved until the next collection.
#[unsafe(no_mangle)]
pub extern "C" fn luthrady_new_string_utf8(alloc: Global, env: &mut EnvHandle, text: &[u8]) -> Reply
    ensures { BytesReplied env.old env.new text.now result }
{
    reference_reply(make_text(alloc, env, text))
}

/// Makes a string of a text, by the env behind a pointer.
///
/// # Errors
///
/// E21 where no env stands behind the handle; E19 in a critical region; else those of `make_text_by`.
fn make_text(alloc: Global, handle: &mut EnvHandle, text: &[u8]) -> Result<Handle, Fault>
    ensures { WasDoneBy (λ a b. MakesOfBytes a.env b.env text.now result) (result ≡ Err (absence handle.old)) handle.old handle.new }
{
    if !is_env(handle) {
        return Err(Fault::NotFresh);
    }
    match &mut env_of(handle).presence {
        Presence::Ready(native) => make_text_by(alloc, &mut *native, text),
        Presence::Critical(_) => Err(Fault::InCritical),
        Presence::Detached => Err(Fault::NotFresh),
    }
}

/// Makes a string of a text, by a thread's env.
///
/// # Errors
///
/// E18 where the bytes are no UTF-8; else those of `Env::new_string_of`.
fn make_text_by(alloc: Global, native: &mut Native, text: &[u8]) -> Result<Handle, Fault>
    ensures call { MakesOfBytes native.old.env native.new.env text.now result }
    ensures marker { native.new.marker ≡ native.old.marker }
{
    let Ok(text) = str::from_utf8(text) else {
        return Err(Fault::Value);
    };
    native.env.new_string_of(alloc, text)
}

/// Reads a string as a text in UTF-8, and answers how many bytes that has. They stand in front then, where there is room for all of them, and else the bytes are as they were.
/// (JNI Specification, chapter 4, "GetStringUTFRegion", "GetStringUTFLength")
///
/// # Errors
///
/// E21 where no env stands behind the handle; E19 in a critical region; that of the gate; those of a handle to an object; E4 where it is to no string; E16 where memory was refused;
/// E18 where a surrogate among the units has no partner.
///
/// The bytes are as they were, and nothing has changed.
#[unsafe(no_mangle)]
pub extern "C" fn luthrady_get_string_utf8(
    alloc: Global,
    env: &mut EnvHandle,
    string: u64,
    bytes: &mut [u8],
) -> Reply
    ensures { TextReplied env.old env.new string result bytes.old bytes.new }
{
    count_reply(read_text(alloc, env, Handle(string), bytes))
}

/// Reads a string as a text, by the env behind a pointer.
///
/// # Errors
///
/// E21 where no env stands behind the handle; E19 in a critical region; else those of `read_text_by`.
fn read_text(
    alloc: Global,
    handle: &mut EnvHandle,
    string: Handle,
    bytes: &mut [u8],
) -> Result<usize, Fault>
    ensures { WasDoneBy (λ a b. TellsText a.env b.env string.0 result bytes.old bytes.new) ((result ≡ Err (absence handle.old)) × (bytes.new ≡ bytes.old)) handle.old handle.new }
{
    if !is_env(handle) {
        return Err(Fault::NotFresh);
    }
    match &mut env_of(handle).presence {
        Presence::Ready(native) => read_text_by(alloc, &mut *native, string, bytes),
        Presence::Critical(_) => Err(Fault::InCritical),
        Presence::Detached => Err(Fault::NotFresh),
    }
}

/// Reads a string as a text, by a thread's env.
///
/// # Errors
///
/// Those of `Env::string_of`; E18 where a surrogate among the units has no partner.
fn read_text_by(
    alloc: Global,
    native: &mut Native,
    string: Handle,
    bytes: &mut [u8],
) -> Result<usize, Fault>
    ensures call { TellsText native.old.env native.new.env string.0 result bytes.old bytes.new }
    ensures marker { native.new.marker ≡ native.old.marker }
{
    match native.env.string_of(alloc, string) {
        Ok(Some(text)) => Ok(put_in_front(text.as_bytes(), bytes)),
        Ok(None) => Err(Fault::Value),
        Err(fault) => Err(fault),
    }
}

/// Copies a text in front of some bytes, where there is room for it, and tells how many bytes it has.
fn put_in_front(text: &[u8], bytes: &mut [u8]) -> usize
    ensures size { result ≡ length text.now }
    ensures bytes { bytes.new ≡ put_text text.now bytes.old }
{
    let count = text.len();
    if count <= bytes.len() {
        bytes[..count].copy_from_slice(text);
    }
    count
}
