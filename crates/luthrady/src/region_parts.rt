//! Parts of the levels of a critical region.
ghost use Rattle.std.specs.Prelude.{length, map};
ghost use Rattle.std.specs.Int.{w8, w16, w32, w64};
ghost use Rattle.jr_word.specs.declared.kind.Kind.TheVariants.{Boolean, Byte, Char, Int, Long, Short};
ghost use Rattle.jr_word.specs.Elem.{bool_word, signed_word};
ghost use Rattle.luthrady.specs.KeptRegions.{InItsRegion, LevelPartReplied, RepliedWith, WritesLevelPart};
ghost use Rattle.luthrady.specs.Replies.{nothing_told, the_number};

use crate::handles::EnvHandle;
use crate::regions::{get_part, set_part};
use crate::reply::{Reply, nothing_reply};

/// Copies a part of the booleans at a level of a critical region out, from an index on: as many as there is room for.
/// Others may write meanwhile. (JNI Specification, chapter 4, "GetPrimitiveArrayCritical")
///
/// # Errors
///
/// E21 where no env stands behind the handle; E19 where no region stands; E2 where no level of the number does; E6 where its elements are of another kind;
/// E7 where the part does not lie in its array.
///
/// The elements are as they were, and the levels stand.
#[unsafe(no_mangle)]
pub extern "C" fn luthrady_get_boolean_level_part(
    env: &mut EnvHandle,
    level: u32,
    start: u32,
    elements: &mut [bool],
) -> Reply
    ensures { LevelPartReplied level Boolean start (length elements.old) env.old env.new result (map bool_word elements.old) (map bool_word elements.new) }
{
    nothing_reply(get_part::<bool>(env, level, start, elements))
}

/// Copies booleans into a part of a level of a critical region, from an index on. Others may read meanwhile. (JNI Specification, chapter 4, "GetPrimitiveArrayCritical")
///
/// # Errors
///
/// E21 where no env stands behind the handle; E19 where no region stands; E2 where no level of the number does; E5 at a string; E6 where its elements are of another kind;
/// E7 where the part does not lie in its array.
///
/// Nothing is written then, and the levels stand.
#[unsafe(no_mangle)]
pub extern "C" fn luthrady_set_boolean_level_part(
    env: &mut EnvHandle,
    level: u32,
    start: u32,
    elements: &[bool],
) -> Reply
    ensures { RepliedWith nothing_told (InItsRegion (WritesLevelPart level Boolean start (map bool_word elements.now))) env.old env.new result }
{
    nothing_reply(set_part::<bool>(env, level, start, elements))
}

/// Copies a part of the bytes at a level of a critical region out, from an index on: as many as there is room for.
/// Others may write meanwhile. (JNI Specification, chapter 4, "GetPrimitiveArrayCritical")
///
/// # Errors
///
/// E21 where no env stands behind the handle; E19 where no region stands; E2 where no level of the number does; E6 where its elements are of another kind;
/// E7 where the part does not lie in its array.
///
/// The elements are as they were, and the levels stand.
#[unsafe(no_mangle)]
pub extern "C" fn luthrady_get_byte_level_part(
    env: &mut EnvHandle,
    level: u32,
    start: u32,
    elements: &mut [i8],
) -> Reply
    ensures { LevelPartReplied level Byte start (length elements.old) env.old env.new result (map (signed_word w8) elements.old) (map (signed_word w8) elements.new) }
{
    nothing_reply(get_part::<i8>(env, level, start, elements))
}

/// Copies bytes into a part of a level of a critical region, from an index on. Others may read meanwhile. (JNI Specification, chapter 4, "GetPrimitiveArrayCritical")
///
/// # Errors
///
/// E21 where no env stands behind the handle; E19 where no region stands; E2 where no level of the number does; E5 at a string; E6 where its elements are of another kind;
/// E7 where the part does not lie in its array.
///
/// Nothing is written then, and the levels stand.
#[unsafe(no_mangle)]
pub extern "C" fn luthrady_set_byte_level_part(
    env: &mut EnvHandle,
    level: u32,
    start: u32,
    elements: &[i8],
) -> Reply
    ensures { RepliedWith nothing_told (InItsRegion (WritesLevelPart level Byte start (map (signed_word w8) elements.now))) env.old env.new result }
{
    nothing_reply(set_part::<i8>(env, level, start, elements))
}

/// Copies a part of the chars at a level of a critical region out, from an index on: as many as there is room for. The units of a string are read as chars.
/// Others may write meanwhile. (JNI Specification, chapter 4, "GetPrimitiveArrayCritical")
///
/// # Errors
///
/// E21 where no env stands behind the handle; E19 where no region stands; E2 where no level of the number does; E6 where its elements are of another kind;
/// E7 where the part does not lie in its array or string.
///
/// The elements are as they were, and the levels stand.
#[unsafe(no_mangle)]
pub extern "C" fn luthrady_get_char_level_part(
    env: &mut EnvHandle,
    level: u32,
    start: u32,
    elements: &mut [u16],
) -> Reply
    ensures { LevelPartReplied level Char start (length elements.old) env.old env.new result (map the_number elements.old) (map the_number elements.new) }
{
    nothing_reply(get_part::<u16>(env, level, start, elements))
}

/// Copies chars into a part of a level of a critical region, from an index on. Others may read meanwhile. (JNI Specification, chapter 4, "GetPrimitiveArrayCritical")
///
/// # Errors
///
/// E21 where no env stands behind the handle; E19 where no region stands; E2 where no level of the number does; E5 at a string; E6 where its elements are of another kind;
/// E7 where the part does not lie in its array.
///
/// Nothing is written then, and the levels stand.
#[unsafe(no_mangle)]
pub extern "C" fn luthrady_set_char_level_part(
    env: &mut EnvHandle,
    level: u32,
    start: u32,
    elements: &[u16],
) -> Reply
    ensures { RepliedWith nothing_told (InItsRegion (WritesLevelPart level Char start (map the_number elements.now))) env.old env.new result }
{
    nothing_reply(set_part::<u16>(env, level, start, elements))
}

/// Copies a part of the shorts at a level of a critical region out, from an index on: as many as there is room for.
/// Others may write meanwhile. (JNI Specification, chapter 4, "GetPrimitiveArrayCritical")
///
/// # Errors
///
/// E21 where no env stands behind the handle; E19 where no region stands; E2 where no level of the number does; E6 where its elements are of another kind;
/// E7 where the part does not lie in its array.
///
/// The elements are as they were, and the levels stand.
#[unsafe(no_mangle)]
pub extern "C" fn luthrady_get_short_level_part(
    env: &mut EnvHandle,
    level: u32,
    start: u32,
    elements: &mut [i16],
) -> Reply
    ensures { LevelPartReplied level Short start (length elements.old) env.old env.new result (map (signed_word w16) elements.old) (map (signed_word w16) elements.new) }
{
    nothing_reply(get_part::<i16>(env, level, start, elements))
}

/// Copies shorts into a part of a level of a critical region, from an index on. Others may read meanwhile. (JNI Specification, chapter 4, "GetPrimitiveArrayCritical")
///
/// # Errors
///
/// E21 where no env stands behind the handle; E19 where no region stands; E2 where no level of the number does; E5 at a string; E6 where its elements are of another kind;
/// E7 where the part does not lie in its array.
///
/// Nothing is written then, and the levels stand.
#[unsafe(no_mangle)]
pub extern "C" fn luthrady_set_short_level_part(
    env: &mut EnvHandle,
    level: u32,
    start: u32,
    elements: &[i16],
) -> Reply
    ensures { RepliedWith nothing_told (InItsRegion (WritesLevelPart level Short start (map (signed_word w16) elements.now))) env.old env.new result }
{
    nothing_reply(set_part::<i16>(env, level, start, elements))
}

/// Copies a part of the ints at a level of a critical region out, from an index on: as many as there is room for.
/// Others may write meanwhile. (JNI Specification, chapter 4, "GetPrimitiveArrayCritical")
///
/// # Errors
///
/// E21 where no env stands behind the handle; E19 where no region stands; E2 where no level of the number does; E6 where its elements are of another kind;
/// E7 where the part does not lie in its array.
///
/// The elements are as they were, and the levels stand.
#[unsafe(no_mangle)]
pub extern "C" fn luthrady_get_int_level_part(
    env: &mut EnvHandle,
    level: u32,
    start: u32,
    elements: &mut [i32],
) -> Reply
    ensures { LevelPartReplied level Int start (length elements.old) env.old env.new result (map (signed_word w32) elements.old) (map (signed_word w32) elements.new) }
{
    nothing_reply(get_part::<i32>(env, level, start, elements))
}

/// Copies ints into a part of a level of a critical region, from an index on. Others may read meanwhile. (JNI Specification, chapter 4, "GetPrimitiveArrayCritical")
///
/// # Errors
///
/// E21 where no env stands behind the handle; E19 where no region stands; E2 where no level of the number does; E5 at a string; E6 where its elements are of another kind;
/// E7 where the part does not lie in its array.
///
/// Nothing is written then, and the levels stand.
#[unsafe(no_mangle)]
pub extern "C" fn luthrady_set_int_level_part(
    env: &mut EnvHandle,
    level: u32,
    start: u32,
    elements: &[i32],
) -> Reply
    ensures { RepliedWith nothing_told (InItsRegion (WritesLevelPart level Int start (map (signed_word w32) elements.now))) env.old env.new result }
{
    nothing_reply(set_part::<i32>(env, level, start, elements))
}

/// Copies a part of the longs at a level of a critical region out, from an index on: as many as there is room for.
/// Others may write meanwhile. (JNI Specification, chapter 4, "GetPrimitiveArrayCritical")
///
/// # Errors
///
/// E21 where no env stands behind the handle; E19 where no region stands; E2 where no level of the number does; E6 where its elements are of another kind;
/// E7 where the part does not lie in its array.
///
/// The elements are as they were, and the levels stand.
#[unsafe(no_mangle)]
pub extern "C" fn luthrady_get_long_level_part(
    env: &mut EnvHandle,
    level: u32,
    start: u32,
    elements: &mut [i64],
) -> Reply
    ensures { LevelPartReplied level Long start (length elements.old) env.old env.new result (map (signed_word w64) elements.old) (map (signed_word w64) elements.new) }
{
    nothing_reply(get_part::<i64>(env, level, start, elements))
}

/// Copies longs into a part of a level of a critical region, from an index on. Others may read meanwhile. (JNI Specification, chapter 4, "GetPrimitiveArrayCritical")
///
/// # Errors
///
/// E21 where no env stands behind the handle; E19 where no region stands; E2 where no level of the number does; E5 at a string; E6 where its elements are of another kind;
/// E7 where the part does not lie in its array.
///
/// Nothing is written then, and the levels stand.
#[unsafe(no_mangle)]
pub extern "C" fn luthrady_set_long_level_part(
    env: &mut EnvHandle,
    level: u32,
    start: u32,
    elements: &[i64],
) -> Reply
    ensures { RepliedWith nothing_told (InItsRegion (WritesLevelPart level Long start (map (signed_word w64) elements.now))) env.old env.new result }
{
    nothing_reply(set_part::<i64>(env, level, start, elements))
}
