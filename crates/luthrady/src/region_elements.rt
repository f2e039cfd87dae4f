//! Elements of the levels of a critical region, one at a time.
ghost use Rattle.std.specs.Int.{w8, w16, w32, w64};
ghost use Rattle.jr_word.specs.declared.kind.Kind.TheVariants.{Boolean, Byte, Char, Int, Long, Short};
ghost use Rattle.jr_word.specs.Elem.{bool_word, signed_word};
ghost use Rattle.luthrady.specs.KeptRegions.{InItsRegion, ReadsLevelElement, RepliedWith, WritesLevelElement};
ghost use Rattle.luthrady.specs.Replies.{nothing_told, the_number};

use crate::handles::EnvHandle;
use crate::regions::{get, set};
use crate::reply::{Reply, element_reply, nothing_reply};

/// A boolean at an index of a level of a critical region. It answers 0 or 1. (JNI Specification, chapter 4, "GetPrimitiveArrayCritical")
///
/// # Errors
///
/// E21 where no env stands behind the handle; E19 where no region stands; E2 where no level of the number does; E6 where its elements are of another kind;
/// E7 where the index is not below the length.
///
/// Nothing is read then, and the levels stand.
#[unsafe(no_mangle)]
pub extern "C" fn luthrady_get_boolean_level_element(
    env: &mut EnvHandle,
    level: u32,
    index: u32,
) -> Reply
    ensures { RepliedWith the_number (InItsRegion (ReadsLevelElement level Boolean index)) env.old env.new result }
{
    element_reply(get::<bool>(env, level, index))
}

/// Makes a boolean the element at an index of a level of a critical region. (JNI Specification, chapter 4, "GetPrimitiveArrayCritical")
///
/// # Errors
///
/// E21 where no env stands behind the handle; E19 where no region stands; E2 where no level of the number does; E5 at a string; E6 where its elements are of another kind;
/// E7 where the index is not below the length.
///
/// Nothing is written then, and the levels stand.
#[unsafe(no_mangle)]
pub extern "C" fn luthrady_set_boolean_level_element(
    env: &mut EnvHandle,
    level: u32,
    index: u32,
    value: bool,
) -> Reply
    ensures { RepliedWith nothing_told (InItsRegion (WritesLevelElement level Boolean index (bool_word value))) env.old env.new result }
{
    nothing_reply(set::<bool>(env, level, index, value))
}

/// A byte at an index of a level of a critical region. It answers 8 bits in two's complement. (JNI Specification, chapter 4, "GetPrimitiveArrayCritical")
///
/// # Errors
///
/// E21 where no env stands behind the handle; E19 where no region stands; E2 where no level of the number does; E6 where its elements are of another kind;
/// E7 where the index is not below the length.
///
/// Nothing is read then, and the levels stand.
#[unsafe(no_mangle)]
pub extern "C" fn luthrady_get_byte_level_element(
    env: &mut EnvHandle,
    level: u32,
    index: u32,
) -> Reply
    ensures { RepliedWith the_number (InItsRegion (ReadsLevelElement level Byte index)) env.old env.new result }
{
    element_reply(get::<i8>(env, level, index))
}

/// Makes a byte the element at an index of a level of a critical region. (JNI Specification, chapter 4, "GetPrimitiveArrayCritical")
///
/// # Errors
///
/// E21 where no env stands behind the handle; E19 where no region stands; E2 where no level of the number does; E5 at a string; E6 where its elements are of another kind;
/// E7 where the index is not below the length.
///
/// Nothing is written then, and the levels stand.
#[unsafe(no_mangle)]
pub extern "C" fn luthrady_set_byte_level_element(
    env: &mut EnvHandle,
    level: u32,
    index: u32,
    value: i8,
) -> Reply
    ensures { RepliedWith nothing_told (InItsRegion (WritesLevelElement level Byte index (signed_word w8 value))) env.old env.new result }
{
    nothing_reply(set::<i8>(env, level, index, value))
}

/// A char at an index of a level of a critical region, or a unit of a string. (JNI Specification, chapter 4, "GetPrimitiveArrayCritical")
///
/// # Errors
///
/// E21 where no env stands behind the handle; E19 where no region stands; E2 where no level of the number does; E6 where its elements are of another kind;
/// E7 where the index is not below the length.
///
/// Nothing is read then, and the levels stand.
#[unsafe(no_mangle)]
pub extern "C" fn luthrady_get_char_level_element(
    env: &mut EnvHandle,
    level: u32,
    index: u32,
) -> Reply
    ensures { RepliedWith the_number (InItsRegion (ReadsLevelElement level Char index)) env.old env.new result }
{
    element_reply(get::<u16>(env, level, index))
}

/// Makes a char the element at an index of a level of a critical region. (JNI Specification, chapter 4, "GetPrimitiveArrayCritical")
///
/// # Errors
///
/// E21 where no env stands behind the handle; E19 where no region stands; E2 where no level of the number does; E5 at a string; E6 where its elements are of another kind;
/// E7 where the index is not below the length.
///
/// Nothing is written then, and the levels stand.
#[unsafe(no_mangle)]
pub extern "C" fn luthrady_set_char_level_element(
    env: &mut EnvHandle,
    level: u32,
    index: u32,
    value: u16,
) -> Reply
    ensures { RepliedWith nothing_told (InItsRegion (WritesLevelElement level Char index value)) env.old env.new result }
{
    nothing_reply(set::<u16>(env, level, index, value))
}

/// A short at an index of a level of a critical region. It answers 16 bits in two's complement. (JNI Specification, chapter 4, "GetPrimitiveArrayCritical")
///
/// # Errors
///
/// E21 where no env stands behind the handle; E19 where no region stands; E2 where no level of the number does; E6 where its elements are of another kind;
/// E7 where the index is not below the length.
///
/// Nothing is read then, and the levels stand.
#[unsafe(no_mangle)]
pub extern "C" fn luthrady_get_short_level_element(
    env: &mut EnvHandle,
    level: u32,
    index: u32,
) -> Reply
    ensures { RepliedWith the_number (InItsRegion (ReadsLevelElement level Short index)) env.old env.new result }
{
    element_reply(get::<i16>(env, level, index))
}

/// Makes a short the element at an index of a level of a critical region. (JNI Specification, chapter 4, "GetPrimitiveArrayCritical")
///
/// # Errors
///
/// E21 where no env stands behind the handle; E19 where no region stands; E2 where no level of the number does; E5 at a string; E6 where its elements are of another kind;
/// E7 where the index is not below the length.
///
/// Nothing is written then, and the levels stand.
#[unsafe(no_mangle)]
pub extern "C" fn luthrady_set_short_level_element(
    env: &mut EnvHandle,
    level: u32,
    index: u32,
    value: i16,
) -> Reply
    ensures { RepliedWith nothing_told (InItsRegion (WritesLevelElement level Short index (signed_word w16 value))) env.old env.new result }
{
    nothing_reply(set::<i16>(env, level, index, value))
}

/// An int at an index of a level of a critical region. It answers 32 bits in two's complement. (JNI Specification, chapter 4, "GetPrimitiveArrayCritical")
///
/// # Errors
///
/// E21 where no env stands behind the handle; E19 where no region stands; E2 where no level of the number does; E6 where its elements are of another kind;
/// E7 where the index is not below the length.
///
/// Nothing is read then, and the levels stand.
#[unsafe(no_mangle)]
pub extern "C" fn luthrady_get_int_level_element(
    env: &mut EnvHandle,
    level: u32,
    index: u32,
) -> Reply
    ensures { RepliedWith the_number (InItsRegion (ReadsLevelElement level Int index)) env.old env.new result }
{
    element_reply(get::<i32>(env, level, index))
}

/// Makes an int the element at an index of a level of a critical region. (JNI Specification, chapter 4, "GetPrimitiveArrayCritical")
///
/// # Errors
///
/// E21 where no env stands behind the handle; E19 where no region stands; E2 where no level of the number does; E5 at a string; E6 where its elements are of another kind;
/// E7 where the index is not below the length.
///
/// Nothing is written then, and the levels stand.
#[unsafe(no_mangle)]
pub extern "C" fn luthrady_set_int_level_element(
    env: &mut EnvHandle,
    level: u32,
    index: u32,
    value: i32,
) -> Reply
    ensures { RepliedWith nothing_told (InItsRegion (WritesLevelElement level Int index (signed_word w32 value))) env.old env.new result }
{
    nothing_reply(set::<i32>(env, level, index, value))
}

/// A long at an index of a level of a critical region. It answers 64 bits in two's complement. (JNI Specification, chapter 4, "GetPrimitiveArrayCritical")
///
/// # Errors
///
/// E21 where no env stands behind the handle; E19 where no region stands; E2 where no level of the number does; E6 where its elements are of another kind;
/// E7 where the index is not below the length.
///
/// Nothing is read then, and the levels stand.
#[unsafe(no_mangle)]
pub extern "C" fn luthrady_get_long_level_element(
    env: &mut EnvHandle,
    level: u32,
    index: u32,
) -> Reply
    ensures { RepliedWith the_number (InItsRegion (ReadsLevelElement level Long index)) env.old env.new result }
{
    element_reply(get::<i64>(env, level, index))
}

/// Makes a long the element at an index of a level of a critical region. (JNI Specification, chapter 4, "GetPrimitiveArrayCritical")
///
/// # Errors
///
/// E21 where no env stands behind the handle; E19 where no region stands; E2 where no level of the number does; E5 at a string; E6 where its elements are of another kind;
/// E7 where the index is not below the length.
///
/// Nothing is written then, and the levels stand.
#[unsafe(no_mangle)]
pub extern "C" fn luthrady_set_long_level_element(
    env: &mut EnvHandle,
    level: u32,
    index: u32,
    value: i64,
) -> Reply
    ensures { RepliedWith nothing_told (InItsRegion (WritesLevelElement level Long index (signed_word w64 value))) env.old env.new result }
{
    nothing_reply(set::<i64>(env, level, index, value))
}
