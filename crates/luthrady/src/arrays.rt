//! Objects, arrays and strings.
ghost use Rattle.jr_word.specs.declared.kind.Kind.TheVariants.{Boolean, Byte, Char, Int, Long, Short};
ghost use Rattle.jr_env.specs.Deeds.{get_array_length, get_object_array_element, get_string_length, new_array, new_object_array, new_plain, new_string, set_object_array_element};
ghost use Rattle.luthrady.specs.Calls.{Replied};
ghost use Rattle.luthrady.specs.Replies.{nothing_told, the_number, the_word, word_or_null};

use crate::calling::make;
use crate::handles::EnvHandle;
use crate::reply::{Reply, nothing_reply, number_reply, optional_reply, reference_reply};
use jr_env::calls::{
    GetArrayLength, GetObjectArrayElement, GetStringLength, NewArray, NewObjectArray, NewPlain,
    NewString, SetObjectArrayElement,
};
use jr_word::Handle;

/// A plain object, and a local reference to it. The Java Native Interface has no such call.
///
/// # Errors
///
/// E21 where no env stands behind the handle; E19 in a critical region; else those of `NativeInterface::new_plain`.
#[unsafe(no_mangle)]
pub extern "C" fn luthrady_new_plain(env: &mut EnvHandle) -> Reply
    ensures { Replied the_word env.old env.new (new_plain) result }
{
    reference_reply(make(env, NewPlain))
}

/// An array of booleans, each false, and a local reference to it. (JNI Specification, chapter 4, "New<PrimitiveType>Array Routines")
///
/// # Errors
///
/// E21 where no env stands behind the handle; E19 in a critical region; else those of `NativeInterface::new_array`.
#[unsafe(no_mangle)]
pub extern "C" fn luthrady_new_boolean_array(env: &mut EnvHandle, length: u32) -> Reply
    ensures { Replied the_word env.old env.new (new_array Boolean length) result }
{
    reference_reply(make(env, NewArray::<bool>::of(length)))
}

/// An array of bytes, each zero, and a local reference to it. (JNI Specification, chapter 4, "New<PrimitiveType>Array Routines")
///
/// # Errors
///
/// E21 where no env stands behind the handle; E19 in a critical region; else those of `NativeInterface::new_array`.
#[unsafe(no_mangle)]
pub extern "C" fn luthrady_new_byte_array(env: &mut EnvHandle, length: u32) -> Reply
    ensures { Replied the_word env.old env.new (new_array Byte length) result }
{
    reference_reply(make(env, NewArray::<i8>::of(length)))
}

/// An array of chars, each zero, and a local reference to it. (JNI Specification, chapter 4, "New<PrimitiveType>Array Routines")
///
/// # Errors
///
/// E21 where no env stands behind the handle; E19 in a critical region; else those of `NativeInterface::new_array`.
#[unsafe(no_mangle)]
pub extern "C" fn luthrady_new_char_array(env: &mut EnvHandle, length: u32) -> Reply
    ensures { Replied the_word env.old env.new (new_array Char length) result }
{
    reference_reply(make(env, NewArray::<u16>::of(length)))
}

/// An array of shorts, each zero, and a local reference to it. (JNI Specification, chapter 4, "New<PrimitiveType>Array Routines")
///
/// # Errors
///
/// E21 where no env stands behind the handle; E19 in a critical region; else those of `NativeInterface::new_array`.
#[unsafe(no_mangle)]
pub extern "C" fn luthrady_new_short_array(env: &mut EnvHandle, length: u32) -> Reply
    ensures { Replied the_word env.old env.new (new_array Short length) result }
{
    reference_reply(make(env, NewArray::<i16>::of(length)))
}

/// An array of ints, each zero, and a local reference to it. (JNI Specification, chapter 4, "New<PrimitiveType>Array Routines")
///
/// # Errors
///
/// E21 where no env stands behind the handle; E19 in a critical region; else those of `NativeInterface::new_array`.
#[unsafe(no_mangle)]
pub extern "C" fn luthrady_new_int_array(env: &mut EnvHandle, length: u32) -> Reply
    ensures { Replied the_word env.old env.new (new_array Int length) result }
{
    reference_reply(make(env, NewArray::<i32>::of(length)))
}

/// An array of longs, each zero, and a local reference to it. (JNI Specification, chapter 4, "New<PrimitiveType>Array Routines")
///
/// # Errors
///
/// E21 where no env stands behind the handle; E19 in a critical region; else those of `NativeInterface::new_array`.
#[unsafe(no_mangle)]
pub extern "C" fn luthrady_new_long_array(env: &mut EnvHandle, length: u32) -> Reply
    ensures { Replied the_word env.old env.new (new_array Long length) result }
{
    reference_reply(make(env, NewArray::<i64>::of(length)))
}

/// An array of object references, each to what the word names, and a local reference to it. (JNI Specification, chapter 4, "NewObjectArray")
///
/// # Errors
///
/// E21 where no env stands behind the handle; E19 in a critical region; else those of `NativeInterface::new_object_array`.
#[unsafe(no_mangle)]
pub extern "C" fn luthrady_new_object_array(env: &mut EnvHandle, length: u32, initial: u64) -> Reply
    ensures { Replied the_word env.old env.new (new_object_array length initial) result }
{
    reference_reply(make(env, NewObjectArray(length, Handle(initial))))
}

/// A string of these UTF-16 units, and a local reference to it. (JNI Specification, chapter 4, "NewString")
///
/// # Errors
///
/// E21 where no env stands behind the handle; E19 in a critical region; else those of `NativeInterface::new_string`.
#[unsafe(no_mangle)]
pub extern "C" fn luthrady_new_string(env: &mut EnvHandle, units: &[u16]) -> Reply
    ensures { Replied the_word env.old env.new (new_string units.now) result }
{
    reference_reply(make(env, NewString(units)))
}

/// How many elements an array has. (JNI Specification, chapter 4, "GetArrayLength")
///
/// # Errors
///
/// E21 where no env stands behind the handle; E19 in a critical region; else those of `NativeInterface::get_array_length`.
#[unsafe(no_mangle)]
pub extern "C" fn luthrady_get_array_length(env: &mut EnvHandle, array: u64) -> Reply
    ensures { Replied the_number env.old env.new (get_array_length array) result }
{
    number_reply(make(env, GetArrayLength(Handle(array))))
}

/// How many UTF-16 units a string has. (JNI Specification, chapter 4, "GetStringLength")
///
/// # Errors
///
/// E21 where no env stands behind the handle; E19 in a critical region; else those of `NativeInterface::get_string_length`.
#[unsafe(no_mangle)]
pub extern "C" fn luthrady_get_string_length(env: &mut EnvHandle, string: u64) -> Reply
    ensures { Replied the_number env.old env.new (get_string_length string) result }
{
    number_reply(make(env, GetStringLength(Handle(string))))
}

/// An element of an object array, as a local reference, NULL for null. (JNI Specification, chapter 4, "GetObjectArrayElement")
///
/// # Errors
///
/// E21 where no env stands behind the handle; E19 in a critical region; else those of `NativeInterface::get_object_array_element`.
#[unsafe(no_mangle)]
pub extern "C" fn luthrady_get_object_array_element(
    env: &mut EnvHandle,
    array: u64,
    index: u32,
) -> Reply
    ensures { Replied word_or_null env.old env.new (get_object_array_element array index) result }
{
    optional_reply(make(env, GetObjectArrayElement(Handle(array), index)))
}

/// Makes an element of an object array refer to what a word names. (JNI Specification, chapter 4, "SetObjectArrayElement")
///
/// # Errors
///
/// E21 where no env stands behind the handle; E19 in a critical region; else those of `NativeInterface::set_object_array_element`.
#[unsafe(no_mangle)]
pub extern "C" fn luthrady_set_object_array_element(
    env: &mut EnvHandle,
    array: u64,
    index: u32,
    value: u64,
) -> Reply
    ensures { Replied nothing_told env.old env.new (set_object_array_element array index value) result }
{
    nothing_reply(make(
        env,
        SetObjectArrayElement(Handle(array), index, Handle(value)),
    ))
}
