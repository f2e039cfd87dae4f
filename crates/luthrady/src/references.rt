//! References.
ghost use Rattle.jr_word.specs.declared.handle.RefKind.TheVariants.{Global, Weak};
ghost use Rattle.jr_env.specs.Deeds.{delete_local_ref, delete_reference, get_object_ref_type, is_same_object, new_local_ref, new_reference};
ghost use Rattle.luthrady.specs.Calls.{Replied};
ghost use Rattle.luthrady.specs.Replies.{nothing_told, the_number, word_or_null, zero_or_one};

use crate::calling::make;
use crate::handles::EnvHandle;
use crate::held::Native;
use crate::reply::{Reply, bool_reply, nothing_reply, optional_reply, type_reply};
use crate::thread_call::{ThreadCall, make_by_thread};
use jr_env::NativeInterface;
use jr_env::calls::{
    DeleteGlobalRef, DeleteLocalRef, DeleteWeakGlobalRef, GetObjectRefType, NewGlobalRef,
    NewLocalRef, NewWeakGlobalRef,
};
use jr_word::{Fault, Handle};

/// A new global reference to what the word names, NULL to null. (JNI Specification, chapter 4, "NewGlobalRef")
///
/// # Errors
///
/// E21 where no env stands behind the handle; E19 in a critical region; else those of `NativeInterface::new_global_ref`.
#[unsafe(no_mangle)]
pub extern "C" fn luthrady_new_global_ref(env: &mut EnvHandle, object: u64) -> Reply
    ensures { Replied word_or_null env.old env.new (new_reference Global object) result }
{
    optional_reply(make(env, NewGlobalRef(Handle(object))))
}

/// A new weak global reference to what the word names, NULL to null. (JNI Specification, chapter 4, "NewWeakGlobalRef")
///
/// # Errors
///
/// E21 where no env stands behind the handle; E19 in a critical region; else those of `NativeInterface::new_weak_global_ref`.
#[unsafe(no_mangle)]
pub extern "C" fn luthrady_new_weak_global_ref(env: &mut EnvHandle, object: u64) -> Reply
    ensures { Replied word_or_null env.old env.new (new_reference Weak object) result }
{
    optional_reply(make(env, NewWeakGlobalRef(Handle(object))))
}

/// A new local reference to what the word names, NULL to null. (JNI Specification, chapter 4, "NewLocalRef")
///
/// # Errors
///
/// E21 where no env stands behind the handle; E19 in a critical region; else those of `NativeInterface::new_local_ref`.
#[unsafe(no_mangle)]
pub extern "C" fn luthrady_new_local_ref(env: &mut EnvHandle, object: u64) -> Reply
    ensures { Replied word_or_null env.old env.new (new_local_ref object) result }
{
    optional_reply(make(env, NewLocalRef(Handle(object))))
}

/// Deletes a global reference. (JNI Specification, chapter 4, "DeleteGlobalRef")
///
/// # Errors
///
/// E21 where no env stands behind the handle; E19 in a critical region; else those of `NativeInterface::delete_global_ref`.
#[unsafe(no_mangle)]
pub extern "C" fn luthrady_delete_global_ref(env: &mut EnvHandle, reference: u64) -> Reply
    ensures { Replied nothing_told env.old env.new (delete_reference Global reference) result }
{
    nothing_reply(make(env, DeleteGlobalRef(Handle(reference))))
}

/// Deletes a weak global reference. (JNI Specification, chapter 4, "DeleteWeakGlobalRef")
///
/// # Errors
///
/// E21 where no env stands behind the handle; E19 in a critical region; else those of `NativeInterface::delete_weak_global_ref`.
#[unsafe(no_mangle)]
pub extern "C" fn luthrady_delete_weak_global_ref(env: &mut EnvHandle, reference: u64) -> Reply
    ensures { Replied nothing_told env.old env.new (delete_reference Weak reference) result }
{
    nothing_reply(make(env, DeleteWeakGlobalRef(Handle(reference))))
}

/// Deletes a local reference. (JNI Specification, chapter 4, "DeleteLocalRef")
///
/// # Errors
///
/// E21 where no env stands behind the handle; E19 in a critical region; else those of `NativeInterface::delete_local_ref`.
#[unsafe(no_mangle)]
pub extern "C" fn luthrady_delete_local_ref(env: &mut EnvHandle, reference: u64) -> Reply
    ensures { Replied nothing_told env.old env.new (delete_local_ref reference) result }
{
    nothing_reply(make(env, DeleteLocalRef(Handle(reference))))
}

/// Whether both words name the same object, 1 or 0. (JNI Specification, chapter 4, "IsSameObject")
///
/// # Errors
///
/// E21 where no env stands behind the handle; E19 in a critical region; else those of `NativeInterface::is_same_object`.
#[unsafe(no_mangle)]
pub extern "C" fn luthrady_is_same_object(env: &mut EnvHandle, left: u64, right: u64) -> Reply
    ensures { Replied zero_or_one env.old env.new (is_same_object left right) result }
{
    bool_reply(make_by_thread(env, Compare(Handle(left), Handle(right))))
}

/// A comparison of two references, as an env makes it: of two shared ones in a place of its own.
#[derive(Clone, Copy)]
struct Compare(Handle, Handle);

impl ThreadCall for Compare {
    type Answer = bool;

    ghost deed = { λ c. is_same_object c.0.0 c.1.0 };

    #[inline(always)]
    fn by(self, native: &mut Native) -> Result<bool, Fault> {
        native.env.is_same_object(self.0, self.1)
    }
}

/// The type of a reference: 0 invalid, 1 local, 2 global, 3 weak. (JNI Specification, chapter 4, "GetObjectRefType")
///
/// # Errors
///
/// E21 where no env stands behind the handle; E19 in a critical region; else those of `NativeInterface::get_object_ref_type`.
#[unsafe(no_mangle)]
pub extern "C" fn luthrady_get_object_ref_type(env: &mut EnvHandle, object: u64) -> Reply
    ensures { Replied the_number env.old env.new (get_object_ref_type object) result }
{
    type_reply(make(env, GetObjectRefType(Handle(object))))
}
