//! Frames of local references.
ghost use Rattle.jr_env.specs.Deeds.{ensure_local_capacity, free_locals, pop_local_frame, push_local_frame};
ghost use Rattle.luthrady.specs.Calls.{Replied};
ghost use Rattle.luthrady.specs.Replies.{nothing_told, word_or_null};

use crate::calling::make;
use crate::handles::EnvHandle;
use crate::held::Native;
use crate::reply::{Reply, nothing_reply, optional_reply};
use crate::thread_call::{ThreadCall, make_by_thread};
use jr_env::calls::{FreeLocals, PopLocalFrame};
use jr_word::{Fault, Handle};

/// Ensures that so many local references can be made in the current frame. (JNI Specification, chapter 4, "EnsureLocalCapacity")
///
/// # Errors
///
/// E21 where no env stands behind the handle; E19 in a critical region; else those of `Env::ensure_local_capacity`.
#[unsafe(no_mangle)]
pub extern "C" fn luthrady_ensure_local_capacity(env: &mut EnvHandle, capacity: u32) -> Reply
    ensures { Replied nothing_told env.old env.new (ensure_local_capacity capacity) result }
{
    nothing_reply(make_by_thread(env, EnsureLocalCapacity(capacity)))
}

/// Opens a frame for so many local references. (JNI Specification, chapter 4, "PushLocalFrame")
///
/// # Errors
///
/// E21 where no env stands behind the handle; E19 in a critical region; else those of `Env::push_local_frame`.
#[unsafe(no_mangle)]
pub extern "C" fn luthrady_push_local_frame(env: &mut EnvHandle, capacity: u32) -> Reply
    ensures { Replied nothing_told env.old env.new (push_local_frame capacity) result }
{
    nothing_reply(make_by_thread(env, PushLocalFrame(capacity)))
}

/// Closes the current frame, and makes a reference in the one before to what the word names. (JNI Specification, chapter 4, "PopLocalFrame")
///
/// # Errors
///
/// E21 where no env stands behind the handle; E19 in a critical region; else those of `NativeInterface::pop_local_frame`.
#[unsafe(no_mangle)]
pub extern "C" fn luthrady_pop_local_frame(env: &mut EnvHandle, kept: u64) -> Reply
    ensures { Replied word_or_null env.old env.new (pop_local_frame kept) result }
{
    optional_reply(make(env, PopLocalFrame(Handle(kept))))
}

/// Frees all local references, as at the end of a native method. The Java Native Interface has no such call.
///
/// # Errors
///
/// E21 where no env stands behind the handle; E19 in a critical region; else those of `NativeInterface::free_locals`.
#[unsafe(no_mangle)]
pub extern "C" fn luthrady_free_locals(env: &mut EnvHandle) -> Reply
    ensures { Replied nothing_told env.old env.new (free_locals) result }
{
    nothing_reply(make(env, FreeLocals))
}

/// A call that tells whether so many local references can be made.
#[derive(Clone, Copy)]
struct EnsureLocalCapacity(u32);

impl ThreadCall for EnsureLocalCapacity {
    type Answer = ();

    ghost deed = { λ e. ensure_local_capacity e.0 };

    fn by(self, native: &mut Native) -> Result<(), Fault> {
        native.env.ensure_local_capacity(self.0)
    }
}

/// A call that opens a frame for so many local references.
#[derive(Clone, Copy)]
struct PushLocalFrame(u32);

impl ThreadCall for PushLocalFrame {
    type Answer = ();

    ghost deed = { λ p. push_local_frame p.0 };

    fn by(self, native: &mut Native) -> Result<(), Fault> {
        native.env.push_local_frame(self.0)
    }
}
