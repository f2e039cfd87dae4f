//! Weak references that are cleared, or may be.
ghost use Rattle.jr_env.specs.Deeds.{new_local_ref, new_reference};
ghost use Rattle.jr_word.specs.declared.handle.RefKind.TheVariants.{Global};
ghost use Rattle.luthrady.specs.Calls.{Replied};
ghost use Rattle.luthrady.specs.Clearing.{deleting_if_cleared};
ghost use Rattle.luthrady.specs.Replies.{word_or_null, zero_or_one};

use crate::calling::make;
use crate::handles::EnvHandle;
use crate::held::Native;
use crate::reply::{Reply, bool_reply, optional_reply};
use crate::thread_call::{ThreadCall, make_by_thread};
use jr_env::NativeCaller;
use jr_env::calls::{DeleteWeakGlobalRef, IsSameObject, NewGlobalRef, NewLocalRef};
use jr_word::{Fault, Handle};

/// A local reference to what a weak one names, NULL where that is cleared. (JNI Specification, chapter 4, "NewLocalRef")
///
/// # Errors
///
/// E21 where no env stands behind the handle; E19 in a critical region; else those of `NativeInterface::upgrade_local`.
#[unsafe(no_mangle)]
pub extern "C" fn luthrady_upgrade_local(env: &mut EnvHandle, weak: u64) -> Reply
    ensures { Replied word_or_null env.old env.new (new_local_ref weak) result }
{
    optional_reply(make(env, NewLocalRef(Handle(weak))))
}

/// A global reference to what a weak one names, NULL where that is cleared. (JNI Specification, chapter 4, "NewGlobalRef")
///
/// # Errors
///
/// E21 where no env stands behind the handle; E19 in a critical region; else those of `NativeInterface::upgrade_global`.
#[unsafe(no_mangle)]
pub extern "C" fn luthrady_upgrade_global(env: &mut EnvHandle, weak: u64) -> Reply
    ensures { Replied word_or_null env.old env.new (new_reference Global weak) result }
{
    optional_reply(make(env, NewGlobalRef(Handle(weak))))
}

/// Deletes a weak global reference where it is cleared, and tells whether it was, 1 or 0: a comparison with NULL, and then the deletion, each by an entry of its own.
/// NULL answers 1, and a word that is no weak reference 0. Behind a collection it gives slots back, where all were held (E8). The Java Native Interface has no such call.
///
/// # Errors
///
/// E21 where no env stands behind the handle; E19 in a critical region; E13 where a thread is collecting at an entry, or has announced that it will;
/// E2 where the handle is malformed or lies outside the room; E3 where it is a local one of another thread; E2 where its reference does not stand, at the comparison or at the deletion.
///
/// Nothing has changed then.
#[unsafe(no_mangle)]
pub extern "C" fn luthrady_delete_cleared(env: &mut EnvHandle, weak: u64) -> Reply
    ensures { Replied zero_or_one env.old env.new (deleting_if_cleared weak) result }
{
    bool_reply(make_by_thread(env, DeleteCleared(Handle(weak))))
}

/// A call that deletes a weak reference where it is cleared.
#[derive(Clone, Copy)]
struct DeleteCleared(Handle);

impl ThreadCall for DeleteCleared {
    type Answer = bool;

    ghost deed = { λ d. deleting_if_cleared d.0.0 };

    fn by(self, native: &mut Native) -> Result<bool, Fault> {
        let weak = self.0;
        if native.env.make(IsSameObject(weak, Handle::NULL))? {
            native.env.make(DeleteWeakGlobalRef(weak))?;
            return Ok(true);
        }
        Ok(false)
    }
}
