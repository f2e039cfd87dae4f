//! Rooms and their threads.
ghost use Rattle.std.specs.Prelude.{◌≡◌};
ghost use Rattle.luthrady.specs.Opening.{OpenReplied};
ghost use Rattle.luthrady.specs.Replies.{reply_of, the_number};
ghost use Rattle.luthrady.specs.Threads.{AttachReplied, DetachReplied, FreeEnvReplied, FreeRoomReplied, ReleaseReplied, WasDetached, elsewhere, leaving_answer, stood_of, told_summary};

use crate::attaching::open_room;
use crate::behind::{env_of, has_attached, is_env, is_room, room_of};
use crate::calling::make;
use crate::freeing::{take_env, take_room};
use crate::handles::{EnvHandle, RoomHandle, env_pointer, room_pointer};
use crate::held::{EnvPlace, Opened};
use crate::reply::{Reply, nothing_reply, number_reply};
use jr_env::calls::FreeLocals;
use jr_model::Summary;
use jr_word::{Config, Fault};
use std::alloc::Global;

/// The sizes of a room.
#[repr(C)]
#[derive(Clone, Copy)]
pub struct Sizes {
    /// How many threads there are.
    pub threads: u32,
    /// How many slots for global and weak references there are.
    pub slots: u32,
    /// How many objects there may be.
    pub objects: u32,
    /// How many words of elements there may be. Each element of an array takes one, of whatever kind, and each unit of a string.
    pub words: u32,
    /// How many local references a thread may have.
    pub locals: u32,
}

/// Opens a room of these sizes, and writes the pointer to it into `out`, the `at` of a room's handle.
///
/// # Errors
///
/// E17 where the sizes are beyond their limits; E16 where memory was refused.
#[unsafe(no_mangle)]
pub extern "C" fn luthrady_open(alloc: Global, sizes: Sizes, out: &mut *mut u8) -> Reply
    ensures { OpenReplied sizes result }
{
    let config = Config {
        threads: sizes.threads,
        slots: sizes.slots,
        objects: sizes.objects,
        words: sizes.words,
        locals: sizes.locals,
    };
    opened(open_room(alloc, config), out)
}

/// Tells whether a room was opened, and writes the pointer to it.
fn opened(answer: Result<Box<Opened>, Fault>, out: &mut *mut u8) -> Reply
    ensures { result ≡ reply_of elsewhere answer }
{
    match answer {
        Ok(room) => {
            *out = room_pointer(room);
            nothing_reply(Ok(()))
        }
        Err(fault) => nothing_reply(Err(fault)),
    }
}

/// Attaches a thread with an env that no other thread holds, and writes the pointer to it into `out`, the `at` of an env's handle.
/// The thread has no local reference. (JNI Specification, chapter 5, "AttachCurrentThread")
///
/// # Errors
///
/// E21 where no room stands behind the handle, no env of it is free, or it was released; E16 where memory was refused.
///
/// Nothing has changed then.
#[unsafe(no_mangle)]
pub extern "C" fn luthrady_attach(alloc: Global, room: &mut RoomHandle, out: &mut *mut u8) -> Reply
    ensures { AttachReplied room.old room.new result }
{
    if !is_room(room) {
        return nothing_reply(Err(Fault::NotFresh));
    }
    attached(room_of(room).attach(alloc), out)
}

/// Tells whether a thread was attached, and writes the pointer to its env.
fn attached(answer: Result<Box<EnvPlace>, Fault>, out: &mut *mut u8) -> Reply
    ensures { result ≡ reply_of elsewhere answer }
{
    match answer {
        Ok(made) => {
            *out = env_pointer(made);
            nothing_reply(Ok(()))
        }
        Err(fault) => nothing_reply(Err(fault)),
    }
}

/// Lets go of the envs that no thread holds. No further thread is attached then, and the last one that is detached closes the room.
///
/// # Errors
///
/// E21 where no room stands behind the handle.
///
/// Nothing has changed then.
#[unsafe(no_mangle)]
pub extern "C" fn luthrady_release(room: &mut RoomHandle) -> Reply
    ensures { ReleaseReplied room.old room.new result }
{
    if !is_room(room) {
        return nothing_reply(Err(Fault::NotFresh));
    }
    room_of(room).release();
    nothing_reply(Ok(()))
}

/// What stood in a room as it was closed.
#[repr(C)]
#[derive(Clone, Copy)]
pub struct Stood {
    /// How many global references stood.
    pub globals: u32,
    /// How many weak references stood.
    pub weaks: u32,
    /// How many objects were present.
    pub live: u32,
    /// How many words were used.
    pub used: u32,
}

/// What a summary tells.
fn told_of(summary: Summary) -> Stood
    ensures { result ≡ told_summary summary }
{
    Stood {
        globals: summary.globals,
        weaks: summary.weaks,
        live: summary.live,
        used: summary.used,
    }
}

/// Detaches a thread from the room that it was attached to. Its local references are freed, and no env stands behind its handle then. The handle's place remains until `luthrady_free_env`.
/// The room has the env for the next thread.
/// Where the room was released, the last thread closes it: it answers 1, and writes what stood there; else it answers 0. (JNI Specification, chapter 5, "DetachCurrentThread")
///
/// # Errors
///
/// E21 where no room stands behind the room's handle, no thread is attached to it, or no env stands behind the env's handle; E19 in a critical region;
/// E13 where a thread is collecting, or has announced that it will; E22 with how many threads were inside, knocking, announcing or collecting as the last one closed the room, at least 1.
///
/// At E21 and E19 nothing has changed. At E13 the thread is still attached, with its local references. At E22 it is detached, and the room can't be closed any more.
#[unsafe(no_mangle)]
pub extern "C" fn luthrady_detach(
    room: &mut RoomHandle,
    env: &mut EnvHandle,
    out: &mut Stood,
) -> Reply
    ensures { DetachReplied room.old room.new env.old env.new result out.old out.new }
{
    told(detach(room, env), out)
}

/// Detaches a thread.
///
/// # Errors
///
/// E21, E19, E13 and E22, as `luthrady_detach`.
fn detach(room: &mut RoomHandle, handle: &mut EnvHandle) -> Result<Option<Summary>, Fault>
    ensures { WasDetached room.old room.new handle.old handle.new result }
{
    if !has_attached(room) {
        return Err(Fault::NotFresh);
    }
    if let Err(fault) = make(handle, FreeLocals) {
        return Err(fault);
    }
    if !is_env(handle) {
        return Err(Fault::NotFresh);
    }
    let Some(native) = env_of(handle).leave() else {
        return Err(Fault::NotFresh);
    };
    room_of(room).take_back(native)
}

/// Tells whether a room was closed, and what stood there.
fn told(closed: Result<Option<Summary>, Fault>, out: &mut Stood) -> Reply
    ensures reply { result ≡ reply_of the_number (leaving_answer closed) }
    ensures stood { out.new ≡ stood_of closed out.old }
{
    match closed {
        Ok(None) => number_reply(Ok(0)),
        Ok(Some(summary)) => {
            *out = told_of(summary);
            number_reply(Ok(1))
        }
        Err(fault) => number_reply(Err(fault)),
    }
}

/// Frees the place of a thread's env, and leaves NULL in its handle.
///
/// # Errors
///
/// E21 where no place of an env stands behind the handle; E19 where the thread is attached, in a critical region too.
///
/// Nothing has changed then.
#[unsafe(no_mangle)]
pub extern "C" fn luthrady_free_env(alloc: Global, env: &mut EnvHandle) -> Reply
    ensures { FreeEnvReplied env.old env.new result }
{
    if !is_env(env) {
        return nothing_reply(Err(Fault::NotFresh));
    }
    if env_of(env).is_attached() {
        return nothing_reply(Err(Fault::InCritical));
    }
    drop(take_env(alloc, env));
    nothing_reply(Ok(()))
}

/// Frees the place of a room, with the envs that no thread holds, and leaves NULL in its handle.
///
/// # Errors
///
/// E21 where no room stands behind the handle; E22 with how many threads are attached, at least 1.
///
/// Nothing has changed then.
#[unsafe(no_mangle)]
pub extern "C" fn luthrady_free_room(alloc: Global, room: &mut RoomHandle) -> Reply
    ensures { FreeRoomReplied room.old room.new result }
{
    if !is_room(room) {
        return nothing_reply(Err(Fault::NotFresh));
    }
    let attached = room_of(room).attached;
    if attached != 0 {
        return nothing_reply(Err(Fault::LeftInside(attached)));
    }
    drop(take_room(alloc, room));
    nothing_reply(Ok(()))
}
