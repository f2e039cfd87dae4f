//! What stands behind a pointer, taken out to be freed.
ghost use Rattle.std.specs.Prelude.{◌≡◌, true, false};
ghost use Rattle.luthrady.specs.Places.{is_null};

use crate::handles::{EnvHandle, RoomHandle};
use crate::held::{EnvPlace, Opened};
use crate::parts::Parts;
use std::alloc::Global;
use std::mem;
use std::ptr::null_mut;

/// An env's handle that holds NULL.
fn no_env(alloc: Global, _like: &EnvHandle) -> EnvHandle
    ensures { is_null result.at ≡ true }
{
    EnvHandle {
        at: null_mut(),
        alloc,
    }
}

/// The place of an env's as a box's parts, by a handle that doesn't hold NULL.
fn env_parts(handle: EnvHandle) -> Parts<EnvPlace, Global>
    requires { is_null handle.at ≡ false }
    ensures { result.value ≡ handle.value }
{
    let EnvHandle { at, alloc } = handle;
    Parts {
        ptr: at as *mut EnvPlace,
        alloc,
    }
}

/// Takes the place of an env's from behind a pointer that isn't NULL, and leaves NULL.
pub(crate) fn take_env(alloc: Global, handle: &mut EnvHandle) -> Box<EnvPlace>
    requires { is_null handle.old.at ≡ false }
    ensures value { result.value ≡ handle.old.value }
    ensures null { is_null handle.new.at ≡ true }
{
    let none = no_env(alloc, handle);
    env_parts(mem::replace(handle, none)).into_box()
}

/// A room's handle that holds NULL.
fn no_room(alloc: Global, _like: &RoomHandle) -> RoomHandle
    ensures { is_null result.at ≡ true }
{
    RoomHandle {
        at: null_mut(),
        alloc,
    }
}

/// The place of a room's as a box's parts, by a handle that doesn't hold NULL.
fn room_parts(handle: RoomHandle) -> Parts<Opened, Global>
    requires { is_null handle.at ≡ false }
    ensures { result.value ≡ handle.value }
{
    let RoomHandle { at, alloc } = handle;
    Parts {
        ptr: at as *mut Opened,
        alloc,
    }
}

/// Takes the place of a room's from behind a pointer that isn't NULL, and leaves NULL.
pub(crate) fn take_room(alloc: Global, handle: &mut RoomHandle) -> Box<Opened>
    requires { is_null handle.old.at ≡ false }
    ensures value { result.value ≡ handle.old.value }
    ensures null { is_null handle.new.at ≡ true }
{
    let none = no_room(alloc, handle);
    room_parts(mem::replace(handle, none)).into_box()
}
