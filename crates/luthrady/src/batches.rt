//! Several calls in one stay.
ghost use Rattle.std.specs.Prelude.{◌≡◌, IfSome, None};
ghost use Rattle.jr_env.specs.LentStays.{env_in};
ghost use Rattle.luthrady.specs.Batches.{operation_number, AreMade, BatchReplied, WasMadeInStay, WasBatched, WasStayed};

use crate::behind::{env_of, is_env};
use crate::handles::EnvHandle;
use crate::held::{Native, Presence};
use crate::reply::{Reply, bool_reply, nothing_reply, number_reply, optional_reply, type_reply};
use jr_env::{Env, NativeInterface, Stay};
use jr_steps::Steps;
use jr_word::{Fault, Handle};

/// Which call it is.
#[derive(Clone, Copy)]
pub enum Operation {
    /// 1
    NewGlobalRef,
    /// 2
    NewWeakGlobalRef,
    /// 3
    NewLocalRef,
    /// 4
    DeleteGlobalRef,
    /// 5
    DeleteWeakGlobalRef,
    /// 6
    DeleteLocalRef,
    /// 7
    IsSameObject,
    /// 8
    GetObjectRefType,
    /// 9
    GetArrayLength,
    /// 10
    GetStringLength,
    /// 11
    GetObjectArrayElement,
    /// 12
    SetObjectArrayElement,
}

/// A call of a batch, and its answer.
#[repr(C)]
#[derive(Clone, Copy)]
pub struct BatchCall {
    /// Which call it is, by its number.
    pub operation: u32,
    /// The index of an element, where the call has one.
    pub index: u32,
    /// The reference that it is handed.
    pub first: u64,
    /// The second reference, where the call has one.
    pub second: u64,
    /// What it answered.
    pub reply: Reply,
}

impl Operation {
    /// The call with a number, if one has it.
    fn of(number: u32) -> Option<Self>
        ensures sound { IfSome result (λ operation. number ≡ operation_number operation) }
        ensures complete { (operation : _) → number ≡ operation_number operation → result ≡ Some operation }
    {
        match number {
            1 => Some(Operation::NewGlobalRef),
            2 => Some(Operation::NewWeakGlobalRef),
            3 => Some(Operation::NewLocalRef),
            4 => Some(Operation::DeleteGlobalRef),
            5 => Some(Operation::DeleteWeakGlobalRef),
            6 => Some(Operation::DeleteLocalRef),
            7 => Some(Operation::IsSameObject),
            8 => Some(Operation::GetObjectRefType),
            9 => Some(Operation::GetArrayLength),
            10 => Some(Operation::GetStringLength),
            11 => Some(Operation::GetObjectArrayElement),
            12 => Some(Operation::SetObjectArrayElement),
            _ => None,
        }
    }
}

/// Makes calls in one stay: each as by its own function, but between one entry at the gate and one exit. Each call's answer is written to it. A call whose number is none is E7.
///
/// # Errors
///
/// E21 where no env stands behind the handle; E19 in a critical region; that of the gate.
///
/// No call is made then.
#[unsafe(no_mangle)]
pub extern "C" fn luthrady_batch(env: &mut EnvHandle, calls: &mut [BatchCall]) -> Reply
    ensures { BatchReplied env.old env.new calls.old calls.new result }
{
    nothing_reply(batch(env, calls))
}

/// Makes calls in one stay of the env behind a pointer.
///
/// # Errors
///
/// E21 where no env stands behind the handle; E19 in a critical region; E13 where no stay was entered.
fn batch(handle: &mut EnvHandle, calls: &mut [BatchCall]) -> Result<(), Fault>
    ensures { WasBatched handle.old handle.new calls.old calls.new result }
{
    if !is_env(handle) {
        return Err(Fault::NotFresh);
    }
    match &mut env_of(handle).presence {
        Presence::Ready(native) => batch_by(&mut *native, calls),
        Presence::Critical(_) => Err(Fault::InCritical),
        Presence::Detached => Err(Fault::NotFresh),
    }
}

/// Makes calls in one stay of a thread's env.
///
/// # Errors
///
/// E13 where no stay was entered.
fn batch_by(native: &mut Native, calls: &mut [BatchCall]) -> Result<(), Fault>
    ensures call { WasStayed native.old.env native.new.env calls.old calls.new result }
    ensures marker { native.new.marker ≡ native.old.marker }
{
    in_one_stay(&mut native.env, calls)
}

/// Makes calls in one stay.
///
/// # Errors
///
/// E13 where no stay was entered.
fn in_one_stay<S: Steps>(env: &mut Env<S>, calls: &mut [BatchCall]) -> Result<(), Fault>
    ensures { WasStayed env.old env.new calls.old calls.new result }
{
    match env.stay() {
        Ok(mut stay) => {
            make_all(&mut stay, calls);
            stay.end();
            Ok(())
        }
        Err(fault) => Err(fault),
    }
}

/// Makes calls in a stay, one after the other.
fn make_all<S: Steps>(stay: &mut Stay<'_, S>, calls: &mut [BatchCall])
    ensures same_reference { (env_in stay.new).ghost_name ≡ (env_in stay.old).ghost_name }
    ensures made { AreMade stay.old stay.new calls.old calls.new }
{
    for index in 0..calls.len() {
        calls[index].reply = make_one(stay, calls[index]);
    }
}

/// Makes a call in a stay.
fn make_one<S: Steps>(stay: &mut Stay<'_, S>, call: BatchCall) -> Reply
    ensures same_reference { (env_in stay.new).ghost_name ≡ (env_in stay.old).ghost_name }
    ensures made { WasMadeInStay stay.old stay.new call result }
{
    let first = Handle(call.first);
    let second = Handle(call.second);
    let Some(operation) = Operation::of(call.operation) else {
        return nothing_reply(Err(Fault::Range));
    };
    match operation {
        Operation::NewGlobalRef => optional_reply(stay.new_global_ref(first)),
        Operation::NewWeakGlobalRef => optional_reply(stay.new_weak_global_ref(first)),
        Operation::NewLocalRef => optional_reply(stay.new_local_ref(first)),
        Operation::DeleteGlobalRef => nothing_reply(stay.delete_global_ref(first)),
        Operation::DeleteWeakGlobalRef => nothing_reply(stay.delete_weak_global_ref(first)),
        Operation::DeleteLocalRef => nothing_reply(stay.delete_local_ref(first)),
        Operation::IsSameObject => bool_reply(stay.is_same_object(first, second)),
        Operation::GetObjectRefType => type_reply(stay.get_object_ref_type(first)),
        Operation::GetArrayLength => number_reply(stay.get_array_length(first)),
        Operation::GetStringLength => number_reply(stay.get_string_length(first)),
        Operation::GetObjectArrayElement => {
            optional_reply(stay.get_object_array_element(first, call.index))
        }
        Operation::SetObjectArrayElement => {
            nothing_reply(stay.set_object_array_element(first, call.index, second))
        }
    }
}
