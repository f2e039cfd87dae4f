//! What one thread of a run does: it makes ready what it needs, and makes its calls.

use crate::case::{EnvCall, Name};
use crate::counted::CensusCounts;
use crate::run::Baton;
use crate::scheduled::Scheduled;
use crate::seen::Answer;
use jr_env::{Env, NativeInterface};
use jr_steps::Steps;
use jr_weak::{Collected, Marker};
use jr_word::{Fault, Handle};
use std::alloc::Global;
use std::sync::Wait;

/// The env of a thread of a run.
pub(crate) type Scheduling<'r, 'a, R, S> = Env<Scheduled<'r, 'a, R, S>>;

/// Reads the first integer of an array in a critical region.
fn read_critical<S: Steps>(env: &mut Env<S>, array: Handle) -> Result<i32, Fault> {
    let mut region = env.get_array_critical(array)?;
    let read = region.get::<i32>(0, 0);
    region.release_all();
    read
}

/// Collects, announced where there are tries.
fn collect<S: Steps>(env: &mut Env<S>, alloc: Global, tries: u32) -> Result<Collected, Fault> {
    let mut marker = Marker::new(alloc, env.held.steps.config())?;
    if tries == 0 {
        env.collect(&mut marker)
    } else {
        env.collect_announced(&mut marker, tries)
    }
}

/// Takes a census.
fn counted<S: Steps>(env: &mut Env<S>, alloc: Global) -> Result<CensusCounts, Fault> {
    let mut marker = Marker::new(alloc, env.held.steps.config())?;
    let census = env.census(&mut marker)?;
    Ok(CensusCounts::of(&census))
}

/// A new reference, to null where there is none.
fn made(handle: Option<Handle>) -> Answer {
    match handle {
        Some(handle) => Answer::Made(handle),
        None => Answer::Made(Handle::NULL),
    }
}

/// What a call at a reference answers.
fn call_at<S: Steps>(env: &mut Env<S>, call: EnvCall, handle: Handle) -> Result<Answer, Fault> {
    Ok(match call {
        EnvCall::NewGlobal(_) => made(env.new_global_ref(handle)?),
        EnvCall::NewWeak(_) => made(env.new_weak_global_ref(handle)?),
        EnvCall::DeleteGlobal(_) => {
            env.delete_global_ref(handle)?;
            Answer::Done
        }
        EnvCall::DeleteWeak(_) => {
            env.delete_weak_global_ref(handle)?;
            Answer::Done
        }
        EnvCall::DeleteLocal(_) => {
            env.delete_local_ref(handle)?;
            Answer::Done
        }
        EnvCall::Write(_, value) => {
            env.set_array_region(handle, 0, &[value])?;
            Answer::Done
        }
        EnvCall::IsNull(_) => Answer::IsNull(env.is_same_object(handle, Handle::NULL)?),
        EnvCall::ReadCritical(_) => Answer::Read(read_critical(env, handle)?),
        _ => Answer::Type(env.get_object_ref_type(handle)?),
    })
}

/// What a call answers.
fn call_of<S: Steps>(
    env: &mut Env<S>,
    alloc: Global,
    call: EnvCall,
    handle: Handle,
) -> Result<Answer, Fault> {
    match call {
        EnvCall::NewPlain => Ok(Answer::Made(env.new_plain()?)),
        EnvCall::NewArray(length) => Ok(Answer::Made(env.new_array::<i32>(length)?)),
        EnvCall::Collect => Ok(Answer::Collected(collect(env, alloc, 0)?)),
        EnvCall::CollectAnnounced(tries) => Ok(Answer::Collected(collect(env, alloc, tries)?)),
        EnvCall::Census => Ok(Answer::Counted(counted(env, alloc)?)),
        _ => call_at(env, call, handle),
    }
}

/// The handle that a call is about: none where its name means none.
fn about<R: Wait>(baton: &Baton<'_, '_, R>, call: EnvCall) -> Option<Handle> {
    match call {
        EnvCall::NewGlobal(name)
        | EnvCall::NewWeak(name)
        | EnvCall::DeleteGlobal(name)
        | EnvCall::DeleteWeak(name)
        | EnvCall::DeleteLocal(name)
        | EnvCall::Write(name, _)
        | EnvCall::TypeOf(name)
        | EnvCall::IsNull(name)
        | EnvCall::ReadCritical(name) => baton.handle(name),
        _ => Some(Handle::NULL),
    }
}

/// Makes calls, and notes what each answers.
fn make_all<R: Wait, S: Steps>(
    env: &mut Scheduling<'_, '_, R, S>,
    alloc: Global,
    calls: &[EnvCall],
) {
    for call in calls {
        let Some(handle) = about(&env.held.steps.baton, *call) else {
            continue;
        };
        let answer = match call_of(env, alloc, *call, handle) {
            Ok(answer) => answer,
            Err(fault) => Answer::Refused(fault),
        };
        env.held.steps.baton.answered(*call, answer);
    }
}

/// Whether a reference has this type.
fn has_type<S: Steps>(env: &mut Env<S>, handle: Handle, wanted: u8) -> bool {
    matches!(env.get_object_ref_type(handle), Ok(found) if found == wanted)
}

/// Each reference that stands has its type, and each that was deleted has none.
fn look_at_all<R: Wait, S: Steps>(env: &mut Scheduling<'_, '_, R, S>) {
    for number in 0..env.held.steps.baton.answers() {
        let Some((handle, wanted)) = env.held.steps.baton.answer(number) else {
            return;
        };
        let is_right = has_type(env, handle, wanted);
        env.held.steps.baton.looked(is_right);
    }
}

/// Makes ready what the thread needs, and then its calls, each step in its turn; the last thread looks at all references then.
pub(crate) fn play<R: Wait, S: Steps>(
    env: &mut Scheduling<'_, '_, R, S>,
    alloc: Global,
    ready: &[EnvCall],
    calls: &[EnvCall],
) {
    make_all(env, alloc, ready);
    env.held.steps.baton.be_ready();
    make_all(env, alloc, calls);
    if env.held.steps.baton.be_done() {
        look_at_all(env);
        env.held.steps.baton.end(alloc);
    }
}
