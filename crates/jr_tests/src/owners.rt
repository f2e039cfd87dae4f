//! A room that its threads own: threads that were spawned hand references on by a queue, and whoever is the last closes the room.

use assertions::assert_same;
use jr::calls::NewArray;
use jr::{
    Config, Env, Fault, Handle, NativeInterface, OwnedEnv, Patience, Steps, Summary, close_owned,
    open_envs,
};
use std::process::Abort;
use std::sync::{Arc, Mutex, Wait};
use std::test::Fail;
use std::thread;
use std::thread::{JoinHandle, Threads};

/// A room of three threads.
pub(crate) const THREE: Config = Config {
    threads: 3,
    slots: 8,
    objects: 4,
    words: 16,
    locals: 16,
};

/// What stands at the end: each thread made an array of three elements, and a weak reference of some thread's. Each global reference was deleted by whoever took it over.
pub(crate) const AT_THE_END: Summary = Summary {
    globals: 0,
    weaks: 3,
    live: 3,
    used: 9,
};

/// The references that threads hand on.
type Queue = Mutex<Vec<Handle>>;

/// Makes an array of three elements and a global reference to it, again where others reserve words in between.
pub(crate) fn shares<S: Steps>(env: &mut Env<S>, patience: Patience) -> Result<Handle, Fault> {
    let array = env.retry(NewArray::<i32>::of(3), patience)?;
    Ok(Handle::or_null(env.new_global_ref(array)?))
}

/// Takes an array over: a weak reference to it is left, and no global one. Its length.
pub(crate) fn takes_over<S: Steps>(env: &mut Env<S>, shared: Handle) -> Result<u32, Fault> {
    let length = env.get_array_length(shared)?;
    env.new_weak_global_ref(shared)?;
    env.delete_global_ref(shared)?;
    Ok(length)
}

/// Shares an array, and takes over one that some thread has shared. The length of what it took over. Each of the two others may reserve words in between once, so the array is made again.
fn hands_on<R: Wait, S: Steps>(rt: &R, env: &mut Env<S>, queue: &Queue) -> Result<u32, Fault> {
    let shared = shares(env, Patience::of(3))?;
    let Ok(()) = queue.lock(rt).push(shared) else {
        return Err(Fault::Memory);
    };
    let taken = queue.lock(rt).pop();
    takes_over(env, Handle::or_null(taken))
}

/// Runs in a thread of its own, to the end of what it owns of the room: the length, and the summary where it was the last.
fn runs<R: Wait>(
    rt: &R,
    mut env: OwnedEnv,
    queue: &Queue,
) -> Result<(u32, Option<Summary>), Fault> {
    let length = hands_on(rt, &mut env, queue);
    let summary = close_owned(env.into_pass()).map_err(|left| left.fault)?;
    Ok((length?, summary))
}

/// Starts a thread for an env: E16 where none can be started.
fn start<R: Threads + Wait + Copy + Send + 'static>(
    rt: R,
    env: OwnedEnv,
    queue: Arc<Queue>,
) -> Result<JoinHandle<Result<(u32, Option<Summary>), Fault>>, Fault> {
    thread::spawn(&rt, move || runs(&rt, env, &queue))
        .ok()
        .ok_or(Fault::Memory)
}

/// A thread has taken an array of three elements over, and has closed the room or not. What the room was closed with by this one or another, if it was: one alone does.
pub(crate) fn closed_by_one(
    rt: &impl Abort,
    closed: Option<Summary>,
    length: u32,
    by_this: Option<Summary>,
) -> Option<Summary> {
    assert_same!(rt; length, 3);
    if by_this.is_some() {
        assert!(rt; closed.is_none());
        return by_this;
    }
    closed
}

/// Three threads own a room, and nobody joins them in their room's scope: the last one closes it, and no other.
#[test]
fn the_last_of_three_owners_closes_the_room(rt: HostRuntime) -> Result<(), Fail> {
    let alloc = rt.alloc();
    let queue = Arc::new(alloc, Mutex::new(Vec::new(alloc)))?;
    let mut threads = Vec::with_capacity(alloc, 3)?;
    for env in open_envs(alloc, THREE)? {
        threads.push(start(rt, env, Arc::try_clone(&queue)?)?)?;
    }
    let mut closed = None;
    for thread in threads {
        let (length, summary) = thread.join(&rt)?;
        closed = closed_by_one(&rt, closed, length, summary);
    }
    assert_same!(&rt; closed, Some(AT_THE_END));
    Ok(())
}
