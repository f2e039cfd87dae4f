//! A pool of envs: more native threads come and go than the room has threads.
ghost use Rattle.jr.specs.Conditions.{IsRoomOfSite};

use crate::owners::shares;
use jr::{
    AttachedOver, Config, Env, EnvPool, Explains, Fault, Handle, NativeInterface, NoteOf,
    OwnedStepsOf, Patience, PoolOver, PoolRoom, Site, Steps, StepsIn, Summary, close_owned,
    of_any_site,
};
use jr_fixtures::is_refused;
use std::alloc::{AllocError, Global};
use std::marker::Brand;
use std::sync::{Arc, Mutex};
use std::test::Fail;
use std::thread;
use std::thread::{JoinHandle, Threads};

/// A room in which two threads may be attached at a time.
const TWO: Config = Config {
    threads: 2,
    slots: 16,
    objects: 16,
    words: 64,
    locals: 16,
};

/// How many threads come and go.
const COMERS: usize = 7;

/// What stands at the end: an array of three elements and a global reference to it of each thread.
const AT_THE_END: Summary = Summary {
    globals: 7,
    weaks: 0,
    live: 7,
    used: 21,
};

/// What stands behind two threads that shared nothing: an object of each, that nothing reaches.
const BEHIND_ALL: Summary = Summary {
    globals: 0,
    weaks: 0,
    live: 2,
    used: 0,
};

/// What a thread leaves for the next one: a global reference, with a note.
type Parcel<Q> = Mutex<Option<(Handle, NoteOf<Q>)>>;

/// Learns what an earlier thread left, and looks at its array: E2 where its reference is none.
fn looks<Q: Site, S: StepsIn<Q>>(env: &mut Env<S>, left: &Parcel<Q>) -> Result<(), Fault> {
    let Some(mut left) = left.try_lock() else {
        return Ok(());
    };
    let Some((array, note)) = left.take() else {
        return Ok(());
    };
    env.learn(note);
    env.get_array_length(array)?;
    Ok(())
}

/// Makes an array and a global reference to it, and leaves the local one: the number of the thread. It looks at what an earlier thread left, and leaves its own for the next.
fn works<Q: Site, S: StepsIn<Q>>(env: &mut Env<S>, left: &Parcel<Q>) -> Result<u8, Fault> {
    looks(env, left)?;
    let shared = shares(env, Patience::LONG)?;
    let note = env.note();
    if let Some(mut left) = left.try_lock() {
        *left = Some((shared, note));
    }
    Ok(env.thread())
}

/// Hands an env back: E13 where it is refused, and then it is gone.
pub(crate) fn detach<S: Steps + Drop>(attached: AttachedOver<'_, S>) -> Result<(), Fault> {
    match attached.detach(Patience::LONG) {
        Ok(()) => Ok(()),
        Err((attached, fault)) => {
            drop(attached.into_env());
            Err(fault)
        }
    }
}

/// A thread that comes, works, and goes: the number of the env's thread. E20 where it finds no env.
fn comes_and_goes<Q: Site, S: StepsIn<Q> + Drop>(
    pool: &PoolOver<S>,
    left: &Parcel<Q>,
) -> Result<u8, Fault> {
    let Some(mut attached) = pool.retry_attach(Patience::LONG) else {
        return Err(Fault::Turns);
    };
    let answer = works(&mut *attached.env, left);
    detach(attached)?;
    answer
}

/// Starts a thread that comes to the pool.
fn start<R: Threads, Q: Site + Send + Sync + 'static, S: StepsIn<Q> + Drop + Send + 'static>(
    rt: &R,
    pool: &Arc<PoolOver<S>>,
    left: &Arc<Parcel<Q>>,
) -> Result<JoinHandle<Result<u8, Fault>>, AllocError> {
    let (pool, left) = (Arc::try_clone(pool)?, Arc::try_clone(left)?);
    Ok(thread::spawn(rt, move || comes_and_goes::<Q, S>(&*pool, &*left))?)
}

/// Starts more threads than the pool has envs.
fn start_all<R: Threads, Q: Site + Send + Sync + 'static, S: StepsIn<Q> + Drop + Send + 'static>(
    rt: &R,
    alloc: Global,
    pool: &Arc<PoolOver<S>>,
) -> Result<Vec<JoinHandle<Result<u8, Fault>>>, AllocError> {
    let left = Arc::new(alloc, Mutex::new(None))?;
    let mut threads = Vec::with_capacity(alloc, COMERS)?;
    for _ in 0..COMERS {
        threads.push(start::<R, Q, S>(rt, pool, &left)?)?;
    }
    Ok(threads)
}

/// Hands an env back where one was attached.
fn detach_any<S: Steps + Drop>(attached: Option<AttachedOver<'_, S>>) -> Result<(), Fault> {
    match attached {
        Some(attached) => detach(attached),
        None => Ok(()),
    }
}

/// More threads come to the pool than it has envs, while this one holds both. Then each of them finds one, whose thread has the number of one of two, and goes.
fn all_come<R: Threads, Q: Site + Send + Sync + 'static, S: StepsIn<Q> + Drop + Send + 'static>(
    rt: &R,
    alloc: Global,
    pool: &Arc<PoolOver<S>>,
) -> Result<(), Fail> {
    let first = pool.attach();
    let second = pool.attach();
    let threads = start_all::<R, Q, S>(rt, alloc, pool);
    let (first, second) = (detach_any(first), detach_any(second));
    for thread in threads? {
        let number = thread.join(rt)?;
        if number >= 2 {
            return Err("a thread of another number")?;
        }
    }
    first?;
    second?;
    Ok(())
}

/// More threads come to the pool of the site's room than it has envs. What stands behind them all.
fn serves<R: Threads, Q: Site + Send + Sync + 'static>(
    rt: &R,
    alloc: Global,
    room: PoolRoom,
) -> Result<Option<Summary>, Fail>
    requires { IsRoomOfSite Q.room room }
{
    let pool = Arc::new(alloc, EnvPool::<Q>::of(alloc, room)?)?;
    all_come::<R, Q, OwnedStepsOf<Q>>(rt, alloc, &pool)?;
    let Some(pool) = Arc::into_inner(pool) else {
        return Err("a thread has the pool still")?;
    };
    let closed = pool.close().map_err(|left| left.fault)?;
    Ok(closed)
}

/// More threads come and go than there are envs, and each leaves no local reference.
#[test]
fn threads_come_and_go(rt: HostRuntime) -> Result<(), Fail> {
    let room = PoolRoom::open(rt.alloc(), TWO)?;
    let closed = serves::<HostRuntime, Brand>(&rt, rt.alloc(), room)?;
    assert!(rt; closed == Some(AT_THE_END));
    Ok(())
}

/// The env of a pool in which one is free: E21 where none is.
pub(crate) fn attached<S: Steps + Drop>(pool: &PoolOver<S>) -> Result<AttachedOver<'_, S>, Fault> {
    pool.attach().ok_or(Fault::NotFresh)
}

/// Makes a local reference in a frame of its own.
fn makes_in_a_frame<S: Steps>(env: &mut Env<S>) -> Result<Handle, Fault> {
    env.push_local_frame(4)?;
    env.new_plain()
}

/// Makes a local reference in a frame of its own, and goes: a handle that was let go.
fn leaves_a_local<S: Steps + Drop>(pool: &PoolOver<S>) -> Result<Handle, Fault> {
    let mut attached = attached(pool)?;
    let local = makes_in_a_frame(&mut *attached.env);
    detach(attached)?;
    local
}

/// Whether a word is no reference, and there is no frame to pop.
fn has_neither<S: Steps>(env: &mut Env<S>, word: Handle) -> Result<bool, Fault> {
    let code = env.get_object_ref_type(word)?;
    let popped = env.pop_local_frame(Handle::NULL);
    Ok(code == 0 && is_refused(popped, Some(Fault::NoFrame)))
}

/// Makes local references until each place has one: E20 where one is left.
fn fills_each_place<S: Steps>(env: &mut Env<S>) -> Result<(), Fault> {
    let object = env.new_plain()?;
    for _ in 1..TWO.locals {
        env.new_local_ref(object)?;
    }
    let one_more = env.new_local_ref(object);
    if is_refused(one_more, Some(Fault::LocalsFull)) {
        Ok(())
    } else {
        Err(Fault::Turns)
    }
}

/// Whether a word is no reference, also once its place has another one.
fn stays_gone<S: Steps>(env: &mut Env<S>, word: Handle) -> Result<bool, Fault> {
    let before = has_neither(env, word)?;
    fills_each_place(env)?;
    let behind = has_neither(env, word)?;
    Ok(before && behind)
}

/// Whether a handle of an earlier thread is no reference of the next one, also once that has made another at its place, and that has no frame to pop.
fn finds_nothing<S: Steps + Drop>(pool: &PoolOver<S>, local: Handle) -> Result<bool, Fault> {
    let mut attached = attached(pool)?;
    let found = stays_gone(&mut *attached.env, local);
    detach(attached)?;
    found
}

/// Takes an env out of the pool while the other is held. E20 where a third is handed out.
fn takes_one<S: Steps + Drop>(pool: &PoolOver<S>) -> Result<Env<S>, Fault> {
    let first = attached(pool)?;
    let second = pool.attach();
    let third = pool.retry_attach(Patience::of(2));
    let detached = detach(first);
    let is_full = third.is_none();
    if let Some(third) = third {
        drop(third.into_env());
    }
    let Some(second) = second else {
        return Err(Fault::NotFresh);
    };
    let env = second.into_env();
    detached?;
    if is_full { Ok(env) } else { Err(Fault::Turns) }
}

/// The env that is taken out of the pool behind two threads, of which the second finds nothing of the first. E20 where it does.
fn serves_in_turn<S: Steps + Drop>(pool: &PoolOver<S>) -> Result<Env<S>, Fault> {
    let local = leaves_a_local(pool)?;
    if finds_nothing(pool, local)? {
        takes_one(pool)
    } else {
        Err(Fault::Turns)
    }
}

/// What the close of a pool says whose other env was taken out of it, and what that env's owner says behind it. E20 where the next thread finds what an earlier one left.
fn serves_one_at_a_time<Q: Site>(
    alloc: Global,
    room: PoolRoom,
) -> Result<(Option<Summary>, Option<Summary>), Fault>
    requires { IsRoomOfSite Q.room room }
{
    let pool = EnvPool::<Q>::of(alloc, room)?;
    let taken = serves_in_turn(&pool);
    let others = pool.close().map_err(|left| left.fault);
    let closed = close_owned(of_any_site(taken?.into_pass())).map_err(|left| left.fault)?;
    Ok((others?, closed))
}

/// An env serves one thread at a time, and the next finds nothing of it. One that was taken out owns the room behind the close.
#[test]
fn an_env_serves_one_thread_at_a_time(rt: HostRuntime) -> Result<(), Fail> {
    let room = PoolRoom::open(rt.alloc(), TWO)?;
    let (others, closed) = serves_one_at_a_time::<Brand>(rt.alloc(), room)?;
    assert!(rt; others.is_none());
    assert!(rt; closed == Some(BEHIND_ALL));
    Ok(())
}
