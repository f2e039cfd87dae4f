//! A room is closed behind a collection: what nothing reaches is not told, and a reference that nobody deleted is. A dump there names what was leaked.
ghost use Rattle.jr.specs.Conditions.{IsRoomOfSite};

use crate::pools::{attached, detach};
use assertions::assert_same;
use jr::{
    Config, Dump, Env, EnvPool, Fault, Handle, Kind, Left, Marker, NativeCode, NativeInterface,
    OwnedEnv, PoolOver, PoolRoom, QueueEnd, Site, Steps, StepsIn, Summary, close_collected,
    close_collected_listing, open_envs, run_native, run_native_listing,
};
use std::alloc::{AllocError, Global};
use std::marker::Brand;
use std::test::Fail;

/// The sizes of the room.
const SIZES: Config = Config {
    threads: 2,
    slots: 4,
    objects: 8,
    words: 32,
    locals: 16,
};

/// What is left of a thread that leaked one array of three elements.
const LEAKED: Summary = Summary {
    globals: 1,
    weaks: 1,
    live: 1,
    used: 3,
};

/// An object that was left: what it is, and the global reference that keeps it.
#[derive(Clone, Copy, Debug, Eq, PartialEq)]
struct Leak {
    kind: Kind,
    length: u32,
    kept_by: Option<Handle>,
}

/// The array that a thread leaked, by its reference.
fn three_ints(kept_by: Handle) -> Leak {
    Leak {
        kind: Kind::Int,
        length: 3,
        kept_by: Some(kept_by),
    }
}

/// What a dump tells of an object, by its number. None where nothing keeps it.
fn told_of(alloc: Global, left: &Dump, number: u16) -> Result<Option<Leak>, AllocError> {
    let Some(path) = left.path_to(alloc, number)? else {
        return Ok(None);
    };
    let index = usize::from(number).wrapping_sub(1);
    let Some(Some(header)) = left.headers.get(index).copied() else {
        return Ok(None);
    };
    Ok(Some(Leak {
        kind: header.kind,
        length: header.length,
        kept_by: path.root.handle(),
    }))
}

/// What a dump tells of the largest object that was left.
fn largest_leak(alloc: Global, left: &Dump) -> Result<Option<Leak>, AllocError> {
    let numbers = left.largest(alloc, 1)?;
    match numbers.first().copied() {
        Some(number) => told_of(alloc, left, number),
        None => Ok(None),
    }
}

/// Makes an array that nothing reaches any more, with a weak reference to it, and one that a global reference names, which nobody deletes: that reference.
fn leak_three_ints<S: Steps>(env: &mut Env<S>) -> Result<Handle, Fault> {
    env.push_local_frame(4)?;
    let lost = env.new_array::<i64>(4)?;
    env.new_weak_global_ref(lost)?;
    let kept = env.new_array::<i32>(3)?;
    let kept_by = Handle::or_null(env.new_global_ref(kept)?);
    env.pop_local_frame(Handle::NULL)?;
    Ok(kept_by)
}

/// Makes an array that nothing reaches any more.
fn lose<S: Steps>(env: &mut Env<S>) -> Result<(), Fault> {
    let lost = env.new_array::<i64>(2)?;
    env.delete_local_ref(lost)
}

/// One thread leaks. The other loses, once the first has leaked.
struct Leaks;

impl NativeCode for Leaks {
    type Message = ();

    type Answer = Result<Option<Handle>, Fault>;

    fn run<Q: Site, S: StepsIn<Q> + Drop>(
        &self,
        thread: u8,
        env: &mut Env<S>,
        queue: &mut QueueEnd<'_, (), Q>,
    ) -> Result<Option<Handle>, Fault> {
        if thread == 0 {
            let leaked = leak_three_ints(env);
            queue.puts_no_more();
            return Ok(Some(leaked?));
        }
        // Both put nothing: the queue's end comes once the first has leaked.
        queue.puts_no_more();
        drop(queue.retry_take(jr::Patience::LONG));
        lose(env)?;
        Ok(None)
    }
}

/// The reference by which the first thread leaked.
fn leaked_by(answers: Vec<Result<Option<Handle>, Fault>>) -> Result<Handle, Fault> {
    let mut leaked = Handle::NULL;
    for answer in answers {
        if let Some(kept_by) = answer? {
            leaked = kept_by;
        }
    }
    Ok(leaked)
}

/// What nothing reaches isn't told at the close of `run_native`, and what was leaked is.
#[test]
fn run_native_tells_leaks_and_no_garbage(rt: HostRuntime) -> Result<(), Fail> {
    let ran = run_native(&rt, rt.alloc(), SIZES, &Leaks)?;
    leaked_by(ran.answers)?;
    assert_same!(&rt; ran.summary, LEAKED);
    Ok(())
}

/// The dump of `run_native_listing` names the array that was leaked, and the reference that keeps it.
#[test]
fn run_native_names_a_leak(rt: HostRuntime) -> Result<(), Fail> {
    let (ran, left) = run_native_listing(&rt, rt.alloc(), SIZES, &Leaks)?;
    let kept_by = leaked_by(ran.answers)?;
    let leak = largest_leak(rt.alloc(), &left)?;
    assert_same!(&rt; leak, Some(three_ints(kept_by)));
    assert_same!(&rt; ran.summary, LEAKED);
    Ok(())
}

/// The env of a room of one thread, and a marker for so many objects.
fn alone(alloc: Global, objects: u32) -> Result<(OwnedEnv, Marker), Fault> {
    let config = Config {
        threads: 1,
        ..SIZES
    };
    let marker = Marker::new(alloc, Config { objects, ..config })?;
    let Some(env) = open_envs(alloc, config)?.pop() else {
        return Err(Fault::Memory);
    };
    Ok((env, marker))
}

/// Whether it was E17, with the room handed back.
fn is_too_small(closed: &Result<Option<Summary>, Left<4294967295>>) -> bool {
    match closed {
        Ok(_) => false,
        Err(left) => left.fault == Fault::Size,
    }
}

/// The last owner collects before he closes the room.
#[test]
fn the_last_owner_collects(rt: HostRuntime) -> Result<(), Fail> {
    let (mut env, mut marker) = alone(rt.alloc(), 8)?;
    leak_three_ints(&mut env)?;
    lose(&mut env)?;
    let closed = close_collected(env.into_pass(), &mut marker).map_err(|left| left.fault)?;
    assert_same!(&rt; closed, Some(LEAKED));
    Ok(())
}

/// The last owner names the array that was leaked.
#[test]
fn the_last_owner_names_a_leak(rt: HostRuntime) -> Result<(), Fail> {
    let (mut env, mut marker) = alone(rt.alloc(), 8)?;
    let kept_by = leak_three_ints(&mut env)?;
    lose(&mut env)?;
    let closed = close_collected_listing(rt.alloc(), env.into_pass(), &mut marker).map_err(
        |left| left.fault,
    )?;
    let Some((summary, left)) = closed else {
        return Err("others own the room")?;
    };
    let leak = largest_leak(rt.alloc(), &left)?;
    assert_same!(&rt; leak, Some(three_ints(kept_by)));
    assert_same!(&rt; summary, LEAKED);
    Ok(())
}

/// A thread leaks and loses over an env of the pool, and goes: the reference by which it leaked.
fn leaves_both<S: Steps + Drop>(pool: &PoolOver<S>) -> Result<Handle, Fault> {
    let mut attached = attached(pool)?;
    let leaked = leak_three_ints(&mut *attached.env);
    let lost = lose(&mut *attached.env);
    detach(attached)?;
    lost?;
    leaked
}

/// What stands behind a pool that a thread left something in, and whose close collects.
fn closes_collected<Q: Site>(
    alloc: Global,
    room: PoolRoom,
    marker: &mut Marker,
) -> Result<Option<Summary>, Fault>
    requires { IsRoomOfSite Q.room room }
{
    let pool = EnvPool::<Q>::of(alloc, room)?;
    let left = leaves_both(&pool);
    let closed = pool.close_collected(marker).map_err(|left| left.fault);
    left?;
    closed
}

/// A pool collects before it closes its room, with the last of its envs.
#[test]
fn a_pool_collects_before_it_closes(rt: HostRuntime) -> Result<(), Fail> {
    let mut marker = Marker::new(rt.alloc(), SIZES)?;
    let room = PoolRoom::open(rt.alloc(), SIZES)?;
    let closed = closes_collected::<Brand>(rt.alloc(), room, &mut marker)?;
    assert_same!(&rt; closed, Some(LEAKED));
    Ok(())
}

/// The reference by which a thread leaked over an env of a pool, and what the pool's close names behind it.
fn closes_listing<Q: Site>(
    alloc: Global,
    room: PoolRoom,
    marker: &mut Marker,
) -> Result<(Handle, Option<(Summary, Dump)>), Fault>
    requires { IsRoomOfSite Q.room room }
{
    let pool = EnvPool::<Q>::of(alloc, room)?;
    let kept_by = leaves_both(&pool);
    let closed = pool
        .close_collected_listing(alloc, marker)
        .map_err(|left| left.fault);
    Ok((kept_by?, closed?))
}

/// A pool names the array that was leaked.
#[test]
fn a_pool_names_a_leak(rt: HostRuntime) -> Result<(), Fail> {
    let mut marker = Marker::new(rt.alloc(), SIZES)?;
    let room = PoolRoom::open(rt.alloc(), SIZES)?;
    let (kept_by, closed) = closes_listing::<Brand>(rt.alloc(), room, &mut marker)?;
    let Some((summary, left)) = closed else {
        return Err("others own the room")?;
    };
    let leak = largest_leak(rt.alloc(), &left)?;
    assert_same!(&rt; leak, Some(three_ints(kept_by)));
    assert_same!(&rt; summary, LEAKED);
    Ok(())
}

/// With a marker for another number of objects he is told so, and has the room back.
#[test]
fn another_rooms_marker_collects_nothing(rt: HostRuntime) -> Result<(), Fail> {
    let (mut env, mut marker) = alone(rt.alloc(), 7)?;
    leak_three_ints(&mut env)?;
    let closed = close_collected(env.into_pass(), &mut marker);
    assert!(rt; is_too_small(&closed));
    let Err(left) = closed else {
        return Ok(());
    };
    let summary = left.room.close(left.pass).map_err(|left| left.fault)?;
    assert_same!(&rt; summary.live, 2);
    Ok(())
}
