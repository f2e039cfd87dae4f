//! Threads of one room, of which some collect, announced or not, while others make, write and drop arrays, make, find and delete global references, or come in and go without a break.
ghost use Rattle.std.specs.Prelude.{All};
ghost use Rattle.jr_rule.specs.Passes.{IsOpened};

use assertions::assert_same;
use jr_env::calls::{DeleteGlobalRef, DeleteLocalRef, GetObjectRefType, SetArrayRegion};
use jr_env::{Env, NativeInterface, Patience, is_short_of_room, with_patience};
use jr_fixtures::{LAST, NoPass, closed, collected, next_env, next_pass};
use jr_model::Summary;
use jr_rule::{Pass, Room};
use jr_steps::Steps;
use jr_weak::{Collected, Marker};
use jr_word::{Config, Fault, Handle};
use std::alloc::Global;
use std::process::Abort;
use std::sync::Wait;
use std::test::Fail;
use std::thread;
use std::thread::{JoinHandle, Scope, Threads};

/// A room of seven threads, with few words: five, one that collects once they have ended, and one that takes no step.
const SEVEN: Config = Config {
    threads: 7,
    slots: 4,
    objects: 16,
    words: 32,
    locals: 16,
};

/// How often a thread makes a new array and drops the one before.
const ROUNDS: u32 = 10_000;

/// How often a thread collects.
const COLLECTIONS: u32 = 10_000;

/// How often a thread makes a collection that is announced.
const ANNOUNCED: u32 = 2_000;

/// How often a thread comes in and goes, or knocks in vain.
const KNOCKS: u32 = 200_000;

/// How often a call is tried at most.
const TRIES: u32 = 5_000_000;

/// Writes a number in an array, as soon as nobody collects.
fn write<S: Steps>(env: &mut Env<S>, array: Handle, number: i64) -> Result<(), Fault> {
    env.retry(SetArrayRegion(array, 1, &[number]), Patience::LONG)
}

/// The number in an array, as soon as nobody collects.
fn read<S: Steps>(env: &mut Env<S>, array: Handle) -> Result<i64, Fault> {
    let mut number = [0i64];
    with_patience(
        env,
        Patience::LONG,
        |env| env.get_array_region(array, 1, &mut number),
    )?;
    Ok(number[0])
}

/// How a thread collects.
#[derive(Clone, Copy)]
enum How {
    /// It announces nothing.
    Plain,
    /// It announces the collection, and has few tries to shut the gate.
    Few,
    /// It has many.
    Many,
}

/// Collects, with a marker of its own.
fn collect<S: Steps>(alloc: Global, env: &mut Env<S>, how: How) -> Result<Collected, Fault> {
    let mut marker = Marker::new(alloc, env.held.steps.config())?;
    match how {
        How::Plain => env.collect(&mut marker),
        How::Few => env.collect_announced(&mut marker, 8),
        How::Many => env.collect_announced(&mut marker, 1000),
    }
}

/// A new array, where there is room; where there is none the thread collects.
fn make_once<S: Steps>(alloc: Global, env: &mut Env<S>, how: How) -> Result<Handle, Fault> {
    let made = env.new_array::<i64>(2);
    if is_short_of_room(&made) {
        let _ = collect(alloc, env, how);
    }
    made
}

/// A new array, as soon as nobody collects and there is room.
fn make<S: Steps>(alloc: Global, env: &mut Env<S>, how: How) -> Result<Handle, Fault> {
    let patience = Patience::LONG.waiting_for_room();
    with_patience(env, patience, |env| make_once(alloc, env, how))
}

/// Deletes a reference, as soon as nobody collects.
fn delete<S: Steps>(env: &mut Env<S>, array: Handle) -> Result<(), Fault> {
    env.retry(DeleteLocalRef(array), Patience::LONG)
}

/// Writes in an array, makes another, reads what was written, which a collection may have moved meanwhile, and drops it. The new array, where it was read.
fn replace<S: Steps>(
    alloc: Global,
    env: &mut Env<S>,
    how: How,
    array: Handle,
    number: i64,
) -> Result<Handle, Fault> {
    write(env, array, number)?;
    let next = make(alloc, env, how)?;
    if read(env, array)? != number {
        return Err(Fault::Value);
    }
    delete(env, array)?;
    Ok(next)
}

/// Replaces an array so often. How often what was written was read.
fn replace_often<S: Steps>(alloc: Global, env: &mut Env<S>, how: How, rounds: u32) -> u32 {
    let Ok(mut array) = make(alloc, env, how) else {
        return 0;
    };
    for done in 0..rounds {
        match replace(alloc, env, how, array, i64::from(done)) {
            Ok(next) => array = next,
            Err(_) => return done,
        }
    }
    rounds
}

/// Collects so often, and again where it gets no turn. How often it did.
fn collect_often<S: Steps>(alloc: Global, env: &mut Env<S>, how: How, collections: u32) -> u32 {
    let mut done = 0;
    for _ in 0..TRIES {
        if done >= collections {
            break;
        }
        match collect(alloc, env, how) {
            Ok(_) => done += 1,
            Err(_) => thread::yield_now(),
        }
    }
    done
}

/// Comes in and goes, or knocks in vain, so often, and never waits in between. How often it did.
fn knock_often<S: Steps>(env: &mut Env<S>, knocks: u32) -> u32 {
    for done in 0..knocks {
        match env.get_object_ref_type(Handle::NULL) {
            Ok(0) | Err(Fault::Barred) => {}
            _ => return done,
        }
    }
    knocks
}

/// A new global reference, as soon as nobody collects and a slot is free.
fn make_global<S: Steps>(env: &mut Env<S>, array: Handle) -> Result<Handle, Fault> {
    for _ in 0..TRIES {
        match env.new_global_ref(array) {
            Ok(global) => return global.ok_or(Fault::Null),
            Err(Fault::Barred | Fault::RowFull) => thread::yield_now(),
            Err(fault) => return Err(fault),
        }
    }
    Err(Fault::Turns)
}

/// The type of a reference, as soon as nobody collects.
fn type_of<S: Steps>(env: &mut Env<S>, word: Handle) -> Result<u8, Fault> {
    env.retry(GetObjectRefType(word), Patience::LONG)
}

/// Deletes a global reference, as soon as nobody collects.
fn delete_global<S: Steps>(env: &mut Env<S>, word: Handle) -> Result<(), Fault> {
    env.retry(DeleteGlobalRef(word), Patience::LONG)
}

/// Makes a global reference, which is found until it is deleted, and never after.
fn renew<S: Steps>(env: &mut Env<S>, array: Handle) -> Result<(), Fault> {
    let global = make_global(env, array)?;
    let before = type_of(env, global)?;
    delete_global(env, global)?;
    let after = type_of(env, global)?;
    if before != 2 || after != 0 {
        return Err(Fault::Stale);
    }
    Ok(())
}

/// Does so with references to an array of its own. How often it did.
fn renew_often<S: Steps>(alloc: Global, env: &mut Env<S>, how: How, rounds: u32) -> u32 {
    let Ok(array) = make(alloc, env, how) else {
        return 0;
    };
    for done in 0..rounds {
        let Ok(()) = renew(env, array) else {
            return done;
        };
    }
    rounds
}

/// What a thread does, and how often.
#[derive(Clone, Copy)]
enum Duty {
    /// Makes, writes, reads and drops arrays, and collects so where there is no room.
    Replace(How, u32),
    /// Makes, finds and deletes global references to an array, for which it collects so where there is no room.
    Renew(How, u32),
    /// Collects so.
    Collect(How, u32),
    /// Comes in and goes, or knocks, without a break.
    Knock(u32),
}

impl Duty {
    /// How often it is to be done.
    fn times(self) -> u32 {
        match self {
            Duty::Replace(_, times) | Duty::Renew(_, times) => times,
            Duty::Collect(_, times) | Duty::Knock(times) => times,
        }
    }

    /// Does it. How often it was done.
    fn work<S: Steps + Drop>(self, alloc: Global, mut env: Env<S>) -> u32 {
        match self {
            Duty::Replace(how, times) => replace_often(alloc, &mut env, how, times),
            Duty::Renew(how, times) => renew_often(alloc, &mut env, how, times),
            Duty::Collect(how, times) => collect_often(alloc, &mut env, how, times),
            Duty::Knock(times) => knock_often(&mut env, times),
        }
    }
}

/// Checks what a collection leaves: so many arrays of two elements, and each weak reference. How many words are used then.
fn leaves_arrays<S: Steps>(
    rt: &impl Abort,
    alloc: Global,
    env: &mut Env<S>,
    arrays: u32,
) -> Result<u32, Fail> {
    let [cleared, _, used] = collected(alloc, env)?;
    assert_same!(rt; (cleared, used / 2), (0, arrays));
    Ok(used)
}

/// The same of a collection by the thread of the last of the passes.
fn collects_last(
    rt: &impl Abort,
    alloc: Global,
    room: &Room<LAST>,
    passes: &mut Vec<Pass>,
    arrays: u32,
) -> Result<u32, Fail>
    requires { All (λ p. IsOpened room.now.row p) passes.old.items }
    ensures { All (λ p. IsOpened room.now.row p) passes.new.items }
{
    let mut env = next_env(room, passes)?;
    let used = leaves_arrays(rt, alloc, &mut env, arrays);
    let _pass = env.into_pass().into_pass();
    used
}

/// Once all have ended, another thread collects, and the room is closed with the last of the passes: so many arrays of two elements stand, and no more.
fn has_arrays(
    rt: &impl Abort,
    alloc: Global,
    room: Room<LAST>,
    passes: Vec<Pass>,
    arrays: u32,
) -> Result<(), Fail>
    requires { All (λ p. IsOpened room.row p) passes.items }
{
    let mut passes = passes;
    let used = collects_last(rt, alloc, &room, &mut passes, arrays)?;
    let pass = next_pass(&room, &mut passes)?;
    let summary = Summary {
        globals: 0,
        weaks: 0,
        live: arrays,
        used,
    };
    assert_same!(rt; closed(room, pass), Some(summary));
    Ok(())
}

/// Does a job in a thread of its own, where there is a pass for it and one can be started.
fn start<'s, E, S: Steps + Drop + Send + 's>(
    alloc: Global,
    scope: &Scope<'s, E>,
    job: Duty,
    env: Result<Env<S>, NoPass>,
) -> Option<JoinHandle<u32>> {
    let env = env.ok()?;
    scope.spawn(move || job.work(alloc, env)).ok()
}

/// What a thread has done, once it has ended.
fn ended<R: Threads>(rt: &R, thread: Option<JoinHandle<u32>>) -> Option<u32> {
    thread.map(|it| it.join(rt))
}

/// An env for each of five threads, where there is a pass for it.
struct FiveEnvs<S: Steps> {
    first: Result<Env<S>, NoPass>,
    second: Result<Env<S>, NoPass>,
    third: Result<Env<S>, NoPass>,
    fourth: Result<Env<S>, NoPass>,
    fifth: Result<Env<S>, NoPass>,
}

/// How often each of five threads did its job, side by side.
fn done_by<R: Threads + Wait, S: Steps + Drop + Send>(
    rt: &R,
    alloc: Global,
    jobs: [Duty; 5],
    envs: FiveEnvs<S>,
) -> [Option<u32>; 5] {
    let [one, two, three, four, five] = jobs;
    let FiveEnvs {
        first,
        second,
        third,
        fourth,
        fifth,
    } = envs;
    thread::scope(thread::scope_env(), rt, |scope| {
        let first = start(alloc, scope, one, first);
        let second = start(alloc, scope, two, second);
        let third = start(alloc, scope, three, third);
        let fourth = start(alloc, scope, four, fourth);
        let fifth = start(alloc, scope, five, fifth);
        [
            ended(rt, first),
            ended(rt, second),
            ended(rt, third),
            ended(rt, fourth),
            ended(rt, fifth),
        ]
    })
}

/// Each job was done as often as it was to be.
fn is_each_done(rt: &impl Abort, jobs: [Duty; 5], done: [Option<u32>; 5]) {
    for at in 0..5 {
        assert_same!(rt; done[at], Some(jobs[at].times()); at at);
    }
}

/// Five threads do their jobs side by side, each as often as it is to. Then so many arrays stand.
fn all_do<R: Threads + Wait + Abort>(
    rt: &R,
    alloc: Global,
    jobs: [Duty; 5],
    arrays: u32,
) -> Result<(), Fail> {
    let (room, mut passes) = Room::<LAST>::open(alloc, SEVEN)?;
    let envs = FiveEnvs {
        first: next_env(&room, &mut passes),
        second: next_env(&room, &mut passes),
        third: next_env(&room, &mut passes),
        fourth: next_env(&room, &mut passes),
        fifth: next_env(&room, &mut passes),
    };
    let done = done_by(rt, alloc, jobs, envs);
    is_each_done(rt, jobs, done);
    has_arrays(rt, alloc, room, passes, arrays)
}

/// Four threads make, write, read and drop arrays beside one that collects.
#[test]
fn four_threads_read_what_they_wrote_beside_one_that_collects(rt: HostRuntime) -> Result<(), Fail> {
    let replace = Duty::Replace(How::Plain, ROUNDS);
    let collect = Duty::Collect(How::Plain, COLLECTIONS);
    let jobs = [replace, replace, replace, replace, collect];
    all_do(&rt, rt.alloc(), jobs, 4)
}

/// The same, where each collection is announced, also those of threads that find no room: each thread reads what it wrote, and each collection comes in.
#[test]
fn four_threads_read_what_they_wrote_beside_one_that_announces(
    rt: HostRuntime,
) -> Result<(), Fail> {
    let replace = Duty::Replace(How::Few, ROUNDS);
    let collect = Duty::Collect(How::Many, ANNOUNCED);
    let jobs = [replace, replace, replace, replace, collect];
    all_do(&rt, rt.alloc(), jobs, 4)
}

/// Four threads make, find and delete global references, one at a time each, beside one that collects.
#[test]
fn global_references_are_found_beside_one_that_collects(rt: HostRuntime) -> Result<(), Fail> {
    let renew = Duty::Renew(How::Plain, ROUNDS);
    let collect = Duty::Collect(How::Plain, COLLECTIONS);
    all_do(&rt, rt.alloc(), [renew, renew, renew, renew, collect], 4)
}

/// The same, where each collection is announced.
#[test]
fn global_references_are_found_beside_one_that_announces(rt: HostRuntime) -> Result<(), Fail> {
    let renew = Duty::Renew(How::Few, ROUNDS);
    let collect = Duty::Collect(How::Many, ANNOUNCED);
    all_do(&rt, rt.alloc(), [renew, renew, renew, renew, collect], 4)
}

/// One thread announces its collections and one doesn't, beside threads that make arrays.
#[test]
fn announced_collections_end_beside_plain_ones(rt: HostRuntime) -> Result<(), Fail> {
    let jobs = [
        Duty::Replace(How::Plain, ROUNDS),
        Duty::Replace(How::Few, ROUNDS),
        Duty::Replace(How::Many, ROUNDS),
        Duty::Collect(How::Many, ANNOUNCED),
        Duty::Collect(How::Plain, COLLECTIONS),
    ];
    all_do(&rt, rt.alloc(), jobs, 3)
}

/// One thread comes in and goes, or knocks, without a break: announced collections come in nevertheless.
#[test]
fn announced_collections_end_beside_one_that_knocks(rt: HostRuntime) -> Result<(), Fail> {
    let replace = Duty::Replace(How::Few, ROUNDS);
    let jobs = [
        replace,
        replace,
        replace,
        Duty::Knock(KNOCKS),
        Duty::Collect(How::Many, ANNOUNCED),
    ];
    all_do(&rt, rt.alloc(), jobs, 3)
}
