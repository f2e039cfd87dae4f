//! Two threads of a room that run side by side: whose words each reserves while the other looks for them, and regions beside collections.
use crate::deletion_threads::{Side, delete_beside, make_contested};
use crate::envs::leaves;
use crate::overtaken::FIRST;
use assertions::assert_same;
use jr_env::{Env, NativeInterface, Patience};
use jr_fixtures::{LAST, NoPass, next_env};
use jr_gate::shut_gate;
use jr_model::{Mode, Summary};
use jr_rule::Room;
use jr_steps::{Role, Steps};
use jr_word::{Config, Fault};
use std::alloc::Global;
use std::process::Abort;
use std::sync::Wait;
use std::test::Fail;
use std::thread;
use std::thread::{JoinHandle, Scope, Threads};

/// How often each thread makes an array of one element.
const ROUNDS: u32 = 20_000;

/// A room for the arrays of two threads, with a third that takes no step.
const RACED: Config = Config {
    threads: 3,
    slots: 1,
    objects: 2 * ROUNDS,
    words: 2 * ROUNDS,
    locals: 16,
};

/// Whether an answer says that so many words were used at the look, and then more, as another thread made an array of one element or several.
fn is_raced<A>(answer: &Result<A, Fault>) -> bool {
    match answer {
        Err(Fault::Raced(looked, found)) => looked < found && *found <= RACED.words,
        _ => false,
    }
}

/// Makes arrays of one element: how many were made, where each other answer was E12.
fn make_often<S: Steps>(env: &mut Env<S>) -> Result<u32, Fault> {
    let mut made = 0u32;
    for _ in 0..ROUNDS {
        let answer = env.new_array::<i32>(1);
        if !is_raced(&answer) {
            env.delete_local_ref(answer?)?;
            made = made.saturating_add(1);
        }
    }
    Ok(made)
}

/// How often a thread opens a region.
const REGIONS: u32 = 10_000;

/// How often a thread collects.
const COLLECTIONS: u32 = 10_000;

/// How often a thread tries at most.
const TRIES: u32 = 5_000_000;

/// A room for two threads that each make an array, with a third that takes no step.
const THREE: Config = Config {
    threads: 3,
    slots: 1,
    objects: 1,
    words: 2,
    locals: 16,
};

/// Writes a number in a region over the first array of thread 1, opened again while another thread collects, and reads there what was written last.
fn writes_in_region<S: Steps>(env: &mut Env<S>, last: i64, number: i64) -> Result<bool, Fault> {
    let mut region = env.retry_array_critical(FIRST, Patience::LONG)?;
    let found = region.get::<i64>(0, 1);
    let written = region.set(0, 1, number);
    let read = region.get::<i64>(0, 1);
    let is_over = match region.release(Mode::Copy) {
        None => true,
        Some(region) => {
            region.release_all();
            false
        }
    };
    Ok(is_over && found == Ok(last) && written == Ok(()) && read == Ok(number))
}

/// Opens a region over a new array so often, and writes there how many it opened. That is read at once, and in the next region.
fn write_often<S: Steps>(env: &mut Env<S>) -> Result<u32, Fault> {
    for done in 0..REGIONS {
        if !writes_in_region(env, i64::from(done), i64::from(done) + 1)? {
            return Err(Fault::Value);
        }
    }
    Ok(REGIONS)
}

/// Shuts the gate and opens it again so often, or until it has tried so often. How often it was shut.
fn collect_often<S: Steps>(steps: &mut S, collections: u32, tries: u32) -> u32 {
    let mut done = 0;
    for _ in 0..tries {
        if done >= collections || steps.role() != Role::Outside {
            break;
        }
        match shut_gate(steps) {
            Ok(collection) => {
                collection.reopen(steps);
                done += 1;
            }
            Err(_) => thread::yield_now(),
        }
    }
    done
}

/// What a thread does.
#[derive(Clone, Copy)]
pub(crate) enum SideWork {
    /// Makes arrays of one element.
    Make,
    /// Opens regions over an array of two elements, and writes there.
    Write,
    /// Collects.
    Collect,
    /// Deletes references that the other thread deletes too, each at the same time.
    Delete(Side),
}

impl SideWork {
    /// Makes, before any thread is started, what it is done with.
    fn prepare<S: Steps>(self, rt: &impl Abort, env: &mut Env<S>) -> Result<(), Fail> {
        match self {
            SideWork::Write => {
                let array = env.new_array::<i64>(2)?;
                assert_same!(rt; array, FIRST);
                Ok(())
            }
            SideWork::Delete(Side::One) => make_contested(rt, env),
            _ => Ok(()),
        }
    }

    /// Does it. How often it was done.
    fn work<S: Steps + Drop>(self, mut env: Env<S>) -> Result<u32, Fault> {
        match self {
            SideWork::Make => make_often(&mut env),
            SideWork::Write => write_often(&mut env),
            SideWork::Collect => {
                let mut steps = env.into_pass();
                Ok(collect_often(&mut steps, COLLECTIONS, TRIES))
            }
            SideWork::Delete(side) => delete_beside(&mut env, side),
        }
    }

    /// How many arrays it has made, how many elements they have, and how many global references stand, where it was done as often as it is to.
    fn made(self, done: u32) -> Result<(u32, u32, u32), Fail> {
        match self {
            SideWork::Make => Ok((done, done, 0)),
            SideWork::Write if done == REGIONS => Ok((1, 2, 0)),
            SideWork::Collect if done == COLLECTIONS => Ok((0, 0, 0)),
            SideWork::Delete(Side::One) => Ok((1, 4, 1)),
            SideWork::Delete(Side::Other) => Ok((0, 0, 0)),
            _ => Err("a thread has done less than it is to")?,
        }
    }
}

/// Does a job in a thread of its own, where one can be started.
fn start<'s, E, S: Steps + Drop + Send + 's>(
    scope: &Scope<'s, E>,
    job: SideWork,
    env: Env<S>,
) -> Option<JoinHandle<Result<u32, Fault>>> {
    scope.spawn(move || job.work(env)).ok()
}

/// What a thread has done, once it has ended.
fn ended<R: Threads>(rt: &R, thread: Option<JoinHandle<Result<u32, Fault>>>) -> Result<u32, Fault> {
    match thread {
        Some(thread) => thread.join(rt),
        None => Err(Fault::Memory),
    }
}

/// What two threads made that did their jobs side by side, each as often as it is to.
fn made_by<R: Threads + Wait + Abort, S: Steps + Drop + Send>(
    rt: &R,
    one: SideWork,
    two: SideWork,
    first: Result<Env<S>, NoPass>,
    second: Result<Env<S>, NoPass>,
) -> Result<Summary, Fail> {
    let mut first = first?;
    let mut second = second?;
    one.prepare(rt, &mut first)?;
    two.prepare(rt, &mut second)?;
    let (first, second) = thread::scope(thread::scope_env(), rt, |scope| {
        let first = start(scope, one, first);
        let second = start(scope, two, second);
        (ended(rt, first), ended(rt, second))
    });
    let (live, used, globals) = one.made(first?)?;
    let (more_live, more_used, more_globals) = two.made(second?)?;
    Ok(Summary {
        globals: globals.saturating_add(more_globals),
        weaks: 0,
        live: live.saturating_add(more_live),
        used: used.saturating_add(more_used),
    })
}

/// Two threads do their jobs side by side, each as often as it is to. Then what they made stands, and no more.
pub(crate) fn both_do<R: Threads + Wait + Abort>(
    rt: &R,
    alloc: Global,
    config: Config,
    one: SideWork,
    two: SideWork,
) -> Result<(), Fail> {
    let (room, mut passes) = Room::<LAST>::open(alloc, config)?;
    let second = next_env(&room, &mut passes);
    let first = next_env(&room, &mut passes);
    let summary = made_by(rt, one, two, first, second)?;
    leaves(rt, room, passes, summary);
    Ok(())
}

// E12 comes hundreds of times where each thread has a processor, and perhaps never where they share one; the test passes then too. A call that it refused has changed nothing.
#[test]
fn another_thread_is_faster(rt: HostRuntime) -> Result<(), Fail> {
    both_do(&rt, rt.alloc(), RACED, SideWork::Make, SideWork::Make)
}

#[test]
fn regions_and_collections_of_two_threads_end(rt: HostRuntime) -> Result<(), Fail> {
    both_do(&rt, rt.alloc(), THREE, SideWork::Write, SideWork::Collect)
}
