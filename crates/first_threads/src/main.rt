//! A first program: one native thread makes arrays, and two add up what stands in them. They hand them on by a queue, with notes.
#![tactic(auto)]

#[cfg(test)]
mod tests;

use jr::calls::{DeleteGlobalRef, DeleteLocalRef, NewArray, NewGlobalRef, SetArrayRegion};
use jr::{
    Config, Env, Fault, Handle, NativeCode, NoMessage, Patience, QueueEnd, Site, Steps, StepsIn,
    Summary, run_native,
};
use std::alloc::Global;
use std::io;
use std::thread::Threads;

/// How many arrays are made.
const ARRAYS: i32 = 10;

/// How often a call is made again where another thread is in its way.
const PATIENCE: Patience = Patience::LONG;

/// The sizes of the room.
const SIZES: Config = Config {
    threads: 3,
    slots: 16,
    objects: 16,
    words: 64,
    locals: 16,
};

/// What the threads of the room run.
struct Adders;

impl NativeCode for Adders {
    /// A global reference to an array.
    type Message = Handle;

    /// The sum of what the thread read.
    type Answer = Result<i64, Fault>;

    fn run<Q: Site, S: StepsIn<Q> + Drop>(
        &self,
        thread: u8,
        env: &mut Env<S>,
        queue: &mut QueueEnd<'_, Handle, Q>,
    ) -> Result<i64, Fault> {
        if thread == 0 {
            return make_all(env, queue);
        }
        queue.puts_no_more();
        add_all(env, queue)
    }
}

/// Makes all arrays, and hands each on with a note of what this thread has seen.
fn make_all<Q: Site, S: StepsIn<Q>>(
    env: &mut Env<S>,
    queue: &QueueEnd<'_, Handle, Q>,
) -> Result<i64, Fault> {
    for number in 0..ARRAYS {
        let shared = make(env, number)?;
        let handed = queue.retry_put(shared, env.note(), PATIENCE);
        handed.map_err(|_| Fault::Turns)?;
    }
    Ok(0)
}

/// Makes an array of a number and 100, and answers a global reference to it.
fn make<S: Steps>(env: &mut Env<S>, number: i32) -> Result<Handle, Fault> {
    let array = env.retry(NewArray::<i32>::of(2), PATIENCE)?;
    env.retry(SetArrayRegion(array, 0, &[number, 100]), PATIENCE)?;
    let shared = env.retry(NewGlobalRef(array), PATIENCE)?;
    env.retry(DeleteLocalRef(array), PATIENCE)?;
    Ok(Handle::or_null(shared))
}

/// Adds up the arrays that come, until no more do.
fn add_all<Q: Site, S: StepsIn<Q>>(
    env: &mut Env<S>,
    queue: &QueueEnd<'_, Handle, Q>,
) -> Result<i64, Fault> {
    let mut sum = 0i64;
    for _ in 0..u64::MAX {
        let (shared, note) = match queue.retry_take(PATIENCE) {
            Ok(taken) => taken,
            Err(NoMessage::More) => break,
            Err(NoMessage::Yet) => return Err(Fault::Turns),
        };
        env.learn(note);
        sum = sum.wrapping_add(added(env, shared)?);
        env.retry(DeleteGlobalRef(shared), PATIENCE)?;
    }
    Ok(sum)
}

/// The sum of an array's two elements, in a critical region.
fn added<S: Steps>(env: &mut Env<S>, array: Handle) -> Result<i64, Fault> {
    let mut region = env.retry_array_critical(array, PATIENCE)?;
    let (first, second) = (region.get::<i32>(0, 0), region.get::<i32>(0, 1));
    region.release_all();
    Ok(i64::from(first?).wrapping_add(i64::from(second?)))
}

/// Runs the three threads, and answers the sum of what they read, and what stood as the room was closed.
fn run<R: Threads + Sync>(rt: &R, alloc: Global) -> Result<(i64, Summary), Fault> {
    let ran = run_native(rt, alloc, SIZES, &Adders)?;
    let mut sum = 0i64;
    for answer in ran.answers {
        sum = sum.wrapping_add(answer?);
    }
    Ok((sum, ran.summary))
}

fn main(rt: HostRuntime) -> io::Result<()> {
    match run(&rt, rt.alloc()) {
        Ok((sum, left)) => {
            let (live, globals) = (left.live, left.globals);
            println!(rt; "the sum is {sum}; left: {live} objects, {globals} global references")
        }
        Err(fault) => println!(rt; "refused: {fault}"),
    }
}
