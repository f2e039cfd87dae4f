//! How long the calls for references and arrays take in a room that threads share, how often they answer as they should, and how many collections come in beside them.
//!
//! With no word it makes each call a few hundred times, by one thread and by two, and prints how often each answered as it should: the same text on every machine.
//! With the words THREADS STANDING CALLS ROUNDS it measures each call, with stays before them just those that are made in stays too, with checked those that are made with a watcher too,
//! with others the calls that the floor has not,
//! with notes a note that is made and learned and with owned each call over steps that own their room too, and with the words collect ARRAYS EVERY ROUNDS a collection, announced or not, and a census:
//! `measure` tells what it prints.
//! With the words beside CALLERS TRIES ROUNDS it counts how many collections come in beside so many threads that call without a break: `beside` tells what it prints.
#![tactic(auto)]

mod answers;
mod arrays;
mod beside;
mod calls;
mod case;
mod checked;
mod collections;
mod copies;
mod criticals;
mod measure;
mod notes;
mod others;
mod owned;
mod round;
mod stays;

use crate::beside::Attempts;
use crate::case::{CASES, OTHERS, WITH_STAYS};
use crate::collections::Collections;
use crate::round::Work;
use std::rt::{Clock, Env};
use std::thread::Threads;
use std::{env, io};

fn main(rt: HostRuntime) -> io::Result<()> {
    act(&rt)
}

/// What is measured.
#[derive(Clone, Copy)]
enum Measured {
    /// Each call.
    Calls(Work),
    /// Each call that is made in stays too.
    Stays(Work),
    /// Each call that is made with a watcher too.
    Checked(Work),
    /// Each call that the floor has not.
    Others(Work),
    /// A note that is made and learned.
    Notes(Work),
    /// Each call, over steps that own their room too.
    Owned(Work),
    /// A collection, and a census.
    Collection(Collections),
    /// How many collections come in beside threads that call.
    Beside(Attempts),
}

/// Does what the words of the command line ask for.
fn act<R: AllocGlobal + Env + Print + Eprint + Clock + Threads + Sync>(rt: &R) -> io::Result<()> {
    let words = env::args(rt)?.skip(1).collect::<Vec<String>>(rt.alloc())?;
    if words.is_empty() {
        return answers::print(rt, rt.alloc());
    }
    match asked(words.as_slice()) {
        Some((Measured::Calls(work), rounds)) => {
            measure::print(rt, rt.alloc(), &CASES, work, rounds)
        }
        Some((Measured::Stays(work), rounds)) => {
            measure::print(rt, rt.alloc(), &WITH_STAYS, work, rounds)
        }
        Some((Measured::Checked(work), rounds)) => {
            measure::print_checked(rt, rt.alloc(), work, rounds)
        }
        Some((Measured::Others(work), rounds)) => {
            measure::print(rt, rt.alloc(), &OTHERS, work, rounds)
        }
        Some((Measured::Notes(work), rounds)) => notes::print(rt, rt.alloc(), work, rounds),
        Some((Measured::Owned(work), rounds)) => owned::print(rt, rt.alloc(), work, rounds),
        Some((Measured::Collection(work), rounds)) => {
            collections::print(rt, rt.alloc(), work, rounds)
        }
        Some((Measured::Beside(tries), rounds)) => beside::print(rt, rt.alloc(), tries, rounds),
        None => {
            eprintln!(rt;
                "usage: jr_bench [[stays | checked | others | notes | owned] THREADS STANDING CALLS ROUNDS | collect ARRAYS EVERY ROUNDS | beside CALLERS TRIES ROUNDS]"
            )?;
            Err(io::Error::from(io::ErrorKind::InvalidInput))
        }
    }
}

/// What the words ask to be measured, and in how many rounds.
fn asked(words: &[String]) -> Option<(Measured, u32)> {
    if let [kind, threads, standing, calls, rounds] = words {
        let work = work(threads, standing, calls)?;
        return Some((of_kind(kind, work)?, number(rounds)?));
    }
    let [first, second, third, rounds] = words else {
        return None;
    };
    let measured = match first.as_str() {
        "collect" => Measured::Collection(Collections {
            arrays: number(second)?,
            every: number(third)?,
        }),
        "beside" => Measured::Beside(Attempts {
            callers: number(second)?,
            count: number(third)?,
        }),
        _ => Measured::Calls(work(first, second, third)?),
    };
    Some((measured, number(rounds)?))
}

/// What the first word asks to be measured by this work.
fn of_kind(kind: &String, work: Work) -> Option<Measured> {
    match kind.as_str() {
        "stays" => Some(Measured::Stays(work)),
        "checked" => Some(Measured::Checked(work)),
        "others" => Some(Measured::Others(work)),
        "notes" => Some(Measured::Notes(work)),
        "owned" => Some(Measured::Owned(work)),
        _ => None,
    }
}

/// How often each call is made, as the words say.
fn work(threads: &String, standing: &String, calls: &String) -> Option<Work> {
    Some(Work {
        threads: number(threads)?,
        standing: number(standing)?,
        calls: number(calls)?,
    })
}

/// The number that a word says.
fn number(word: &String) -> Option<u32> {
    word.as_str().parse::<u32>().ok()
}
