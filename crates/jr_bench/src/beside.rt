//! How many collections come in beside threads that call without a break.

use crate::arrays::ArrayCase;
use crate::case::{Case, Env};
use crate::collections::{COLLECTING, Way};
use crate::measure::times_of;
use crate::round::{Done, RoundKind, Signs, all_came, done_at, round};
use jr_steps::Steps;
use jr_weak::Marker;
use jr_word::{Config, Fault, Handle};
use std::alloc::Global;
use std::hint::spin_loop;
use std::io;
use std::rt::Clock;
use std::sync::atomic::Ordering;
use std::thread::Threads;

/// How many slots and objects the room has, and how many local places each thread.
const FEW: u32 = 256;

/// How many words its arrays have: enough for a long one of each thread.
const WORDS: u32 = 262_144;

/// How often a thread looks at most whether the tries have ended.
const LOOKS: u32 = 1 << 30;

/// How many nanoseconds the calls between two looks take at most, unless the thread was stopped meanwhile.
const MOST_NANOS: u128 = 2_000_000;

/// How long the others go on between two tries, in turns of a loop that does nothing.
const PAUSES: u32 = 200;

/// What the threads call, each with its name: a short call, and one that is long inside.
pub(crate) const BESIDE: [(Beside, &'static str); 2] = [
    (
        Beside {
            case: Case::TypeOfGlobal,
            calls: 1_000,
        },
        "get_object_ref_type(global)",
    ),
    (
        Beside {
            case: Case::Arrays(ArrayCase::CopyIn(4_096)),
            calls: 10,
        },
        "set_array_region(4096)",
    ),
];

/// What a thread calls beside the tries.
#[derive(Clone, Copy)]
pub(crate) struct Beside {
    /// Which call it makes.
    case: Case,
    /// How often between two looks whether the tries have ended.
    calls: u32,
}

/// Collections that are tried beside threads that call without a break.
#[derive(Clone, Copy)]
pub(crate) struct Attempts {
    /// How many threads call.
    pub(crate) callers: u32,
    /// How often a collection is tried.
    pub(crate) count: u32,
}

/// What is done in a round.
#[derive(Clone, Copy)]
pub(crate) struct Task {
    /// The tries, and how many threads call.
    pub(crate) tries: Attempts,
    /// How each collection is made.
    pub(crate) way: Way,
    /// What the threads call.
    pub(crate) beside: Beside,
}

/// What each try adds to the number of what the tries came to, of which each part is below 2^32: so the numbers of rounds are in the order of the collections that came in.
const CAME_IN: u128 = 1 << 64;

/// The same of a try that was refused by E14, since threads were inside or knocking.
const BUSY: u128 = 1 << 32;

/// The same of a try that was refused by E23, since another thread went in or out just then.
const MOVED: u128 = 1;

impl Attempts {
    fn threads(self) -> u32 {
        self.callers.saturating_add(1)
    }

    /// The sizes of the room.
    pub(crate) fn config(self) -> Config {
        Config {
            threads: self.threads(),
            slots: FEW,
            objects: FEW,
            words: WORDS,
            locals: FEW,
        }
    }
}

/// Lets the others go on for a while.
fn pause() {
    for _ in 0..PAUSES {
        spin_loop();
    }
}

/// Tries a collection.
fn try_one<S: Steps>(alloc: Global, env: &mut Env<S>, way: Way) -> Result<(), Fault> {
    let mut marker = Marker::new(alloc, env.held.steps.config())?;
    way.collect(env, &mut marker, &mut [])?;
    Ok(())
}

/// Tries collections, one after the other: what they came to.
fn try_each<S: Steps>(alloc: Global, env: &mut Env<S>, task: Task) -> Option<u128> {
    let mut tries = 0u128;
    for _ in 0..task.tries.count {
        let came_to = match try_one(alloc, env, task.way) {
            Ok(()) => CAME_IN,
            Err(Fault::Busy(_)) => BUSY,
            Err(Fault::Moved(..)) => MOVED,
            Err(_) => return None,
        };
        tries = tries.saturating_add(came_to);
        pause();
    }
    Some(tries)
}

/// Calls without a break until the tries have ended: how long it ran.
fn call_on<R: Clock, S: Steps>(
    rt: &R,
    alloc: Global,
    env: &mut Env<S>,
    case: Case,
    handed: &[Handle],
    signs: &Signs,
) -> Option<u128> {
    let mut ran = 0u128;
    for _ in 0..LOOKS {
        if signs.ended.load(Ordering::SeqCst) {
            break;
        }
        let began = signs.now(rt)?;
        case.make_all(env, alloc, handed);
        let took = signs.now(rt)?.saturating_sub(began);
        if took < MOST_NANOS {
            ran = ran.saturating_add(took);
        }
    }
    Some(ran)
}

impl Task {
    /// What one thread of a round does: the first tries collections, and the others call until it has ended.
    pub(crate) fn act<R: Clock, S: Steps>(
        self,
        rt: &R,
        alloc: Global,
        env: &mut Env<S>,
        signs: &Signs,
    ) -> Option<Done> {
        let Beside { case, calls } = self.beside;
        let handed = case.handed(env, alloc, calls);
        let have_come = all_came(signs, self.tries.threads());
        if env.held.steps.thread() == 0 {
            let began = signs.now(rt);
            let tries = try_each(alloc, env, self);
            let ended = signs.now(rt);
            signs.ended.store(true, Ordering::SeqCst);
            let mut done = Done::from_to(began?, ended?);
            done.tries = tries?;
            return if have_come { Some(done) } else { None };
        }
        let ran = call_on(rt, alloc, env, case, &handed?, signs)?;
        Some(Done::from_to(0, ran))
    }
}

/// What the tries of a round came to, and whether all threads ran for three quarters of its time.
pub(crate) fn tries_of(done: &[Option<Done>]) -> Option<(u128, bool)> {
    let first = done_at(done, 0)?;
    let mut have_run = true;
    for thread in 0..done.len() {
        let ran = done_at(done, thread)?.ran;
        have_run = have_run && ran.saturating_mul(4) >= first.ran.saturating_mul(3);
    }
    Some((first.tries, have_run))
}

/// Whether each try of a round was a collection, or was refused as it may be.
pub(crate) fn is_right<R: Threads + Clock + Sync>(rt: &R, alloc: Global, task: Task) -> bool {
    match round(rt, alloc, RoundKind::Beside(task)) {
        Some(done) => tries_of(&done).is_some(),
        None => false,
    }
}

/// Prints a line for each call and each way:
/// of the rounds that count, in which all threads ran, what the tries came to in the one with the median of the collections that came in, and how many rounds these are.
pub(crate) fn print<R: Threads + Clock + Print + Sync>(
    rt: &R,
    alloc: Global,
    tries: Attempts,
    rounds: u32,
) -> io::Result<()> {
    for (beside, call) in BESIDE {
        for (way, name) in COLLECTING {
            let job = RoundKind::Beside(Task { tries, way, beside });
            let rounds = times_of(rt, alloc, job, rounds)?;
            print_median(rt, name, call, rounds.as_slice())?;
        }
    }
    Ok(())
}

/// Prints the line of a call and a way.
fn print_median<R: Print>(rt: &R, name: &str, call: &str, rounds: &[u128]) -> io::Result<()> {
    let counted = rounds.len();
    let Some(tries) = rounds.get(counted / 2) else {
        return println!(rt; "{name}:{call} - - - 0");
    };
    let (came_in, refused) = (*tries / CAME_IN, *tries % CAME_IN);
    let (busy, moved) = (refused / BUSY, refused % BUSY);
    println!(rt; "{name}:{call} {came_in} {busy} {moved} {counted}")
}
