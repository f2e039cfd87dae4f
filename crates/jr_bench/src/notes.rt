//! How long it takes to note what a thread has seen, and to learn it.

use crate::measure::print_job;
use crate::round::{Done, RoundKind, Signs, Work, all_came};
use jr_env::Env;
use jr_rule::{Site, StepsIn};
use std::alloc::Global;
use std::io;
use std::rt::Clock;
use std::thread::Threads;

/// The two calls that are measured together.
pub(crate) const NOTES: &str = "note,learn";

/// A thread waits for the others, and then notes what it has seen and learns that, again and again.
pub(crate) fn note_all<Q: Site, R: Clock, S: StepsIn<Q>>(
    rt: &R,
    env: &mut Env<S>,
    work: Work,
    signs: &Signs,
) -> Option<Done> {
    if !all_came(signs, work.threads) {
        return None;
    }
    let began = signs.now(rt)?;
    for _ in 0..work.calls {
        let note = env.note::<Q>();
        env.learn(note);
    }
    let mut done = Done::from_to(began, signs.now(rt)?);
    done.right = work.calls as usize;
    Some(done)
}

/// Prints a line for the two, as those of calls are.
pub(crate) fn print<R: Threads + Clock + Print + Sync>(
    rt: &R,
    alloc: Global,
    work: Work,
    rounds: u32,
) -> io::Result<()> {
    print_job(rt, alloc, "", NOTES, RoundKind::Notes(work), rounds)
}
