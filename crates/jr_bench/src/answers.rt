//! The fixed text: how often calls answer as they should.

use crate::beside::{Attempts, BESIDE, Task, is_right};
use crate::case::{CASES, Case, OTHERS, WATCHED};
use crate::checked::{Caller, CheckedCase};
use crate::collections::{COLLECTING, Collections, WAYS};
use crate::measure::time_of;
use crate::notes::NOTES;
use crate::owned::OWNED;
use crate::round::{RoundKind, Work, done_at, round};
use std::alloc::Global;
use std::io;
use std::rt::Clock;
use std::thread::Threads;

/// How often each thread makes a call.
const CALLS: u32 = 300;

/// How many references stand meanwhile.
const STANDING: u32 = 100;

/// The callers with a watcher.
const TOLD: [Caller; 4] = [
    Caller::CheckedEnv,
    Caller::NamedEnv,
    Caller::CheckedStay,
    Caller::NamedStay,
];

/// What so many threads do.
fn work_of(threads: u32) -> Work {
    Work {
        threads,
        standing: STANDING,
        calls: CALLS,
    }
}

/// How often the calls of a round answered as they should.
fn right<R: Threads + Clock + Sync>(rt: &R, alloc: Global, job: RoundKind) -> usize {
    let Some(done) = round(rt, alloc, job) else {
        return 0;
    };
    let mut right = 0usize;
    for thread in 0..done.len() {
        if let Some(done) = done_at(&done, thread) {
            right = right.saturating_add(done.right);
        }
    }
    right
}

/// Prints how often a call answered as it should.
fn print_right<R: Print>(
    rt: &R,
    before: &str,
    name: &str,
    one: usize,
    two: usize,
) -> io::Result<()> {
    println!(rt; "{before}{name}: {one} by one thread, {two} by two")
}

/// Prints the text.
pub(crate) fn print<R: Threads + Clock + Print + Sync>(rt: &R, alloc: Global) -> io::Result<()> {
    println!(rt; "each call, {CALLS} times by each thread: how often it answered as it should")?;
    for case in CASES {
        let one = right(rt, alloc, RoundKind::Calls(case, work_of(1)));
        let two = right(rt, alloc, RoundKind::Calls(case, work_of(2)));
        print_right(rt, "", case.name(), one, two)?;
        let one = right(rt, alloc, RoundKind::Owned(case, work_of(1)));
        let two = right(rt, alloc, RoundKind::Owned(case, work_of(2)));
        print_right(rt, OWNED, case.name(), one, two)?;
    }
    print_checked(rt, alloc)?;
    print_others(rt, alloc)?;
    let one = right(rt, alloc, RoundKind::Notes(work_of(1)));
    let two = right(rt, alloc, RoundKind::Notes(work_of(2)));
    print_right(rt, "", NOTES, one, two)?;
    print_collections(rt, alloc)?;
    print_beside(rt, alloc)
}

/// Prints how often calls with a watcher answered as they should.
fn print_checked<R: Threads + Clock + Print + Sync>(rt: &R, alloc: Global) -> io::Result<()> {
    for call in WATCHED {
        for caller in TOLD {
            let case = CheckedCase { call, caller };
            let one = right(rt, alloc, RoundKind::Calls(Case::Checked(case), work_of(1)));
            let two = right(rt, alloc, RoundKind::Calls(Case::Checked(case), work_of(2)));
            print_right(rt, case.before_name(), case.name(), one, two)?;
        }
    }
    Ok(())
}

/// Prints how often the calls answered as they should that the floor has not.
fn print_others<R: Threads + Clock + Print + Sync>(rt: &R, alloc: Global) -> io::Result<()> {
    for case in OTHERS {
        let one = right(rt, alloc, RoundKind::Calls(case, work_of(1)));
        let two = right(rt, alloc, RoundKind::Calls(case, work_of(2)));
        print_right(rt, "", case.name(), one, two)?;
    }
    Ok(())
}

/// Prints whether collections answered as they should.
fn print_collections<R: Threads + Clock + Print + Sync>(rt: &R, alloc: Global) -> io::Result<()> {
    for (every, reached) in [(0, "all"), (2, "half"), (1, "none")] {
        let work = Collections {
            arrays: CALLS,
            every,
        };
        for (way, name) in WAYS {
            let is_right = time_of(rt, alloc, RoundKind::Collects(work, way)).is_some();
            println!(rt;
                "{name}, with {reached} of {CALLS} arrays reached, answered as it should: {is_right}"
            )?;
        }
    }
    Ok(())
}

/// Prints whether each collection beside a thread that calls was made, or refused as it may be.
fn print_beside<R: Threads + Clock + Print + Sync>(rt: &R, alloc: Global) -> io::Result<()> {
    let tries = Attempts {
        callers: 1,
        count: CALLS,
    };
    for (beside, call) in BESIDE {
        for (way, name) in COLLECTING {
            let is_right = is_right(rt, alloc, Task { tries, way, beside });
            println!(rt;
                "{name}, tried {CALLS} times beside {call}, was made or refused each time: {is_right}"
            )?;
        }
    }
    Ok(())
}
