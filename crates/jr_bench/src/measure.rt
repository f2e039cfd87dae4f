//! The measuring.

use crate::beside::tries_of;
use crate::case::{CALLERS, Case, WATCHED};
use crate::checked::CheckedCase;
use crate::round::{Done, RoundKind, Work, done_at, round};
use std::alloc::Global;
use std::io;
use std::rt::Clock;
use std::thread::Threads;

/// How long a call took, in tenths of nanoseconds, as the mean of the threads: none where one was refused, or where for more than a quarter of the time not all threads ran.
fn time_of_call(calls: u32, done: &[Option<Done>]) -> Option<u128> {
    let first = done_at(done, 0)?;
    let (mut began, mut all_began) = (first.began, first.began);
    let (mut ended, mut one_ended) = (first.ended, first.ended);
    let mut sum = 0u128;
    for thread in 0..done.len() {
        let one = done_at(done, thread)?;
        if one.right != calls as usize {
            return None;
        }
        began = began.min(one.began);
        all_began = all_began.max(one.began);
        one_ended = one_ended.min(one.ended);
        ended = ended.max(one.ended);
        sum = sum.saturating_add(one.ran);
    }
    let together = one_ended.saturating_sub(all_began);
    let whole = ended.saturating_sub(began);
    if together.saturating_mul(4) < whole.saturating_mul(3) {
        return None;
    }
    let made = done.len() as u128 * u128::from(calls);
    sum.saturating_mul(10).checked_div(made)
}

/// What a round came to: of calls and collections how long one took, in tenths of nanoseconds, and of tries what these came to. None where it doesn't count.
pub(crate) fn time_of<R: Threads + Clock + Sync>(
    rt: &R,
    alloc: Global,
    job: RoundKind,
) -> Option<u128> {
    let done = round(rt, alloc, job)?;
    match job {
        RoundKind::Calls(_, work) | RoundKind::Owned(_, work) | RoundKind::Notes(work) =>
            time_of_call(work.calls, &done),
        RoundKind::Collects(..) => Some(done_at(&done, 0)?.ran.saturating_mul(10)),
        RoundKind::Beside(_) => match tries_of(&done)? {
            (tries, true) => Some(tries),
            (_, false) => None,
        },
    }
}

/// What so many rounds came to, in order, of which only those are told that count.
pub(crate) fn times_of<R: Threads + Clock + Sync>(
    rt: &R,
    alloc: Global,
    job: RoundKind,
    rounds: u32,
) -> io::Result<Vec<u128>> {
    let mut times = Vec::new(alloc);
    for _ in 0..rounds {
        if let Some(time) = time_of(rt, alloc, job) {
            times.push(time)?;
        }
    }
    times.sort()?;
    Ok(times)
}

/// Prints a line of so many rounds: what is measured, with what its name has before it, the median and the least of its times in nanoseconds, and how many rounds counted.
pub(crate) fn print_job<R: Threads + Clock + Print + Sync>(
    rt: &R,
    alloc: Global,
    before: &str,
    name: &str,
    job: RoundKind,
    rounds: u32,
) -> io::Result<()> {
    let times = times_of(rt, alloc, job, rounds)?;
    print_times(rt, before, name, times.as_slice())
}

/// Prints a line for each case.
pub(crate) fn print<R: Threads + Clock + Print + Sync>(
    rt: &R,
    alloc: Global,
    cases: &[Case],
    work: Work,
    rounds: u32,
) -> io::Result<()> {
    for case in cases {
        print_job(
            rt,
            alloc,
            "",
            case.name(),
            RoundKind::Calls(*case, work),
            rounds,
        )?;
    }
    Ok(())
}

/// Prints six lines for each call: of an env and of a stay, without a watcher and with each of two, as those of calls are.
pub(crate) fn print_checked<R: Threads + Clock + Print + Sync>(
    rt: &R,
    alloc: Global,
    work: Work,
    rounds: u32,
) -> io::Result<()> {
    for call in WATCHED {
        for caller in CALLERS {
            let case = CheckedCase { call, caller };
            let job = RoundKind::Calls(Case::Checked(case), work);
            print_job(rt, alloc, case.before_name(), case.name(), job, rounds)?;
        }
    }
    Ok(())
}

/// Prints a line of times in order, which are in tenths of nanoseconds.
fn print_times<R: Print>(rt: &R, before: &str, name: &str, times: &[u128]) -> io::Result<()> {
    let counted = times.len();
    let (Some(least), Some(median)) = (times.first(), times.get(counted / 2)) else {
        return println!(rt; "{before}{name} - - 0");
    };
    let (whole, tenth) = (*median / 10, *median % 10);
    let (least_whole, least_tenth) = (*least / 10, *least % 10);
    println!(rt; "{before}{name} {whole}.{tenth} {least_whole}.{least_tenth} {counted}")
}
