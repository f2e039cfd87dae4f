//! The calls over steps that own their room, beside the same calls over steps that borrow it.

use crate::case::{CASES, Case};
use crate::measure::print_job;
use crate::round::{Done, RoundKind, Signs, Work, call_all};
use jr_owned::{OwnedEnv, open_envs};
use jr_word::Config;
use std::alloc::Global;
use std::rt::Clock;
use std::thread::Threads;
use std::{io, thread};

/// How the name of a call over such steps begins.
pub(crate) const OWNED: &str = "owned:";

/// What one thread does in its env.
fn call_one<R: Clock>(
    rt: &R,
    alloc: Global,
    mut env: OwnedEnv,
    case: Case,
    work: Work,
    signs: &Signs,
) -> Option<Done> {
    call_all(rt, alloc, &mut env, case, work, signs)
}

/// A round in a room that its threads own: what each thread did.
pub(crate) fn round<R: Threads + Clock + Sync>(
    rt: &R,
    alloc: Global,
    config: Config,
    case: Case,
    work: Work,
    signs: &Signs,
) -> Option<Vec<Option<Done>>> {
    let envs = open_envs(alloc, config).ok()?;
    let call_each = |env| call_one(rt, alloc, env, case, work, signs);
    thread::map_vec(rt, envs, &call_each).ok()
}

/// Prints two lines for each case, over steps that borrow the room and over those that own it, as those of calls are.
pub(crate) fn print<R: Threads + Clock + Print + Sync>(
    rt: &R,
    alloc: Global,
    work: Work,
    rounds: u32,
) -> io::Result<()> {
    for case in CASES {
        let (room, owned) = (RoundKind::Calls(case, work), RoundKind::Owned(case, work));
        print_job(rt, alloc, "", case.name(), room, rounds)?;
        print_job(rt, alloc, OWNED, case.name(), owned, rounds)?;
    }
    Ok(())
}
