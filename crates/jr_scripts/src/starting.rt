//! Starts the threads of a script, and joins them.

ghost use Rattle.std.specs.Prelude.{◌≡◌, Err, Some, IfSome, MatchResult, All, length};
ghost use Rattle.jr_word.specs.declared.fault.Fault.TheVariants.{Memory};
ghost use Rattle.jr_scripts.specs.Jobs.{HaveRun, HaveTold, IsFor, IsForCommands};
ghost use Rattle.jr_scripts.specs.AllRuns.{RanPass};
ghost use Rattle.jr_scripts.specs.Given.{IsGiven};
ghost use Rattle.jr_scripts.specs.Layouts.{layout_of};
ghost use Rattle.jr_scripts.specs.Telling.{talk_told};

use crate::board::Posts;
use crate::gathering::told;
use crate::hold::Hold;
use crate::part::{Job, ThreadRun, run_job};
use crate::task::Task;
use jr_rule::{Pass, PinnedNoteOf, Room, Site};
use jr_syntax::{Command, ThreadPart};
use jr_word::Fault;
use std::alloc::Global;
use std::snapshot::Snapshot;
use std::sync::Wait;
use std::thread;
use std::thread::{Promise, PromisedHandle, Scope, Threads};

/// The promise of a thread: it has done this job.
#[derive(Drop)]
pub(crate) struct Doing<'a, Q: Site> {
    first: usize,
    turns: u64,
    commands: &'a [Command],
    pass: Snapshot<Pass>,
    board: &'a Posts<PinnedNoteOf<Q>>,
}

impl<'a, 'b, Q: Site> Promise<ThreadRun<'b, Q>> for Doing<'a, Q> {
    ghost kept_by = { λ p r. RanPass (talk_told r.notes.is_lost r.notes.posts.now.numbers.entries r.notes.notes.items) p.turns p.first p.commands.now p.pass.value r.pass r.answer r.text.items
        × (layout_of r.notes.posts.now ≡ layout_of p.board.now) };
}

/// Does a job in a thread of its own, where one can be started.
fn start<'s, 'b: 's, Q: Site + Send + Sync, E, H: Hold + Sync, const LAST: u32>(
    alloc: Global,
    scope: &Scope<'s, E>,
    room: &'s Room<LAST>,
    board: &'b Posts<PinnedNoteOf<Q>>,
    hold: &'s H,
    job: Job<'s>,
) -> Option<PromisedHandle<ThreadRun<'b, Q>, Doing<'s, Q>>>
    requires job { IsFor room.now.row job }
    requires site { Some room.now.row.table.shared.table_id ≡ Q.room }
    ensures given { IfSome result (λ h. IsGiven h.promise job.entry) }
    ensures over { IfSome result (λ h. h.promise.board.now ≡ board.now) }
{
    let Job { task, pass } = job;
    let Task {
        first,
        turns,
        commands,
    } = task;
    let promise = Doing {
        first,
        turns,
        commands,
        pass: Snapshot::of(&pass),
        board,
    };
    let there = move || -> ThreadRun<Q>
        requires { IsForCommands room.now.row first commands.now pass × (Some room.now.row.table.shared.table_id ≡ Q.room) }
        ensures { RanPass (talk_told result.notes.is_lost result.notes.posts.now.numbers.entries result.notes.notes.items)
            turns first commands.entry.now pass result.pass result.answer result.text.items
            × (layout_of result.notes.posts.now ≡ layout_of board.entry.now) }
    {
        let task = Task {
            first,
            turns,
            commands,
        };
        run_job(alloc, room, board, hold, Job { task, pass })
    };
    scope.spawn_with(promise, there).ok()
}

/// Joins the threads, and gives up.
fn given_up<'s, 'b, Q: Site, R: Threads>(
    rt: &R,
    handles: Vec<PromisedHandle<ThreadRun<'b, Q>, Doing<'s, Q>>>,
) -> Result<Vec<ThreadRun<'b, Q>>, Fault>
    ensures { result ≡ Err Memory }
{
    for handle in handles {
        drop(handle.join(rt));
    }
    Err(Fault::Memory)
}

/// Does jobs, each in a thread of its own.
fn run_jobs<'s, 'b: 's, Q: Site + Send + Sync, E, H: Hold + Sync, const LAST: u32, R: Threads>(
    rt: &R,
    alloc: Global,
    scope: &Scope<'s, E>,
    room: &'s Room<LAST>,
    board: &'b Posts<PinnedNoteOf<Q>>,
    hold: &'s H,
    mut jobs: Vec<Job<'s>>,
) -> Result<Vec<ThreadRun<'b, Q>>, Fault>
    requires jobs { All (λ j. IsFor room.now.row j) jobs.items }
    requires site { Some room.now.row.table.shared.table_id ≡ Q.room }
    ensures { MatchResult result (λ runs. HaveRun (layout_of board.now) jobs.entry.items runs.items) (λ e. e ≡ Memory) }
{
    let mut handles = Vec::new(alloc);
    while !jobs.is_empty() {
        if handles.reserve(1).is_err() {
            return given_up(rt, handles);
        }
        let job = jobs.remove(0);
        let Some(handle) = start(alloc, scope, room, board, hold, job) else {
            return given_up(rt, handles);
        };
        handles.push_reserved(handle);
    }
    match thread::join_promised(rt, handles) {
        Ok(runs) => Ok(runs),
        Err(refused) => given_up(rt, refused.value),
    }
}

/// The parts of a script, and what the thread of each is given.
#[derive(Drop)]
struct ScriptJobs<'a> {
    parts: &'a [ThreadPart],
    jobs: Vec<Job<'a>>,
}

/// The same, and gives the threads' passes and what they print. Each of them has ended then.
fn told_jobs<'s, 'b: 's, Q: Site + Send + Sync, E, H: Hold + Sync, const LAST: u32, R: Threads>(
    rt: &R,
    alloc: Global,
    scope: &Scope<'s, E>,
    room: &'s Room<LAST>,
    board: &'b Posts<PinnedNoteOf<Q>>,
    hold: &'s H,
    all: ScriptJobs<'s>,
) -> Result<(Vec<Pass>, Vec<u8>), Fault>
    requires long { length all.jobs.items ≡ length all.parts.now }
    requires jobs { All (λ j. IsFor room.now.row j) all.jobs.items }
    requires site { Some room.now.row.table.shared.table_id ≡ Q.room }
    ensures { MatchResult result (λ r. HaveTold board.now all.entry.jobs.items all.entry.parts.now r.0.items r.1.items) (λ e. e ≡ Memory) }
{
    let ScriptJobs { parts, jobs } = all;
    let runs = run_jobs(rt, alloc, scope, room, board, hold, jobs)?;
    told(alloc, parts, board, runs)
}

/// Does jobs, each in a thread of its own, and gives the threads' passes and what they print.
pub(crate) fn run_threads<
    'a,
    Q: Site + Send + Sync,
    H: Hold + Sync,
    const LAST: u32,
    R: Threads + Wait,
>(
    rt: &R,
    alloc: Global,
    room: &'a Room<LAST>,
    board: &'a Posts<PinnedNoteOf<Q>>,
    hold: &'a H,
    parts: &'a [ThreadPart],
    jobs: Vec<Job<'a>>,
) -> Result<(Vec<Pass>, Vec<u8>), Fault>
    requires long { length jobs.items ≡ length parts.now }
    requires jobs { All (λ j. IsFor room.now.row j) jobs.items }
    requires site { Some room.now.row.table.shared.table_id ≡ Q.room }
    ensures { MatchResult result (λ r. HaveTold board.now jobs.entry.items parts.now r.0.items r.1.items) (λ e. e ≡ Memory) }
{
    thread::scope(
        thread::scope_env(),
        rt,
        move |scope| -> Result<(Vec<Pass>, Vec<u8>), Fault>
            requires { (length jobs.items ≡ length parts.now) × All (λ j. IsFor room.now.row j) jobs.items × (Some room.now.row.table.shared.table_id ≡ Q.room) }
            ensures { MatchResult result (λ r. HaveTold board.entry.now jobs.entry.items parts.entry.now r.0.items r.1.items) (λ e. e ≡ Memory) }
        {
            told_jobs(
                rt,
                alloc,
                scope,
                room,
                board,
                hold,
                ScriptJobs { parts, jobs },
            )
        },
    )
}
