//! Runs scripts of several threads, each in a thread of its own, in one room.

ghost use Rattle.std.specs.Prelude.{◌≡◌, ◌⊎◌, ◌↔◌, ◌+◌, ◌<◌, ◌^◌, [], ◌∷◌, Some, All, Err, length, map, IfOk, IfErr, OnOk, OnErr};
ghost use Rattle.std.specs.List.{AllByRecursion};
ghost use Rattle.jr_model.specs.declared.event.Role.TheVariants.{Outside};
ghost use Rattle.jr_rule.specs.Passes.{known_of, ClosesAll, HasEachPass};
ghost use Rattle.jr_rule.specs.Rooms.{IsOfRoom, IsOpening};
ghost use Rattle.jr_word.specs.declared.fault.Fault.TheVariants.{Memory, Size};
ghost use Rattle.jr_scripts.specs.AllRuns.{CanBeRun, lines_of_parts, IsRunOfAll, RunsAll};
ghost use Rattle.jr_scripts.specs.Jobs.{AreJobsOf};
ghost use Rattle.jr_scripts.specs.PostedNames.{AddsPosted, commands_of};

use crate::board::Posts;
use crate::hold::Hold;
use crate::part::Job;
use crate::printed::ending;
use crate::runnable::{FIRST_PART, can_be_run};
use crate::starting::run_threads;
use crate::task::Task;
use jr_rule::{Pass, PinnedNoteOf, Room, Site, Summary};
use jr_syntax::{Script, ThreadPart};
use jr_word::{Fault, LAST_SERIAL};
use std::alloc::{AllocError, Global};
use std::marker::Brand;
use std::sync::Wait;
use std::thread::Threads;

/// A growth was refused.
fn out_of_memory(_: AllocError) -> Fault
    ensures { result ≡ Memory }
{
    Fault::Memory
}

/// Closes the room with the passes of all its threads, which are outside.
fn closed(room: Room<LAST_SERIAL>, first: Pass, others: Vec<Pass>) -> Summary
    requires first { IsOfRoom room first }
    requires others { All (λ p. IsOfRoom room p) others.items }
    requires each { HasEachPass room.row.config (map known_of (first ∷ others.items)) }
    requires outside { AllByRecursion (λ p. p.role ≡ Outside) (first ∷ others.items) }
    ensures { ClosesAll (known_of first) (map known_of others.items) result }
{
    let Ok(summary) = room.close_all(first, others) else {
        unreachable!();
    };
    summary
}

/// What the threads of the parts are given.
fn jobs_of(
    alloc: Global,
    parts: &[ThreadPart],
    mut passes: Vec<Pass>,
    turns: u64,
) -> Result<Vec<Job<'_>>, Fault>
    requires passes { length passes.items ≡ length parts.now }
    requires lines { 2 + lines_of_parts parts.now < 2 ^ 64 }
    ensures ok { IfOk result (λ jobs. AreJobsOf turns 2 passes.items parts.now jobs.items) }
    ensures err { IfErr result (λ e. e ≡ Memory) }
{
    let mut jobs = Vec::new(alloc);
    let mut line = FIRST_PART;
    for part in parts {
        if jobs.reserve(1).is_err() {
            return Err(Fault::Memory);
        }
        let pass = passes.remove(0);
        let task = Task {
            first: line + 1,
            turns,
            commands: part.commands.as_slice(),
        };
        jobs.push_reserved(Job { task, pass });
        line += 1 + task.commands.len();
    }
    Ok(jobs)
}

/// A board for the names that the parts post.
fn board_of<Q: Site>(alloc: Global, parts: &[ThreadPart]) -> Result<Posts<PinnedNoteOf<Q>>, Fault>
    ensures ok { IfOk result (λ board. AddsPosted (commands_of parts.now) [] board.numbers.entries) }
    ensures err { IfErr result (λ e. e ≡ Memory) }
{
    let mut board = Posts::new(alloc);
    for part in parts {
        let Ok(()) = board.add(part.commands.as_slice()) else {
            return Err(Fault::Memory);
        };
    }
    Ok(board)
}

/// Runs the threads of a script in a room that was opened for them, and gives what is printed.
fn text_in_room<Q: Site + Send + Sync, R: Threads + Wait, H: Hold + Sync>(
    rt: &R,
    alloc: Global,
    script: &Script,
    hold: &H,
    turns: u64,
    room: Room<LAST_SERIAL>,
    passes: Vec<Pass>,
) -> Result<Vec<u8>, Fault>
    requires script { CanBeRun script.now }
    requires opened { IsOpening 4294967295 script.now.config room passes.items }
    requires site { Some room.row.table.shared.table_id ≡ Q.room }
    ensures ok { IfOk result (λ text. IsRunOfAll turns 4294967295 script.now text.items) }
    ensures err { IfErr result (λ e. e ≡ Memory) }
{
    let parts = script.threads.as_slice();
    let jobs = jobs_of(alloc, parts, passes, turns)?;
    let board = board_of::<Q>(alloc, parts)?;
    let (mut passes, mut text) = run_threads(rt, alloc, &room, &board, hold, parts, jobs)?;
    let first = passes.remove(0);
    let end = ending(alloc, closed(room, first, passes)).map_err(out_of_memory)?;
    text.extend_from_slice(&end).map_err(out_of_memory)?;
    Ok(text)
}

/// Opens a room for the threads of a script, runs them there, and gives what is printed.
fn text_of_all<R: Threads + Wait, H: Hold + Sync>(
    rt: &R,
    alloc: Global,
    script: &Script,
    hold: &H,
    turns: u64,
) -> Result<Vec<u8>, Fault>
    requires { CanBeRun script.now }
    ensures ok { IfOk result (λ text. IsRunOfAll turns 4294967295 script.now text.items) }
    ensures err { IfErr result (λ e. e ≡ Memory) }
{
    let (room, passes) = Room::<LAST_SERIAL>::open(alloc, script.config)?;
    text_in_room::<Brand, R, H>(rt, alloc, script, hold, turns, room, passes)
}

/// Runs the threads of a script side by side, and appends what they print. The hold is called around each command.
///
/// # Errors
///
/// E17 exactly where the script has not one part a thread, sizes outside the limits, a name that is posted twice, or lines without a number of 64 bits;
/// E16 where memory was refused, or a thread could not be started.
///
/// The output is as it was.
pub fn run_all<R: Threads + Wait, H: Hold + Sync>(
    rt: &R,
    alloc: Global,
    script: &Script,
    hold: &H,
    turns: u64,
    out: &mut Vec<u8>,
) -> Result<(), Fault>
    ensures size { (result ≡ Err Size) ↔ (¬ (CanBeRun script.now)) }
    ensures refused { IfErr result (λ e. (e ≡ Size) ⊎ (e ≡ Memory)) }
    ensures ok { OnOk result (RunsAll turns 4294967295 script.now out.old.items out.new.items) }
    ensures err { OnErr result (out.new.items ≡ out.old.items) }
{
    if !can_be_run(script) {
        return Err(Fault::Size);
    }
    let text = text_of_all(rt, alloc, script, hold, turns)?;
    out.extend_from_slice(&text).map_err(out_of_memory)?;
    Ok(())
}
