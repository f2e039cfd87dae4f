//! Runs the commands of a thread.

ghost use Rattle.std.specs.Prelude.{◌≡◌, ◌++◌, ◌+◌, ◌<◌, ◌^◌, List, ℕ, [], IfErr, OnOk, MatchOption, Some, None, length};
ghost use Rattle.jr_word.specs.declared.fault.Fault.TheVariants.{Memory};
ghost use Rattle.jr_weak.specs.Markers.{room_of};
ghost use Rattle.jr_env.specs.Collections.{FitsRoom};
ghost use Rattle.jr_env.specs.Envs.{IsOutside};
ghost use Rattle.jr_scripts.specs.Text.{sets, names_set, binding_made as made_to_stand};
ghost use Rattle.jr_scripts.specs.Posting.{talk_of, Keeps};
ghost use Rattle.jr_scripts.specs.Runs.{RanThread, WritesDown};

use crate::advance::advance;
use crate::binding::Binding;
use crate::board::Board;
use crate::commands::regions::end;
use crate::hold::Hold;
use crate::ledger::Ledger;
use crate::names::Names;
use crate::outcome::Outcome;
use crate::printed::printed;
use crate::reply::Reply;
use crate::task::Task;
use crate::words::keep_word;
use jr_env::Env;
use jr_steps::Steps;
use jr_syntax::{Command, Name};
use jr_weak::Marker;
use jr_word::{Fault, Handle};
use std::alloc::{AllocError, Global};

/// The name that a command sets.
fn set_by(command: &Command) -> Option<&Name>
    ensures { MatchOption result (sets command.now ≡ None) (λ name. sets command.now ≡ Some name.now) }
{
    match command {
        Command::Make { name, .. }
        | Command::MakeFrom { name, .. }
        | Command::MakeSized { name, .. }
        | Command::MakeFilled { name, .. }
        | Command::MakeText { name, .. }
        | Command::MakeAt { name, .. } => Some(name),
        _ => None,
    }
}

/// What a command that made something makes its name stand for.
fn binding_made(reply: Reply) -> Option<Binding>
    ensures { result ≡ made_to_stand reply }
{
    match reply {
        Reply::Made(handle) => Some(Binding::Reference(handle.unwrap_or(Handle::NULL))),
        Reply::Copied(buffer) => Some(Binding::Buffer(buffer)),
        _ => None,
    }
}

/// Sets the name of a command that made something.
fn settle(
    names: &mut Names,
    command: &Command,
    answer: Result<Reply, Fault>,
) -> Result<(), AllocError>
    ensures { OnOk result (names.new ≡ names_set command.now answer names.old) }
{
    let Ok(reply) = answer else {
        return Ok(());
    };
    let Some(binding) = binding_made(reply) else {
        return Ok(());
    };
    let Some(name) = set_by(command) else {
        return Ok(());
    };
    names.set(name, binding)
}

/// Writes the line of a command, keeps its word, and sets its name.
fn record(
    ledger: &mut Ledger,
    line: usize,
    command: &Command,
    answer: Result<Reply, Fault>,
    out: &mut Vec<u8>,
) -> Result<(), AllocError>
    ensures { WritesDown line command.now answer ledger.old.names ledger.new.names ledger.old.words.items ledger.new.words.items result out.old.items out.new.items }
{
    let text = printed(ledger.alloc, line, command, &answer)?;
    keep_word(&mut ledger.words, &ledger.names, command, &answer)?;
    settle(&mut ledger.names, command, answer)?;
    out.extend_from_slice(&text)?;
    Ok(())
}

/// Runs the commands of a thread, and appends what they print. A call that is raced or barred is made again, up to `turns` calls in all.
/// The hold is called around each command. The marker, made for the env's room, serves all collections. The thread has to stand outside, and stands there afterwards in any case:
/// a region that stands at the end is ended.
///
/// # Errors
///
/// E16 where memory was refused.
///
/// What the commands that were done have changed stays, and the text has their lines, perhaps but for the last one's.
pub fn run_thread<S: Steps, B: Board<S>, H: Hold>(
    alloc: Global,
    env: &mut Env<S>,
    marker: &mut Marker,
    task: Task<'_>,
    board: &mut B,
    hold: &H,
    out: &mut Vec<u8>,
) -> Result<(), Fault>
    requires lines { task.first + length task.commands.now < 2 ^ 64 }
    requires outside { IsOutside env.old }
    requires room { FitsRoom marker.old env.old }
    requires there { (B.tells board.old).serves (S.facts env.old.held.steps).stands.room }
    requires follows { B.follows board.old [] }
    ensures explained { (text : List ℕ) × (out.new.items ≡ out.old.items ++ text)
        × RanThread env.old env.new (talk_of B.tells B.looked task.entry.turns board.new) task.entry.turns task.entry.first task.entry.commands.now result text }
    ensures kept { Keeps B.layout B.tells board.old board.new }
    ensures outside { IsOutside env.new }
    ensures memory { IfErr result (λ e. e ≡ Memory) }
    ensures room { room_of marker.new ≡ room_of marker.old }
{
    let mut ledger = Ledger::new(alloc);
    let mut region = None;
    for (i, command) in task.commands.iter().enumerate() {
        let line = task.first + i;
        hold.before(env.held.steps.thread(), line);
        let outcome = advance(env, &mut ledger, marker, region, board, task.turns, command);
        let Outcome {
            region: stands,
            answer,
        } = outcome;
        hold.after(env.held.steps.thread(), line, &answer);
        region = stands;
        let Ok(()) = record(&mut ledger, line, command, answer, out) else {
            end(env, region);
            return Err(Fault::Memory);
        };
    }
    end(env, region);
    Ok(())
}
