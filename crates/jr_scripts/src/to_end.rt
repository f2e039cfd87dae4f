//! Runs the commands of a thread, and what comes at its end.

ghost use Rattle.std.specs.Prelude.{◌≡◌, ◌++◌, ◌+◌, ◌<◌, ◌^◌, List, ℕ, [], IfErr, length};
ghost use Rattle.jr_word.specs.declared.fault.Fault.TheVariants.{Memory};
ghost use Rattle.jr_env.specs.Envs.{IsOutside};
ghost use Rattle.jr_scripts.specs.Posting.{talk_of, Keeps};
ghost use Rattle.jr_scripts.specs.Runs.{RanThread, RanToEnd};

use crate::ask::retry;
use crate::board::Board;
use crate::hold::Hold;
use crate::run::run_thread;
use crate::task::Task;
use jr_env::Env;
use jr_env::calls::FreeLocals;
use jr_steps::Steps;
use jr_weak::Marker;
use jr_word::Fault;
use std::alloc::Global;

/// Runs the commands of a thread as `run_thread` does, with a marker that it makes before the first of them.
fn run_with_marker<S: Steps, B: Board<S>, H: Hold>(
    alloc: Global,
    env: &mut Env<S>,
    task: Task<'_>,
    board: &mut B,
    hold: &H,
    out: &mut Vec<u8>,
) -> Result<(), Fault>
    requires lines { task.first + length task.commands.now < 2 ^ 64 }
    requires outside { IsOutside env.old }
    requires there { (B.tells board.old).serves (S.facts env.old.held.steps).stands.room }
    requires follows { B.follows board.old [] }
    ensures explained { (text : List ℕ) × (out.new.items ≡ out.old.items ++ text)
        × RanThread env.old env.new (talk_of B.tells B.looked task.entry.turns board.new) task.entry.turns task.entry.first task.entry.commands.now result text }
    ensures kept { Keeps B.layout B.tells board.old board.new }
    ensures outside { IsOutside env.new }
    ensures memory { IfErr result (λ e. e ≡ Memory) }
{
    let Ok(mut marker) = Marker::new(alloc, env.held.steps.config()) else {
        return Err(Fault::Memory);
    };
    run_thread(alloc, env, &mut marker, task, board, hold, out)
}

/// Runs the commands of a thread as `run_thread` does, with a marker of its own, and then frees its local references, whatever the commands answered: as at the end of a native method.
/// Where the turns run out, they stay.
///
/// # Errors
///
/// E16 where memory was refused, also for the marker.
///
/// What the commands that were done have changed stays but for the local references, and the text has their lines, perhaps but for the last one's.
pub fn run_to_end<S: Steps, B: Board<S>, H: Hold>(
    alloc: Global,
    env: &mut Env<S>,
    task: Task<'_>,
    board: &mut B,
    hold: &H,
    out: &mut Vec<u8>,
) -> Result<(), Fault>
    requires lines { task.first + length task.commands.now < 2 ^ 64 }
    requires outside { IsOutside env.old }
    requires there { (B.tells board.old).serves (S.facts env.old.held.steps).stands.room }
    requires follows { B.follows board.old [] }
    ensures ended { (text : List ℕ) × (out.new.items ≡ out.old.items ++ text)
        × RanToEnd env.old env.new (talk_of B.tells B.looked task.entry.turns board.new) task.entry.turns task.entry.first task.entry.commands.now result text }
    ensures kept { Keeps B.layout B.tells board.old board.new }
    ensures outside { IsOutside env.new }
    ensures memory { IfErr result (λ e. e ≡ Memory) }
{
    let answer = run_with_marker(alloc, env, task, board, hold, out);
    let _ = retry(env, task.turns, FreeLocals);
    answer
}
