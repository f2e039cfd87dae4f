//! Runs a script of one thread.

ghost use Rattle.std.specs.Prelude.{◌≡◌, ◌⊎◌, ◌↔◌, ◌∷◌, [], true, IfOk, IfErr, OnOk, OnErr, Err};
ghost use Rattle.jr_word.specs.declared.fault.Fault.TheVariants.{Memory, Size};
ghost use Rattle.jr_word.specs.Config.{in_limits};
ghost use Rattle.jr_syntax.specs.Script.{all_apart, posts_of};
ghost use Rattle.jr_scripts.specs.Meaning.{MeansText};
ghost use Rattle.jr_scripts.specs.Runs.{IsRun, IsSingle, RunsSingle};

use crate::hold::NoHold;
use crate::nobody::Nobody;
use crate::opening::opened_env;
use crate::printed::{ending, heading};
use crate::task::Task;
use crate::to_end::run_to_end;
use jr_rule::PlainSteps;
use jr_syntax::{Script, ThreadPart};
use jr_word::{Config, Fault, LAST_SERIAL};
use std::alloc::{AllocError, Global};

/// The line of a script on which the first command of its first thread stands.
const FIRST_COMMAND: usize = 3;

/// A growth was refused.
fn out_of_memory(_: AllocError) -> Fault
    ensures { result ≡ Memory }
{
    Fault::Memory
}

/// Runs the part of the one thread, and gives what is printed.
fn run_part(alloc: Global, config: Config, part: &ThreadPart, turns: u64) -> Result<Vec<u8>, Fault>
    requires one { config.threads ≡ 1 }
    requires limits { in_limits config ≡ true }
    requires once { all_apart (posts_of (part.now ∷ [])) ≡ true }
    ensures ok { IfOk result (λ text. IsRun turns 4294967295 config part.now text.items) }
    ensures means { IfOk result (λ text. MeansText turns 4294967295 config part.now text.items) }
    ensures err { IfErr result (λ e. e ≡ Memory) }
{
    let mut text = heading(alloc, &part.name).map_err(out_of_memory)?;
    let steps = PlainSteps::<LAST_SERIAL>::new(alloc, config)?;
    let mut env = opened_env(steps);
    let task = Task {
        first: FIRST_COMMAND,
        turns,
        commands: part.commands.as_slice(),
    };
    run_to_end(alloc, &mut env, task, &mut Nobody, &NoHold, &mut text)?;
    let summary = env.held.steps.summary();
    let end = ending(alloc, summary).map_err(out_of_memory)?;
    text.extend_from_slice(&end).map_err(out_of_memory)?;
    Ok(text)
}

/// Runs a script of one thread, and appends what it prints. A call that is raced or barred is made again, up to `turns` calls in all.
///
/// # Errors
///
/// E17 exactly where the script has not one thread, sizes outside the limits, or a name that is posted twice; E16 where memory was refused.
///
/// The output is as it was.
pub fn run_one(alloc: Global, script: &Script, turns: u64, out: &mut Vec<u8>) -> Result<(), Fault>
    ensures size { (result ≡ Err Size) ↔ (¬ (IsSingle script.now)) }
    ensures memory { IfErr result (λ e. (e ≡ Size) ⊎ (e ≡ Memory)) }
    ensures ok { OnOk result (RunsSingle turns 4294967295 script.now out.old.items out.new.items) }
    ensures err { OnErr result (out.new.items ≡ out.old.items) }
{
    let [part] = script.threads.as_slice() else {
        return Err(Fault::Size);
    };
    let config = script.config;
    if config.threads != 1 || !config.in_limits() || !script.posts_once() {
        return Err(Fault::Size);
    }
    let text = run_part(alloc, config, part, turns)?;
    out.extend_from_slice(&text).map_err(out_of_memory)?;
    Ok(())
}
