//! The end of a thread: its local references are freed, where it has turns.
ghost use Rattle.std.specs.Prelude.{IfOk};
ghost use Rattle.jr_env.specs.Envs.{IsOutside};

use crate::printing::BEFORE;
use crate::scripts::SIZES;
use assertions::{Text, assert_same};
use jr_env::{Env, NativeInterface};
use jr_model::Summary;
use jr_rule::PlainSteps;
use jr_scripts::{NoHold, Posts, Sightings, Task, run_to_end};
use jr_steps::Steps;
use jr_word::{Fault, Handle};
use std::alloc::Global;
use std::process::Abort;
use std::test::Fail;

/// An env over plain words.
pub(crate) fn plain_env(alloc: Global) -> Result<Env<PlainSteps<2>>, Fail>
    ensures { IfOk result (λ env. IsOutside env) }
{
    let Ok(env) = Env::new(PlainSteps::<2>::new(alloc, SIZES)?) else {
        return Err("a fresh pass was refused")?;
    };
    Ok(env)
}

/// The thread comes to its end without commands, and prints nothing.
fn ends<S: Steps>(rt: &impl Abort, alloc: Global, env: &mut Env<S>, turns: u64) -> Result<(), Fail>
    requires { IsOutside env.old }
    ensures { IsOutside env.new }
{
    let posts = Posts::<()>::new(alloc);
    let mut notes = Sightings::new(alloc, &posts);
    let mut out = Vec::from_slice(alloc, BEFORE)?;
    let task = Task {
        first: 3,
        turns,
        commands: &[],
    };
    run_to_end(alloc, env, task, &mut notes, &NoHold, &mut out)?;
    assert_same!(rt; Text(out.as_slice()), Text(BEFORE));
    Ok(())
}

/// Where it has no turns, a local reference stays.
fn keeps_a_local<S: Steps>(rt: &impl Abort, alloc: Global, env: &mut Env<S>) -> Result<Handle, Fail>
    ensures { IfOk result (λ _. IsOutside env.new) }
{
    let local = env.new_plain()?;
    ends(rt, alloc, env, 0)?;
    assert_same!(rt; env.get_object_ref_type(local), Ok(1));
    Ok(local)
}

/// Where it has one, it is freed.
fn frees_a_local<S: Steps>(
    rt: &impl Abort,
    alloc: Global,
    env: &mut Env<S>,
    local: Handle,
) -> Result<(), Fail>
    requires { IsOutside env.old }
{
    ends(rt, alloc, env, 1)?;
    assert_same!(rt; env.get_object_ref_type(local), Ok(0));
    assert_same!(rt; env.new_local_ref(local), Err(Fault::Stale));
    Ok(())
}

#[test]
fn a_thread_without_turns_keeps_its_locals(rt: HostRuntime) -> Result<(), Fail> {
    let alloc = rt.alloc();
    let mut env = plain_env(alloc)?;
    let local = keeps_a_local(&rt, alloc, &mut env)?;
    let summary = Summary {
        globals: 0,
        weaks: 0,
        live: 1,
        used: 0,
    };
    assert_same!(&rt; env.held.steps.summary(), summary);
    frees_a_local(&rt, alloc, &mut env, local)
}
