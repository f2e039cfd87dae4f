//! That no collection comes in a region, as who opens one learns from the clauses of its calls alone.
ghost use Rattle.std.specs.Prelude.{IfOk};
ghost use Rattle.jr_env.specs.Envs.{IsOutside};
ghost use Rattle.jr_env.specs.StandingRegions.{WasUndisturbed};

use crate::envs::TWO;
use assertions::assert_same;
use jr_env::{Env, NativeInterface, levels_beside};
use jr_fixtures::{EnvTest, alone};
use jr_steps::Steps;
use jr_word::{Fault, Handle};
use std::alloc::Global;
use std::process::Abort;
use std::test::Fail;

/// Writes an element in a region of two levels, and reads it. From the entry to the exit no event of any thread is a step of a collection.
fn nests_and_reads<S: Steps>(env: &mut Env<S>, array: Handle) -> Result<i32, Fault>
    ensures { IsOutside env.old → IfOk result (λ _. WasUndisturbed env.old.held env.new.held) }
{
    let mut levels = levels_beside::open_array(env, array)?;
    let nested = levels_beside::nest_array(env, &mut levels, array);
    let written = levels_beside::set(env, &levels, 0, 1, 7i32);
    let read = levels_beside::get::<S, i32>(env, &levels, 0, 1);
    levels_beside::close_all(env, levels);
    nested?;
    written?;
    read
}

/// In such a region it reads what it wrote.
#[derive(Drop)]
struct IsUndisturbed;

impl<R: Abort> EnvTest<R> for IsUndisturbed {
    fn run<S: Steps>(self, rt: &R, _alloc: Global, env: &mut Env<S>) -> Result<(), Fail> {
        let array = env.new_array::<i32>(2)?;
        assert_same!(rt; nests_and_reads(env, array), Ok(7));
        Ok(())
    }
}

#[test]
fn a_region_is_not_disturbed(rt: HostRuntime) -> Result<(), Fail> {
    alone(&rt, rt.alloc(), TWO, IsUndisturbed)
}
