//! Tests of an env that has one thread of a room, which is made here alone.
ghost use Rattle.std.specs.Prelude.{◌≡◌};
ghost use Rattle.jr_model.specs.declared.event.Role.TheVariants.{Outside};

use crate::envs::env_of;
use jr_fixtures::{EnvTest, LAST, next_steps};
use jr_rule::Room;
use jr_steps::Steps;
use jr_word::Config;
use std::alloc::Global;
use std::test::Fail;

/// Runs a test in an env of these steps, of a thread whose pass was not used.
fn run_over<S: Steps + Drop, R, T: EnvTest<R> + Drop>(
    rt: &R,
    alloc: Global,
    steps: S,
    test: T,
) -> Result<(), Fail>
    requires { (S.facts steps).stands.role ≡ Outside }
{
    let mut env = env_of(steps)?;
    test.run(rt, alloc, &mut env)
}

/// Runs a test over a room.
pub(crate) fn in_a_room<T: EnvTest<R> + Drop, R>(
    rt: &R,
    alloc: Global,
    config: Config,
    test: T,
) -> Result<(), Fail> {
    let (room, mut passes) = Room::<LAST>::open(alloc, config)?;
    let steps = next_steps(&room, &mut passes)?;
    run_over(rt, alloc, steps, test)
}
