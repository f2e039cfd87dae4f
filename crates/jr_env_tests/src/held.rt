//! What an env holds, while the env itself is out of reach.
ghost use Rattle.jr_env.specs.Envs.{IsOutside};

use assertions::assert_same;
use jr_env::{Env, NativeInterface};
use jr_fixtures::{made, plain_env};
use jr_gate::enter;
use jr_steps::Steps;
use jr_word::{Config, Fault, Handle};
use std::process::Abort;
use std::test::Fail;

/// What two handles and NULL resolve to in one stay, by what an env held.
fn resolved<S: Steps + Drop>(
    env: Env<S>,
    first: Handle,
    second: Handle,
) -> Result<
    (
        Result<Option<u16>, Fault>,
        Result<Option<u16>, Fault>,
        Option<u16>,
    ),
    Fault,
>
    requires { IsOutside env }
{
    let mut held = env.held;
    let inside = enter(&mut held.steps)?;
    let one = held.resolve(&inside, first);
    let other = held.resolve(&inside, second);
    let null = held.resolve(&inside, Handle::NULL);
    inside.leave(&mut held.steps);
    Ok((one, other, null?))
}

/// Checks what a word resolves to.
fn resolves(
    rt: &impl Abort,
    answer: Result<Option<u16>, Fault>,
    wanted: Result<Option<u16>, Fault>,
) {
    assert_same!(rt; answer, wanted);
}

/// A reference that stands resolves to its object, one that was deleted to none, and NULL to nothing.
fn resolves_references<S: Steps + Drop>(
    rt: &impl Abort,
    env: Result<Env<S>, Fault>,
) -> Result<(), Fail> {
    let mut env = env?;
    let local = env.new_plain()?;
    let global = made(env.new_global_ref(local))?;
    env.delete_local_ref(local)?;
    let (one, other, null) = resolved(env, global, local)?;
    resolves(rt, one, Ok(Some(1)));
    resolves(rt, other, Err(Fault::Stale));
    resolves(rt, Ok(null), Ok(None));
    Ok(())
}

#[test]
fn what_an_env_holds_resolves_references(rt: HostRuntime) -> Result<(), Fail> {
    resolves_references(&rt, plain_env(rt.alloc(), Config::LEAST))
}
