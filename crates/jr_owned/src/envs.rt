//! Envs without a lifetime: one for each thread of a room that its threads own.
ghost use Rattle.std.specs.Prelude.{◌≡◌, ◌⊎◌, ◌↔◌, All, true, false, Err, IfOk, IfErr};
ghost use Rattle.std.specs.List.{AllZip};
ghost use Rattle.jr_word.specs.declared.fault.Fault.TheVariants.{Memory, Size};
ghost use Rattle.jr_word.specs.Config.{in_limits};
ghost use Rattle.jr_model.specs.declared.event.Role.TheVariants.{Outside};
ghost use Rattle.jr_owned.specs.Owners.{AreEnvsOpened, IsEnvOver};

use crate::owned::{OwnedSteps, open_owned};
use jr_env::Env;
use jr_steps::Steps;
use jr_word::{Config, Fault};
use std::alloc::{AllocError, Global};

/// The env of a thread that owns its room together with others. It has no lifetime: it may be moved into a thread that was spawned, or kept in a table.
pub type OwnedEnv = Env<OwnedSteps>;

/// The env over these steps, which are fresh, and whose thread stands outside.
pub(crate) fn env_over<S: Steps + Drop>(steps: S) -> Env<S>
    requires outside { (S.facts steps).stands.role ≡ Outside }
    requires fresh { (S.facts steps).stands.fresh ≡ true }
    ensures { IsEnvOver steps result }
{
    let Ok(env) = Env::new(steps) else {
        unreachable!();
    };
    env
}

/// The env over each of these steps, in the same order.
fn over_each<S: Steps + Drop>(alloc: Global, owners: Vec<S>) -> Result<Vec<Env<S>>, AllocError>
    requires { All (λ s. ((S.facts s).stands.role ≡ Outside) × ((S.facts s).stands.fresh ≡ true)) owners.items }
    ensures { IfOk result (λ r. AllZip IsEnvOver owners.items r.items) }
{
    let mut envs = Vec::with_capacity(alloc, owners.len())?;
    for steps in owners {
        envs.push(env_over(steps))?;
    }
    Ok(envs)
}

/// Opens a room of these sizes, which its threads own together, and hands out the env of each:
/// at each place that of the thread of that number, which stands outside, has one base frame, and has seen nothing yet. The room is freed with the last of them.
///
/// # Errors
///
/// E17 exactly where the sizes are beyond their limits; E16 where memory was refused.
pub fn open_envs(alloc: Global, config: Config) -> Result<Vec<OwnedEnv>, Fault>
    ensures size { (result ≡ Err Size) ↔ (in_limits config ≡ false) }
    ensures memory { IfErr result (λ e. (e ≡ Size) ⊎ (e ≡ Memory)) }
    ensures opened { IfOk result (λ r. AreEnvsOpened config r.items) }
{
    let owners = open_owned(alloc, config)?;
    let Ok(envs) = over_each(alloc, owners) else {
        return Err(Fault::Memory);
    };
    Ok(envs)
}
