//! The env of a thread whose pass is as it was opened.

ghost use Rattle.std.specs.Prelude.{◌≡◌, true};
ghost use Rattle.jr_model.specs.declared.event.Role.TheVariants.{Outside};
ghost use Rattle.jr_model.specs.Frames.{fresh_frames};
ghost use Rattle.jr_steps.specs.Knowing.{Spent};
ghost use Rattle.jr_env.specs.Envs.{IsOutside};

use jr_env::Env;
use jr_steps::Steps;

/// The env over a fresh pass, which is spent.
pub(crate) fn opened_env<S: Steps + Drop>(steps: S) -> Env<S>
    requires outside { (S.facts steps).stands.role ≡ Outside }
    requires fresh { (S.facts steps).stands.fresh ≡ true }
    ensures steps { Spent S.facts steps result.held.steps }
    ensures outside { IsOutside result }
    ensures frames { result.held.frames.frames ≡ fresh_frames (S.facts steps).stands.config.locals }
{
    let Ok(env) = Env::new(steps) else {
        unreachable!();
    };
    env
}
