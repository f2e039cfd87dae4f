//! What is shown of a thread that others overtake in a room, in one function that makes the room and all in it: steps over a room are dear to prove.
ghost use Rattle.std.specs.Prelude.{◌≡◌, All, IfOk};
ghost use Rattle.jr_model.specs.declared.event.Role.TheVariants.{Outside};
ghost use Rattle.jr_rule.specs.Passes.{IsOpened};

use crate::announced::{answers, is_closed_between, is_moved};
use crate::envs::{env_of, leaves};
use crate::overtaken::{Before, Others, Overtaken, is_overtaken, with_others};
use crate::plans::{Neighbour, Planned, with_plans};
use jr_env::Env;
use jr_fixtures::{LAST, NoPass, next_env, next_steps};
use jr_model::Summary;
use jr_rule::{Parts, Pass, Room, RoomSteps, StepsOver};
use jr_steps::Steps;
use jr_weak::Collected;
use jr_word::{Config, Fault};
use std::alloc::Global;
use std::process::Abort;
use std::test::Fail;

/// Who overtakes the thread.
#[derive(Clone, Copy)]
pub(crate) enum By {
    /// One who makes arrays.
    Maker,
    /// Two who come and go, or announce, before its steps of this kind.
    Both(Before, Neighbour, Neighbour),
}

/// What is shown: the function of like name says it.
#[derive(Clone, Copy)]
pub(crate) enum Shown {
    IsOvertaken,
    IsMoved,
    IsClosedBetween,
    /// What an announced collection of so many tries answers.
    Answers(u32, Result<Collected, Fault>),
}

/// Two threads that plan, where there is a pass for each.
fn both_plan<U: Steps + Drop>(
    first: Result<Planned<U>, NoPass>,
    second: Result<Planned<U>, NoPass>,
) -> Result<Others<U>, NoPass> {
    let first = first?;
    let second = second?;
    Ok(Others::Planners(first, second))
}

/// Who else is in the room.
fn others<'a>(
    room: &'a Room<LAST>,
    passes: &mut Vec<Pass>,
    by: By,
) -> Result<Others<RoomSteps<'a, LAST>>, NoPass>
    requires { All (λ p. IsOpened room.now.row p) passes.old.items }
    ensures { All (λ p. IsOpened room.now.row p) passes.new.items }
{
    match by {
        By::Maker => Ok(Others::Maker(next_env(room, passes)?, 3)),
        By::Both(kind, first, second) => {
            let first = with_plans(room, passes, kind, first);
            let second = with_plans(room, passes, kind, second);
            both_plan(first, second)
        }
    }
}

/// Shows it over an env in which nothing was done.
fn shows<C: Parts<P>, P: Copy, U: Steps>(
    rt: &impl Abort,
    alloc: Global,
    env: &mut Env<StepsOver<Overtaken<C, U>, P>>,
    shown: Shown,
) -> Result<(), Fail> {
    match shown {
        Shown::IsOvertaken => is_overtaken(rt, env),
        Shown::IsMoved => is_moved(rt, alloc, env),
        Shown::IsClosedBetween => is_closed_between(rt, alloc, env),
        Shown::Answers(tries, wanted) => answers(rt, alloc, env, tries, wanted),
    }
}

/// Shows it over an env of a thread that the others overtake, where there is a pass for each.
fn shows_overtaken<C: Parts<P> + Drop, P: Copy, U: Steps + Drop>(
    rt: &impl Abort,
    alloc: Global,
    steps: Result<StepsOver<C, P>, NoPass>,
    others: Result<Others<U>, NoPass>,
    shown: Shown,
) -> Result<(), Fail>
    requires { IfOk steps (λ s. s.role ≡ Outside) }
{
    let steps = steps?;
    let others = others?;
    let mut env = env_of(with_others(steps, others))?;
    shows(rt, alloc, &mut env, shown)
}

/// Shows it over a room of these sizes, and then, where nobody is left inside, what stands in the room.
pub(crate) fn overtakes(
    rt: &impl Abort,
    alloc: Global,
    config: Config,
    by: By,
    shown: Shown,
    left: Option<Summary>,
) -> Result<(), Fail> {
    let (room, mut passes) = Room::<LAST>::open(alloc, config)?;
    let others = others(&room, &mut passes, by);
    let steps = next_steps(&room, &mut passes);
    shows_overtaken(rt, alloc, steps, others, shown)?;
    if let Some(summary) = left {
        leaves(rt, room, passes, summary);
    }
    Ok(())
}
