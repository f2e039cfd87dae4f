//! What a thread does before steps of another.
ghost use Rattle.std.specs.Prelude.{◌≡◌, All};
ghost use Rattle.jr_model.specs.declared.event.Role.TheVariants.{Outside};
ghost use Rattle.jr_rule.specs.Passes.{IsOpened};

use crate::overtaken::Before;
use jr_fixtures::{LAST, NoPass, next_steps};
use jr_rule::{Pass, Room, RoomSteps};
use jr_steps::{Role, Steps};

/// Before how many steps of its kind a thread has plans.
pub(crate) const PLANS: usize = 4;

/// What a thread does before some steps of another.
#[derive(Clone, Copy, PartialEq, Eq)]
pub(crate) enum Plan {
    /// It comes in, or knocks, where it stands outside, and else it goes out.
    ComeOrGo,
    /// It announces that the gate will be shut, where it stands outside, and else takes the announcement back.
    Announce,
    /// Nothing.
    Rest,
}

/// The steps of a thread that has a plan before each of the first steps of one kind of another, and rests before all others.
#[derive(Drop)]
pub(crate) struct Planned<S: Steps> {
    steps: S,
    kind: Before,
    plans: [Plan; PLANS],
    done: usize,
}

impl<S: Steps> Planned<S> {
    /// Does what it plans before a step of this kind.
    pub(crate) fn act(&mut self, before: Before) {
        if before == self.kind && self.done < PLANS {
            follow(&mut self.steps, self.plans[self.done]);
            self.done += 1;
        }
    }

    /// Takes its announcement back, if it announces.
    pub(crate) fn give_way(&mut self) {
        announce_or_cancel(&mut self.steps);
    }
}

/// Does what a plan says.
fn follow<S: Steps>(steps: &mut S, plan: Plan) {
    match plan {
        Plan::ComeOrGo => come_or_go(steps),
        Plan::Announce => announce_or_cancel(steps),
        Plan::Rest => {}
    }
}

/// Comes in, or knocks, where the thread stands outside, and else goes out.
fn come_or_go<S: Steps>(steps: &mut S) {
    if let Role::Outside = steps.role() {
        steps.go_in();
        return;
    }
    if let Role::Within = steps.role() {
        steps.go_out();
        return;
    }
    if let Role::Knocking = steps.role() {
        steps.go_out();
    }
}

/// Announces, where the thread stands outside, and else takes the announcement back.
fn announce_or_cancel<S: Steps>(steps: &mut S) {
    if let Role::Outside = steps.role() {
        let _ = steps.announce(0);
        return;
    }
    if let Role::Announcing = steps.role() {
        steps.cancel();
    }
}

/// Whether a thread is inside at first, and what it does before the first steps of a kind of another.
#[derive(Clone, Copy)]
pub(crate) struct Neighbour {
    pub(crate) is_inside: bool,
    pub(crate) plans: [Plan; PLANS],
}

/// Steps with what their thread plans, which comes in where it is inside at first.
fn planning<S: Steps>(mut steps: S, kind: Before, neighbour: Neighbour) -> Planned<S>
    requires { (S.facts steps).stands.role ≡ Outside }
{
    let Neighbour { is_inside, plans } = neighbour;
    if is_inside {
        steps.go_in();
    }
    Planned {
        steps,
        kind,
        plans,
        done: 0,
    }
}

/// The steps over the last of the passes, with what their thread plans.
pub(crate) fn with_plans<'a>(
    room: &'a Room<LAST>,
    passes: &mut Vec<Pass>,
    kind: Before,
    neighbour: Neighbour,
) -> Result<Planned<RoomSteps<'a, LAST>>, NoPass>
    requires { All (λ p. IsOpened room.now.row p) passes.old.items }
    ensures { All (λ p. IsOpened room.now.row p) passes.new.items }
{
    let steps = next_steps(room, passes)?;
    Ok(planning(steps, kind, neighbour))
}
