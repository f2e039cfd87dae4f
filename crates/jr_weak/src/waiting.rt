//! The tries to shut a gate that was announced to be shut.
ghost use Rattle.std.specs.Prelude.{◌≡◌, ◌≤◌, IsOk, IfOk, IfErr};
ghost use Rattle.jr_model.specs.declared.event.Role.TheVariants.{Outside};
ghost use Rattle.jr_steps.specs.Knowing.{CanReopen, IsLone, MayKnow};
ghost use Rattle.jr_gate.specs.Stays.{IsOwnAnnouncement, IsOwnCollection};
ghost use Rattle.jr_weak.specs.Collecting.{GivesUp};
ghost use Rattle.jr_weak.specs.Waiting.{CancelsAfter, ShutsAfter, ShutsAnnounced};

use jr_gate::{Announced, Shut, announce};
use jr_steps::Steps;
use jr_word::Fault;

/// Announces that the gate will be shut, so that nobody is let in any more, and shuts it.
/// It tries so many times to shut it, which is refused while another thread is inside or knocks, and takes the announcement back where the last try is refused, too. It never waits.
/// The thread has to stand outside.
///
/// # Errors
///
/// E14 with how many threads were inside, knocking, announcing or collecting, at least 1, where another thread kept the gate closed already;
/// E23 with two counts of the open gate, where another thread went in or out between the look at it and the announcement;
/// E14 with how many other threads were inside or knocking at the last try, at least 1.
///
/// Nothing has changed then, and the thread stands outside. Over one thread, and over plain words, it is never refused.
///
/// # Operations
///
/// Those of `announce` and one for each try, with none between two tries; and one more where the announcement is taken back.
pub fn shut_announced<S: Steps>(steps: &mut S, tries: u32) -> Result<Shut, Fault>
    requires outside { (S.facts steps.old).stands.role ≡ Outside }
    requires tries { 1 ≤ tries }
    ensures own { IfOk result (λ s. IsOwnCollection s (S.facts steps.new).stands) }
    ensures ok { IfOk result (λ _. ShutsAnnounced S.facts steps.old steps.new tries) }
    ensures closed { IfOk result (λ _. MayKnow S.facts steps.new CanReopen) }
    ensures err { IfErr result (λ e. GivesUp S.facts steps.old steps.new tries e) }
    ensures alone { IsLone (S.facts steps.old).stands → IsOk result }
{
    let announced = announce(steps)?;
    shut_within(steps, announced, tries)
}

/// Shuts the gate as announced, in so many tries at most, and takes the announcement back where all are refused.
///
/// # Errors
///
/// E14 with how many other threads were inside or knocking at the last try.
fn shut_within<S: Steps>(steps: &mut S, announced: Announced, tries: u32) -> Result<Shut, Fault>
    requires own { IsOwnAnnouncement announced (S.facts steps.old).stands }
    requires tries { 1 ≤ tries }
    ensures own { IfOk result (λ s. IsOwnCollection s (S.facts steps.new).stands) }
    ensures ok { IfOk result (λ _. ShutsAfter S.facts steps.old steps.new tries) }
    ensures closed { IfOk result (λ _. MayKnow S.facts steps.new CanReopen) }
    ensures err { IfErr result (λ e. CancelsAfter S.facts steps.old steps.new tries e) }
    ensures alone { IsLone (S.facts steps.old).stands → IsOk result }
{
    let mut announced = announced;
    for _try in 1..tries {
        match announced.shut(steps) {
            Ok(shut) => return Ok(shut),
            Err((back, _busy)) => announced = back,
        }
    }
    match announced.shut(steps) {
        Ok(shut) => Ok(shut),
        Err((back, fault)) => {
            back.cancel(steps);
            Err(fault)
        }
    }
}
