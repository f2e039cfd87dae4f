//! The gate while it is announced that it will be shut.
ghost use Rattle.std.specs.Prelude.{◌≡◌, ◌≤◌, ℕ, true, [], ◌∷◌, IsOk, IfOk, IfErr};
ghost use Rattle.jr_word.specs.declared.fault.Fault.TheVariants.{Busy};
ghost use Rattle.jr_word.specs.declared.gate.GateState.TheVariants.{Open};
ghost use Rattle.jr_model.specs.declared.event.Role.TheVariants.{Outside};
ghost use Rattle.jr_model.specs.declared.event.Act.TheVariants.{Gate, Meet, ShutBusy};
ghost use Rattle.jr_model.specs.declared.event.GateAct.TheVariants.{Announce, Cancel, Shut as Shuts};
ghost use Rattle.jr_steps.specs.Acts.{all_counted, is_closed};
ghost use Rattle.jr_steps.specs.Knowing.{anything, keeps, lets_go, CanReopen, IsClosedNow, IsLone, MayKnow, Took};
ghost use Rattle.jr_gate.specs.Acting.{ActedTo};
ghost use Rattle.jr_gate.specs.Announcing.{AnnouncesInTwo, WasNotAnnounced};
ghost use Rattle.jr_gate.specs.Stays.{IsOwnAnnouncement, IsOwnCollection};

use crate::shut::Shut;
use jr_steps::{GateLoad, Steps};
use jr_word::{Fault, GateParts, GateState};

/// An announcement that the gate will be shut for a collection: nobody is let in any more, and those inside may go on and leave. It has to be spent.
pub struct Announced {
    thread: u8,
}

impl Announced {
    /// Shuts the gate, by the steps' own announcement. Own is by the number of the thread and the role of the steps: the announcement has their thread's number, and they are announcing.
    /// Where the gate is shut, no present object array names an absent object, and the pass holds nothing. Over one thread, and over plain words, it is never refused.
    ///
    /// # Errors
    ///
    /// E14 with how many other threads are inside or knocking at that one step, at least 1, and the announcement.
    /// Who they are the law `announcers_count_who_is_inside` of `jr_model` says of the refused shut.
    ///
    /// Nothing has changed then: the announcement stands.
    ///
    /// # Operations
    ///
    /// One.
    pub fn shut<S: Steps>(self, steps: &mut S) -> Result<Shut, (Announced, Fault)>
        requires { IsOwnAnnouncement self (S.facts steps.old).stands }
        ensures ok { IfOk result (λ s. IsOwnCollection s (S.facts steps.new).stands × Took S.facts steps.old steps.new (Gate Shuts ∷ []) anything (λ j k. IsClosedNow k × lets_go j k)) }
        ensures closed { IfOk result (λ _. MayKnow S.facts steps.new CanReopen) }
        ensures err { IfErr result (λ r. IsOwnAnnouncement r.0 (S.facts steps.new).stands × ((n : ℕ) × (r.1 ≡ Busy n) × (1 ≤ n) × Took S.facts steps.old steps.new (ShutBusy n ∷ []) anything keeps)) }
        ensures alone { IsLone (S.facts steps.old).stands → IsOk result }
    {
        match steps.bar_announced() {
            Ok(()) => {
                let Announced { thread } = self;
                Ok(Shut { thread })
            }
            Err(count) => Err((self, Fault::Busy(count))),
        }
    }

    /// Takes the steps' own announcement back: others are let in again. Own is by the number of the thread and the role of the steps. The thread stands outside then, and its pass holds nothing.
    ///
    /// # Operations
    ///
    /// One.
    pub fn cancel<S: Steps>(self, steps: &mut S)
        requires { IsOwnAnnouncement self (S.facts steps.old).stands }
        ensures { Took S.facts steps.old steps.new (Gate Cancel ∷ []) anything lets_go }
    {
        let Announced { thread: _ } = self;
        steps.cancel();
    }
}

/// Announces that the gate will be shut for a collection. The thread has to stand outside.
/// From then on nobody is let in, and who is inside may go on, nest levels of its critical region, and leave (the laws `nobody_enters_an_announced_gate` and `announced_gates_only_empty` of
/// `jr_model`, of every history that these calls leave). The announcement is the steps' own, by the number of the thread and the role of the steps.
/// Over one thread, and over plain words, it is never refused.
///
/// # Errors
///
/// E14 with how many threads are inside, knocking, announcing or collecting, at least 1, where another thread keeps the gate closed, at the look or at the exchange;
/// E23 with the word of the gate at the look and at the exchange, where it was open at both and another thread went in or out between them.
///
/// Nothing has changed then, and the thread stands outside.
///
/// # Operations
///
/// Two, a look and an exchange; one where the look finds the gate closed.
pub fn announce<S: Steps>(steps: &mut S) -> Result<Announced, Fault>
    requires { (S.facts steps.old).stands.role ≡ Outside }
    ensures ok { IfOk result (λ a. IsOwnAnnouncement a (S.facts steps.new).stands × ActedTo S.facts steps.old steps.new (Meet ∷ Gate Announce ∷ []) anything AnnouncesInTwo) }
    ensures err { IfErr result (λ e. WasNotAnnounced S.facts steps.old steps.new e) }
    ensures alone { IsLone (S.facts steps.old).stands → IsOk result }
{
    let looked = open_count(steps.see_gate(GateLoad::Busy))?;
    if let Err(found) = steps.announce(looked) {
        let found = open_count(found)?;
        return Err(Fault::Moved(u32::from(looked), u32::from(found)));
    }
    Ok(Announced {
        thread: steps.thread(),
    })
}

/// What an open gate counts.
///
/// # Errors
///
/// E14 with how many threads are not outside, where it is closed.
fn open_count(parts: GateParts) -> Result<u16, Fault>
    ensures ok { IfOk result (λ n. parts ≡ record { count = n; state = Open }) }
    ensures err { IfErr result (λ e. (is_closed parts.state ≡ true) × (e ≡ Busy (all_counted parts))) }
{
    match parts.state {
        GateState::Open => Ok(parts.count),
        _ => Err(Fault::Busy(u32::from(parts.count) + 1)),
    }
}
