//! The gate while it is shut for a collection.
ghost use Rattle.std.specs.Prelude.{◌≡◌, ◌≤◌, ℕ, [], ◌∷◌, IsOk, IfOk, IfErr};
ghost use Rattle.jr_word.specs.declared.fault.Fault.TheVariants.{Busy};
ghost use Rattle.jr_model.specs.declared.event.Role.TheVariants.{Outside};
ghost use Rattle.jr_model.specs.declared.event.Act.TheVariants.{Gate, ShutBusy};
ghost use Rattle.jr_model.specs.declared.event.GateAct.TheVariants.{Shut as Shuts, Reopen};
ghost use Rattle.jr_steps.specs.Knowing.{anything, keeps, lets_go, IsClosedNow, IsLone, CanReopen, MayKnow, Took};
ghost use Rattle.jr_gate.specs.Stays.{IsOwnCollection};

use jr_steps::Steps;
use jr_word::Fault;

/// A collection, in which the gate is shut. It has to be spent.
pub struct Shut {
    pub(crate) thread: u8,
}

impl Shut {
    /// Opens the gate after the steps' own collection. Own is by the number of the thread and the role of the steps: the collection has their thread's number, and they are collecting.
    /// No present object array may name an absent object, and no move may be unfinished.
    ///
    /// # Operations
    ///
    /// One.
    pub fn reopen<S: Steps>(self, steps: &mut S)
        requires own { IsOwnCollection self (S.facts steps.old).stands }
        requires closed { MayKnow S.facts steps.old CanReopen }
        ensures { Took S.facts steps.old steps.new (Gate Reopen ∷ []) CanReopen lets_go }
    {
        let Shut { thread: _ } = self;
        steps.unbar();
    }
}

/// Shuts the gate for a collection. The thread has to stand outside. Where the gate is shut, no present object array names an absent object, and the pass holds nothing.
/// The collection is the steps' own, by the number of the thread and the role of the steps. Over one thread, and over plain words, it is never refused.
///
/// # Errors
///
/// E14 with how many threads are inside, knocking, announcing or collecting at that one step, at least 1.
///
/// Nothing has changed then, and the thread stands outside.
///
/// # Operations
///
/// One.
pub fn shut_gate<S: Steps>(steps: &mut S) -> Result<Shut, Fault>
    requires { (S.facts steps.old).stands.role ≡ Outside }
    ensures ok { IfOk result (λ s. IsOwnCollection s (S.facts steps.new).stands × Took S.facts steps.old steps.new (Gate Shuts ∷ []) anything (λ j k. IsClosedNow k × lets_go j k)) }
    ensures closed { IfOk result (λ _. MayKnow S.facts steps.new CanReopen) }
    ensures err { IfErr result (λ e. (n : ℕ) × (e ≡ Busy n) × (1 ≤ n) × Took S.facts steps.old steps.new (ShutBusy n ∷ []) anything keeps) }
    ensures alone { IsLone (S.facts steps.old).stands → IsOk result }
{
    match steps.bar() {
        Ok(()) => Ok(Shut {
            thread: steps.thread(),
        }),
        Err(count) => Err(Fault::Busy(count)),
    }
}
