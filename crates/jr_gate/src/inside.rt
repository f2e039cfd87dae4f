//! Stays inside the gate.
ghost use Rattle.std.specs.Prelude.{◌≡◌, [], ◌∷◌, IsOk, IfOk, IfErr};
ghost use Rattle.jr_word.specs.declared.fault.Fault.TheVariants.{Barred};
ghost use Rattle.jr_model.specs.declared.event.Role.TheVariants.{Outside};
ghost use Rattle.jr_model.specs.declared.event.Act.TheVariants.{Gate};
ghost use Rattle.jr_model.specs.declared.event.GateAct.TheVariants.{Enter, Knock, Leave, Withdraw};
ghost use Rattle.jr_steps.specs.Knowing.{anything, keeps, lets_go, IsLone, Took};
ghost use Rattle.jr_gate.specs.Acting.{ActedTo, LetsGoInTwo};
ghost use Rattle.jr_gate.specs.Stays.{IsOwnStay};

use jr_steps::Steps;
use jr_word::Fault;

/// A stay inside the gate. It has to be spent.
pub struct Inside {
    thread: u8,
}

impl Inside {
    /// Ends the steps' own stay. Own is by the number of the thread and the role of the steps: the stay has their thread's number, and they are within. What the pass held ends with the stay.
    ///
    /// # Operations
    ///
    /// One.
    #[inline(always)]
    pub fn leave<S: Steps>(self, steps: &mut S)
        requires { IsOwnStay self (S.facts steps.old).stands }
        ensures { Took S.facts steps.old steps.new (Gate Leave ∷ []) anything lets_go }
    {
        let Inside { thread: _ } = self;
        steps.go_out();
    }
}

/// Enters the gate. The thread has to stand outside. The stay is the steps' own, by the number of the thread and the role of the steps. Over one thread, and over plain words, it is never refused.
///
/// # Errors
///
/// E13 where a thread was collecting at the entry step, or had announced that it would.
///
/// The knock is withdrawn: the thread stands outside, and its pass holds nothing.
///
/// # Operations
///
/// One, the entry. Where it is refused, two: the knock and its withdrawal.
#[inline(always)]
pub fn enter<S: Steps>(steps: &mut S) -> Result<Inside, Fault>
    requires { (S.facts steps.old).stands.role ≡ Outside }
    ensures ok { IfOk result (λ i. IsOwnStay i (S.facts steps.new).stands × Took S.facts steps.old steps.new (Gate Enter ∷ []) anything keeps) }
    ensures err { IfErr result (λ e. (e ≡ Barred) × ActedTo S.facts steps.old steps.new (Gate Knock ∷ Gate Withdraw ∷ []) anything LetsGoInTwo) }
    ensures alone { IsLone (S.facts steps.old).stands → IsOk result }
{
    if steps.go_in() {
        return Ok(Inside {
            thread: steps.thread(),
        });
    }
    steps.go_out();
    Err(Fault::Barred)
}
