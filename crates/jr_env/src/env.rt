//! A thread's env: how it is made over a fresh pass, and how the pass comes back.
ghost use Rattle.jr_env.specs.Calling.{CanCall};

use crate::calls::array_parts::copy_out;
use crate::native_call::{NativeCall, NativeCaller};
use crate::work::outside;
use jr_frames::{Frames, Held};
use jr_gate::enter;
use jr_heap::Numbers;
use jr_steps::Steps;
use jr_word::{Elem, Fault, Handle};

/// A thread's steps and its local references. The thread is outside the gate, or within where a region stands, and its pass is not fresh.
#[derive(Drop)]
pub struct Env<S: Steps> {
    /// The thread's steps and its local references.
    pub held: Held<S>,
    /// Where it looks for the number of its next object.
    pub(crate) numbers: Numbers,
    ghost ready: { CanCall (S.facts held.steps).stands },
}

impl<S: Steps> Env<S> {
    ghost use Rattle.std.specs.Prelude.{◌≡◌, ◌≢◌, [], ◌∷◌, true, false, IfOk, IfErr};
    ghost use Rattle.jr_word.specs.declared.fault.Fault.TheVariants.{NotFresh};
    ghost use Rattle.jr_model.specs.declared.event.Act.TheVariants.{Gate};
    ghost use Rattle.jr_model.specs.declared.event.GateAct.TheVariants.{Leave};
    ghost use Rattle.jr_model.specs.declared.event.Role.TheVariants.{Outside};
    ghost use Rattle.jr_model.specs.Frames.{fresh_frames};
    ghost use Rattle.jr_steps.specs.Knowing.{Spent, Took, anything, lets_go};
    ghost use Rattle.jr_env.specs.Envs.{IsOutside};

    /// The env of a thread, with one base frame, over a pass that is fresh, which is spent. The thread has to stand outside.
    ///
    /// # Errors
    ///
    /// E21 where the pass is not fresh.
    ///
    /// The steps are handed back as they were.
    ///
    /// # Operations
    ///
    /// None.
    pub fn new(mut steps: S) -> Result<Self, (S, Fault)>
        requires { (S.facts steps).stands.role ≡ Outside }
        ensures fresh { IfOk result (λ _. (S.facts steps).stands.fresh ≡ true) }
        ensures steps { IfOk result (λ env. Spent S.facts steps env.held.steps) }
        ensures frames { IfOk result (λ env. env.held.frames.frames ≡ fresh_frames (S.facts steps).stands.config.locals) }
        ensures outside { IfOk result (λ env. IsOutside env) }
        ensures err { IfErr result (λ e. ((S.facts steps).stands.fresh ≡ false) × (e ≡ (steps, NotFresh))) }
    {
        if !steps.fresh() {
            return Err((steps, Fault::NotFresh));
        }
        steps.spend();
        let config = steps.config();
        let frames = Frames::new(steps.thread(), &config, steps.last());
        let numbers = Numbers::new();
        let held = Held { steps, frames };
        Ok(Env { held, numbers })
    }

    /// The steps, whose pass is not fresh, so that no second env is made over it. Local references that stand stay in the row.
    ///
    /// # Operations
    ///
    /// None where the thread stands outside. A stay that a region left is ended first, by one, the exit.
    pub fn into_pass(self) -> S
        ensures steps { IsOutside self → result ≡ self.held.steps }
        ensures left { (S.facts self.held.steps).stands.role ≢ Outside → Took S.facts self.held.steps result (Gate Leave ∷ []) anything lets_go }
        ensures outside { (S.facts result).stands.role ≡ Outside }
        ensures spent { (S.facts result).stands.fresh ≡ false }
    {
        let Env { mut held, .. } = self;
        outside(&mut held);
        let Held { steps, frames: _ } = held;
        steps
    }
}

impl<S: Steps> NativeCaller<S> for Env<S> {
    ghost use Rattle.jr_env.specs.Envs.{Does};
    ghost use Rattle.jr_env.specs.Deeds.{whole};

    ghost made = { λ old new request answer. Does old new (whole request) answer };

    #[inline(always)]
    fn make<C: NativeCall<S> + Drop>(&mut self, call: C) -> Result<C::Answer, Fault> {
        let held = &mut self.held;
        outside(held);
        let inside = enter(&mut held.steps)?;
        let answer = call.work(
            &mut held.steps,
            &inside,
            &mut held.frames,
            &mut self.numbers,
        );
        // An exit in each arm: a call that answers keeps no refusal until it has left.
        match answer {
            Ok(answer) => {
                inside.leave(&mut held.steps);
                Ok(answer)
            }
            Err(fault) => {
                inside.leave(&mut held.steps);
                Err(fault)
            }
        }
    }

    fn copy_part<E: Elem>(
        &mut self,
        array: Handle,
        start: u32,
        elements: &mut [E],
    ) -> Result<(), Fault> {
        copy_out(&mut self.held, array, start, elements)
    }
}
