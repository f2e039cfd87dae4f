//! A caller under stress.

ghost use Rattle.std.specs.Prelude.{◌≡◌};
ghost use Rattle.rand_pcg.specs.Pcg.{pcg32};

use crate::plan::Stress;
use crate::stressable::Stressable;
use crate::turns::Turns;
use jr_env::{Demand, NativeCall, NativeCaller};
use jr_steps::Steps;
use jr_weak::Marker;
use jr_word::{Elem, Fault, Handle};

/// A caller under stress: by a plan and its seed it collects before some calls, and refuses some by what they may be refused for. Every other call it answers as the caller beneath does.
#[derive(Drop)]
pub struct Stressed<'e, N> {
    /// Who makes the calls.
    pub caller: &'e mut N,
    /// The memory of its collections.
    pub marker: Marker,
    /// What it does, and how often.
    pub plan: Stress,
    /// How far it has come.
    pub turns: Turns,
}

impl<'e, N> Stressed<'e, N> {
    ghost use Rattle.std.specs.Prelude.{◌≡◌};
    ghost use Rattle.jr_stressed.specs.Drawing.{first_turns};

    /// A caller under stress by a plan, with a marker of its room. With a marker for another number of objects it never collects.
    pub fn new(caller: &'e mut N, marker: Marker, plan: Stress) -> Self
        ensures same_reference { result.caller.ghost_name ≡ caller.entry.ghost_name }
        ensures caller { result.caller.now ≡ caller.old }
        ensures marker { result.marker ≡ marker }
        ensures plan { result.plan ≡ plan }
        ensures turns { result.turns ≡ first_turns plan.seed }
    {
        let turns = Turns::new(plan.seed);
        Stressed {
            caller,
            marker,
            plan,
            turns,
        }
    }

    /// Who makes the calls, and the marker.
    pub fn into_parts(self) -> (&'e mut N, Marker)
        ensures same_reference { result.0.ghost_name ≡ self.entry.caller.ghost_name }
        ensures caller { result.0.now ≡ self.entry.caller.now }
        ensures marker { result.1 ≡ self.entry.marker }
    {
        let Stressed { caller, marker, .. } = self;
        (caller, marker)
    }
}

impl<N: Stressable> Stressed<'_, N> {
    ghost use Rattle.std.specs.Prelude.{IfErr};
    ghost use Rattle.jr_stressed.specs.Refusals.{MachineLists};
    ghost use Rattle.jr_stressed.specs.Stressing.{WasBegun, HasItsTurn};

    /// The turn of a call: the word that is drawn for it. It collects where that has its turn.
    ///
    /// # Operations
    ///
    /// None, or those of a collection.
    pub(crate) fn turn(&mut self) -> u32
        ensures turn { HasItsTurn N.collected self.old self.new }
        ensures word { result ≡ (pcg32 self.old.turns.draws).0 }
    {
        let word = self.turns.next();
        if self.plan.collects_at(self.turns.calls) {
            let _ = self.caller.collect_once(&mut self.marker);
        }
        word
    }

    /// Begins a call that asks for this: its turn, and whether it goes on.
    ///
    /// # Errors
    ///
    /// The refusal that the word chooses: E8, E10, E11, E12 or E13.
    ///
    /// # Operations
    ///
    /// None, or those of a collection.
    pub(crate) fn begin(&mut self, demand: Demand) -> Result<(), Fault>
        ensures begun { WasBegun N.collected N.sizes self.old self.new demand result }
        ensures listed { IfErr result (MachineLists (N.sizes self.new.caller.now) demand) }
    {
        let word = self.turn();
        match self.plan.refusal_drawn(self.caller.sizes(), demand, word) {
            Some(fault) => Err(fault),
            None => Ok(()),
        }
    }
}

impl<S: Steps, N: NativeCaller<S> + Stressable> NativeCaller<S> for Stressed<'_, N> {
    ghost use Rattle.jr_env.specs.Demands.{Demands};
    ghost use Rattle.jr_stressed.specs.Stressing.{WasStressed};

    ghost made = { λ old new request answer. WasStressed N.collected N.sizes (λ a b r. N.made a b request r) (Demands request) old new answer };

    fn make<C: NativeCall<S> + Drop>(&mut self, call: C) -> Result<C::Answer, Fault> {
        self.begin(call.demand())?;
        self.caller.make(call)
    }

    fn copy_part<E: Elem>(
        &mut self,
        array: Handle,
        start: u32,
        elements: &mut [E],
    ) -> Result<(), Fault> {
        self.begin(Demand::Nothing)?;
        self.caller.copy_part(array, start, elements)
    }
}
