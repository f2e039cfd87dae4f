//! A stressed env makes calls of the env beneath: each try of a call is stressed by itself.

use crate::stressable::Stressable;
use crate::stressed::Stressed;
use jr_env::{
    Explains, Explanation, Handed, LocalFrames, NativeCall, OverEnv, Patience, TellsRefusals,
    TriesCalls,
};
use jr_steps::Steps;
use jr_word::{Fault, Handle};

impl<E, N: OverEnv<E>> OverEnv<E> for Stressed<'_, N> {
    ghost use Rattle.std.proofs.Common.{ap};
    ghost use Rattle.jr_stressed.specs.Stressing.{over_caller};

    ghost env_in = { λ s. N.env_in s.caller.now };

    ghost with_env = { λ s env. over_caller s (N.with_env s.caller.now env) };

    /// The env beneath. Of a call that is made on it nothing is refused, and nothing collects before it.
    fn env(&mut self) -> &mut E {
        self.caller.env()
    }

    ghost reads_back = { λ s env. N.reads_back s.caller.now env };

    ghost puts_back = { λ s. ap (over_caller s) (N.puts_back s.caller.now) };
}

impl<N: TellsRefusals> TellsRefusals for Stressed<'_, N> {
    ghost use Rattle.jr_stressed.specs.Stressing.{Beneath};

    ghost told = { λ old new name words span fault. Beneath (λ a b. N.told a b name words span fault) old new };

    fn tell(&mut self, call: &'static str, handed: Handed, fault: Fault) {
        self.caller.tell(call, handed, fault);
    }
}

impl<N: LocalFrames + Stressable> LocalFrames for Stressed<'_, N> {
    ghost use Rattle.jr_stressed.specs.Stressing.{Beneath, BehindItsTurn};

    ghost opens = { λ old new n answer. Beneath (λ a b. N.opens a b n answer) old new };

    ghost closes = { λ p old new w answer. BehindItsTurn N.collected (λ a b. N.closes p a b w answer) old new };

    fn open_frame(&mut self, capacity: u32) -> Result<(), Fault> {
        self.caller.open_frame(capacity)
    }

    fn close_frame(&mut self, kept: Handle, patience: Patience) -> Result<Option<Handle>, Fault> {
        self.turn();
        self.caller.close_frame(kept, patience)
    }
}

impl<S: Steps, N: TriesCalls<S> + Stressable> TriesCalls<S> for Stressed<'_, N> {
    ghost use Rattle.jr_env.specs.Demands.{Demands};
    ghost use Rattle.jr_stressed.specs.Stressing.{BehindItsTurn, WasStressed};

    ghost approached = { λ old new. BehindItsTurn N.collected N.approached old new };

    ghost tried = { λ old new request answer. WasStressed N.collected N.sizes (λ a b r. N.tried a b request r) (Demands request) old new answer };

    fn approach(&mut self) {
        self.turn();
        self.caller.approach();
    }

    fn attempt<C: NativeCall<S> + Drop>(&mut self, call: C) -> Result<C::Answer, Fault> {
        self.begin(call.demand())?;
        self.caller.attempt(call)
    }
}

impl<N: Explains> Explains for Stressed<'_, N> {
    ghost use Rattle.jr_stressed.specs.Stressing.{Beneath};

    ghost explained = { λ old new w answer. Beneath (λ a b. N.explained a b w answer) old new };

    ghost measured = { λ old new w answer. Beneath (λ a b. N.measured a b w answer) old new };

    ghost thread = { λ s. N.thread s.caller.now };

    fn thread(&self) -> u8 {
        self.caller.thread()
    }

    fn examine(&mut self, handle: Handle) -> Result<Explanation, Fault> {
        self.caller.examine(handle)
    }

    fn measure(&mut self, array: Handle) -> Result<u32, Fault> {
        self.caller.measure(array)
    }
}
