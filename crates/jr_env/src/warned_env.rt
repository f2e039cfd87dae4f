//! A warned env makes the other calls of the env beneath: each try of a call warns by itself.

use crate::env::Env;
use crate::native_call::{Handed, NativeCall, NativeCaller};
use crate::native_env::{OverEnv, TellsRefusals, TriesCalls};
use crate::patience::Patience;
use crate::scope::LocalFrames;
use crate::warned::{Warned, Warner};
use jr_steps::Steps;
use jr_word::{Fault, Handle};

impl<S: Steps, W> OverEnv<Env<S>> for Warned<'_, S, W> {
    ghost use Rattle.std.proofs.Common.{refl};
    ghost use Rattle.jr_env.specs.Warning.{over_env};

    ghost env_in = { λ warned. warned.env.now };

    ghost with_env = { λ warned left. over_env warned left };

    /// The env beneath. Of a call that is made on it nobody is warned.
    #[inline(always)]
    fn env(&mut self) -> &mut Env<S> {
        self.env
    }

    ghost reads_back = { λ warned left. refl };

    ghost puts_back = { λ warned. refl };
}

impl<S: Steps, W> TellsRefusals for Warned<'_, S, W> {
    ghost use Rattle.std.specs.Prelude.{◌≡◌};

    ghost told = { λ old new name words span fault. new ≡ old };

    #[inline(always)]
    fn tell(&mut self, _call: &'static str, _handed: Handed, _fault: Fault) {}
}

impl<S: Steps, W: Warner> LocalFrames for Warned<'_, S, W> {
    ghost use Rattle.std.specs.Prelude.{codes};
    ghost use Rattle.jr_env.specs.Deeds.{pop_local_frame, push_local_frame};
    ghost use Rattle.jr_env.specs.Envs.{Does};
    ghost use Rattle.jr_env.specs.Tries.{made_again};
    ghost use Rattle.jr_env.specs.Warning.{ActsUnwarned, TellsOfLocals};

    ghost opens = { λ old new n answer. ActsUnwarned (λ before behind. Does before behind (push_local_frame n) answer) old new };

    ghost closes = { λ p old new w answer. TellsOfLocals W.warns
        (ActsUnwarned (λ before behind. Does before behind (made_again p.waits_for_room p.more (pop_local_frame w)) answer)) (codes "PopLocalFrame") old new };

    fn open_frame(&mut self, capacity: u32) -> Result<(), Fault> {
        self.env.open_frame(capacity)
    }

    fn close_frame(&mut self, kept: Handle, patience: Patience) -> Result<Option<Handle>, Fault> {
        let before = self.env.locals_left();
        let answer = self.env.close_frame(kept, patience);
        self.warn_of_locals("PopLocalFrame", before);
        answer
    }
}

impl<S: Steps, W: Warner> TriesCalls<S> for Warned<'_, S, W> {
    ghost use Rattle.std.specs.Prelude.{◌≡◌};
    ghost use Rattle.jr_env.specs.Warning.{WasWarned};

    ghost approached = { λ old new. new ≡ old };

    ghost tried = { λ old new request answer. WasWarned W.warns old new request answer };

    #[inline(always)]
    fn attempt<C: NativeCall<S> + Drop>(&mut self, call: C) -> Result<C::Answer, Fault> {
        self.make(call)
    }

    #[inline(always)]
    fn approach(&mut self) {}
}
