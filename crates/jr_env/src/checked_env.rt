//! A checked env makes calls of the env beneath: each refusal is told to its watcher.

use crate::checked::{Checked, Explains, Watcher};
use crate::native_call::{Handed, NativeCall};
use crate::native_env::{OverEnv, TellsRefusals, TriesCalls};
use crate::patience::Patience;
use crate::scope::LocalFrames;
use jr_steps::Steps;
use jr_word::{Fault, Handle};

impl<E, N: OverEnv<E>, W> OverEnv<E> for Checked<'_, N, W> {
    ghost use Rattle.std.proofs.Common.{ap};
    ghost use Rattle.jr_env.specs.Watching.{with_caller};

    ghost env_in = { λ checked. N.env_in checked.caller.now };

    ghost with_env = { λ checked left. with_caller checked (N.with_env checked.caller.now left) };

    #[inline(always)]
    fn env(&mut self) -> &mut E {
        self.caller.env()
    }

    ghost reads_back = { λ checked left. N.reads_back checked.caller.now left };

    ghost puts_back = { λ checked. ap (with_caller checked) (N.puts_back checked.caller.now) };
}

impl<N: TellsRefusals + Explains, W: Watcher> TellsRefusals for Checked<'_, N, W> {
    ghost use Rattle.jr_env.specs.Watching.{TellsBoth};

    ghost told = { λ old new name words span fault. TellsBoth N.explained N.measured N.thread W.hears N.told old new name words span fault };

    #[inline(always)]
    fn tell(&mut self, call: &'static str, handed: Handed, fault: Fault) {
        self.caller.tell(call, handed, fault);
        self.tell_watcher(call, handed, fault);
    }
}

impl<N: Explains, W: Watcher> Checked<'_, N, W> {
    ghost use Rattle.std.specs.Prelude.{◌≡◌};
    ghost use Rattle.jr_env.specs.Requests.{handed_words};
    ghost use Rattle.jr_env.specs.Spans.{handed_span};
    ghost use Rattle.jr_env.specs.Watching.{TellsOf};

    /// Where an answer is a refusal the watcher is told.
    #[inline(always)]
    fn watch<A>(&mut self, call: &'static str, handed: Handed, answer: &Result<A, Fault>)
        ensures same_reference { self.new.caller.ghost_name ≡ self.old.caller.ghost_name }
        ensures told { TellsOf N.explained N.measured N.thread W.hears self.old self.new call.now (handed_words handed) (handed_span handed) answer.now }
    {
        if let Err(fault) = answer {
            self.tell_watcher(call, handed, *fault);
        }
    }
}

impl<N: LocalFrames + Explains, W: Watcher> LocalFrames for Checked<'_, N, W> {
    ghost use Rattle.std.specs.Prelude.{[], ◌∷◌, codes};
    ghost use Rattle.jr_env.specs.Watching.{WatchedBeneath};

    ghost opens = { λ old new n answer. WatchedBeneath N.explained N.measured N.thread W.hears (λ before behind. N.opens before behind n answer) old new (codes "PushLocalFrame") [] answer };

    ghost closes = { λ p old new w answer. WatchedBeneath N.explained N.measured N.thread W.hears
        (λ before behind. N.closes p before behind w answer) old new (codes "PopLocalFrame") (w ∷ []) answer };

    fn open_frame(&mut self, capacity: u32) -> Result<(), Fault> {
        let answer = self.caller.open_frame(capacity);
        self.watch("PushLocalFrame", Handed::Nothing, &answer);
        answer
    }

    fn close_frame(&mut self, kept: Handle, patience: Patience) -> Result<Option<Handle>, Fault> {
        let answer = self.caller.close_frame(kept, patience);
        self.watch("PopLocalFrame", Handed::One(kept), &answer);
        answer
    }
}

impl<S: Steps, N: TriesCalls<S> + Explains, W: Watcher> TriesCalls<S> for Checked<'_, N, W> {
    ghost use Rattle.jr_env.specs.Watching.{ActsBeneath};

    ghost approached = { λ old new. ActsBeneath N.approached old new };

    ghost tried = { λ old new request answer. ActsBeneath (λ before behind. N.tried before behind request answer) old new };

    #[inline(always)]
    fn attempt<C: NativeCall<S> + Drop>(&mut self, call: C) -> Result<C::Answer, Fault> {
        self.caller.attempt(call)
    }

    #[inline(always)]
    fn approach(&mut self) {
        self.caller.approach();
    }
}
