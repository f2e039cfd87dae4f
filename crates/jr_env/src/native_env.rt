//! Who stands over an env: the env itself, and one that is checked, stressed or warned. What each of them does in its own way stands here; the calls by their names are in `env_interface`.

use crate::env::Env;
use crate::native_call::{Handed, NativeCall, NativeCaller};
use crate::scope::LocalFrames;
use jr_steps::Steps;
use jr_word::Fault;

/// Who stands over an env: the env itself, and whoever calls by one. The parameter is the env's type.
pub trait OverEnv<E>: Sized {
    ghost use Rattle.std.specs.Borrow.{sem, Lends};
    ghost use Rattle.std.specs.Prelude.{◌≡◌};

    ghost env_in: { Self → E };

    ghost with_env: { Self → E → Self };

    /// The env beneath. Of a call that is made on it nobody is told.
    fn env(&mut self) -> &mut E
        ensures* writes_back { sem 𝓛 (Lends Self.row E.row self.entry result (with_env self.old)) }
        ensures value { result.now ≡ env_in self.old };

    ghost reads_back: { (caller : Self) (env : E) → env_in (with_env caller env) ≡ env };

    ghost puts_back: { (caller : Self) → with_env caller (env_in caller) ≡ caller };
}

/// Who tells of refused calls: a checked env its watcher, and an env nobody.
pub trait TellsRefusals: Sized {
    ghost use Rattle.std.specs.Prelude.{ℕ, List, Option};
    ghost use Rattle.jr_word.specs.declared.fault.Fault.{Fault};
    ghost use Rattle.jr_env.specs.declared.span.Span.{Span};
    ghost use Rattle.jr_env.specs.Requests.{handed_words};
    ghost use Rattle.jr_env.specs.Spans.{handed_span};

    ghost told: { Self → Self → List ℕ → List ℕ → Option Span → Fault → Type 0 };

    /// Tells that a call was refused: by its name, the words that it was handed as references, and why.
    ///
    /// # Operations
    ///
    /// None of an env. Of a checked one those of `explain` for each word.
    fn tell(&mut self, call: &'static str, handed: Handed, fault: Fault)
        ensures { told self.old self.new call.now (handed_words handed) (handed_span handed) fault };
}

/// Who makes calls one try at a time, and tells of a refusal apart from it. So of a call that is made again the last refusal alone is told.
pub trait TriesCalls<S: Steps>: NativeCaller<S> + TellsRefusals + LocalFrames {
    ghost use Rattle.std.specs.Prelude.{Result};
    ghost use Rattle.jr_word.specs.declared.fault.Fault.{Fault};
    ghost use Rattle.jr_env.specs.Requests.{Request};

    ghost approached: { Self → Self → Type 0 };

    ghost tried: { {A : Type 0} → Self → Self → Request A → Result A Fault → Type 0 };

    /// Makes a call as `make` does, and tells nobody where it is refused.
    ///
    /// # Errors
    ///
    /// Those of `make`.
    ///
    /// # Operations
    ///
    /// Those of `make` where it is not refused.
    fn attempt<C: NativeCall<S> + Drop>(&mut self, call: C) -> Result<C::Answer, Fault>
        ensures { tried self.old self.new (C.request call) result };

    /// What comes before the first try to open a region: of an env nothing, and a checked caller lets the one beneath do what comes before it there. Who stresses its caller may collect.
    ///
    /// # Operations
    ///
    /// None of an env; those of a collection of who collects.
    fn approach(&mut self)
        ensures { approached self.old self.new };
}

impl<S: Steps> OverEnv<Env<S>> for Env<S> {
    ghost use Rattle.std.proofs.Common.{refl};

    ghost env_in = { λ env. env };

    ghost with_env = { λ env left. left };

    #[inline(always)]
    fn env(&mut self) -> &mut Env<S> {
        self
    }

    ghost reads_back = { λ caller env. refl };

    ghost puts_back = { λ caller. refl };
}

impl<S: Steps> TellsRefusals for Env<S> {
    ghost use Rattle.std.specs.Prelude.{◌≡◌};

    ghost told = { λ old new name words span fault. new ≡ old };

    #[inline(always)]
    fn tell(&mut self, _call: &'static str, _handed: Handed, _fault: Fault) {}
}

impl<S: Steps> TriesCalls<S> for Env<S> {
    ghost use Rattle.std.specs.Prelude.{◌≡◌};
    ghost use Rattle.jr_env.specs.Envs.{Does};
    ghost use Rattle.jr_env.specs.Deeds.{whole};

    ghost approached = { λ old new. new ≡ old };

    ghost tried = { λ old new request answer. Does old new (whole request) answer };

    #[inline(always)]
    fn attempt<C: NativeCall<S> + Drop>(&mut self, call: C) -> Result<C::Answer, Fault> {
        self.make(call)
    }

    #[inline(always)]
    fn approach(&mut self) {}
}
