//! A frame of local references as a scope: it is opened, something is done in it, and it is popped.
ghost use Rattle.std.specs.Prelude.{◌≡◌, Option, Result, IfOk, IfErr, Ok, Err};
ghost use Rattle.jr_word.specs.declared.handle.Handle.{Handle};
ghost use Rattle.jr_word.specs.declared.fault.Fault.{Fault};
ghost use Rattle.jr_env.specs.Scopes.{IfUnscoped, RanInFrame, RanReturning, handed_on, kept_word};

use crate::calls::PopLocalFrame;
use crate::env::Env;
use crate::patience::Patience;
use jr_steps::Steps;
use jr_word::{Fault, Handle};

/// Why a frame round a closure wasn't opened, or wasn't popped.
#[derive(Debug, Drop)]
pub enum Unscoped<T> {
    /// The frame was not opened, and nothing was done.
    NotOpened(Fault),
    /// This was answered in the frame. Its pop was refused at the last try: it stands, and is to be popped again.
    NotPopped(T, Fault),
}

impl<T: Drop> Unscoped<T> {
    ghost use Rattle.std.specs.Prelude.{◌≡◌};
    ghost use Rattle.jr_env.specs.Scopes.{refusal_in};

    /// The refusal alone: of the push, or of the pop at its last try.
    pub fn fault(self) -> Fault
        ensures { result ≡ refusal_in self }
    {
        match self {
            Unscoped::NotOpened(fault) | Unscoped::NotPopped(_, fault) => fault,
        }
    }
}

/// What has frames of local references: an env. A closure can be handed one as `&mut Self`, and not as `&mut Env<S>`, for which the prover has no bound.
pub trait LocalFrames {
    ghost use Rattle.std.specs.Prelude.{ℕ, Option, Result};
    ghost use Rattle.jr_word.specs.declared.fault.Fault.{Fault};
    ghost use Rattle.jr_word.specs.declared.handle.Handle.{Handle};
    ghost use Rattle.jr_env.specs.declared.patience.Patience.{Patience};

    ghost opens: { Self → Self → ℕ → Result (Unit {0}) Fault → Type 0 };

    ghost closes: { Patience → Self → Self → ℕ → Result (Option Handle) Fault → Type 0 };

    /// Opens a frame, as `push_local_frame` of an env.
    ///
    /// # Errors
    ///
    /// Those of `push_local_frame`.
    ///
    /// Nothing has changed then, and the thread stands outside.
    ///
    /// # Operations
    ///
    /// None.
    fn open_frame(&mut self, capacity: u32) -> Result<(), Fault>
        ensures { opens self.old self.new capacity result };

    /// Pops the newest frame, as `pop_local_frame` of an env, made again as `Env::retry` does.
    ///
    /// # Errors
    ///
    /// Those of `pop_local_frame` at the last try.
    ///
    /// Nothing is taken away then, and the thread stands outside.
    ///
    /// # Operations
    ///
    /// Those of `pop_local_frame` at each try.
    fn close_frame(&mut self, kept: Handle, patience: Patience) -> Result<Option<Handle>, Fault>
        ensures { closes patience self.old self.new kept.0 result };
}

impl<S: Steps> LocalFrames for Env<S> {
    ghost use Rattle.jr_env.specs.Envs.{Does};
    ghost use Rattle.jr_env.specs.Deeds.{push_local_frame, pop_local_frame};
    ghost use Rattle.jr_env.specs.Tries.{made_again};

    ghost opens = { λ old new n answer. Does old new (push_local_frame n) answer };

    ghost closes = { λ p old new w answer. Does old new (made_again p.waits_for_room p.more (pop_local_frame w)) answer };

    fn open_frame(&mut self, capacity: u32) -> Result<(), Fault> {
        self.push_local_frame(capacity)
    }

    fn close_frame(&mut self, kept: Handle, patience: Patience) -> Result<Option<Handle>, Fault> {
        self.retry(PopLocalFrame(kept), patience)
    }
}

/// Opens a frame, does something in it, and pops it, also where what was done gave up. What is done has to leave as many frames as it found: the one that is popped is the newest.
/// The pop is made again as long as it is refused and there is patience.
///
/// # Errors
///
/// `NotOpened` with the refusals of `push_local_frame`. Nothing was done then, and nothing has changed.
///
/// `NotPopped` with those of `pop_local_frame` of NULL at its last try. The frame stands then, with all that was made in it.
///
/// The thread stands outside in each case.
///
/// # Operations
///
/// Those of what is done, and of `pop_local_frame` of NULL at each try.
pub fn with_local_frame<E: LocalFrames, T: Drop, F: FnOnce(&mut E) -> T>(
    env: &mut E,
    capacity: u32,
    patience: Patience,
    body: F,
) -> Result<T, Unscoped<T>>
    requires { F.IsAlwaysCallable body }
    ensures done { IfOk result (λ x. (kept : Option Handle) × RanInFrame E.opens (E.closes patience) F.FnOnce body env.old env.new capacity x 0 (Ok kept)) }
    ensures refused { IfErr result (IfUnscoped (λ e. E.opens env.old env.new capacity (Err e)) (λ x e. RanInFrame E.opens (E.closes patience) F.FnOnce body env.old env.new capacity x 0 (Err e))) }
{
    if let Err(fault) = env.open_frame(capacity) {
        return Err(Unscoped::NotOpened(fault));
    }
    let answer = body(env);
    match env.close_frame(Handle::NULL, patience) {
        Ok(_) => Ok(answer),
        Err(fault) => Err(Unscoped::NotPopped(answer, fault)),
    }
}

/// What the frame is popped for: the reference that was answered, and NULL where there is none.
fn kept(answer: &Result<Handle, Fault>) -> Handle
    ensures { result.0 ≡ kept_word answer.now }
{
    match answer {
        Ok(handle) => *handle,
        Err(_) => Handle::NULL,
    }
}

/// The reference in the frame below, or the refusal where there was none to hand on.
fn handed_on(answer: Result<Handle, Fault>, below: Option<Handle>) -> Result<Option<Handle>, Fault>
    ensures { result ≡ handed_on answer below }
{
    match answer {
        Ok(_) => Ok(below),
        Err(fault) => Err(fault),
    }
}

/// Opens a frame, does something in it that answers a reference, and pops it for that reference: the answer is a local one to the same object in the frame below.
/// Where what was done gave up, the frame is popped for NULL, and the refusal is the answer. Else as `with_local_frame`.
///
/// # Errors
///
/// Those of `with_local_frame`; `NotPopped` with those of `pop_local_frame` of the answer.
///
/// # Operations
///
/// Those of what is done, and of `pop_local_frame` at each try.
pub fn with_local_frame_returning<E: LocalFrames, F: FnOnce(&mut E) -> Result<Handle, Fault>>(
    env: &mut E,
    capacity: u32,
    patience: Patience,
    body: F,
) -> Result<Result<Option<Handle>, Fault>, Unscoped<Result<Handle, Fault>>>
    requires { F.IsAlwaysCallable body }
    ensures done { IfOk result (λ r. (x : Result Handle Fault) × (below : Option Handle) × (r ≡ handed_on x below)
        × RanReturning E.opens (E.closes patience) F.FnOnce body env.old env.new capacity x (Ok below)) }
    ensures refused { IfErr result (IfUnscoped (λ e. E.opens env.old env.new capacity (Err e)) (λ x e. RanReturning E.opens (E.closes patience) F.FnOnce body env.old env.new capacity x (Err e))) }
{
    if let Err(fault) = env.open_frame(capacity) {
        return Err(Unscoped::NotOpened(fault));
    }
    let answer = body(env);
    match env.close_frame(kept(&answer), patience) {
        Ok(below) => Ok(handed_on(answer, below)),
        Err(fault) => Err(Unscoped::NotPopped(answer, fault)),
    }
}
