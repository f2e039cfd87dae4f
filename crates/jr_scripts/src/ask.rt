//! Calls that are made again up to so many times, and those whose answers are replies.

ghost use Rattle.std.specs.Prelude.{◌≡◌};
ghost use Rattle.jr_env.specs.Deeds.{answered_by, whole};
ghost use Rattle.jr_env.specs.Envs.{WasDone, IsOutside};
ghost use Rattle.jr_scripts.specs.Commands.{tried};
ghost use Rattle.jr_scripts.specs.Tries.{CalledInTurns, IsPatienceFor, last_refusal};

use crate::reply::{IntoReply, Reply};
use jr_env::{Env, NativeCall, NativeCaller, Patience, is_made_again, with_patience};
use jr_steps::Steps;
use jr_word::Fault;

/// The patience with which a call is made up to so many times: E20 where it is to be made no time.
pub(crate) fn patience_for(turns: u64) -> Result<Patience, Fault>
    ensures { IsPatienceFor turns result }
{
    if turns == 0 {
        return Err(Fault::Turns);
    }
    Ok(Patience::of(turns - 1).without_yields())
}

/// The refusal of a call that is made no more: E20 where it would be made again.
pub(crate) fn no_more(fault: Fault) -> Fault
    ensures { result ≡ last_refusal fault }
{
    if is_made_again::<()>(&Err(fault)) {
        Fault::Turns
    } else {
        fault
    }
}

/// Calls a closure, and again as long as it is raced, barred or moved: E20 once it was called so many times.
pub(crate) fn in_turns<E, T, F: FnMut(&mut E) -> Result<T, Fault>>(
    env: &mut E,
    turns: u64,
    body: F,
) -> Result<T, Fault>
    requires { F.IsAlwaysCallable body }
    ensures { (left : F) × CalledInTurns F.FnMut turns (body, env.old) result (left, env.new) }
{
    let patience = patience_for(turns)?;
    with_patience(env, patience, body).map_err(no_more)
}

/// Makes a call, and again as long as it is raced, barred or moved: E20 once it was made so many times.
pub fn retry<S: Steps, C: NativeCall<S> + Copy>(
    env: &mut Env<S>,
    turns: u64,
    call: C,
) -> Result<C::Answer, Fault>
    requires { IsOutside env.old }
    ensures { WasDone env.old env.new (tried turns (whole (C.request call))) result }
{
    in_turns(env, turns, |env| env.make(call))
}

/// Makes a call, and again as long as it is raced or barred, and replies with its answer.
pub(crate) fn ask<S: Steps, C: NativeCall<S> + Copy>(
    env: &mut Env<S>,
    turns: u64,
    call: C,
) -> Result<Reply, Fault>
where
    C::Answer: IntoReply,
    requires { IsOutside env.old }
    ensures { WasDone env.old env.new (answered_by C.Answer.reply (tried turns (whole (C.request call)))) result }
{
    let answer = retry(env, turns, call)?;
    Ok(answer.into_reply())
}
