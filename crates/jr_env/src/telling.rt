//! Calls of an env, made over whoever stands over it, whose refusal is told.
ghost use Rattle.std.specs.Fn.{FnOnceReturnsAtMut};
ghost use Rattle.jr_env.specs.Requests.{handed_words};
ghost use Rattle.jr_env.specs.Spans.{handed_span};
ghost use Rattle.jr_env.specs.TellingCalls.{DidBeneath, RefusalTold};

use crate::native_call::Handed;
use crate::native_env::{OverEnv, TellsRefusals};
use jr_word::Fault;

/// Where an answer is a refusal it is told.
#[inline(always)]
pub(crate) fn tell_refusal<N: TellsRefusals, A>(
    caller: &mut N,
    call: &'static str,
    handed: Handed,
    answer: &Result<A, Fault>,
)
    ensures { RefusalTold N.told caller.old caller.new call.now (handed_words handed) (handed_span handed) answer.now }
{
    if let Err(fault) = answer {
        caller.tell(call, handed, *fault);
    }
}

/// Makes a call on the env beneath, and tells of it by this name and these words, where it is refused. It is for each call of an env that `NativeEnv` has not by its name:
/// a text, a census, a dump, a collection that lists, or a function of your own over an env.
///
/// # Errors
///
/// Those of the closure.
///
/// What stands then is what the closure left, and what was told.
///
/// # Operations
///
/// Those of the closure, and where it is refused those of `tell`.
pub fn call_beneath<E, N: OverEnv<E> + TellsRefusals, A, F: FnOnce(&mut E) -> Result<A, Fault>>(
    caller: &mut N,
    call: &'static str,
    handed: Handed,
    body: F,
) -> Result<A, Fault>
    requires { F.IsAlwaysCallable body }
    ensures { DidBeneath N.told N.env_in N.with_env (λ before behind. FnOnceReturnsAtMut F.FnOnce body before result behind) caller.old caller.new call.now (handed_words handed)
        (handed_span handed) result }
{
    let answer = body(caller.env());
    tell_refusal(caller, call, handed, &answer);
    answer
}
