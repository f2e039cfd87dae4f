//! A copy of an array's elements as a scope: they are copied out, something is done with them, and they are released.
ghost use Rattle.std.specs.Prelude.{List, Option, Ok, Err, IfOk, IfErr};
ghost use Rattle.jr_env.specs.Scopes.{IfUnreleased, RanOverCopy};
ghost use Rattle.jr_env.specs.Retried.{WasCopiedOut, WasReleased};

use crate::calls::GetArrayElements;
use crate::env::Env;
use crate::patience::Patience;
use jr_elements::Elements;
use jr_model::Mode;
use jr_steps::Steps;
use jr_word::{Elem, Fault, Handle};
use std::alloc::Global;
use std::marker::PhantomData;

/// Why elements weren't copied out, or weren't released.
#[derive(Debug, Drop)]
pub enum Unreleased<T, E> {
    /// They were not copied out, and nothing was done.
    NotCopied(Fault),
    /// This was answered, and these elements were left. Their release was refused at the last try: nothing of them is written.
    NotReleased(T, E, Fault),
}

impl<T: Drop, E: Elem> Unreleased<T, Elements<E>> {
    ghost use Rattle.std.specs.Prelude.{◌≡◌};
    ghost use Rattle.jr_env.specs.Scopes.{refusal_of_copy};

    /// The refusal alone: of the copy, or of the release, at its last try. Elements that were left are discarded.
    pub fn fault(self) -> Fault
        ensures { result ≡ refusal_of_copy self }
    {
        match self {
            Unreleased::NotCopied(fault) => fault,
            Unreleased::NotReleased(_, elements, fault) => {
                elements.discard();
                fault
            }
        }
    }
}

/// Discards what a release kept of the elements, which is written back.
fn discard_kept<E: Elem>(kept: Option<Elements<E>>) {
    if let Some(elements) = kept {
        elements.discard();
    }
}

/// Copies all elements of an array out, does something with them, and releases them by a mode, also where what was done gave up.
/// The copy and the release are each made again as long as they are refused and there is patience. No element is the closure's own in the room meanwhile:
/// others may write there, and a collection may come.
///
/// # Errors
///
/// `NotCopied` with the refusals of `get_array_elements` at its last try. Nothing was done then, and nothing has changed.
///
/// `NotReleased` with those of `release_array_elements` at its last try. Nothing of the elements is written then.
///
/// The thread stands outside in each case.
///
/// # Operations
///
/// Those of `get_array_elements` and of `release_array_elements` at each try.
pub fn with_array_elements<S: Steps, E: Elem, T: Drop, F: FnOnce(&mut [E]) -> T>(
    env: &mut Env<S>,
    alloc: Global,
    array: Handle,
    mode: Mode,
    patience: Patience,
    body: F,
) -> Result<T, Unreleased<T, Elements<E>>>
    requires { F.IsAlwaysCallable body }
    ensures done { IfOk result (λ x. (left : List _) × (kept : Option (List _))
        × RanOverCopy (WasCopiedOut patience E.KIND E.word_of array.0) (WasReleased patience E.KIND E.word_of array.0 mode) F.FnOnce body env.old env.new x left (Ok kept)) }
    ensures refused { IfErr result (IfUnreleased (λ e. WasCopiedOut patience E.KIND E.word_of array.0 env.old (Err e) env.new)
        (λ x left e. RanOverCopy (WasCopiedOut patience E.KIND E.word_of array.0) (WasReleased patience E.KIND E.word_of array.0 mode) F.FnOnce body env.old env.new x left (Err (left, e)))) }
{
    let element = PhantomData::<E>;
    let call = GetArrayElements {
        alloc,
        array,
        element,
    };
    let mut elements = match env.retry(call, patience) {
        Ok(elements) => elements,
        Err(fault) => return Err(Unreleased::NotCopied(fault)),
    };
    let answer = body(elements.as_mut_slice());
    match env.retry_release(array, elements, mode, patience) {
        Ok(left) => {
            discard_kept(left);
            Ok(answer)
        }
        Err((elements, fault)) => Err(Unreleased::NotReleased(answer, elements, fault)),
    }
}
