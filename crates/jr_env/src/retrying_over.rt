//! A call that is made again behind a collection, over whoever stands over an env: each try is its own, and the collection is the env's.
ghost use Rattle.std.specs.Prelude.{◌≡◌, ◌↔◌, ◌≤◌, IfSome, IsTrue};
ghost use Rattle.jr_weak.specs.Markers.{room_of};
ghost use Rattle.jr_env.specs.Collections.{FitsRoom};
ghost use Rattle.jr_env.specs.TellingCalls.{DoesIfFits};
ghost use Rattle.jr_env.specs.TellingRemedies.{CollectsBeneath, TriesCollecting, collection_by};
ghost use Rattle.jr_env.specs.Tries.{MadeAgain};

use crate::env::Env;
use crate::native_call::NativeCall;
use crate::native_env::{OverEnv, TriesCalls};
use crate::patience::{Patience, with_patience};
use crate::retrying::is_short_of_room;
use jr_steps::Steps;
use jr_weak::{Collected, Marker};
use jr_word::Fault;

/// Tries a call, and again as long as there is patience. Nobody is told.
pub(crate) fn try_again<S: Steps, N: TriesCalls<S>, C: NativeCall<S> + Copy>(
    caller: &mut N,
    call: C,
    patience: Patience,
) -> Result<C::Answer, Fault>
    ensures { MadeAgain patience.waits_for_room (λ before once behind. N.tried before behind (C.request call) once) patience.more caller.old result caller.new }
{
    with_patience(caller, patience, |caller| caller.attempt(call))
}

/// Collects once, or in turn with so many tries to shut the gate.
fn collect_by<S: Steps>(
    env: &mut Env<S>,
    marker: &mut Marker,
    tries: Option<u32>,
    patience: Patience,
) -> Result<Collected, Fault>
    requires { IfSome tries (λ n. 1 ≤ n) }
    ensures call { DoesIfFits marker.old env.old env.new (collection_by tries patience.more) result }
    ensures room { room_of marker.new ≡ room_of marker.old }
{
    match tries {
        None => Env::collect(env, marker),
        Some(tries) => Env::collect_in_turn(env, marker, tries, patience),
    }
}

/// Tries a call as `try_again` does, and where it is refused for want of words or of object numbers (E10, E11), collects, and tries it so once more. Nobody is told.
pub(crate) fn try_collecting<S: Steps, N: TriesCalls<S> + OverEnv<Env<S>>, C: NativeCall<S> + Copy>(
    caller: &mut N,
    marker: &mut Marker,
    tries: Option<u32>,
    call: C,
    patience: Patience,
) -> Result<C::Answer, Fault>
    requires { IfSome tries (λ n. 1 ≤ n) }
    ensures call { TriesCollecting (λ before once behind. N.tried before behind (C.request call) once) (CollectsBeneath N.env_in N.with_env marker.old tries patience.more)
        (FitsRoom marker.old (N.env_in caller.old)) patience caller.old result caller.new }
    ensures room { room_of marker.new ≡ room_of marker.old }
{
    if !fits_beneath(caller, marker) {
        return Err(Fault::Size);
    }
    let fault = match try_again(caller, call, patience) {
        Ok(made) => return Ok(made),
        Err(fault) => fault,
    };
    if !is_short_of_room::<()>(&Err(fault)) {
        return Err(fault);
    }
    match collect_by(caller.env(), marker, tries, patience) {
        Ok(_) => try_again(caller, call, patience),
        Err(fault) => Err(fault),
    }
}

/// Whether the marker fits the room of the env beneath.
fn fits_beneath<S: Steps, N: OverEnv<Env<S>>>(caller: &mut N, marker: &Marker) -> bool
    ensures fits { IsTrue result ↔ FitsRoom marker.now (N.env_in caller.old) }
    ensures same { caller.new ≡ caller.old }
{
    caller.env().has_marker(marker)
}
