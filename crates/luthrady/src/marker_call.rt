//! A call of a thread's env that takes the thread's marker, and how it is made by the env behind a pointer.
ghost use Rattle.luthrady.specs.Collecting.{WasMadeMarking};

use crate::behind::{env_of, is_env};
use crate::handles::EnvHandle;
use crate::held::{Native, Presence};
use jr_word::Fault;

/// A call of a thread's env with the thread's own marker: a collection, or a census.
pub(crate) trait MarkerCall {
    ghost use Rattle.std.specs.Prelude.{◌≡◌};
    ghost use Rattle.jr_weak.specs.Markers.{room_of};
    ghost use Rattle.jr_env.specs.Collections.{FitsRoom};
    ghost use Rattle.jr_env.specs.Deeds.{Deed};
    ghost use Rattle.jr_env.specs.Envs.{Does};

    /// What it answers.
    type Answer;

    ghost deed: { Self → Deed Self.Answer };

    /// Makes it by a thread's env.
    ///
    /// # Errors
    ///
    /// Those of the same call of `Env`.
    fn by(self, native: &mut Native) -> Result<Self::Answer, Fault>
        ensures call { FitsRoom native.old.marker native.old.env → Does native.old.env native.new.env (deed self) result }
        ensures room { room_of native.new.marker ≡ room_of native.old.marker };
}

/// Makes a call with a marker by the env behind a pointer.
///
/// # Errors
///
/// E21 where no env stands behind the handle; E19 in a critical region; else those of the call.
pub(crate) fn make_marking<T: MarkerCall + Copy>(
    handle: &mut EnvHandle,
    call: T,
) -> Result<T::Answer, Fault>
    ensures { WasMadeMarking handle.old handle.new (T.deed call) result }
{
    if !is_env(handle) {
        return Err(Fault::NotFresh);
    }
    match &mut env_of(handle).presence {
        Presence::Ready(native) => call.by(&mut *native),
        Presence::Critical(_) => Err(Fault::InCritical),
        Presence::Detached => Err(Fault::NotFresh),
    }
}
