//! A call of a thread's env that is no value of `jr_env`, and how it is made by the env behind a pointer.
ghost use Rattle.luthrady.specs.Calls.{WasMade};

use crate::behind::{env_of, is_env, seldom};
use crate::handles::EnvHandle;
use crate::held::{Native, Presence};
use jr_word::Fault;

/// A call of a thread's env, with what it is handed.
pub(crate) trait ThreadCall {
    ghost use Rattle.std.specs.Prelude.{◌≡◌};
    ghost use Rattle.jr_env.specs.Deeds.{Deed};
    ghost use Rattle.jr_env.specs.Envs.{Does};

    /// What it answers.
    type Answer;

    ghost deed: { Self → Deed Self.Answer };

    /// Makes it by a thread's env.
    ///
    /// # Errors
    ///
    /// Those of the same call of `Env`.
    fn by(self, native: &mut Native) -> Result<Self::Answer, Fault>
        ensures call { Does native.old.env native.new.env (deed self) result }
        ensures marker { native.new.marker ≡ native.old.marker };
}

/// Makes a call by the env behind a pointer.
///
/// # Errors
///
/// E21 where no env stands behind the handle; E19 in a critical region; else those of the call.
#[inline(always)]
pub(crate) fn make_by_thread<T: ThreadCall + Copy>(
    handle: &mut EnvHandle,
    call: T,
) -> Result<T::Answer, Fault>
    ensures { WasMade handle.old handle.new (T.deed call) result }
{
    if !is_env(handle) {
        seldom();
        return Err(Fault::NotFresh);
    }
    match &mut env_of(handle).presence {
        Presence::Ready(native) => call.by(&mut *native),
        Presence::Critical(_) => {
            seldom();
            Err(Fault::InCritical)
        }
        Presence::Detached => {
            seldom();
            Err(Fault::NotFresh)
        }
    }
}
