//! A call of the env behind a pointer.
ghost use Rattle.std.specs.Prelude.{◌≡◌};
ghost use Rattle.jr_env.specs.Deeds.{whole};
ghost use Rattle.jr_env.specs.Envs.{Does};
ghost use Rattle.luthrady.specs.Calls.{WasMade};

use crate::behind::{env_of, is_env, seldom};
use crate::handles::EnvHandle;
use crate::held::{Native, Presence};
use jr_env::{NativeCall, NativeCaller};
use jr_owned::OwnedSteps;
use jr_word::Fault;

/// Makes a call of the env behind a pointer.
///
/// # Errors
///
/// E21 where no env stands behind the handle; E19 in a critical region; else those of the call.
#[inline(always)]
pub(crate) fn make<C: NativeCall<OwnedSteps> + Copy>(
    handle: &mut EnvHandle,
    call: C,
) -> Result<C::Answer, Fault>
    ensures { WasMade handle.old handle.new (whole (C.request call)) result }
{
    if !is_env(handle) {
        seldom();
        return Err(Fault::NotFresh);
    }
    match &mut env_of(handle).presence {
        Presence::Ready(native) => make_by(&mut *native, call),
        Presence::Critical(_) => {
            seldom();
            Err(Fault::InCritical)
        }
        Presence::Detached => {
            seldom();
            Err(Fault::NotFresh)
        }
    }
}

/// Makes a call of a thread's env.
///
/// # Errors
///
/// Those of the call.
#[inline(always)]
fn make_by<C: NativeCall<OwnedSteps> + Copy>(
    native: &mut Native,
    call: C,
) -> Result<C::Answer, Fault>
    ensures call { Does native.old.env native.new.env (whole (C.request call)) result }
    ensures marker { native.new.marker ≡ native.old.marker }
{
    native.env.make(call)
}
