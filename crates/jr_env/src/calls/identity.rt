//! Which object a reference is to, as a number: a call at a reference, over any steps.
use crate::demand::Demand;
use crate::native_call::{Handed, NativeCall};
use jr_frames::{Frames, Reference, resolve};
use jr_gate::Inside;
use jr_heap::Numbers;
use jr_steps::Steps;
use jr_word::{Fault, Handle};

/// The identity of what a handle names: the number of the object.
#[derive(Clone, Copy)]
pub struct IdentityOf(pub Handle);

impl<S: Steps> NativeCall<S> for IdentityOf {
    ghost use Rattle.jr_env.specs.Requests.{for_identity_of};

    type Answer = u16;

    ghost request = { λ c. for_identity_of c.0.0 };

    #[inline(always)]
    fn name(&self) -> &'static str {
        "IdentityOf"
    }

    #[inline(always)]
    fn handed(&self) -> Handed {
        Handed::One(self.0)
    }

    #[inline(always)]
    fn demand(&self) -> Demand {
        Demand::Nothing
    }

    #[inline(always)]
    fn work(
        self,
        steps: &mut S,
        inside: &Inside,
        frames: &mut Frames,
        _numbers: &mut Numbers,
    ) -> Result<u16, Fault> {
        let target = Reference::of(self.0);
        let Some(object) = resolve(steps, inside, frames, target)? else {
            return Err(Fault::Null);
        };
        Ok(object)
    }
}
