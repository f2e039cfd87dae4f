//! References that are deleted.
ghost use Rattle.std.specs.Prelude.{◌≡◌, ◌≢◌, ◌<◌};
ghost use Rattle.jr_word.specs.declared.handle.RefKind.TheVariants.{Local};
ghost use Rattle.jr_model.specs.Frames.{Frames};
ghost use Rattle.jr_model.specs.Parts.{delete as deletion};
ghost use Rattle.jr_steps.specs.Knowing.{anything, keeps};
ghost use Rattle.jr_gate.specs.Performing.{Performed};
ghost use Rattle.jr_gate.specs.Stays.{IsOwnStay};

use crate::looking::{look, object_found};
use jr_gate::Inside;
use jr_steps::Steps;
use jr_word::{Fault, HandleParts};

/// Deletes a reference by one look, and one exchange where it stands. The handle has to be a global or weak one, of a slot of the room.
///
/// # Errors
///
/// E2 where the reference does not stand, or another thread deletes it first.
///
/// Nothing has changed then.
///
/// # Operations
///
/// Just its events, one or two: the look, and the exchange where the reference stands.
#[inline(always)]
pub fn delete<S: Steps>(steps: &mut S, inside: &Inside, handle: HandleParts) -> Result<(), Fault>
    requires stay { IsOwnStay inside.now (S.facts steps.old).stands }
    requires row { handle.index < (S.facts steps.old).stands.config.slots }
    requires kind { (handle.kind ≢ Local) × (handle.owner ≡ 0) }
    ensures { (f : Frames) → Performed S.facts steps.old steps.new f f 0 anything (λ s. deletion handle) result keeps }
{
    let object = object_found(look(steps, inside, handle))?;
    if steps.free(handle, object) {
        Ok(())
    } else {
        Err(Fault::Stale)
    }
}
