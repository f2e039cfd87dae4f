//! What a handle finds in its slot.
ghost use Rattle.std.specs.Prelude.{◌≡◌, ◌≢◌, ◌<◌, [], ◌∷◌, cond};
ghost use Rattle.jr_word.specs.declared.handle.RefKind.TheVariants.{Local};
ghost use Rattle.jr_model.specs.declared.event.Act.TheVariants.{Look};
ghost use Rattle.jr_model.specs.declared.event.Found.TheVariants.{Stale};
ghost use Rattle.jr_model.specs.Parts.{found_answer};
ghost use Rattle.jr_steps.specs.Acts.{reply, is_its, found_of};
ghost use Rattle.jr_steps.specs.Knowing.{anything, keeps, Took};
ghost use Rattle.jr_gate.specs.Stays.{IsOwnStay};

use jr_gate::Inside;
use jr_model::Found;
use jr_steps::{SlotLoad, Steps};
use jr_word::{Fault, HandleParts, RefKind, SlotParts};

/// Looks a handle up in its slot. It has to be a global or weak one, of a slot of the room.
///
/// # Operations
///
/// One load.
#[inline(always)]
pub fn look<S: Steps>(steps: &mut S, inside: &Inside, handle: HandleParts) -> Found
    requires stay { IsOwnStay inside.now (S.facts steps.old).stands }
    requires row { handle.index < (S.facts steps.old).stands.config.slots }
    requires kind { (handle.kind ≢ Local) × (handle.owner ≡ 0) }
    ensures { Took S.facts steps.old steps.new (Look handle result ∷ []) anything keeps }
{
    let word = steps.see_slot(handle.index, SlotLoad::Look(handle));
    found(handle, word)
}

/// What a slot's word says of a handle of its index.
#[inline(always)]
fn found(handle: HandleParts, word: SlotParts) -> Found
    ensures { result ≡ reply handle word }
{
    match word {
        SlotParts::Free { .. } | SlotParts::Retired { .. } => Found::Stale,
        SlotParts::Global { serial, object } => {
            found_standing(handle, RefKind::Global, serial, Some(object))
        }
        SlotParts::Weak { serial, object } => {
            found_standing(handle, RefKind::Weak, serial, object)
        }
    }
}

/// What the reference of a kind and serial, which stands in the handle's slot, says of the handle.
#[inline(always)]
fn found_standing(handle: HandleParts, kind: RefKind, serial: u32, object: Option<u16>) -> Found
    ensures { result ≡ cond (is_its handle kind serial) (found_of object) Stale }
{
    if handle.kind != kind || handle.serial != serial {
        return Found::Stale;
    }
    match object {
        Some(object) => Found::Object(object),
        None => Found::Cleared,
    }
}

/// The object that a look found, none where the reference is cleared.
///
/// # Errors
///
/// E2 exactly where the look found no such reference.
#[inline(always)]
pub fn object_found(found: Found) -> Result<Option<u16>, Fault>
    ensures { result ≡ found_answer found }
{
    match found {
        Found::Object(object) => Ok(Some(object)),
        Found::Cleared => Ok(None),
        Found::Stale => Err(Fault::Stale),
    }
}
