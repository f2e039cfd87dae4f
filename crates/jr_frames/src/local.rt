//! Local references that are made and deleted, by the steps on the thread's local words and in its table.
ghost use Rattle.std.specs.Prelude.{◌≡◌, IfOk, IfSome};
ghost use Rattle.jr_word.specs.declared.handle.RefKind.TheVariants.{Local};
ghost use Rattle.jr_gate.specs.Stays.{IsOwnStay};
ghost use Rattle.jr_model.specs.declared.event.Role.TheVariants.{Within};
ghost use Rattle.jr_model.specs.Checks.{Parts};
ghost use Rattle.jr_model.specs.References.{new_local as creation, local_removal};
ghost use Rattle.jr_steps.specs.Knowing.{MayKnow, HasOptional};
ghost use Rattle.jr_frames.specs.OverSteps.{Calls, MakesLocal};
ghost use Rattle.jr_frames.specs.Ready.{StandsReady, KeepsOwner};

use crate::frames::Frames;
use crate::reference::{belongs_elsewhere, lies_outside, names_local};
use jr_gate::Inside;
use jr_steps::Steps;
use jr_word::{Fault, HandleParts};

/// Makes a local reference to a present object, none to none, in the newest frame.
///
/// # Errors
///
/// E9 where no place is free.
///
/// Nothing has changed then.
///
/// # Operations
///
/// One store where it makes one, and else none.
#[inline(always)]
pub fn new_local<S: Steps>(
    steps: &mut S,
    inside: &Inside,
    frames: &mut Frames,
    object: Option<u16>,
) -> Result<Option<HandleParts>, Fault>
    requires stay { IsOwnStay inside.now (S.facts steps.old).stands }
    requires ready { StandsReady S.facts Within steps.old frames.old }
    requires object { MayKnow S.facts steps.old (HasOptional object) }
    ensures call { MakesLocal S.facts steps.old steps.new frames.old.frames frames.new.frames object
        (creation (S.facts steps.old).stands.config (S.facts steps.old).stands.last (S.facts steps.old).stands.thread object) result }
    ensures same { KeepsOwner frames.old frames.new }
    ensures owner { IfOk result (λ made. IfSome made (λ h. (h.kind ≡ Local) × (h.owner ≡ (S.facts steps.old).stands.thread))) }
{
    let Some(object) = object else {
        return Ok(None);
    };
    let Some(handle) = frames.next() else {
        return Err(Fault::LocalsFull);
    };
    steps.put_local(handle.index, Some(object));
    frames.add(handle, object);
    Ok(Some(handle))
}

/// Deletes the local reference of a handle, whichever frame has it.
///
/// # Errors
///
/// E4 where it is no local one; E2 where it lies outside the room; E3 where it is another thread's; E2 where it does not stand.
///
/// Nothing has changed then.
///
/// # Operations
///
/// One store, and none where it is refused.
#[inline(always)]
pub fn delete_local<S: Steps>(
    steps: &mut S,
    inside: &Inside,
    frames: &mut Frames,
    handle: HandleParts,
) -> Result<(), Fault>
    requires stay { IsOwnStay inside.now (S.facts steps.old).stands }
    requires ready { StandsReady S.facts Within steps.old frames.old }
    ensures call { Calls S.facts steps.old steps.new frames.old.frames frames.new.frames (local_removal (S.facts steps.old).stands.config (S.facts steps.old).stands.thread (Parts handle)) result }
    ensures same { KeepsOwner frames.old frames.new }
{
    if !names_local(handle) {
        return Err(Fault::WrongKind);
    }
    if lies_outside(steps.config(), handle) {
        return Err(Fault::Stale);
    }
    if belongs_elsewhere(steps.thread(), handle) {
        return Err(Fault::Foreign);
    }
    let Some(_) = frames.object_of(handle) else {
        return Err(Fault::Stale);
    };
    steps.put_local(handle.index, None);
    frames.delete(handle);
    Ok(())
}
