//! The newest frame taken away, with its references.
ghost use Rattle.std.specs.Prelude.{◌≡◌, ◌≤◌, false, IfOk, IfSome, IsSome, IsTrue, length};
ghost use Rattle.jr_word.specs.declared.handle.RefKind.TheVariants.{Local};
ghost use Rattle.jr_gate.specs.Stays.{IsOwnStay};
ghost use Rattle.jr_model.specs.declared.event.Role.TheVariants.{Within};
ghost use Rattle.jr_model.specs.Frames.{free_places, popped};
ghost use Rattle.jr_model.specs.Parts.{take_frame};
ghost use Rattle.jr_model.specs.References.{popping};
ghost use Rattle.jr_steps.specs.Knowing.{MayKnow, HasOptional, Holds};
ghost use Rattle.jr_frames.specs.Dropping.{Drops};
ghost use Rattle.jr_frames.specs.OverSteps.{MakesLocal};
ghost use Rattle.jr_frames.specs.Ready.{StandsReady, KeepsOwner};

use crate::frames::Frames;
use crate::free::drop_local;
use crate::local::new_local;
use jr_gate::Inside;
use jr_steps::Steps;
use jr_word::{Fault, HandleParts};

/// Takes the newest frame away with its references, the oldest first, and makes a local reference to a present object in the frame below, none to none. There has to be a frame below.
///
/// # Errors
///
/// E9 where an object is given and no place would be free for it.
///
/// Nothing is taken away then.
///
/// # Operations
///
/// A store for each reference of the frame, and one for the new one. None where it is refused.
pub fn pop_frame<S: Steps>(
    steps: &mut S,
    inside: &Inside,
    frames: &mut Frames,
    object: Option<u16>,
) -> Result<Option<HandleParts>, Fault>
    requires stay { IsOwnStay inside.now (S.facts steps.old).stands }
    requires ready { StandsReady S.facts Within steps.old frames.old }
    requires above { 2 ≤ length frames.old.frames.frames }
    requires object { MayKnow S.facts steps.old (λ k. Holds frames.old.frames k × HasOptional object k) }
    ensures call { MakesLocal S.facts steps.old steps.new frames.old.frames frames.new.frames object
        (popping (S.facts steps.old).stands.config (S.facts steps.old).stands.last (S.facts steps.old).stands.thread object) result }
    ensures same { KeepsOwner frames.old frames.new }
    ensures owner { IfOk result (λ made. IfSome made (λ h. (h.kind ≡ Local) × (h.owner ≡ (S.facts steps.old).stands.thread))) }
{
    if !has_place_for(frames, object) {
        return Err(Fault::LocalsFull);
    }
    take_newest(steps, inside, frames);
    new_local(steps, inside, frames, object)
}

/// Whether the result of a pop finds a place: one that is to no object needs none.
fn has_place_for(frames: &Frames, object: Option<u16>) -> bool
    ensures room { IsTrue result → IsSome object → 1 ≤ free_places frames.now.last (popped frames.now.frames) }
    ensures full { result ≡ false → IsSome object × (free_places frames.now.last (popped frames.now.frames) ≡ 0) }
{
    match object {
        None => true,
        Some(_) => frames.has_room_after_pop(),
    }
}

/// Takes the newest frame away, its references one by one, the oldest first.
fn take_newest<S: Steps>(steps: &mut S, inside: &Inside, frames: &mut Frames)
    requires stay { IsOwnStay inside.now (S.facts steps.old).stands }
    requires ready { StandsReady S.facts Within steps.old frames.old }
    requires above { 2 ≤ length frames.old.frames.frames }
    ensures call { Drops S.facts steps.old steps.new frames.old.frames frames.new.frames take_frame }
    ensures same { KeepsOwner frames.old frames.new }
{
    while let Some(handle) = frames.oldest_of_newest() {
        drop_local(steps, inside, frames, handle);
    }
    frames.pop_empty();
}
