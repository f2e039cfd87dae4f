//! All local references freed.
ghost use Rattle.std.specs.Prelude.{◌≡◌, ◌∷◌, [], IsSome};
ghost use Rattle.jr_gate.specs.Stays.{IsOwnStay};
ghost use Rattle.jr_model.specs.declared.event.Role.TheVariants.{Within};
ghost use Rattle.jr_model.specs.declared.event.Act.TheVariants.{LocalDrop};
ghost use Rattle.jr_model.specs.Frames.{all_refs, drop_all, freed, object_of, without_local};
ghost use Rattle.jr_model.specs.References.{freeing};
ghost use Rattle.jr_frames.specs.Dropping.{dropping, Drops};
ghost use Rattle.jr_frames.specs.Ready.{StandsReady, KeepsOwner};

use crate::frames::Frames;
use jr_gate::Inside;
use jr_steps::Steps;
use jr_word::HandleParts;

/// Frees all local references, frames and references oldest first. One empty frame is left.
///
/// # Operations
///
/// A store for each local reference.
pub fn free_all<S: Steps>(steps: &mut S, inside: &Inside, frames: &mut Frames)
    requires stay { IsOwnStay inside.now (S.facts steps.old).stands }
    requires ready { StandsReady S.facts Within steps.old frames.old }
    ensures call { Drops S.facts steps.old steps.new frames.old.frames frames.new.frames freeing }
    ensures same { KeepsOwner frames.old frames.new }
{
    empty_frames(steps, inside, frames);
    take_empty_frames(frames);
}

/// Takes the references out of all frames, frames and references oldest first.
fn empty_frames<S: Steps>(steps: &mut S, inside: &Inside, frames: &mut Frames)
    requires stay { IsOwnStay inside.now (S.facts steps.old).stands }
    requires ready { StandsReady S.facts Within steps.old frames.old }
    ensures call { Drops S.facts steps.old steps.new frames.old.frames frames.new.frames (dropping (drop_all (all_refs frames.old.frames))) }
    ensures none { all_refs frames.new.frames ≡ [] }
    ensures given { frames.new.frames.given ≡ frames.old.frames.given }
    ensures same { KeepsOwner frames.old frames.new }
{
    let mut frame = 0;
    while frame < frames.depth() {
        let Some(handle) = frames.oldest_of(frame) else {
            frame += 1;
            continue;
        };
        drop_local(steps, inside, frames, handle);
    }
}

/// Takes the frames above the base frame away, all of which are empty.
fn take_empty_frames(frames: &mut Frames)
    requires { all_refs frames.old.frames ≡ [] }
    ensures freed { frames.new.frames ≡ freed frames.old.frames }
    ensures same { KeepsOwner frames.old frames.new }
{
    while !frames.is_base() {
        frames.are_sound();
        frames.pop_empty();
    }
}

/// Takes a local reference that stands out of its frame.
pub(crate) fn drop_local<S: Steps>(
    steps: &mut S,
    inside: &Inside,
    frames: &mut Frames,
    handle: HandleParts,
)
    requires stay { IsOwnStay inside.now (S.facts steps.old).stands }
    requires ready { StandsReady S.facts Within steps.old frames.old }
    requires stands { IsSome (object_of frames.old.frames handle) }
    ensures call { Drops S.facts steps.old steps.new frames.old.frames frames.new.frames (dropping (LocalDrop handle.index ∷ [])) }
    ensures deleted { frames.new.frames ≡ without_local frames.old.frames handle }
    ensures same { KeepsOwner frames.old frames.new }
{
    steps.put_local(handle.index, None);
    frames.delete(handle);
}
