//! What a reference names, with its header, over any steps.
ghost use Rattle.std.specs.Prelude.{IfOk};
ghost use Rattle.jr_model.specs.declared.event.Role.TheVariants.{Within};
ghost use Rattle.jr_steps.specs.Knowing.{MayKnow};
ghost use Rattle.jr_gate.specs.Stays.{IsOwnStay};
ghost use Rattle.jr_heap.specs.Heap.{HoldsHeader};
ghost use Rattle.jr_frames.specs.Reading.{word_of, OwnerFits};
ghost use Rattle.jr_frames.specs.Ready.{StandsReady};
ghost use Rattle.jr_frames.specs.Finding.{Finds, FindsBeside};

use crate::frames::Frames;
use crate::reference::Reference;
use crate::resolving::resolve;
use jr_gate::Inside;
use jr_heap::header;
use jr_steps::Steps;
use jr_word::{Fault, HeaderParts};

/// What a reference names, and its header, which is known from then on.
///
/// # Errors
///
/// E2 where it is malformed or lies outside the room; E3 where it is a local one of another thread; E2 where it does not stand; E1 where it is to null.
///
/// Nothing has changed then.
///
/// # Operations
///
/// At most two: a look at the slot of a global or weak handle, and one at the header.
#[inline(always)]
pub fn find<S: Steps>(
    steps: &mut S,
    inside: &Inside,
    frames: &Frames,
    target: Reference,
) -> Result<(u16, HeaderParts), Fault>
    requires stay { IsOwnStay inside.now (S.facts steps.old).stands }
    requires ready { StandsReady S.facts Within steps.old frames.now }
    requires fits { OwnerFits target }
    ensures call { Finds S.facts steps.old steps.new frames.now.frames (word_of target) result }
    ensures beside { FindsBeside S.facts steps.old steps.new frames.now.frames (word_of target) result }
    ensures known { IfOk result (λ x. MayKnow S.facts steps.new (HoldsHeader x.0 x.1)) }
{
    let Some(object) = resolve(steps, inside, frames, target)? else {
        return Err(Fault::Null);
    };
    let header = header(steps, object);
    Ok((object, header))
}
