//! What a word is that native code hands in as a reference, over any steps.
ghost use Rattle.std.specs.Prelude.{◌≡◌, ◌≢◌, Some, false};
ghost use Rattle.jr_word.specs.declared.handle.RefKind.TheVariants.{Local};
ghost use Rattle.jr_model.specs.declared.event.Role.TheVariants.{Within};
ghost use Rattle.jr_model.specs.Checks.{Parts, is_foreign, is_out_of_bounds};
ghost use Rattle.jr_gate.specs.Stays.{IsOwnStay};
ghost use Rattle.jr_frames.specs.Reading.{word_of, OwnerFits};
ghost use Rattle.jr_frames.specs.Ready.{StandsReady};
ghost use Rattle.jr_frames.specs.Explaining.{ExplainsWord, TellsHandle, told_by_place as told_locally, told_by_reference as told_there, told_by_slot as told_by, told_of_serial as serial_told};

use crate::frames::Frames;
use crate::reference::{Reference, belongs_elsewhere, lies_outside, names_local};
use jr_gate::Inside;
use jr_heap::header;
use jr_steps::{SlotLoad, Steps};
use jr_word::{HandleParts, Kind, RefKind, SlotParts};

/// What a word is that native code hands in as a handle.
#[derive(Clone, Copy, Debug, PartialEq, Eq)]
pub enum Explanation {
    /// NULL.
    Null,
    /// Neither NULL nor a handle.
    Malformed,
    /// A global or weak handle whose slot the room doesn't have, or a local one whose place or thread it doesn't have.
    Outside,
    /// A local handle of another thread of the room.
    Foreign,
    /// A handle whose reference stands: of which kind that is, and of which kind its object, none where it is cleared.
    Standing { kind: RefKind, object: Option<Kind> },
    /// A global or weak handle under whose serial a reference of the other kind stands.
    OtherKind,
    /// A handle whose serial was given, to a reference that was deleted. No slot keeps whether that was a global or a weak one.
    Gone,
    /// A handle whose serial was not given yet.
    NotGiven,
}

/// What the look at a handle's slot or place tells.
#[derive(Clone, Copy)]
pub(crate) enum Told {
    /// Its reference stands, for this object.
    Object(u16),
    /// Its reference stands, and is cleared.
    Cleared,
    /// A reference of the other kind stands under its serial.
    OtherKind,
    /// Its serial was given, and nothing stands under it.
    Gone,
    /// Its serial was not given yet.
    NotGiven,
}

/// What is told of a serial under which nothing stands.
#[inline(always)]
fn told_of_serial(given: bool) -> Told
    ensures { result ≡ serial_told given }
{
    if given { Told::Gone } else { Told::NotGiven }
}

/// What the frames tell of a local handle, by its object and whether its place has given its serial.
#[inline(always)]
fn told_by_place(object: Option<u16>, given: bool) -> Told
    ensures { result ≡ told_locally object given }
{
    match object {
        Some(object) => Told::Object(object),
        None => told_of_serial(given),
    }
}

/// What the reference of a kind and serial, which stands in the handle's slot, tells of the handle.
#[inline(always)]
fn told_by_reference(handle: HandleParts, kind: RefKind, serial: u32, object: Option<u16>) -> Told
    ensures { result ≡ told_there handle kind serial object }
{
    if handle.serial != serial {
        return told_of_serial(handle.serial < serial);
    }
    if handle.kind != kind {
        return Told::OtherKind;
    }
    match object {
        Some(object) => Told::Object(object),
        None => Told::Cleared,
    }
}

/// What a slot's word tells of a handle of its index.
#[inline(always)]
fn told_by_slot(handle: HandleParts, word: SlotParts) -> Told
    ensures { result ≡ told_by handle word }
{
    match word {
        SlotParts::Free { serial } => told_of_serial(handle.serial < serial),
        SlotParts::Retired { serial } => told_of_serial(handle.serial <= serial),
        SlotParts::Global { serial, object } => {
            told_by_reference(handle, RefKind::Global, serial, Some(object))
        }
        SlotParts::Weak { serial, object } => {
            told_by_reference(handle, RefKind::Weak, serial, object)
        }
    }
}

/// What is told of a handle that lies in bounds.
#[inline(always)]
fn tell<S: Steps>(steps: &mut S, inside: &Inside, frames: &Frames, handle: HandleParts) -> Told
    requires stay { IsOwnStay inside.now (S.facts steps.old).stands }
    requires bounds { is_out_of_bounds (S.facts steps.old).stands.config (Parts handle) ≡ false }
    requires owner { handle.kind ≢ Local → handle.owner ≡ 0 }
    ensures { TellsHandle S.facts steps.old steps.new frames.now.frames handle result }
{
    if names_local(handle) {
        return told_by_place(frames.object_of(handle), frames.has_given(handle));
    }
    let word = steps.see_slot(handle.index, SlotLoad::Look(handle));
    told_by_slot(handle, word)
}

/// What a handle is that lies in bounds and is no other thread's.
#[inline(always)]
fn explain_own<S: Steps>(
    steps: &mut S,
    inside: &Inside,
    frames: &Frames,
    handle: HandleParts,
) -> Explanation
    requires stay { IsOwnStay inside.now (S.facts steps.old).stands }
    requires ready { StandsReady S.facts Within steps.old frames.now }
    requires bounds { is_out_of_bounds (S.facts steps.old).stands.config (Parts handle) ≡ false }
    requires own { is_foreign (S.facts steps.old).stands.thread (Parts handle) ≡ false }
    requires owner { handle.kind ≢ Local → handle.owner ≡ 0 }
    ensures { ExplainsWord S.facts steps.old steps.new frames.now.frames (Parts handle) result }
{
    let kind = handle.kind;
    match tell(steps, inside, frames, handle) {
        Told::Object(object) => {
            let header = header(steps, object);
            let object = Some(header.kind);
            Explanation::Standing { kind, object }
        }
        Told::Cleared => Explanation::Standing { kind, object: None },
        Told::OtherKind => Explanation::OtherKind,
        Told::Gone => Explanation::Gone,
        Told::NotGiven => Explanation::NotGiven,
    }
}

/// What a handle is.
#[inline(always)]
fn explain_parts<S: Steps>(
    steps: &mut S,
    inside: &Inside,
    frames: &Frames,
    handle: HandleParts,
) -> Explanation
    requires stay { IsOwnStay inside.now (S.facts steps.old).stands }
    requires ready { StandsReady S.facts Within steps.old frames.now }
    requires owner { handle.kind ≢ Local → handle.owner ≡ 0 }
    ensures { ExplainsWord S.facts steps.old steps.new frames.now.frames (Parts handle) result }
{
    if lies_outside(steps.config(), handle) {
        return Explanation::Outside;
    }
    if belongs_elsewhere(steps.thread(), handle) {
        return Explanation::Foreign;
    }
    explain_own(steps, inside, frames, handle)
}

/// What a word is that was handed in as a reference. What is told of the room was so at the one look.
///
/// # Operations
///
/// At most two: a look at the slot of a global or weak handle that lies in the room, and one at the header of an object.
#[inline(always)]
pub fn explain<S: Steps>(
    steps: &mut S,
    inside: &Inside,
    frames: &Frames,
    reference: Reference,
) -> Explanation
    requires stay { IsOwnStay inside.now (S.facts steps.old).stands }
    requires ready { StandsReady S.facts Within steps.old frames.now }
    requires owner { OwnerFits reference }
    ensures { ExplainsWord S.facts steps.old steps.new frames.now.frames (word_of reference) result }
{
    match reference {
        Reference::Null => Explanation::Null,
        Reference::Malformed => Explanation::Malformed,
        Reference::Parts(handle) => explain_parts(steps, inside, frames, handle),
    }
}
