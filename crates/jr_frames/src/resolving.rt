//! How a call resolves the references that it is handed, over any steps.
ghost use Rattle.std.specs.Prelude.{◌≡◌, ◌≢◌, ◌||◌, Some, None, Ok, false};
ghost use Rattle.jr_word.specs.declared.handle.RefKind.TheVariants.{Local};
ghost use Rattle.jr_gate.specs.Stays.{IsOwnStay};
ghost use Rattle.jr_model.specs.Checks.{Parts, is_foreign, is_malformed, is_out_of_bounds, type_found, type_local};
ghost use Rattle.jr_model.specs.Parts.{local_answer, looked, looked_at};
ghost use Rattle.jr_model.specs.References.{resolved, resolved_both, typing};
ghost use Rattle.jr_frames.specs.Reading.{word_of, OwnerFits};
ghost use Rattle.jr_frames.specs.OverSteps.{Resolves, ResolvesBoth, Calls};

use crate::frames::Frames;
use crate::reference::{Reference, belongs_elsewhere, lies_outside, names_local};
use jr_gate::Inside;
use jr_model::Found;
use jr_row::{look, object_found};
use jr_steps::Steps;
use jr_word::{Config, Fault, HandleParts, RefKind};

/// The object of a local reference: E2 where it does not stand.
#[inline(always)]
fn object_local(object: Option<u16>) -> Result<Option<u16>, Fault>
    ensures { result ≡ local_answer object }
{
    match object {
        Some(object) => Ok(Some(object)),
        None => Err(Fault::Stale),
    }
}

/// The object of a handle that lies in bounds.
#[inline(always)]
fn look_at<S: Steps>(
    steps: &mut S,
    inside: &Inside,
    frames: &Frames,
    handle: HandleParts,
) -> Result<Option<u16>, Fault>
    requires stay { IsOwnStay inside.now (S.facts steps.old).stands }
    requires bounds { is_out_of_bounds (S.facts steps.old).stands.config (Parts handle) ≡ false }
    requires owner { handle.kind ≢ Local → handle.owner ≡ 0 }
    ensures { Resolves S.facts steps.old steps.new frames.now.frames (looked_at handle) result }
{
    if names_local(handle) {
        object_local(frames.object_of(handle))
    } else {
        object_found(look(steps, inside, handle))
    }
}

/// The object of a reference that lies in bounds: none for NULL.
#[inline(always)]
fn look_up<S: Steps>(
    steps: &mut S,
    inside: &Inside,
    frames: &Frames,
    reference: Reference,
) -> Result<Option<u16>, Fault>
    requires stay { IsOwnStay inside.now (S.facts steps.old).stands }
    requires bounds { is_out_of_bounds (S.facts steps.old).stands.config (word_of reference) ≡ false }
    requires owner { OwnerFits reference }
    ensures { Resolves S.facts steps.old steps.new frames.now.frames (looked (word_of reference)) result }
{
    match reference {
        Reference::Parts(handle) => look_at(steps, inside, frames, handle),
        _ => Ok(None),
    }
}

/// The object of a reference, none for NULL and a cleared one.
///
/// # Errors
///
/// E2 where it is malformed or lies outside the room; E3 where it is a local one of another thread; E2 where it does not stand.
///
/// Nothing has changed then.
///
/// # Operations
///
/// At most one, a look at the slot of a global or weak handle.
#[inline(always)]
pub fn resolve<S: Steps>(
    steps: &mut S,
    inside: &Inside,
    frames: &Frames,
    reference: Reference,
) -> Result<Option<u16>, Fault>
    requires stay { IsOwnStay inside.now (S.facts steps.old).stands }
    requires owner { OwnerFits reference }
    ensures { Resolves S.facts steps.old steps.new frames.now.frames
        (resolved (S.facts steps.old).stands.config (S.facts steps.old).stands.last (S.facts steps.old).stands.thread (word_of reference)) result }
{
    if reference.is_malformed() || reference.lies_outside(steps.config()) {
        return Err(Fault::Stale);
    }
    if reference.belongs_elsewhere(steps.thread()) {
        return Err(Fault::Foreign);
    }
    look_up(steps, inside, frames, reference)
}

/// Whether one of two references is malformed.
#[inline(always)]
fn is_one_malformed(left: Reference, right: Reference) -> bool
    ensures { result ≡ (is_malformed (word_of left) || is_malformed (word_of right)) }
{
    left.is_malformed() || right.is_malformed()
}

/// Whether one of two references lies outside the room.
#[inline(always)]
fn lies_one_outside(config: Config, left: Reference, right: Reference) -> bool
    ensures { result ≡ (is_out_of_bounds config (word_of left) || is_out_of_bounds config (word_of right)) }
{
    left.lies_outside(config) || right.lies_outside(config)
}

/// Whether one of two references is a local of another thread.
#[inline(always)]
fn belongs_one_elsewhere(thread: u8, left: Reference, right: Reference) -> bool
    ensures { result ≡ (is_foreign thread (word_of left) || is_foreign thread (word_of right)) }
{
    left.belongs_elsewhere(thread) || right.belongs_elsewhere(thread)
}

/// The objects of two references, none for NULL and a cleared one. Each check is made of the first and then of the second, before the next check.
///
/// # Errors
///
/// E2 where one is malformed or lies outside the room; E3 where one is a local one of another thread; E2 where one does not stand.
///
/// Nothing has changed then.
///
/// # Operations
///
/// At most two, a look at the slot of each that is global or weak.
#[inline(always)]
pub fn resolve_both<S: Steps>(
    steps: &mut S,
    inside: &Inside,
    frames: &Frames,
    left: Reference,
    right: Reference,
) -> Result<(Option<u16>, Option<u16>), Fault>
    requires stay { IsOwnStay inside.now (S.facts steps.old).stands }
    requires left { OwnerFits left }
    requires right { OwnerFits right }
    ensures { ResolvesBoth S.facts steps.old steps.new frames.now.frames
        (resolved_both (S.facts steps.old).stands.config (S.facts steps.old).stands.last (S.facts steps.old).stands.thread (word_of left) (word_of right)) result }
{
    if left.is_shared() && right.is_shared() {
        // (the same, in a place of its own: there the compiler knows how most of the tests end)
        return resolve_each(steps, inside, frames, left, right);
    }
    resolve_each(steps, inside, frames, left, right)
}

/// The same, whatever they are.
#[inline(always)]
fn resolve_each<S: Steps>(
    steps: &mut S,
    inside: &Inside,
    frames: &Frames,
    left: Reference,
    right: Reference,
) -> Result<(Option<u16>, Option<u16>), Fault>
    requires stay { IsOwnStay inside.now (S.facts steps.old).stands }
    requires left { OwnerFits left }
    requires right { OwnerFits right }
    ensures { ResolvesBoth S.facts steps.old steps.new frames.now.frames
        (resolved_both (S.facts steps.old).stands.config (S.facts steps.old).stands.last (S.facts steps.old).stands.thread (word_of left) (word_of right)) result }
{
    let config = steps.config();
    let thread = steps.thread();
    if is_one_malformed(left, right) {
        return Err(Fault::Stale);
    }
    if lies_one_outside(config, left, right) {
        return Err(Fault::Stale);
    }
    if belongs_one_elsewhere(thread, left, right) {
        return Err(Fault::Foreign);
    }
    let first = look_up(steps, inside, frames, left)?;
    let second = look_up(steps, inside, frames, right)?;
    Ok((first, second))
}

/// The type of a local reference, by its object.
#[inline(always)]
fn type_of_local(object: Option<u16>) -> u8
    ensures { result ≡ type_local object }
{
    if object.is_some() { 1 } else { 0 }
}

/// The type of a global or weak global reference, by what a look found.
#[inline(always)]
fn type_of_found(kind: RefKind, found: Found) -> u8
    ensures { result ≡ type_found kind found }
{
    match found {
        Found::Stale => 0,
        _ => match kind {
            RefKind::Local => 1,
            RefKind::Global => 2,
            RefKind::Weak => 3,
        },
    }
}

/// The type of a handle's reference.
#[inline(always)]
fn type_of_parts<S: Steps>(
    steps: &mut S,
    inside: &Inside,
    frames: &Frames,
    handle: HandleParts,
) -> u8
    requires stay { IsOwnStay inside.now (S.facts steps.old).stands }
    requires owner { handle.kind ≢ Local → handle.owner ≡ 0 }
    ensures { Calls S.facts steps.old steps.new frames.now.frames frames.now.frames (typing (S.facts steps.old).stands.config (S.facts steps.old).stands.thread (Parts handle)) (Ok result) }
{
    if lies_outside(steps.config(), handle) {
        return 0;
    }
    if belongs_elsewhere(steps.thread(), handle) {
        return 0;
    }
    if names_local(handle) {
        type_of_local(frames.object_of(handle))
    } else {
        type_of_found(handle.kind, look(steps, inside, handle))
    }
}

/// The type of a reference: 1 local, 2 global, 3 weak global, and 0 for NULL and for what is no reference here.
///
/// # Operations
///
/// At most one, a look at the slot of a global or weak handle.
#[inline(always)]
pub fn type_of<S: Steps>(
    steps: &mut S,
    inside: &Inside,
    frames: &Frames,
    reference: Reference,
) -> u8
    requires stay { IsOwnStay inside.now (S.facts steps.old).stands }
    requires owner { OwnerFits reference }
    ensures { Calls S.facts steps.old steps.new frames.now.frames frames.now.frames (typing (S.facts steps.old).stands.config (S.facts steps.old).stands.thread (word_of reference)) (Ok result) }
{
    match reference {
        Reference::Null | Reference::Malformed => 0,
        Reference::Parts(handle) => type_of_parts(steps, inside, frames, handle),
    }
}
