//! The calls of the Java Native Interface for parts of arrays, over any steps.
ghost use Rattle.std.specs.Prelude.{◌≡◌, ◌+◌, nat_lt, IfErr, map, length};
ghost use Rattle.jr_gate.specs.Stays.{IsOwnStay};
ghost use Rattle.jr_model.specs.declared.event.Role.TheVariants.{Within};
ghost use Rattle.jr_model.specs.Checks.{same_element as same_element_of};
ghost use Rattle.jr_model.specs.Tests.{refused_by};
ghost use Rattle.jr_model.specs.CallPrograms.{kind_tests, part_tests};
ghost use Rattle.jr_frames.specs.Ready.{StandsReady};
ghost use Rattle.jr_env.specs.Requests.{for_get_array_region};
ghost use Rattle.jr_env.specs.Deeds.{read_answer};
ghost use Rattle.jr_env.specs.Calling.{CanCall};
ghost use Rattle.jr_env.specs.OpenStays.{StaysOn};
ghost use Rattle.jr_env.specs.Works.{Serves, ServesWhole, ServesWithin};

use crate::calls::names;
use crate::demand::Demand;
use crate::native_call::{Handed, NativeCall};
use crate::span::Span;
use crate::work::outside;
use jr_frames::{Frames, Held, Reference, find};
use jr_gate::{Inside, enter};
use jr_heap::{Numbers, is_array, read_part, write_part};
use jr_steps::Steps;
use jr_word::{Elem, Fault, Handle, HeaderParts, Kind};

/// Copies elements into a part of an array, from an index on.
#[derive(Clone, Copy)]
pub struct SetArrayRegion<'a, E>(pub Handle, pub u32, pub &'a [E]);

impl<S: Steps, E: Elem> NativeCall<S> for SetArrayRegion<'_, E> {
    ghost use Rattle.std.specs.Prelude.{map};
    ghost use Rattle.jr_env.specs.Requests.{for_set_array_region};

    type Answer = ();

    ghost request = { λ c. for_set_array_region E.KIND c.0.0 c.1 (map E.word_of c.2.now) };

    #[inline(always)]
    fn name(&self) -> &'static str {
        names::set_region(E::KIND)
    }

    #[inline(always)]
    fn handed(&self) -> Handed {
        Handed::OneAt(
            self.0,
            Span {
                start: self.1,
                count: self.2.len(),
            },
        )
    }

    #[inline(always)]
    fn demand(&self) -> Demand {
        Demand::Nothing
    }

    #[inline(always)]
    fn work(
        self,
        steps: &mut S,
        inside: &Inside,
        frames: &mut Frames,
        _numbers: &mut Numbers,
    ) -> Result<(), Fault> {
        let SetArrayRegion(handle, start, elements) = self;
        let array = Reference::of(handle);
        let (object, header) = find(steps, inside, frames, array)?;
        has_part(header, E::KIND, start, elements.len())?;
        write_part(steps, object, header, start, elements);
        Ok(())
    }
}

/// Makes the call that copies a part of an array out: enters the gate, reads, and leaves. A stay that a region left is ended first.
#[inline(always)]
pub(crate) fn copy_out<S: Steps, E: Elem>(
    held: &mut Held<S>,
    array: Handle,
    start: u32,
    elements: &mut [E],
) -> Result<(), Fault>
    requires { CanCall (S.facts held.old.steps).stands }
    ensures size { length elements.new ≡ length elements.old }
    ensures call { ServesWhole held.old held.new (for_get_array_region E.KIND array.0 start (length elements.old)) (read_answer result (map E.word_of elements.new)) }
    ensures next { CanCall (S.facts held.new.steps).stands }
    ensures err { IfErr result (λ _. elements.new ≡ elements.old) }
{
    outside(held);
    let inside = enter(&mut held.steps)?;
    let answer = read_into(
        &mut held.steps,
        &inside,
        &held.frames,
        array,
        start,
        elements,
    );
    inside.leave(&mut held.steps);
    answer
}

/// Reads a part of an array in a stay of the thread, which goes on: E1, E2, E3, E5, E6, E7.
#[inline(always)]
pub(crate) fn copy_inside<S: Steps, E: Elem>(
    held: &mut Held<S>,
    inside: &Inside,
    array: Handle,
    start: u32,
    elements: &mut [E],
) -> Result<(), Fault>
    requires stay { IsOwnStay inside.now (S.facts held.old.steps).stands }
    requires ready { CanCall (S.facts held.old.steps).stands }
    ensures size { length elements.new ≡ length elements.old }
    ensures call { ServesWithin held.old held.new (for_get_array_region E.KIND array.0 start (length elements.old)) (read_answer result (map E.word_of elements.new)) }
    ensures on { StaysOn held.old held.new }
    ensures own { IsOwnStay inside.now (S.facts held.new.steps).stands }
    ensures next { CanCall (S.facts held.new.steps).stands }
    ensures err { IfErr result (λ _. elements.new ≡ elements.old) }
{
    read_into(
        &mut held.steps,
        inside,
        &held.frames,
        array,
        start,
        elements,
    )
}

/// Reads a part of an array: E1, E2, E3, E5, E6, E7.
#[inline(always)]
fn read_into<S: Steps, E: Elem>(
    steps: &mut S,
    inside: &Inside,
    frames: &Frames,
    handle: Handle,
    start: u32,
    elements: &mut [E],
) -> Result<(), Fault>
    requires stay { IsOwnStay inside.now (S.facts steps.old).stands }
    requires ready { StandsReady S.facts Within steps.old frames.now }
    ensures size { length elements.new ≡ length elements.old }
    ensures call { Serves S.facts steps.old steps.new frames.now.frames frames.now.frames (for_get_array_region E.KIND handle.0 start (length elements.old))
        (read_answer result (map E.word_of elements.new)) }
    ensures err { IfErr result (λ _. elements.new ≡ elements.old) }
{
    let array = Reference::of(handle);
    let (object, header) = find(steps, inside, frames, array)?;
    has_part(header, E::KIND, start, elements.len())?;
    read_part(steps, object, header, start, elements);
    Ok(())
}

/// Whether objects of the second kind are arrays whose elements are of the first.
///
/// # Errors
///
/// E5 where they are no arrays, E6 where they are arrays of other elements.
#[inline(always)]
pub(crate) fn has_elements(kind: Kind, other: Kind) -> Result<(), Fault>
    ensures { refused_by (kind_tests kind other) ≡ result }
{
    if !is_array(other) {
        return Err(Fault::NotArray);
    }
    if !same_element(kind, other) {
        return Err(Fault::WrongElement);
    }
    Ok(())
}

/// Whether so many elements of the kind, from an index on, lie in an array with this header.
///
/// # Errors
///
/// E5 where it is no array, E6 where it is one of other elements, E7 where they don't all lie in it.
#[inline(always)]
fn has_part(header: HeaderParts, kind: Kind, start: u32, count: usize) -> Result<(), Fault>
    ensures { refused_by (part_tests kind start count header.kind header.length) ≡ result }
{
    has_elements(kind, header.kind)?;
    if lies_past(header.length, start, count) {
        return Err(Fault::Range);
    }
    Ok(())
}

/// Whether so many elements from an index on don't all lie in an array of this length.
#[inline(always)]
fn lies_past(length: u32, start: u32, count: usize) -> bool
    ensures { result ≡ nat_lt length (start + count) }
{
    start > length || count > (length - start) as usize
}

/// Whether both kinds are one kind of array whose elements are no objects.
#[inline(always)]
fn same_element(kind: Kind, other: Kind) -> bool
    ensures { result ≡ same_element_of kind other }
{
    match kind {
        Kind::Plain | Kind::Objects | Kind::Text => false,
        _ => kind == other,
    }
}
