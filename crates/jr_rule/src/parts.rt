//! Elements of an object that are read one after another, whoever keeps the words.
ghost use Rattle.std.specs.Prelude.{◌≡◌, ◌+◌, ◌<◌, ◌≤◌, [], ◌∷◌, length};
ghost use Rattle.jr_model.specs.declared.event.Act.TheVariants.{Read};
ghost use Rattle.jr_steps.specs.Knowing.{KnowsHeader, MayKnow, SawPart, Took, keeps};
ghost use Rattle.jr_rule.specs.Image.{element_at as place_of_element};
ghost use Rattle.jr_rule.specs.Parts.{facts_within, ReadsTo, ReadsRest};

use crate::cells::{Cells, load};
use jr_word::{Elem, HeaderParts};
use std::marker::Brand;

/// Who steps on the words of a row, and reads elements of an object one after another. Whoever looks for the words in a room of its own does so once for all of them.
pub trait Parts<P: Copy>: Cells<P> {
    /// Loads elements of an object whose header is known, from an index on: as many as the slice has room for, in rising order, and each by one operation.
    fn load_part<E: Elem>(
        &mut self,
        place: P,
        object: u16,
        header: HeaderParts,
        start: u32,
        elements: &mut [E],
    )
        requires there { Self.are_at self.old place }
        requires part { start + length elements.old ≤ header.length }
        requires known { MayKnow (facts_within Self.sight) self.old (KnowsHeader object header) }
        ensures there { Self.are_at self.new place }
        ensures size { length elements.new ≡ length elements.old }
        ensures steps { SawPart (facts_within Self.sight) self.old self.new object header start E.element_of elements.new };
}

/// The same, over any words, by one load after the other.
#[inline(always)]
pub(crate) fn load_each<C: Cells<P>, P: Copy, E: Elem>(
    cells: &mut C,
    place: P,
    object: u16,
    header: HeaderParts,
    start: u32,
    elements: &mut [E],
)
    requires there { C.are_at cells.old place }
    requires part { start + length elements.old ≤ header.length }
    requires known { MayKnow (facts_within C.sight) cells.old (KnowsHeader object header) }
    ensures there { C.are_at cells.new place }
    ensures size { length elements.new ≡ length elements.old }
    ensures steps { SawPart (facts_within C.sight) cells.old cells.new object header start E.element_of elements.new }
{
    let first = cells.elements(place) + header.place as usize + start as usize;
    let part = Part {
        object,
        header,
        start,
    };
    for eight in 0..elements.len() / 8 {
        let index = eight * 8;
        let at = first + index;
        see_four::<C, P, E>(cells, place, part, at, elements, index);
        let (at, index) = (at + 4, index + 4);
        see_four::<C, P, E>(cells, place, part, at, elements, index);
    }
    let done = elements.len() / 8 * 8;
    see_rest::<C, P, E>(cells, place, part, first, elements, done);
}

/// Elements of an object whose header is known, from an index on.
#[derive(Clone, Copy)]
struct Part {
    /// The object's number.
    object: u16,
    /// Its header.
    header: HeaderParts,
    /// The index of the first.
    start: u32,
}

/// Loads an element of an object whose header is known, at its place in the row.
#[inline(always)]
fn see_one<C: Cells<P>, P: Copy>(
    cells: &mut C,
    place: P,
    object: u16,
    header: HeaderParts,
    index: u32,
    at: usize,
) -> u64
    requires there { C.are_at cells.old place }
    requires index { index < header.length }
    requires known { MayKnow (facts_within C.sight) cells.old (KnowsHeader object header) }
    requires at { at ≡ place_of_element (C.sight cells.old).first.config (header.place + index) }
    ensures there { C.are_at cells.new place }
    ensures step { Took (facts_within C.sight) cells.old cells.new (Read object index result ∷ []) (KnowsHeader object header) keeps }
{
    let about = (object, header, index);
    load::<C, P, Brand, (u16, HeaderParts, u32)>(cells, place, at, about)
}

/// Loads four elements of a part into their places in the slice.
#[inline(always)]
fn see_four<C: Cells<P>, P: Copy, E: Elem>(
    cells: &mut C,
    place: P,
    part: Part,
    at: usize,
    elements: &mut [E],
    index: usize,
)
    requires there { C.are_at cells.old place }
    requires part { part.start + length elements.old ≤ part.header.length }
    requires index { index + 4 ≤ length elements.old }
    requires known { MayKnow (facts_within C.sight) cells.old (KnowsHeader part.object part.header) }
    requires at { at ≡ place_of_element (C.sight cells.old).first.config 0 + part.header.place + part.start + index }
    ensures there { C.are_at cells.new place }
    ensures config { (C.sight cells.new).first.config ≡ (C.sight cells.old).first.config }
    ensures size { length elements.new ≡ length elements.old }
    ensures known { MayKnow (facts_within C.sight) cells.new (KnowsHeader part.object part.header) }
    ensures step { ReadsTo C.sight part.object part.header part.start E.element_of index (index + 4) cells.old cells.new elements.old elements.new }
{
    // (all four before the first is stored, so that over plain words one load of two words may do for two)
    let (object, header, next) = (part.object, part.header, part.start + index as u32);
    let first = see_one::<C, P>(cells, place, object, header, next, at);
    let second = see_one::<C, P>(cells, place, object, header, next + 1, at + 1);
    let third = see_one::<C, P>(cells, place, object, header, next + 2, at + 2);
    let fourth = see_one::<C, P>(cells, place, object, header, next + 3, at + 3);
    elements[index] = E::of_word(first);
    elements[index + 1] = E::of_word(second);
    elements[index + 2] = E::of_word(third);
    elements[index + 3] = E::of_word(fourth);
}

/// Loads one element of a part into its place in the slice.
#[inline(always)]
fn see_into<C: Cells<P>, P: Copy, E: Elem>(
    cells: &mut C,
    place: P,
    part: Part,
    at: usize,
    elements: &mut [E],
    index: usize,
)
    requires there { C.are_at cells.old place }
    requires part { part.start + length elements.old ≤ part.header.length }
    requires index { index < length elements.old }
    requires known { MayKnow (facts_within C.sight) cells.old (KnowsHeader part.object part.header) }
    requires at { at ≡ place_of_element (C.sight cells.old).first.config 0 + part.header.place + part.start + index }
    ensures there { C.are_at cells.new place }
    ensures config { (C.sight cells.new).first.config ≡ (C.sight cells.old).first.config }
    ensures size { length elements.new ≡ length elements.old }
    ensures known { MayKnow (facts_within C.sight) cells.new (KnowsHeader part.object part.header) }
    ensures step { ReadsTo C.sight part.object part.header part.start E.element_of index (index + 1) cells.old cells.new elements.old elements.new }
{
    let next = part.start + index as u32;
    let word = see_one::<C, P>(cells, place, part.object, part.header, next, at);
    elements[index] = E::of_word(word);
}

/// Loads the elements of a part from one on, to its end.
#[inline(always)]
fn see_rest<C: Cells<P>, P: Copy, E: Elem>(
    cells: &mut C,
    place: P,
    part: Part,
    first: usize,
    elements: &mut [E],
    done: usize,
)
    requires there { C.are_at cells.old place }
    requires part { part.start + length elements.old ≤ part.header.length }
    requires done { done ≤ length elements.old }
    requires known { MayKnow (facts_within C.sight) cells.old (KnowsHeader part.object part.header) }
    requires first { first ≡ place_of_element (C.sight cells.old).first.config 0 + part.header.place + part.start }
    ensures there { C.are_at cells.new place }
    ensures size { length elements.new ≡ length elements.old }
    ensures steps { ReadsRest C.sight part.object part.header part.start E.element_of done cells.old cells.new elements.old elements.new }
{
    for index in done..elements.len() {
        see_into::<C, P, E>(cells, place, part, first + index, elements, index);
    }
}
