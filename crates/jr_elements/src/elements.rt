//! Copied elements, a list of their own.

ghost use Rattle.std.specs.Prelude.{◌≡◌, ◌<◌, ◌^◌, length};
ghost use Rattle.jr_elements.specs.Copies.{without_elements};

use jr_model::Mode;
use jr_word::{Elem, Fault};
use std::marker::Model;

/// The elements of an array, copied: a list of their own, of which the room knows nothing, and in which nobody else writes. A contract sees the list.
/// A copy can't be let go, so that no write to it is lost in silence: it is released, or discarded.
pub struct Elements<E: Elem> {
    items: Vec<E>,
}

impl<E: Elem> Model for Elements<E> {
    ghost use Rattle.std.specs.Prelude.{List, ◌<◌, ◌^◌, length};

    ghost Value = { List E };

    ghost view = { λ e. e.items.items };

    ghost invariant = { λ e. length e.items.items < 2 ^ 32 };
}

/// Elements that were copied.
pub fn elements_of<E: Elem>(items: Vec<E>) -> Elements<E>
    requires few { length items.items < 2 ^ 32 }
    ensures { result ≡ items.items }
{
    Elements { items }
}

/// Discards what a release left, or handed back: where it was refused, nothing was written, and what was written to the elements is lost.
///
/// # Errors
///
/// That of the release.
pub fn discard_left<E: Elem>(
    released: Result<Option<Elements<E>>, (Elements<E>, Fault)>,
) -> Result<(), Fault>
    ensures { result ≡ without_elements released }
{
    match released {
        Ok(Some(left)) => left.discard(),
        Ok(None) => {}
        Err((left, fault)) => {
            left.discard();
            return Err(fault);
        }
    }
    Ok(())
}

impl<E: Elem> Elements<E> {
    ghost use Rattle.std.specs.Prelude.{◌≡◌, ◌<◌, ◌≤◌, true, Ok, IfOk, IfErr, length, map, slice_index_or, slice_set};
    ghost use Rattle.jr_word.specs.declared.fault.Fault.TheVariants.{Range};
    ghost use Rattle.jr_model.specs.Parts.{elements_get, elements_set, elements_length};
    ghost use Rattle.std.specs.Borrow.{sem};
    ghost use Rattle.jr_elements.specs.Copies.{AnswersAs, answer_in, kept};
    ghost use Rattle.jr_elements.specs.LentElements.{lends_elements};

    /// The element at an index.
    ///
    /// # Errors
    ///
    /// E7 exactly where the index is not below the length.
    pub fn get(&self, index: u32) -> Result<E, Fault>
        ensures call { AnswersAs (elements_get (map E.word_of self.now) index) (answer_in E.word_of result) }
        ensures ok { IfOk result (λ value. (index < length self.now) × (value ≡ slice_index_or self.now index value)) }
        ensures err { IfErr result (λ e. (length self.now ≤ index) × (e ≡ Range)) }
    {
        match self.items.get(index as usize) {
            Some(value) => Ok(*value),
            None => Err(Fault::Range),
        }
    }

    /// Sets the element at an index.
    ///
    /// # Errors
    ///
    /// E7 exactly where the index is not below the length.
    ///
    /// The elements are as they were.
    pub fn set(&mut self, index: u32, value: E) -> Result<(), Fault>
        ensures call { AnswersAs (elements_set (map E.word_of self.old) index (E.word_of value)) (answer_in (λ _. map E.word_of self.new) result) }
        ensures ok { IfOk result (λ _. (index < length self.old) × (self.new ≡ slice_set self.old index value)) }
        ensures err { IfErr result (λ e. (length self.old ≤ index) × (e ≡ Range) × (self.new ≡ self.old)) }
    {
        let index = index as usize;
        if index >= self.items.len() {
            return Err(Fault::Range);
        }
        self.items[index] = value;
        Ok(())
    }

    /// How many elements there are.
    pub fn length(&self) -> u32
        ensures number { result ≡ length self.now }
        ensures call { AnswersAs (elements_length (map E.word_of self.now)) (Ok result) }
    {
        self.items.len() as u32
    }

    /// Whether they are a copy of the array's elements: always. (JNI Specification, chapter 4, "Get<PrimitiveType>ArrayElements Routines", `isCopy`)
    pub fn is_copy(&self) -> bool
        ensures { result ≡ true }
    {
        true
    }

    /// The elements.
    pub fn as_slice(&self) -> &[E]
        ensures { result.now ≡ self.now }
    {
        &self.items
    }

    /// The elements, to be written. The array has what is written once they are released with a mode that copies back.
    pub fn as_mut_slice(&mut self) -> &mut [E]
        ensures* writes_back { sem 𝓛 (lends_elements E.row E.Elem self.entry result) }
        ensures value { result.now ≡ self.old }
    {
        &mut self.items
    }

    /// Gives the elements up. Their memory is freed, and what was written to them is lost: no array has it but by a release before. It looks at nothing of the room, and is never refused.
    pub fn discard(self) {
        let Elements { items: _ } = self;
    }

    /// What a release by mode leaves of the elements: themselves where the mode is to commit, and else nothing.
    pub fn kept(self, mode: Mode) -> Option<Elements<E>>
        ensures { result ≡ kept mode self }
    {
        if mode.keeps_elements() {
            Some(self)
        } else {
            self.discard();
            None
        }
    }
}
