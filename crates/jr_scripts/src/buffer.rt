//! Copied elements that a name of a script may stand for.

ghost use Rattle.std.specs.Prelude.{◌≡◌, OnOk, Ok, Err, IfErr};
ghost use Rattle.jr_scripts.specs.Buffers.{copied_as, copied_in, number_in, with_number};

use crate::number::Number;
use jr_elements::Elements;
use jr_word::Fault;
use std::marker::Model;

/// Copied elements of an array of numbers.
pub enum CopiedElements {
    /// Booleans.
    Boolean(Elements<bool>),
    /// Bytes.
    Byte(Elements<i8>),
    /// UTF-16 units.
    Char(Elements<u16>),
    /// 16-bit integers.
    Short(Elements<i16>),
    /// 32-bit integers.
    Int(Elements<i32>),
    /// 64-bit integers.
    Long(Elements<i64>),
}

/// Copied elements. A contract sees their kind and their words. They may be let go, and are discarded then: a script loses a buffer where it sets its name anew, and at its thread's end.
pub struct Buffer {
    /// The elements.
    pub elements: CopiedElements,
}

impl Drop for Buffer {
    fn drop(self) {
        self.into_elements().discard();
    }
}

impl Model for Buffer {
    ghost use Rattle.jr_scripts.specs.Buffers.{Copied, coded_copied, copied_in};

    ghost Value = { Copied };

    ghost coded = { coded_copied };

    ghost view = { λ b. copied_in b.elements };
}

/// The number at an index of copied elements.
fn number_at<E: Number>(elements: &Elements<E>, index: u32) -> Result<i64, Fault>
    ensures { result ≡ number_in (copied_as E.KIND E.word_of elements.now) index }
{
    Ok(elements.get(index)?.to_number())
}

/// Makes a number the element at an index of copied elements.
fn put_at<E: Number>(elements: &mut Elements<E>, index: u32, number: i64) -> Result<(), Fault>
    ensures ok { OnOk result (with_number (copied_as E.KIND E.word_of elements.old) index number ≡ Ok (copied_as E.KIND E.word_of elements.new)) }
    ensures err { IfErr result (λ e. (with_number (copied_as E.KIND E.word_of elements.old) index number ≡ Err e) × (elements.new ≡ elements.old)) }
{
    let element = E::from_number(number)?;
    elements.set(index, element)
}

impl CopiedElements {
    /// Gives the elements up, and writes nothing back.
    fn discard(self) {
        match self {
            CopiedElements::Boolean(elements) => elements.discard(),
            CopiedElements::Byte(elements) => elements.discard(),
            CopiedElements::Char(elements) => elements.discard(),
            CopiedElements::Short(elements) => elements.discard(),
            CopiedElements::Int(elements) => elements.discard(),
            CopiedElements::Long(elements) => elements.discard(),
        }
    }

    /// Makes a number the element at an index.
    fn put(&mut self, index: u32, number: i64) -> Result<(), Fault>
        ensures ok { OnOk result (with_number (copied_in self.old) index number ≡ Ok (copied_in self.new)) }
        ensures err { IfErr result (λ e. (with_number (copied_in self.old) index number ≡ Err e) × (copied_in self.new ≡ copied_in self.old)) }
    {
        match self {
            CopiedElements::Boolean(elements) => put_at(elements, index, number),
            CopiedElements::Byte(elements) => put_at(elements, index, number),
            CopiedElements::Char(elements) => put_at(elements, index, number),
            CopiedElements::Short(elements) => put_at(elements, index, number),
            CopiedElements::Int(elements) => put_at(elements, index, number),
            CopiedElements::Long(elements) => put_at(elements, index, number),
        }
    }
}

impl Buffer {
    /// The elements, which can't be let go.
    pub(crate) fn into_elements(self) -> CopiedElements
        ensures { copied_in result ≡ self }
    {
        let Buffer { elements } = self;
        elements
    }

    /// The number at an index.
    ///
    /// # Errors
    ///
    /// E7 where the index is not below the length.
    pub fn get(&self, index: u32) -> Result<i64, Fault>
        ensures { result ≡ number_in self.now index }
    {
        match &self.elements {
            CopiedElements::Boolean(elements) => number_at(elements, index),
            CopiedElements::Byte(elements) => number_at(elements, index),
            CopiedElements::Char(elements) => number_at(elements, index),
            CopiedElements::Short(elements) => number_at(elements, index),
            CopiedElements::Int(elements) => number_at(elements, index),
            CopiedElements::Long(elements) => number_at(elements, index),
        }
    }

    /// Makes a number the element at an index.
    ///
    /// # Errors
    ///
    /// E18 where no element of the kind is that number, and then E7 where the index is not below the length: the elements are as they were.
    pub fn put(&mut self, index: u32, number: i64) -> Result<(), Fault>
        ensures ok { OnOk result (with_number self.old index number ≡ Ok self.new) }
        ensures err { IfErr result (λ e. (with_number self.old index number ≡ Err e) × (self.new ≡ self.old)) }
    {
        self.elements.put(index, number)
    }
}
