//! Elements of arrays as the numbers of a script.

ghost use Rattle.std.specs.Prelude.{◌≡◌, Ok, Err, IfOk, IfErr};
ghost use Rattle.jr_scripts.specs.Numbers.{has_numbers, kind_numbered, kind_of_element, number_of_word, word_of_element, word_of_number};

use jr_word::{Elem, Fault, Kind};

/// A kind of array whose elements are numbers in scripts.
#[derive(Clone, Copy)]
pub enum NumberKind {
    /// Of booleans, 0 or 1.
    Boolean,
    /// Of bytes.
    Byte,
    /// Of UTF-16 units.
    Char,
    /// Of 16-bit integers.
    Short,
    /// Of 32-bit integers.
    Int,
    /// Of 64-bit integers.
    Long,
}

impl NumberKind {
    /// The kind of an object, where its elements are numbers.
    ///
    /// # Errors
    ///
    /// E5 for a plain object and a string, and E6 for an array of objects.
    pub fn of(kind: Kind) -> Result<NumberKind, Fault>
        ensures ok { IfOk result (λ numbered. kind ≡ kind_numbered numbered) }
        ensures err { IfErr result (λ e. has_numbers kind ≡ Err e) }
    {
        match kind {
            Kind::Plain | Kind::Text => Err(Fault::NotArray),
            Kind::Objects => Err(Fault::WrongElement),
            Kind::Boolean => Ok(NumberKind::Boolean),
            Kind::Byte => Ok(NumberKind::Byte),
            Kind::Char => Ok(NumberKind::Char),
            Kind::Short => Ok(NumberKind::Short),
            Kind::Int => Ok(NumberKind::Int),
            Kind::Long => Ok(NumberKind::Long),
        }
    }
}

/// An element of an array of such a kind.
#[derive(Clone, Copy)]
pub enum Element {
    /// A boolean.
    Boolean(bool),
    /// A byte.
    Byte(i8),
    /// A UTF-16 unit.
    Char(u16),
    /// A 16-bit integer.
    Short(i16),
    /// A 32-bit integer.
    Int(i32),
    /// A 64-bit integer.
    Long(i64),
}

impl Element {
    /// The element of a kind that a number is.
    ///
    /// # Errors
    ///
    /// E18: no element of the kind is that number.
    pub fn of(kind: NumberKind, number: i64) -> Result<Element, Fault>
        ensures kind { IfOk result (λ element. kind_of_element element ≡ kind_numbered kind) }
        ensures word { IfOk result (λ element. word_of_number (kind_numbered kind) number ≡ Ok (word_of_element element)) }
        ensures err { IfErr result (λ e. word_of_number (kind_numbered kind) number ≡ Err e) }
    {
        match kind {
            NumberKind::Boolean => Ok(Element::Boolean(bool::from_number(number)?)),
            NumberKind::Byte => Ok(Element::Byte(i8::from_number(number)?)),
            NumberKind::Char => Ok(Element::Char(u16::from_number(number)?)),
            NumberKind::Short => Ok(Element::Short(i16::from_number(number)?)),
            NumberKind::Int => Ok(Element::Int(i32::from_number(number)?)),
            NumberKind::Long => Ok(Element::Long(i64::from_number(number)?)),
        }
    }
}

/// An element that scripts read and write as a number.
pub trait Number: Elem {
    /// Its number.
    fn to_number(self) -> i64
        ensures { result ≡ number_of_word Self.KIND (Self.word_of self) };

    /// The element that a number is.
    ///
    /// # Errors
    ///
    /// E18: no element of this type is that number.
    fn from_number(number: i64) -> Result<Self, Fault>
        ensures ok { IfOk result (λ element. word_of_number Self.KIND number ≡ Ok (Self.word_of element)) }
        ensures err { IfErr result (λ e. word_of_number Self.KIND number ≡ Err e) };
}

impl Number for bool {
    fn to_number(self) -> i64 {
        i64::from(self)
    }

    fn from_number(number: i64) -> Result<bool, Fault> {
        match number {
            0 => Ok(false),
            1 => Ok(true),
            _ => Err(Fault::Value),
        }
    }
}

impl Number for i8 {
    fn to_number(self) -> i64 {
        i64::from(self)
    }

    fn from_number(number: i64) -> Result<i8, Fault> {
        i8::try_from(number).map_err(|_| Fault::Value)
    }
}

impl Number for u16 {
    fn to_number(self) -> i64 {
        i64::from(self)
    }

    fn from_number(number: i64) -> Result<u16, Fault> {
        u16::try_from(number).map_err(|_| Fault::Value)
    }
}

impl Number for i16 {
    fn to_number(self) -> i64 {
        i64::from(self)
    }

    fn from_number(number: i64) -> Result<i16, Fault> {
        i16::try_from(number).map_err(|_| Fault::Value)
    }
}

impl Number for i32 {
    fn to_number(self) -> i64 {
        i64::from(self)
    }

    fn from_number(number: i64) -> Result<i32, Fault> {
        i32::try_from(number).map_err(|_| Fault::Value)
    }
}

impl Number for i64 {
    fn to_number(self) -> i64 {
        self
    }

    fn from_number(number: i64) -> Result<i64, Fault> {
        Ok(number)
    }
}
