//! Elements of arrays as words.

ghost use Rattle.std.specs.Prelude.{◌≡◌, ℕ, ◌^◌, ◌<◌, ⊤, FitsSigned, Option};
ghost use Rattle.std.specs.Int.{w8, w16, w32, w64};
ghost use Rattle.jr_word.specs.declared.kind.Kind.{Kind};
ghost use Rattle.jr_word.specs.declared.kind.Kind.TheVariants.{Boolean, Byte, Char, Short, Int, Long};
ghost use Rattle.jr_word.specs.Elem.{ElemLaws, bool_word, bool_at, bool_of, signed_word, signed_at, signed_of, unsigned_at, unsigned_of};
ghost use Rattle.jr_word.specs.ElementLaws.{bool_laws, i8_laws, u16_laws, i16_laws, i32_laws, i64_laws};

use crate::kind::Kind;

/// An element of a primitive array: bool, i8, u16, i16, i32 or i64. One element is one word.
pub trait Elem: Copy {
    /// The kind of the arrays whose elements these are.
    const KIND: Kind;

    ghost KIND: { Kind };

    ghost Fits: { Self → Type 0 };

    ghost word_of: { Self → ℕ };

    ghost value_at: { ℕ → Option Self };

    ghost element_of: { ℕ → Self };

    /// The word of an element.
    fn to_word(self) -> u64
        ensures word { result ≡ word_of self }
        ensures fits { Fits self };

    /// The element that a word is, if it is one.
    fn from_word(word: u64) -> Option<Self>
        ensures { result ≡ value_at word };

    /// The element that a word of the kind is. Of any other word, that of as many of its low bits as an element has.
    fn of_word(word: u64) -> Self
        ensures { result ≡ element_of word };

    ghost laws: { ElemLaws KIND Fits word_of value_at element_of };
}

impl Elem for bool {
    const KIND: Kind = Kind::Boolean;

    ghost KIND = { Boolean };

    ghost Fits = { λ _. ⊤ };

    ghost word_of = { bool_word };

    ghost value_at = { bool_at };

    ghost element_of = { bool_of };

    ghost laws = { bool_laws };

    #[inline]
    fn to_word(self) -> u64 {
        u64::from(self)
    }

    #[inline]
    fn from_word(word: u64) -> Option<Self> {
        match word {
            0 => Some(false),
            1 => Some(true),
            _ => None,
        }
    }

    #[inline]
    fn of_word(word: u64) -> Self {
        word % 2 == 1
    }
}

impl Elem for i8 {
    const KIND: Kind = Kind::Byte;

    ghost KIND = { Byte };

    ghost Fits = { FitsSigned w8 };

    ghost word_of = { signed_word w8 };

    ghost value_at = { signed_at w8 };

    ghost element_of = { signed_of w8 };

    ghost laws = { i8_laws };

    #[inline]
    fn to_word(self) -> u64 {
        let bits: u8 = self.cast_unsigned();
        u64::from(bits)
    }

    #[inline]
    fn from_word(word: u64) -> Option<Self> {
        let bits = u8::try_from(word).ok()?;
        Some(bits.cast_signed())
    }

    #[inline]
    fn of_word(word: u64) -> Self {
        let bits = (word & 0xff) as u8;
        bits.cast_signed()
    }
}

impl Elem for u16 {
    const KIND: Kind = Kind::Char;

    ghost KIND = { Char };

    ghost Fits = { λ value. value < 2 ^ 16 };

    ghost word_of = { λ value. value };

    ghost value_at = { unsigned_at w16 };

    ghost element_of = { unsigned_of w16 };

    ghost laws = { u16_laws };

    #[inline]
    fn to_word(self) -> u64 {
        u64::from(self)
    }

    #[inline]
    fn from_word(word: u64) -> Option<Self> {
        u16::try_from(word).ok()
    }

    #[inline]
    fn of_word(word: u64) -> Self {
        (word & 0xffff) as u16
    }
}

impl Elem for i16 {
    const KIND: Kind = Kind::Short;

    ghost KIND = { Short };

    ghost Fits = { FitsSigned w16 };

    ghost word_of = { signed_word w16 };

    ghost value_at = { signed_at w16 };

    ghost element_of = { signed_of w16 };

    ghost laws = { i16_laws };

    #[inline]
    fn to_word(self) -> u64 {
        let bits: u16 = self.cast_unsigned();
        u64::from(bits)
    }

    #[inline]
    fn from_word(word: u64) -> Option<Self> {
        let bits = u16::try_from(word).ok()?;
        Some(bits.cast_signed())
    }

    #[inline]
    fn of_word(word: u64) -> Self {
        let bits = (word & 0xffff) as u16;
        bits.cast_signed()
    }
}

impl Elem for i32 {
    const KIND: Kind = Kind::Int;

    ghost KIND = { Int };

    ghost Fits = { FitsSigned w32 };

    ghost word_of = { signed_word w32 };

    ghost value_at = { signed_at w32 };

    ghost element_of = { signed_of w32 };

    ghost laws = { i32_laws };

    #[inline]
    fn to_word(self) -> u64 {
        let bits: u32 = self.cast_unsigned();
        u64::from(bits)
    }

    #[inline]
    fn from_word(word: u64) -> Option<Self> {
        let bits = u32::try_from(word).ok()?;
        Some(bits.cast_signed())
    }

    #[inline]
    fn of_word(word: u64) -> Self {
        let bits = (word & 0xffff_ffff) as u32;
        bits.cast_signed()
    }
}

impl Elem for i64 {
    const KIND: Kind = Kind::Long;

    ghost KIND = { Long };

    ghost Fits = { FitsSigned w64 };

    ghost word_of = { signed_word w64 };

    ghost value_at = { signed_at w64 };

    ghost element_of = { signed_of w64 };

    ghost laws = { i64_laws };

    #[inline]
    fn to_word(self) -> u64 {
        self.cast_unsigned()
    }

    #[inline]
    fn from_word(word: u64) -> Option<Self> {
        Some(word.cast_signed())
    }

    #[inline]
    fn of_word(word: u64) -> Self {
        word.cast_signed()
    }
}
