//! The headers of objects.

use crate::bits::u24_at;
use crate::kind::Kind;

/// What the header of an object says.
#[derive(Clone, Copy, Debug, PartialEq, Eq)]
pub struct HeaderParts {
    /// The kind of the object.
    pub kind: Kind,
    /// Elements, below 2^24: none of a plain object.
    pub length: u32,
    /// The place of the first element among the words of array space, below 2^24: 0 where there is none.
    pub place: u32,
}

/// The header of an object: 0 where a number has none.
#[derive(Clone, Copy, Debug, PartialEq, Eq)]
pub struct Header(pub u64);

impl HeaderParts {
    ghost use Rattle.std.specs.Prelude.{◌↔◌, IsTrue};
    ghost use Rattle.jr_word.specs.Header.{LengthFits, PlaceFits};

    /// Whether an object with this many elements can be of the kind and begin at the place.
    #[inline]
    fn agree(self) -> bool
        ensures { IsTrue result ↔ (LengthFits self × PlaceFits self) }
    {
        let may_have_length = !matches!(self.kind, Kind::Plain) || self.length == 0;
        let may_have_place = self.length != 0 || self.place == 0;
        may_have_length && may_have_place
    }
}

impl Header {
    ghost use Rattle.std.specs.Prelude.{◌≡◌, IfSome, Some, None};
    ghost use Rattle.jr_word.specs.Header.{header_word, IsHeader, IsHeaderOrZero};

    /// The header of an object with these parts. Length and place have to be below 2^24; a plain object has no elements, and what has none has place 0.
    #[inline]
    pub fn pack(parts: HeaderParts) -> Self
        requires { IsHeader parts }
        ensures { result.0 ≡ header_word parts }
    {
        let length = u64::from(parts.length) << 4;
        let place = u64::from(parts.place) << 28;
        Header(parts.kind.code() + length + place)
    }

    /// What a word says as a header, if it is well formed.
    #[inline]
    pub fn parts(word: u64) -> Option<HeaderParts>
        ensures sound { IfSome result (λ parts. IsHeader parts × (word ≡ header_word parts)) }
        ensures complete { (parts : _) → IsHeader parts → word ≡ header_word parts → result ≡ Some parts }
    {
        if word >> 52 != 0 {
            return None;
        }
        let parts = HeaderParts {
            kind: Kind::from_code(word & 0xf)?,
            length: u24_at(word, 4),
            place: u24_at(word, 28),
        };
        if parts.agree() { Some(parts) } else { None }
    }

    /// What a word says that is 0, as where there is no header, or the word of one: the same as `parts`, with no check.
    #[inline]
    pub fn of_word(word: u64) -> Option<HeaderParts>
        requires { IsHeaderOrZero word }
        ensures none { word ≡ 0 → result ≡ None }
        ensures header { (parts : _) → IsHeader parts → word ≡ header_word parts → result ≡ Some parts }
    {
        if word == 0 {
            return None;
        }
        Some(HeaderParts {
            kind: Kind::of_code(word & 0xf),
            length: u24_at(word, 4),
            place: u24_at(word, 28),
        })
    }
}
