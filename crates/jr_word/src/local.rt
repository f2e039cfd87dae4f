//! The words of places for local references.

/// What the word of a local place says.
#[derive(Clone, Copy, Debug, PartialEq, Eq)]
pub enum LocalParts {
    /// No reference.
    Free,
    /// A reference to an object, numbered from 1.
    Object(u16),
}

/// The word of a local place.
#[derive(Clone, Copy, Debug, PartialEq, Eq)]
pub struct LocalWord(pub u64);

impl LocalWord {
    ghost use Rattle.std.specs.Prelude.{◌≡◌, IfSome};
    ghost use Rattle.jr_word.specs.Local.{local_word, IsLocalPlace};

    /// The word of a local place with these parts. An object's number has to be 1 at least.
    #[inline]
    pub fn pack(parts: LocalParts) -> Self
        requires { IsLocalPlace parts }
        ensures { result.0 ≡ local_word parts }
    {
        match parts {
            LocalParts::Free => LocalWord(0),
            LocalParts::Object(object) => LocalWord(u64::from(object)),
        }
    }

    /// What a word says of a local place, if it is well formed.
    #[inline]
    pub fn parts(word: u64) -> Option<LocalParts>
        ensures sound { IfSome result (λ parts. IsLocalPlace parts × (word ≡ local_word parts)) }
        ensures complete { (parts : _) → IsLocalPlace parts → word ≡ local_word parts → result ≡ Some parts }
    {
        match word {
            0 => Some(LocalParts::Free),
            1..=0xffff => Some(LocalParts::Object(word as u16)),
            _ => None,
        }
    }
}
