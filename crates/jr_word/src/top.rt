//! The word of the top: how much array space is reserved.

use crate::bits::u24_at;

/// What the word of the top says.
#[derive(Clone, Copy, Debug, PartialEq, Eq)]
pub struct TopParts {
    /// Words reserved, below 2^24.
    pub used: u32,
}

/// The word of the top.
#[derive(Clone, Copy, Debug, PartialEq, Eq)]
pub struct TopWord(pub u64);

impl TopWord {
    ghost use Rattle.std.specs.Prelude.{◌≡◌, IfSome};
    ghost use Rattle.jr_word.specs.Top.{top_word, IsTop};

    /// The word of a top with these parts. Fewer than 2^24 words have to be reserved.
    #[inline]
    pub fn pack(parts: TopParts) -> Self
        requires { IsTop parts }
        ensures { result.0 ≡ top_word parts }
    {
        TopWord(u64::from(parts.used))
    }

    /// What a word says of the top, if it is well formed.
    #[inline]
    pub fn parts(word: u64) -> Option<TopParts>
        ensures sound { IfSome result (λ parts. IsTop parts × (word ≡ top_word parts)) }
        ensures complete { (parts : _) → IsTop parts → word ≡ top_word parts → result ≡ Some parts }
    {
        if word >> 24 != 0 {
            return None;
        }
        let used = u24_at(word, 0);
        Some(TopParts { used })
    }
}
