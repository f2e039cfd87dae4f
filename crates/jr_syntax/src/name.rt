//! Names of threads and of what their commands make, and references by them.

ghost use Rattle.std.specs.Prelude.{◌≡◌, true};
ghost use Rattle.std.specs.List.{list_all};
ghost use Rattle.std.specs.Str.{bytes_eq};
ghost use Rattle.jr_syntax.specs.Name.{is_letter as letter, is_digit as digit, is_name_byte as name_byte, is_name as name_word, is_reference as reference_word};

use std::cmp::Ordering;
use std::marker::Model;

/// A name: a letter a to z, and at most 15 of a to z and 0 to 9 behind it; not `null`.
#[derive(Debug, Drop)]
pub struct Name {
    text: [u8; 16],
    len: usize,
}

impl Model for Name {
    ghost use Rattle.std.specs.Prelude.{List, ℕ, take};
    ghost use Rattle.jr_syntax.specs.Name.{IsKept};

    ghost Value = { List ℕ };

    ghost view = { λ n. take n.len n.text };

    ghost invariant = { λ n. IsKept n.text n.len };
}

impl Name {
    /// The name that a word is.
    pub fn new(word: &[u8]) -> Name
        requires { name_word word.now ≡ true }
        ensures { result ≡ word.now }
    {
        let mut text = [0; 16];
        text[..word.len()].copy_from_slice(word);
        Name {
            text,
            len: word.len(),
        }
    }

    /// The same name again; takes no memory.
    pub fn copy(&self) -> Name
        ensures { result ≡ self.now }
    {
        Name {
            text: self.text,
            len: self.len,
        }
    }

    /// Its bytes.
    pub fn as_slice(&self) -> &[u8]
        ensures text { result.now ≡ self.now }
        ensures form { name_word self.now ≡ true }
    {
        &self.text[..self.len]
    }

    /// Whether a word is this name.
    pub fn is(&self, word: &[u8]) -> bool
        ensures { result ≡ bytes_eq word.now self.now }
    {
        word == self.as_slice()
    }
}

/// The name `a`.
impl Default for Name {
    ghost use Rattle.std.specs.Prelude.{◌≡◌, codes};

    ghost is_default = { λ name. name ≡ codes "a" };

    fn default() -> Name {
        Name::new(b"a")
    }
}

impl PartialEq for Name {
    ghost use Rattle.std.proofs.Common.{rules};
    ghost use Rattle.std.specs.Str.{bytes_eq};
    ghost use Rattle.std.specs.Cmp.Rules.{comparing};

    ghost eq = { λ a b. bytes_eq a b };

    ghost laws = { Prim.search (comparing, rules) };

    fn eq(&self, other: &Name) -> bool {
        self.as_slice() == other.as_slice()
    }
}

impl Eq for Name {
    ghost use Rattle.std.proofs.Common.{rules};
    ghost use Rattle.std.specs.Cmp.Rules.{comparing};

    ghost laws = { Prim.search (comparing, rules) };
}

impl PartialOrd for Name {
    ghost use Rattle.std.proofs.Common.{rules};
    ghost use Rattle.std.specs.Ordering.{nat_cmp, as_partial_cmp};
    ghost use Rattle.std.specs.Cmp.Lexicographic.{slice_cmp};
    ghost use Rattle.std.specs.Cmp.Rules.{comparing};
    ghost use Rattle.std.specs.Cmp.{partial_order_from_own_ties};

    ghost partial_cmp = { as_partial_cmp (slice_cmp nat_cmp) };

    ghost laws = { partial_order_from_own_ties (Prim.search (comparing, rules)) (Prim.search (comparing, rules)) };

    fn partial_cmp(&self, other: &Name) -> Option<Ordering> {
        Some(self.cmp(other))
    }
}

/// Names are in the order of their bytes.
impl Ord for Name {
    ghost use Rattle.std.proofs.Common.{rules, refl};
    ghost use Rattle.std.specs.Ordering.{nat_cmp};
    ghost use Rattle.std.specs.Cmp.Lexicographic.{slice_cmp};
    ghost use Rattle.std.specs.Cmp.Rules.{comparing};

    ghost cmp = { slice_cmp nat_cmp };

    ghost total = { Prim.search (comparing, rules) };

    ghost matches_partial_cmp = { λ x y. refl };

    ghost matches_eq = { Prim.search (comparing, rules) };

    fn cmp(&self, other: &Name) -> Ordering {
        self.as_slice().cmp(other.as_slice())
    }
}

/// What a command refers to.
#[derive(Debug, Drop, PartialEq, Eq)]
pub enum Reference {
    /// `null`.
    Null,
    /// What a name stands for.
    Named(Name),
}

impl Reference {
    ghost use Rattle.std.specs.Prelude.{◌≡◌};
    ghost use Rattle.jr_syntax.specs.Reference.{reference_word as word_of};

    /// Its word, as a command's line has it.
    pub fn word(&self) -> &[u8]
        ensures { result.now ≡ word_of self.now }
    {
        match self {
            Reference::Null => b"null",
            Reference::Named(name) => name.as_slice(),
        }
    }
}

fn is_letter(byte: u8) -> bool
    ensures { result ≡ letter byte }
{
    byte >= b'a' && byte <= b'z'
}

/// Whether a byte is a digit 0 to 9.
pub fn is_digit(byte: u8) -> bool
    ensures { result ≡ digit byte }
{
    byte >= b'0' && byte <= b'9'
}

fn is_name_byte(byte: u8) -> bool
    ensures { result ≡ name_byte byte }
{
    is_letter(byte) || is_digit(byte)
}

fn all_name_bytes(word: &[u8]) -> bool
    ensures { result ≡ list_all name_byte word.now }
{
    word.iter().all(|c| is_name_byte(*c))
}

/// Whether a word is a name.
pub fn is_name(word: &[u8]) -> bool
    ensures { result ≡ name_word word.now }
{
    !word.is_empty()
        && word.len() <= 16
        && is_letter(word[0])
        && all_name_bytes(word)
        && word != b"null".as_slice()
}

/// Whether a word is a name or `null`.
pub fn is_reference(word: &[u8]) -> bool
    ensures { result ≡ reference_word word.now }
{
    word == b"null".as_slice() || is_name(word)
}
