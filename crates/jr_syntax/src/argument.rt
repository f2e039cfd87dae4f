//! The arguments of a command, each one word.

ghost use Rattle.std.specs.Prelude.{◌≡◌, ◌∷◌, ◌++◌, true, OnOk};
ghost use Rattle.jr_syntax.specs.Kind.{WordKind, reading, ReadsWord, Reads, nothing, one as one_of, two as two_of, three as three_of, name};
ghost use Rattle.jr_syntax.specs.Line.{line};
ghost use Rattle.jr_syntax.specs.Reference.{reference};
ghost use Rattle.jr_syntax.specs.Count.{count, tries};
ghost use Rattle.jr_syntax.specs.Units.{unit};
ghost use Rattle.jr_syntax.specs.Value.{value};
ghost use Rattle.jr_syntax.specs.Modes.{mode};

use crate::mode::{is_mode, mode_at, mode_word};
use crate::name::{Name, Reference, is_name, is_reference};
use crate::number::{is_number, number_up_to};
use crate::tries::Tries;
use crate::value::{is_value, long_of};
use crate::word::LineWords;
use jr_model::Mode;
use std::alloc::AllocError;

/// The greatest count.
const MOST_COUNT: u32 = 16_777_215;

/// The greatest unit.
const MOST_UNIT: u32 = 65_535;

/// Why words are not what they should be.
#[derive(Clone, Copy)]
pub enum LineError {
    /// They have not the form.
    Form,
    /// A number is outside its bounds.
    Range,
}

/// What one word of a line may stand for.
pub trait Argument: Sized + Drop {
    ghost kind: { WordKind Self };

    /// Whether a word has the form, its size aside.
    fn has_form(word: &[u8]) -> bool
        ensures { result ≡ kind.has_form word.now };

    /// What a word of the form stands for, or `None` where it is a number out of range.
    fn read(word: &[u8]) -> Option<Self>
        requires { kind.has_form word.now ≡ true }
        ensures { ReadsWord kind word.now result };

    /// Writes its word.
    fn put(&self, out: &mut Vec<u8>) -> Result<(), AllocError>
        ensures { OnOk result (out.new.items ≡ out.old.items ++ kind.spell self.now) };
}

impl Argument for Name {
    ghost kind = { name };

    fn has_form(word: &[u8]) -> bool {
        is_name(word)
    }

    fn read(word: &[u8]) -> Option<Name> {
        Some(Name::new(word))
    }

    fn put(&self, out: &mut Vec<u8>) -> Result<(), AllocError> {
        out.extend_from_slice(self.as_slice())?;
        Ok(())
    }
}

impl Argument for Reference {
    ghost kind = { reference };

    fn has_form(word: &[u8]) -> bool {
        is_reference(word)
    }

    fn read(word: &[u8]) -> Option<Reference> {
        if word == b"null".as_slice() {
            Some(Reference::Null)
        } else {
            Some(Reference::Named(Name::new(word)))
        }
    }

    fn put(&self, out: &mut Vec<u8>) -> Result<(), AllocError> {
        out.extend_from_slice(self.word())?;
        Ok(())
    }
}

impl Argument for u32 {
    ghost kind = { count };

    fn has_form(word: &[u8]) -> bool {
        is_number(word)
    }

    fn read(word: &[u8]) -> Option<u32> {
        number_up_to(word, MOST_COUNT)
    }

    fn put(&self, out: &mut Vec<u8>) -> Result<(), AllocError> {
        let digits = format!(in *out.allocator(); "{self}")?;
        out.extend_from_slice(digits.as_bytes())?;
        Ok(())
    }
}

impl Argument for Tries {
    ghost kind = { tries };

    fn has_form(word: &[u8]) -> bool {
        is_number(word)
    }

    fn read(word: &[u8]) -> Option<Tries> {
        let count = number_up_to(word, MOST_COUNT)?;
        if count == 0 {
            return None;
        }
        Some(Tries::new(count))
    }

    fn put(&self, out: &mut Vec<u8>) -> Result<(), AllocError> {
        self.count().put(out)
    }
}

impl Argument for u16 {
    ghost kind = { unit };

    fn has_form(word: &[u8]) -> bool {
        is_number(word)
    }

    fn read(word: &[u8]) -> Option<u16> {
        let unit = number_up_to(word, MOST_UNIT)?;
        Some(unit as u16)
    }

    fn put(&self, out: &mut Vec<u8>) -> Result<(), AllocError> {
        let unit = format!(in *out.allocator(); "{self}")?;
        out.extend_from_slice(unit.as_bytes())?;
        Ok(())
    }
}

impl Argument for i64 {
    ghost kind = { value };

    fn has_form(word: &[u8]) -> bool {
        is_value(word)
    }

    fn read(word: &[u8]) -> Option<i64> {
        long_of(word)
    }

    fn put(&self, out: &mut Vec<u8>) -> Result<(), AllocError> {
        let value = format!(in *out.allocator(); "{self}")?;
        out.extend_from_slice(value.as_bytes())?;
        Ok(())
    }
}

impl Argument for Mode {
    ghost kind = { mode };

    fn has_form(word: &[u8]) -> bool {
        is_mode(word)
    }

    fn read(word: &[u8]) -> Option<Mode> {
        Some(mode_at(word))
    }

    fn put(&self, out: &mut Vec<u8>) -> Result<(), AllocError> {
        out.extend_from_slice(mode_word(*self))?;
        Ok(())
    }
}

/// Reads words that are no argument.
pub fn none(mut words: LineWords) -> Result<(), LineError>
    ensures { Reads (reading nothing) words.entry result }
{
    if words.next().is_some() {
        return Err(LineError::Form);
    }
    Ok(())
}

/// Reads words that are one argument.
pub fn one<A: Argument>(mut words: LineWords) -> Result<A, LineError>
    ensures { Reads (reading (one_of A.kind)) words.entry result }
{
    let (Some(a), None) = (words.next(), words.next()) else {
        return Err(LineError::Form);
    };
    if !A::has_form(a) {
        return Err(LineError::Form);
    }
    let Some(a) = A::read(a) else {
        return Err(LineError::Range);
    };
    Ok(a)
}

/// Reads words that are two arguments.
pub fn two<A: Argument, B: Argument>(mut words: LineWords) -> Result<(A, B), LineError>
    ensures { Reads (reading (two_of A.kind B.kind)) words.entry result }
{
    let (Some(a), Some(b), None) = (words.next(), words.next(), words.next()) else {
        return Err(LineError::Form);
    };
    if !A::has_form(a) || !B::has_form(b) {
        return Err(LineError::Form);
    }
    let (Some(a), Some(b)) = (A::read(a), B::read(b)) else {
        return Err(LineError::Range);
    };
    Ok((a, b))
}

/// Reads words that are three arguments.
pub fn three<A: Argument, B: Argument, C: Argument>(
    mut words: LineWords,
) -> Result<(A, B, C), LineError>
    ensures { Reads (reading (three_of A.kind B.kind C.kind)) words.entry result }
{
    let (Some(a), Some(b), Some(c), None) = (words.next(), words.next(), words.next(), words.next())
    else {
        return Err(LineError::Form);
    };
    if !A::has_form(a) || !B::has_form(b) || !C::has_form(c) {
        return Err(LineError::Form);
    }
    let (Some(a), Some(b), Some(c)) = (A::read(a), B::read(b), C::read(c)) else {
        return Err(LineError::Range);
    };
    Ok((a, b, c))
}

/// Writes a word with no argument behind it.
pub fn put_none(out: &mut Vec<u8>, word: &[u8]) -> Result<(), AllocError>
    ensures { OnOk result (out.new.items ≡ out.old.items ++ line (word.now ∷ nothing.spell tt)) }
{
    out.extend_from_slice(word)?;
    Ok(())
}

/// Writes a word and one argument behind it.
pub fn put_one<A: Argument>(out: &mut Vec<u8>, word: &[u8], a: &A) -> Result<(), AllocError>
    ensures { OnOk result (out.new.items ≡ out.old.items ++ line (word.now ∷ (one_of A.kind).spell a.now)) }
{
    out.extend_from_slice(word)?;
    out.push(b' ')?;
    a.put(out)?;
    Ok(())
}

/// Writes a word and two arguments behind it.
pub fn put_two<A: Argument, B: Argument>(
    out: &mut Vec<u8>,
    word: &[u8],
    a: &A,
    b: &B,
) -> Result<(), AllocError>
    ensures { OnOk result (out.new.items ≡ out.old.items ++ line (word.now ∷ (two_of A.kind B.kind).spell (a.now, b.now))) }
{
    put_one(out, word, a)?;
    out.push(b' ')?;
    b.put(out)?;
    Ok(())
}

/// Writes a word and three arguments behind it.
pub fn put_three<A: Argument, B: Argument, C: Argument>(
    out: &mut Vec<u8>,
    word: &[u8],
    a: &A,
    b: &B,
    c: &C,
) -> Result<(), AllocError>
    ensures { OnOk result (out.new.items ≡ out.old.items ++ line (word.now ∷ (three_of A.kind B.kind C.kind).spell (a.now, b.now, c.now))) }
{
    put_two(out, word, a, b)?;
    out.push(b' ')?;
    c.put(out)?;
    Ok(())
}
