//! The words of a line.

ghost use Rattle.std.specs.Prelude.{◌≡◌, IfSome, IfNone, MatchOption, ◌==◌, ◌<◌, ◌+◌, take, drop, length, [], ◌∷◌};
ghost use Rattle.std.specs.List.{slice_split, position};
ghost use Rattle.jr_syntax.specs.Line.{words_of};

use std::marker::Model;

fn position_of(byte: u8, bytes: &[u8]) -> Option<usize>
    ensures { result ≡ position (λ b. b == byte) bytes.now }
{
    bytes.iter().position(|b| *b == byte)
}

/// Where a byte stands first: the bytes before it are one piece, and those behind it have the others.
pub fn first_at(byte: u8, bytes: &[u8]) -> Option<usize>
    ensures { MatchOption result
        (slice_split (λ b. b == byte) bytes.now ≡ bytes.now ∷ [])
        (λ i. (i < length bytes.now) × (slice_split (λ b. b == byte) bytes.now ≡ take i bytes.now ∷ slice_split (λ b. b == byte) (drop (i + 1) bytes.now))) }
{
    position_of(byte, bytes)
}

/// The words of a line, or those that are left of them.
#[derive(Drop)]
pub struct LineWords<'a> {
    rest: Option<&'a [u8]>,
}

impl<'a> Model for LineWords<'a> {
    ghost use Rattle.std.specs.Prelude.{List, ℕ};
    ghost use Rattle.jr_syntax.specs.Line.{words_left};

    ghost Value = { List (List ℕ) };

    ghost view = { λ w. words_left w.rest };
}

impl<'a> LineWords<'a> {
    /// The words of a line.
    pub fn new(line: &'a [u8]) -> LineWords<'a>
        ensures { result ≡ words_of line.now }
    {
        LineWords { rest: Some(line) }
    }

    /// The next word.
    pub fn next(&mut self) -> Option<&'a [u8]>
        ensures none { IfNone result ((self.old ≡ []) × (self.new ≡ [])) }
        ensures some { IfSome result (λ word. self.old ≡ word.now ∷ self.new) }
    {
        let line = self.rest?;
        match first_at(b' ', line) {
            None => {
                self.rest = None;
                Some(line)
            }
            Some(at) => {
                self.rest = Some(&line[at + 1..]);
                Some(&line[..at])
            }
        }
    }
}
