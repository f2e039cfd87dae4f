//! The lines of a text.

ghost use Rattle.std.specs.Prelude.{◌≡◌, IfNone, IfSome, [], ◌∷◌};
ghost use Rattle.std.specs.List.{list_all};
ghost use Rattle.jr_word.specs.Config.{is_between};
ghost use Rattle.jr_syntax.specs.Line.{lines_of};

use crate::word::first_at;
use std::marker::Model;

/// The lines of a text, or those that are left of them.
#[derive(Drop)]
pub struct Lines<'a> {
    rest: Option<&'a [u8]>,
}

impl<'a> Model for Lines<'a> {
    ghost use Rattle.std.specs.Prelude.{List, ℕ, Bool};
    ghost use Rattle.jr_syntax.specs.Line.{lines_left};

    ghost Value = { List (List ℕ × Bool) };

    ghost view = { λ l. lines_left l.rest };
}

impl<'a> Lines<'a> {
    /// The lines of a text.
    pub fn new(text: &'a [u8]) -> Lines<'a>
        ensures { result ≡ lines_of text.now }
    {
        Lines { rest: Some(text) }
    }

    /// The next line, and whether its line feed stands behind it.
    pub fn next(&mut self) -> Option<(&'a [u8], bool)>
        ensures none { IfNone result (self.old ≡ []) }
        ensures some { IfSome result (λ l. self.old ≡ (l.0.now, l.1) ∷ self.new) }
    {
        let text = self.rest?;
        match first_at(b'\n', text) {
            None => {
                self.rest = None;
                if text.is_empty() {
                    None
                } else {
                    Some((text, false))
                }
            }
            Some(at) => {
                self.rest = Some(&text[at + 1..]);
                Some((&text[..at], true))
            }
        }
    }
}

/// Whether each byte is one of 32 to 126.
pub fn is_printable(line: &[u8]) -> bool
    ensures { result ≡ list_all (is_between 32 126) line.now }
{
    line.iter().all(|byte| *byte >= 32 && *byte <= 126)
}
