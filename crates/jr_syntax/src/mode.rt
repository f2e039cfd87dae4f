//! The words of modes: what becomes of copied elements.

ghost use Rattle.std.specs.Prelude.{◌≡◌, true};
ghost use Rattle.jr_syntax.specs.Modes.{is_mode_word, mode_of, word_of_mode};

use jr_model::Mode;

/// Whether a word is one of a mode.
pub fn is_mode(word: &[u8]) -> bool
    ensures { result ≡ is_mode_word word.now }
{
    word == b"copy".as_slice() || word == b"commit".as_slice() || word == b"abort".as_slice()
}

/// The mode that such a word says.
pub fn mode_at(word: &[u8]) -> Mode
    ensures { result ≡ mode_of word.now }
{
    if word == b"copy".as_slice() {
        Mode::Copy
    } else if word == b"commit".as_slice() {
        Mode::Commit
    } else {
        Mode::Abort
    }
}

/// The word of a mode.
pub fn mode_word(mode: Mode) -> &'static [u8]
    ensures { result.now ≡ word_of_mode mode }
{
    match mode {
        Mode::Copy => b"copy",
        Mode::Commit => b"commit",
        Mode::Abort => b"abort",
    }
}
