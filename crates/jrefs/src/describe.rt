//! What a word says as a handle, in words, and the word that it is today.

ghost use Rattle.std.specs.Prelude.{◌≡◌, false, [], ◌∷◌, ◌++◌, IfOk, string_bytes};
ghost use Rattle.std.specs.Fmt.{digits};
ghost use Rattle.std.specs.Char.{is_ascii_hexdigit};
ghost use Rattle.std.specs.List.{list_all};
ghost use Rattle.jrefs.specs.Describe.{kind_word, hex_value, parts_line, Describes, SaysWidened};

use jr_word::{Handle, HandleParts, RefKind};
use std::alloc::{AllocError, Global};

/// How many hexadecimal digits a word has at most.
const MOST_DIGITS: usize = 16;

/// The word that 1 to 16 hexadecimal digits of either case stand for.
pub(crate) fn word_of_hex(text: &str) -> Option<u64>
    ensures { result ≡ hex_value text.now }
{
    if text.is_empty() || text.len() > MOST_DIGITS || !are_digits(text.as_bytes()) {
        return None;
    }
    u64::from_str_radix(text, 16).ok()
}

/// Whether all bytes are hexadecimal digits.
fn are_digits(text: &[u8]) -> bool
    ensures { result ≡ list_all is_ascii_hexdigit text.now }
{
    text.iter().all(|byte| byte.is_ascii_hexdigit())
}

/// The name of a kind of reference.
fn name_of(kind: RefKind) -> &'static str
    ensures { result.now ≡ kind_word kind }
{
    match kind {
        RefKind::Local => "local",
        RefKind::Global => "global",
        RefKind::Weak => "weak",
    }
}

/// A line that says what a word is as a handle: `null`, `invalid`, or its parts.
pub(crate) fn description_of(alloc: Global, word: u64) -> Result<String, AllocError>
    ensures { IfOk result (λ text. Describes word (string_bytes text)) }
{
    if Handle(word) == Handle::NULL {
        return format!(in alloc; "null\n");
    }
    match Handle::parts(word) {
        Some(parts) => line_of(alloc, parts),
        None => format!(in alloc; "invalid\n"),
    }
}

/// The line of a handle's parts.
fn line_of(alloc: Global, parts: HandleParts) -> Result<String, AllocError>
    ensures { IfOk result (λ text. string_bytes text ≡ parts_line parts) }
{
    let HandleParts {
        kind,
        serial,
        index,
        owner,
    } = parts;
    let kind = name_of(kind);
    format!(in alloc; "{kind} serial {serial} index {index} owner {owner}\n")
}

/// A line that says what a word of the earlier layout is today: `null`, `invalid`, or the word in hexadecimal digits.
pub(crate) fn widened_of(alloc: Global, word: u64) -> Result<String, AllocError>
    ensures { IfOk result (λ text. SaysWidened word (string_bytes text)) }
{
    match Handle::widen(word) {
        Some(0) => format!(in alloc; "null\n"),
        Some(wide) => digits_line(alloc, wide),
        _ => format!(in alloc; "invalid\n"),
    }
}

/// A line of a word in hexadecimal digits.
fn digits_line(alloc: Global, word: u64) -> Result<String, AllocError>
    ensures { IfOk result (λ text. string_bytes text ≡ digits 16 false word ++ 10 ∷ []) }
{
    format!(in alloc; "{word:x}\n")
}
