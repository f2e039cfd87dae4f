//! What a word is as a handle.

ghost use Rattle.std.specs.Prelude.{◌≡◌, IfOk, string_bytes};
ghost use Rattle.jexplain.specs.Word.{TellsWord, handle_line, logged_word, no_handle_line};

use jr_word::{Handle, HandleParts, RefKind};
use std::alloc::{AllocError, Global};

/// The word that a text says: decimal digits, or `0x` and hexadecimal digits.
pub(crate) fn word_of(text: &str) -> Option<u64> {
    let (digits, radix) = match text.strip_prefix("0x") {
        Some(digits) => (digits, 16),
        None => (text, 10),
    };
    if digits.starts_with('+') {
        return None;
    }
    u64::from_str_radix(digits, radix).ok()
}

/// A word as logs have it: `0x` and hexadecimal digits.
fn hex_of(alloc: Global, word: u64) -> Result<String, AllocError>
    ensures { IfOk result (λ text. string_bytes text ≡ logged_word word) }
{
    format!(in alloc; "0x{word:x}")
}

/// What a word is as a handle, in a line.
pub(crate) fn told(alloc: Global, word: u64) -> Result<String, AllocError>
    ensures { IfOk result (λ text. TellsWord word (string_bytes text)) }
{
    if Handle(word) == Handle::NULL {
        return format!(in alloc; "0x0 is NULL\n");
    }
    match Handle::parts(word) {
        Some(parts) => told_parts(alloc, word, parts),
        None => told_no_handle(alloc, word),
    }
}

/// That a word is no handle, in a line.
fn told_no_handle(alloc: Global, word: u64) -> Result<String, AllocError>
    ensures { IfOk result (λ text. string_bytes text ≡ no_handle_line (logged_word word)) }
{
    let hex = hex_of(alloc, word)?;
    line_of_no_handle(alloc, hex.as_str())
}

/// That a word is no handle, in a line behind it.
fn line_of_no_handle(alloc: Global, hex: &str) -> Result<String, AllocError>
    ensures { IfOk result (λ text. string_bytes text ≡ no_handle_line hex.now) }
{
    format!(in alloc; "{hex} is no handle: calls answer E2\n")
}

/// A handle's word and its parts, in a line.
fn told_parts(alloc: Global, word: u64, parts: HandleParts) -> Result<String, AllocError>
    ensures { IfOk result (λ text. string_bytes text ≡ handle_line (logged_word word) parts) }
{
    let hex = hex_of(alloc, word)?;
    line_of(alloc, hex.as_str(), parts)
}

/// A handle's parts, in a line behind its word.
fn line_of(alloc: Global, hex: &str, parts: HandleParts) -> Result<String, AllocError>
    ensures { IfOk result (λ text. string_bytes text ≡ handle_line hex.now parts) }
{
    let HandleParts {
        kind,
        serial,
        index,
        owner,
    } = parts;
    match kind {
        RefKind::Local => {
            format!(in alloc;
                "{hex} is a local reference of thread {owner}: place {index}, serial {serial}\n"
            )
        }
        RefKind::Global => {
            format!(in alloc; "{hex} is a global reference: slot {index}, serial {serial}\n")
        }
        RefKind::Weak => {
            format!(in alloc; "{hex} is a weak global reference: slot {index}, serial {serial}\n")
        }
    }
}
