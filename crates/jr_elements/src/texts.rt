//! Text as the UTF-16 units of a string of the machine, and back.
ghost use Rattle.std.specs.Prelude.{◌≡◌, ◌≤◌, true, length, IfOk, IfErr, IfSome, IfNone};
ghost use Rattle.std.specs.Char.Utf16.{has_unpaired_surrogate};
ghost use Rattle.std.specs.String.{string_bytes, IsUtf16Of};
ghost use Rattle.jr_word.specs.declared.fault.Fault.TheVariants.{Memory};

use jr_word::Fault;
use std::alloc::Global;

/// The UTF-16 units of a text, as `new_string` takes them.
///
/// # Errors
///
/// E16 where the memory for them was refused. An empty text needs none.
pub fn utf16_of(alloc: Global, text: &str) -> Result<Vec<u16>, Fault>
    ensures units { IfOk result (λ units. IsUtf16Of units.items text.now) }
    ensures memory { IfErr result (λ e. (e ≡ Memory) × (1 ≤ length text.now)) }
{
    let mut units = Vec::new(alloc);
    if text.is_empty() {
        return Ok(units);
    }
    for c in text.chars() {
        let mut encoded = [0; 2];
        units
            .extend_from_slice(c.encode_utf16(&mut encoded))
            .map_err(|_| Fault::Memory)?;
    }
    Ok(units)
}

/// The text that UTF-16 units spell; none where a surrogate among them has no partner, since no text of Rust's has one.
///
/// # Errors
///
/// E16 where the memory for it was refused. That of no units needs none.
pub fn text_of(alloc: Global, units: &[u16]) -> Result<Option<String>, Fault>
    ensures text { IfOk result (λ text. IfSome text (λ it. IsUtf16Of units.now (string_bytes it))) }
    ensures none { IfOk result (λ text. IfNone text (has_unpaired_surrogate units.now ≡ true)) }
    ensures memory { IfErr result (λ e. (e ≡ Memory) × (1 ≤ length units.now)) }
{
    if units.is_empty() {
        return Ok(Some(String::new(alloc)));
    }
    let made: Result<Result<String, _>, _> = String::from_utf16(alloc, units);
    match made {
        Ok(text) => Ok(text.ok()),
        Err(_) => Err(Fault::Memory),
    }
}
