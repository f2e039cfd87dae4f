//! Handles of the earlier layout, whose serials have 16 bits.

ghost use Rattle.std.specs.Prelude.{◌≡◌, Some, IfSome};
ghost use Rattle.jr_word.specs.Narrow.{narrow_handle_word, IsNarrowHandle, Widens};

use crate::bits::u16_at;
use crate::handle::{Handle, HandleParts, RefKind};

/// What a word of the earlier layout says as a handle, if it is well formed.
#[inline]
fn narrow_parts(word: u64) -> Option<HandleParts>
    ensures sound { IfSome result (λ parts. IsNarrowHandle parts × (word ≡ narrow_handle_word parts)) }
    ensures complete { (parts : _) → IsNarrowHandle parts → word ≡ narrow_handle_word parts → result ≡ Some parts }
{
    let kind = RefKind::from_code(word & 3)?;
    let owner = word >> 34;
    if owner >= kind.owner_limit() {
        return None;
    }
    Some(HandleParts {
        kind,
        serial: u32::from(u16_at(word, 2)),
        index: u16_at(word, 18),
        owner: owner as u8,
    })
}

impl Handle {
    /// The word that a word of the earlier layout, whose serials have 16 bits, is today: 0 where it is 0, and the word of the same parts where it is a handle.
    #[inline]
    pub fn widen(word: u64) -> Option<u64>
        ensures sound { IfSome result (λ wide. Widens word wide) }
        ensures complete { (wide : _) → Widens word wide → result ≡ Some wide }
    {
        if word == 0 {
            return Some(0);
        }
        let parts = narrow_parts(word)?;
        Some(Handle::pack(parts).0)
    }
}
