//! The words of slots.

use crate::bits::{u16_at, u32_at};

/// What the word of a slot says.
#[derive(Clone, Copy, Debug, PartialEq, Eq)]
pub enum SlotParts {
    /// The next reference here has this serial.
    Free { serial: u32 },
    /// Never used again.
    Retired { serial: u32 },
    /// A global reference to an object, numbered from 1.
    Global { serial: u32, object: u16 },
    /// A weak global reference, to no object where it is cleared.
    Weak { serial: u32, object: Option<u16> },
}

/// The word of a slot.
#[derive(Clone, Copy, Debug, PartialEq, Eq)]
pub struct SlotWord(pub u64);

impl SlotWord {
    ghost use Rattle.std.specs.Prelude.{◌≡◌, IfSome};
    ghost use Rattle.jr_word.specs.Slot.{slot_word, IsSlot, IsSlotWord, NamesObject};

    /// The word of a slot with these parts. An object's number has to be 1 at least.
    #[inline]
    pub fn pack(parts: SlotParts) -> Self
        requires { NamesObject parts }
        ensures { result.0 ≡ slot_word parts }
    {
        let (state, serial, object) = match parts {
            SlotParts::Free { serial } => (0, serial, 0),
            SlotParts::Retired { serial } => (1, serial, 0),
            SlotParts::Global { serial, object } => (2, serial, object),
            SlotParts::Weak { serial, object } => (3, serial, object.unwrap_or(0)),
        };
        SlotWord(state + (u64::from(serial) << 2) + (u64::from(object) << 34))
    }

    /// What a word says of a slot, if it is well formed.
    #[inline]
    pub fn parts(word: u64) -> Option<SlotParts>
        ensures sound { IfSome result (λ parts. IsSlot parts × (word ≡ slot_word parts)) }
        ensures complete { (parts : _) → IsSlot parts → word ≡ slot_word parts → result ≡ Some parts }
    {
        if word >> 50 != 0 {
            return None;
        }
        let serial = u32_at(word, 2);
        let object = u16_at(word, 34);
        match (word & 3, object) {
            (0, 0) => Some(SlotParts::Free { serial }),
            (1, 0) => Some(SlotParts::Retired { serial }),
            (2, 1..) => Some(SlotParts::Global { serial, object }),
            (3, 0) => Some(SlotParts::Weak {
                serial,
                object: None,
            }),
            (3, _) => Some(SlotParts::Weak {
                serial,
                object: Some(object),
            }),
            _ => None,
        }
    }

    /// What a word says of a slot that is the word of one: the same as `parts`, with no check.
    #[inline]
    pub fn of_word(word: u64) -> SlotParts
        requires { IsSlotWord word }
        ensures { (parts : _) → IsSlot parts → word ≡ slot_word parts → result ≡ parts }
    {
        let serial = u32_at(word, 2);
        let object = u16_at(word, 34);
        match (word & 3, object) {
            (0, _) => SlotParts::Free { serial },
            (1, _) => SlotParts::Retired { serial },
            (2, _) => SlotParts::Global { serial, object },
            (_, 0) => SlotParts::Weak {
                serial,
                object: None,
            },
            _ => SlotParts::Weak {
                serial,
                object: Some(object),
            },
        }
    }
}
