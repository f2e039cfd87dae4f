//! Handles: references as native code holds them.

use crate::bits::{u16_at, u32_at};

/// The greatest serial. A room whose last serial it is has each slot and each local place give 4,294,967,296 handles.
pub const LAST_SERIAL: u32 = 4_294_967_295;

/// The kind of a reference.
#[derive(Clone, Copy, Debug, PartialEq, Eq)]
pub enum RefKind {
    /// Of one thread, in a frame.
    Local,
    /// Of all threads, until it is deleted.
    Global,
    /// Of all threads, until it is deleted; it may be cleared by a collection.
    Weak,
}

/// What a handle says.
#[derive(Clone, Copy, Debug, PartialEq, Eq)]
pub struct HandleParts {
    /// The kind of the reference.
    pub kind: RefKind,
    /// The handles of one slot or local place have serials from 0 up, in the order in which it gave them.
    pub serial: u32,
    /// The slot, or the place of a local reference.
    pub index: u16,
    /// The thread of a local reference, else 0.
    pub owner: u8,
}

/// A reference as native code holds it: a word of any value.
#[derive(Clone, Copy, Debug, PartialEq, Eq)]
pub struct Handle(pub u64);

impl RefKind {
    ghost use Rattle.std.specs.Prelude.{◌≡◌, IfSome};
    ghost use Rattle.jr_word.specs.Handle.{reference_code, owner_limit};

    /// The number of the kind: 1 local, 2 global, 3 weak.
    #[inline]
    pub fn code(self) -> u64
        ensures { result ≡ reference_code self }
    {
        match self {
            RefKind::Local => 1,
            RefKind::Global => 2,
            RefKind::Weak => 3,
        }
    }

    /// The kind with a number, if one has it.
    #[inline]
    pub fn from_code(code: u64) -> Option<Self>
        ensures sound { IfSome result (λ kind. code ≡ reference_code kind) }
        ensures complete { (kind : _) → code ≡ reference_code kind → result ≡ Some kind }
    {
        match code {
            1 => Some(RefKind::Local),
            2 => Some(RefKind::Global),
            3 => Some(RefKind::Weak),
            _ => None,
        }
    }

    /// How many threads can own a reference of the kind: all 64, or thread 0 alone.
    #[inline]
    pub(crate) fn owner_limit(self) -> u64
        ensures { result ≡ owner_limit self }
    {
        match self {
            RefKind::Local => 64,
            RefKind::Global | RefKind::Weak => 1,
        }
    }
}

impl Handle {
    ghost use Rattle.std.specs.Prelude.{◌≡◌, ◌≢◌, ◌↔◌, ◌<◌, IfSome, true};
    ghost use Rattle.jr_word.specs.declared.handle.RefKind.TheVariants.{Local};
    ghost use Rattle.jr_word.specs.declared.handle.HandleParts.{HandleParts};
    ghost use Rattle.jr_word.specs.Handle.{owner_limit, handle_word, or_null, IsHandle};

    /// The reference to null.
    pub const NULL: Self = Handle(0);

    /// What a call answered, as what another is handed: the handle, and NULL for none.
    #[inline]
    pub fn or_null(answer: Option<Self>) -> Self
        ensures { result ≡ or_null answer }
    {
        match answer {
            Some(handle) => handle,
            None => Handle::NULL,
        }
    }

    /// The handle with these parts. Only a local one has an owner other than 0, of the 64 that there may be.
    #[inline]
    pub fn pack(parts: HandleParts) -> Self
        requires { parts.owner < owner_limit parts.kind }
        ensures { result.0 ≡ handle_word parts }
    {
        let serial = u64::from(parts.serial) << 2;
        let index = u64::from(parts.index) << 34;
        let owner = u64::from(parts.owner) << 50;
        Handle(parts.kind.code() + serial + index + owner)
    }

    /// Whether it is a handle of a global or weak reference, of whatever slot.
    #[inline(always)]
    pub fn is_shared(self) -> bool
        ensures { (result ≡ true) ↔ ((parts : HandleParts) × IsHandle parts × (self.0 ≡ handle_word parts) × (parts.kind ≢ Local)) }
    {
        match Self::parts(self.0) {
            Some(parts) => parts.kind != RefKind::Local,
            None => false,
        }
    }

    /// What a word says as a handle, if it is well formed. NULL is none.
    #[inline]
    pub fn parts(word: u64) -> Option<HandleParts>
        ensures sound { IfSome result (λ parts. IsHandle parts × (word ≡ handle_word parts)) }
        ensures complete { (parts : _) → IsHandle parts → word ≡ handle_word parts → result ≡ Some parts }
    {
        // (by whether it is local first, and no match on the kind, so that the code has no jump table)
        let owner = word >> 50;
        let serial = u32_at(word, 2);
        let index = u16_at(word, 34);
        let code = word & 3;
        if code == 1 {
            if owner >= 64 {
                return None;
            }
            return Some(HandleParts {
                kind: RefKind::Local,
                serial,
                index,
                owner: owner as u8,
            });
        }
        if code == 0 || owner != 0 {
            return None;
        }
        let kind = if code == 2 {
            RefKind::Global
        } else {
            RefKind::Weak
        };
        Some(HandleParts {
            kind,
            serial,
            index,
            owner: 0,
        })
    }
}
