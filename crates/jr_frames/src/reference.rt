//! References as native code hands them in, and the tests that calls make of them.
ghost use Rattle.std.specs.Prelude.{◌≡◌};
ghost use Rattle.jr_model.specs.Checks.{Parts, is_local, is_of_kind, is_out_of_bounds, is_foreign};

use jr_word::{Config, Handle, HandleParts, RefKind};

/// What a word says that a caller hands in as a reference.
#[derive(Clone, Copy, Debug, PartialEq, Eq)]
pub enum Reference {
    /// NULL.
    Null,
    /// A word that is no handle.
    Malformed,
    /// A handle, which may name nothing.
    Parts(HandleParts),
}

impl Reference {
    ghost use Rattle.std.specs.Prelude.{◌≡◌};
    ghost use Rattle.jr_model.specs.Checks.{is_malformed, is_out_of_bounds, is_foreign};
    ghost use Rattle.jr_frames.specs.Reading.{IsReadAs, word_of, OwnerFits};

    /// Reads a handle.
    #[inline(always)]
    pub fn of(handle: Handle) -> Reference
        ensures reads { IsReadAs handle.0 (word_of result) }
        ensures owner { OwnerFits result }
    {
        if handle.0 == 0 {
            return Reference::Null;
        }
        match Handle::parts(handle.0) {
            Some(parts) => Reference::Parts(parts),
            None => Reference::Malformed,
        }
    }

    /// Whether it is neither NULL nor a handle.
    pub fn is_malformed(self) -> bool
        ensures { result ≡ is_malformed (word_of self) }
    {
        matches!(self, Reference::Malformed)
    }

    /// Whether it is a handle of a global or weak reference.
    pub(crate) fn is_shared(self) -> bool {
        match self {
            Reference::Parts(handle) => !names_local(handle),
            _ => false,
        }
    }

    /// Whether it is a handle that lies outside the room.
    pub fn lies_outside(self, config: Config) -> bool
        ensures { result ≡ is_out_of_bounds config (word_of self) }
    {
        match self {
            Reference::Parts(handle) => lies_outside(config, handle),
            _ => false,
        }
    }

    /// Whether it is a local of another thread.
    pub fn belongs_elsewhere(self, thread: u8) -> bool
        ensures { result ≡ is_foreign thread (word_of self) }
    {
        match self {
            Reference::Parts(handle) => belongs_elsewhere(thread, handle),
            _ => false,
        }
    }
}

/// Whether a handle is of the kind.
pub fn names_kind(kind: RefKind, handle: HandleParts) -> bool
    ensures { result ≡ is_of_kind kind (Parts handle) }
{
    handle.kind == kind
}

/// Whether a handle is local.
pub fn names_local(handle: HandleParts) -> bool
    ensures { result ≡ is_local handle }
{
    handle.kind == RefKind::Local
}

/// Whether a handle's index lies past the row, or a local's place or owner past the room's.
pub fn lies_outside(config: Config, handle: HandleParts) -> bool
    ensures { result ≡ is_out_of_bounds config (Parts handle) }
{
    if names_local(handle) {
        !(u32::from(handle.index) < config.locals && u32::from(handle.owner) < config.threads)
    } else {
        !(u32::from(handle.index) < config.slots)
    }
}

/// Whether a handle is a local of another thread.
pub fn belongs_elsewhere(thread: u8, handle: HandleParts) -> bool
    ensures { result ≡ is_foreign thread (Parts handle) }
{
    names_local(handle) && handle.owner != thread
}
