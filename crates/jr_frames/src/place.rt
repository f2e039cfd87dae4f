//! What a place for a local reference holds.
ghost use Rattle.std.specs.Prelude.{◌≡◌, ◌<◌, ◌+◌, ◌^◌, ◌↔◌, IsTrue};
ghost use Rattle.jr_word.specs.declared.handle.RefKind.TheVariants.{Local};
ghost use Rattle.jr_frames.specs.Places.{given_of};

use jr_word::{HandleParts, RefKind};

/// How many numbers the lower part of a count has.
const ROUND: u64 = 1 << 32;

/// A place for a local reference, which takes eight bytes.
#[derive(Clone, Copy, Default)]
pub(crate) struct Place {
    /// The lower 32 bits of how many handles it has given: those of serials 0 upward.
    low: u32,
    /// The upper 16 bits.
    high: u16,
    /// The object of the reference here, 0 where it is free or retired.
    pub(crate) object: u16,
}

impl Place {
    /// How many handles it has given.
    pub(crate) fn given(&self) -> u64
        ensures { result ≡ given_of self.now }
    {
        u64::from(self.low) + ROUND * u64::from(self.high)
    }

    /// Gives one more handle, to a reference to the object.
    pub(crate) fn give(&mut self, object: u16)
        requires { given_of self.old + 1 < 2 ^ 48 }
        ensures given { given_of self.new ≡ given_of self.old + 1 }
        ensures object { self.new.object ≡ object }
    {
        let given = self.given() + 1;
        self.low = (given % ROUND) as u32;
        self.high = (given / ROUND) as u16;
        self.object = object;
    }

    /// Whether a handle of this place is the last that it gave, to the thread.
    pub(crate) fn gave_last(&self, thread: u8, handle: HandleParts) -> bool
        ensures { IsTrue result ↔ ((handle.kind ≡ Local) × (handle.serial + 1 ≡ given_of self.now) × (handle.owner ≡ thread)) }
    {
        handle.kind == RefKind::Local
            && u64::from(handle.serial) + 1 == self.given()
            && handle.owner == thread
    }
}
