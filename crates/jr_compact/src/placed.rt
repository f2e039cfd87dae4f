//! Objects with the places of their elements.
ghost use Rattle.std.specs.Prelude.{◌≡◌};
ghost use Rattle.jr_compact.specs.Noting.{placed_of};

use jr_word::{HeaderParts, Kind};

/// A present object that has elements, with its header, which says where they stand.
#[derive(Clone, Copy, Debug, PartialEq, Eq)]
pub struct PlacedObject {
    /// The number of the object.
    pub object: u16,
    /// Its header.
    pub header: HeaderParts,
}

impl PlacedObject {
    /// What a place of a buffer has before an object is noted there. It is not all zeros, so that a new buffer's memory is written when it is made, and no collection waits for its pages.
    pub const UNUSED: PlacedObject = PlacedObject {
        object: u16::MAX,
        header: HeaderParts {
            kind: Kind::Plain,
            length: 0,
            place: 0,
        },
    };

    /// The object with the header that was found, if it has elements.
    pub(crate) fn of(object: u16, header: Option<HeaderParts>) -> Option<Self>
        ensures { result ≡ placed_of object header }
    {
        let header = header?;
        if header.length == 0 {
            return None;
        }
        Some(PlacedObject { object, header })
    }
}
