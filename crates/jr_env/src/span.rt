//! The elements that a call asks of an object.

/// The elements that a call asks of an object: so many, from an index on.
#[derive(Clone, Copy, Debug, PartialEq, Eq)]
pub struct Span {
    /// The index of the first.
    pub start: u32,
    /// How many.
    pub count: usize,
}

impl Span {
    ghost use Rattle.std.specs.Prelude.{◌≡◌};

    /// The element of an index.
    pub const fn at(index: u32) -> Span
        ensures start { result.start ≡ index }
        ensures count { result.count ≡ 1 }
    {
        Span {
            start: index,
            count: 1,
        }
    }
}
