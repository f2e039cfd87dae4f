//! What a failed test says: what was asked, at which row, what was wanted and what came.
#![tactic(auto)]

ghost use Rattle.std.specs.Prelude.{◌≡◌, true, false, IfErr, IfOk};

use std::fmt::{Debug, Error, Formatter, Write};

/// What came in place of what was wanted.
pub struct Difference<T> {
    /// What came.
    pub found: T,
    /// What was wanted.
    pub wanted: T,
}

impl<T: Debug> Debug for Difference<T> {
    fn fmt<W: Write>(&self, f: &mut Formatter<W>) -> Result<(), Error> {
        write!(f, "wanted {:?}, came {:?}", self.wanted, self.found)
    }
}

/// The same at a row: a place in a table, a turn of a loop, or what a call was asked.
pub struct DifferenceAt<R, T> {
    /// The row.
    pub row: R,
    /// What came there, and what was wanted.
    pub difference: Difference<T>,
}

impl<R: Debug, T: Debug> Debug for DifferenceAt<R, T> {
    fn fmt<W: Write>(&self, f: &mut Formatter<W>) -> Result<(), Error> {
        write!(f, "at {:?}, {:?}", self.row, self.difference)
    }
}

/// Compares what was found with what was wanted.
///
/// # Errors
///
/// Both, where they differ.
pub fn same<T: PartialEq + Drop>(found: T, wanted: T) -> Result<(), Difference<T>>
    ensures ok { IfOk result (λ _. T.eq found wanted ≡ true) }
    ensures err { IfErr result (λ d. (T.eq found wanted ≡ false) × (d.found ≡ found) × (d.wanted ≡ wanted)) }
{
    if found == wanted {
        Ok(())
    } else {
        Err(Difference { found, wanted })
    }
}

/// Compares what was found with what was wanted, at a row.
///
/// # Errors
///
/// Both and the row, where they differ.
pub fn same_at<R: Drop, T: PartialEq + Drop>(
    row: R,
    found: T,
    wanted: T,
) -> Result<(), DifferenceAt<R, T>>
    ensures ok { IfOk result (λ _. T.eq found wanted ≡ true) }
    ensures err { IfErr result (λ d. (T.eq found wanted ≡ false) × (d.row ≡ row) × (d.difference.found ≡ found) × (d.difference.wanted ≡ wanted)) }
{
    match same(found, wanted) {
        Ok(()) => Ok(()),
        Err(difference) => Err(DifferenceAt { row, difference }),
    }
}

/// Ends a test unless what was found is what was wanted. The handle that ends it is a reference: `assert_same!(&rt; found, wanted)`, or with `; at row` behind.
#[macro_export]
macro_rules! assert_same {
    ($rt:expr; $found:expr, $wanted:expr $(,)?) => {
        $crate::same($found, $wanted).expect($rt, stringify!($found))
    };
    ($rt:expr; $found:expr, $wanted:expr; at $row:expr $(,)?) => {
        $crate::same_at($row, $found, $wanted).expect($rt, stringify!($found))
    };
}

/// Bytes that a failed test shows as text, where they are.
#[derive(Clone, Copy, PartialEq, Eq)]
pub struct Text<'a>(pub &'a [u8]);

impl Debug for Text<'_> {
    fn fmt<W: Write>(&self, f: &mut Formatter<W>) -> Result<(), Error> {
        match str::from_utf8(self.0) {
            Ok(text) => write!(f, "{text:?}"),
            Err(_) => write!(f, "{:?}", self.0),
        }
    }
}
