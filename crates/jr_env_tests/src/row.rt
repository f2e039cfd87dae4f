//! The words of a row.

use assertions::assert_same;
use std::process::Abort;

/// Checks the words of a row.
pub(crate) fn has_words(rt: &impl Abort, words: &[u64], wanted: &[u64]) {
    assert_same!(rt; words, wanted);
}
