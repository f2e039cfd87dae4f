//! What is done at the levels of a region, and how it ends.

use assertions::assert_same;
use jr_env::Region;
use jr_model::Mode;
use jr_steps::Steps;
use jr_word::{Elem, Fault, Handle, Kind};
use std::fmt::Debug;
use std::process::Abort;

/// Checks what an element is.
pub(crate) fn has<S: Steps, E: Elem + PartialEq + Debug>(
    rt: &impl Abort,
    region: &mut Region<'_, S>,
    level: usize,
    index: u32,
    wanted: E,
) {
    assert_same!(rt; region.get(level, index), Ok(wanted); at (level, index));
}

/// Writes an element, which is not refused.
pub(crate) fn put<S: Steps, E: Elem>(
    rt: &impl Abort,
    region: &mut Region<'_, S>,
    level: usize,
    index: u32,
    value: E,
) {
    assert_same!(rt; region.set(level, index, value), Ok(()); at (level, index));
}

/// Checks with what an element, which is read as one of this type, is refused.
pub(crate) fn is_not_read<S: Steps, E: Elem + PartialEq + Debug>(
    rt: &impl Abort,
    region: &mut Region<'_, S>,
    level: usize,
    index: u32,
    wanted: Fault,
) {
    assert_same!(rt; region.get::<E>(level, index), Err(wanted); at (level, index));
}

/// Checks with what a write of an element is refused.
pub(crate) fn is_not_put<S: Steps, E: Elem>(
    rt: &impl Abort,
    region: &mut Region<'_, S>,
    level: usize,
    index: u32,
    value: E,
    wanted: Fault,
) {
    assert_same!(rt; region.set(level, index, value), Err(wanted); at (level, index));
}

/// Checks the kind and the length of what stands at a level. It is never a copy.
pub(crate) fn is_told<S: Steps>(
    rt: &impl Abort,
    region: &Region<'_, S>,
    level: usize,
    kind: Kind,
    length: u32,
) {
    assert_same!(rt; region.kind(level), Ok(kind); at level);
    assert_same!(rt; region.length(level), Ok(length); at level);
    assert!(rt; !region.is_copy());
}

/// Checks that no level of a number stands, before whatever else a call at it is refused with.
pub(crate) fn is_missing<S: Steps>(rt: &impl Abort, region: &mut Region<'_, S>, level: usize) {
    is_not_read::<_, i64>(rt, region, level, u32::MAX, Fault::Stale);
    is_not_put(rt, region, level, u32::MAX, 0i64, Fault::Stale);
    assert_same!(rt; region.kind(level), Err(Fault::Stale); at level);
    assert_same!(rt; region.length(level), Err(Fault::Stale); at level);
}

/// Checks how many levels stand.
pub(crate) fn is_deep<S: Steps>(rt: &impl Abort, region: &Region<'_, S>, wanted: usize) {
    assert_same!(rt; region.depth(), wanted);
}

/// Checks what is answered where a level is to be added over an array: the level, or why there is none.
pub(crate) fn nests_array<S: Steps>(
    rt: &impl Abort,
    region: &mut Region<'_, S>,
    word: Handle,
    wanted: Result<usize, Fault>,
) {
    assert_same!(rt; region.nest_array(word), wanted);
}

/// The same of a level over a string.
pub(crate) fn nests_string<S: Steps>(
    rt: &impl Abort,
    region: &mut Region<'_, S>,
    word: Handle,
    wanted: Result<usize, Fault>,
) {
    assert_same!(rt; region.nest_string(word), wanted);
}

/// Gives up the last level, which is not the only one.
pub(crate) fn give_up<'e, S: Steps>(
    rt: &impl Abort,
    region: Region<'e, S>,
    mode: Mode,
) -> Region<'e, S> {
    match region.release(mode) {
        Some(left) => left,
        None => panic!(rt; "no level is left"),
    }
}
