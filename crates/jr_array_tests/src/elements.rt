use crate::copies::are;
use assertions::assert_same;
use jr_elements::{Elements, discard_left, elements_of};
use jr_model::Mode;
use jr_word::{Elem, Fault};
use std::fmt::Debug;
use std::process::Abort;
use std::test::Fail;

/// Nothing is at the index or behind it: an element is neither given nor set.
fn ends_at<E: Elem + PartialEq + Debug>(
    rt: &impl Abort,
    elements: &mut Elements<E>,
    index: u32,
    value: E,
    wanted: &[E],
) {
    assert_same!(rt; elements.get(index), Err(Fault::Range); at index);
    assert_same!(rt; elements.set(index, value), Err(Fault::Range); at index);
    are(rt, elements, wanted);
}

/// Checks how many elements were copied.
fn are_copies<E: Elem>(rt: &impl Abort, elements: &Elements<E>, length: u32) {
    assert_same!(rt; elements.length(), length);
    assert!(rt; elements.is_copy());
}

/// Checks what an element is.
fn has(rt: &impl Abort, elements: &Elements<i32>, index: u32, wanted: i32) {
    assert_same!(rt; elements.get(index), Ok(wanted); at index);
}

#[test]
fn copied_elements_end_at_their_length(rt: HostRuntime) -> Result<(), Fail> {
    let items = Vec::from_slice(rt.alloc(), &[10i32, -20, 30])?;
    let mut elements = elements_of(items);
    are_copies(&rt, &elements, 3);
    has(&rt, &elements, 0, 10);
    has(&rt, &elements, 2, 30);
    assert_same!(&rt; elements.set(0, i32::MIN), Ok(()));
    assert_same!(&rt; elements.set(2, i32::MAX), Ok(()));
    let wanted = [i32::MIN, -20, i32::MAX];
    are(&rt, &elements, &wanted);
    ends_at(&rt, &mut elements, 3, 7, &wanted);
    ends_at(&rt, &mut elements, u32::MAX, 7, &wanted);
    elements.discard();
    Ok(())
}

#[test]
fn elements_are_written_as_a_slice(rt: HostRuntime) -> Result<(), Fail> {
    let mut elements = elements_of(Vec::from_slice(rt.alloc(), &[10i64, -20, 30])?);
    elements.as_mut_slice().reverse();
    elements.as_mut_slice()[1] = i64::MIN;
    are(&rt, &elements, &[30, i64::MIN, 10]);
    elements.discard();
    Ok(())
}

#[test]
fn modes_have_the_numbers_of_jni(rt: HostRuntime) {
    assert_same!(&rt; Mode::of_code(0), Some(Mode::Copy));
    assert_same!(&rt; Mode::of_code(1), Some(Mode::Commit));
    assert_same!(&rt; Mode::of_code(2), Some(Mode::Abort));
    for code in [-1, 3, i32::MIN, i32::MAX] {
        assert_same!(&rt; Mode::of_code(code), None; at code);
    }
}

#[test]
fn an_empty_copy_has_no_element(rt: HostRuntime) -> Result<(), Fail> {
    let mut elements = elements_of(Vec::<bool>::new(rt.alloc()));
    are_copies(&rt, &elements, 0);
    ends_at(&rt, &mut elements, 0, true, &[]);
    ends_at(&rt, &mut elements, u32::MAX, true, &[]);
    elements.discard();
    Ok(())
}

/// Checks that a release in this mode keeps no elements.
fn are_given_up<E: Elem>(rt: &impl Abort, elements: Elements<E>, mode: Mode) {
    match elements.kept(mode) {
        None => {}
        Some(_) => panic!(rt; "a mode keeps the elements"),
    }
}

#[test]
fn a_commit_alone_keeps_the_elements(rt: HostRuntime) -> Result<(), Fail> {
    let elements = elements_of(Vec::from_slice(rt.alloc(), &[7u16, 65_535])?);
    let Some(elements) = elements.kept(Mode::Commit) else {
        panic!(rt; "a commit gave the elements up");
    };
    are(&rt, &elements, &[7u16, 65_535]);
    are_given_up(&rt, elements, Mode::Copy);
    let elements = elements_of(Vec::from_slice(rt.alloc(), &[7u16])?);
    are_given_up(&rt, elements, Mode::Abort);
    Ok(())
}

#[test]
fn what_a_release_left_is_discarded(rt: HostRuntime) -> Result<(), Fail> {
    let elements = elements_of(Vec::from_slice(rt.alloc(), &[7u16, 65_535])?);
    assert_same!(&rt; discard_left(Ok(Some(elements))), Ok(()));
    assert_same!(&rt; discard_left::<u16>(Ok(None)), Ok(()));
    let elements = elements_of(Vec::from_slice(rt.alloc(), &[7u16])?);
    assert_same!(&rt; discard_left(Err((elements, Fault::Barred))), Err(Fault::Barred));
    Ok(())
}
