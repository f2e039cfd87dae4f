//! Regions of several elements and of none, through the calls that copy them out and in, over plain words, and long ones over a room too.

use crate::cases::in_a_room;
use crate::envs::{FOREIGN, ONES, TWO, has_elements, refuses};
use crate::objects::one_of_each;
use assertions::assert_same;
use jr_env::{Env, NativeInterface};
use jr_fixtures::{EnvTest, alone};
use jr_steps::Steps;
use jr_word::{Config, Fault, Handle};
use std::alloc::Global;
use std::process::Abort;
use std::test::Fail;

/// Checks that each element is the one that stood there before.
fn are_untouched(rt: &impl Abort, start: u32, elements: &[i32]) {
    for element in elements {
        assert_same!(rt; *element, 7; at start);
    }
}

/// As many elements as these sevens don't all lie in the array from an index on: they are neither read nor written.
fn lies_past<S: Steps>(
    rt: &impl Abort,
    env: &mut Env<S>,
    array: Handle,
    start: u32,
    elements: &mut [i32],
) {
    refuses(
        rt,
        env.get_array_region(array, start, elements),
        Fault::Range,
    );
    are_untouched(rt, start, elements);
    refuses(
        rt,
        env.set_array_region(array, start, elements),
        Fault::Range,
    );
}

/// Regions that don't lie in an array of three elements are refused, and what lies in it stays as it was.
fn ends_at_its_length<S: Steps>(rt: &impl Abort, env: &mut Env<S>, array: Handle) {
    lies_past(rt, env, array, 0, &mut [7; 4]);
    lies_past(rt, env, array, 1, &mut [7; 3]);
    lies_past(rt, env, array, 3, &mut [7]);
    lies_past(rt, env, array, 4, &mut []);
    lies_past(rt, env, array, u32::MAX, &mut []);
    lies_past(rt, env, array, u32::MAX, &mut [7; 2]);
}

/// Regions of none, of one and of all elements are read and written, and none past the end.
#[derive(Drop)]
struct HasParts;

impl<R: Abort> EnvTest<R> for HasParts {
    fn run<S: Steps>(self, rt: &R, _alloc: Global, env: &mut Env<S>) -> Result<(), Fail> {
        let array = env.new_array::<i32>(3)?;
        refuses(rt, env.new_array::<i16>(u32::MAX), Fault::SpaceFull(3));
        env.set_array_region(array, 0, &[10, 20, 30])?;
        has_elements(rt, env, array, 0, &mut [7; 3], &[10, 20, 30])?;
        has_elements(rt, env, array, 1, &mut [7], &[20])?;
        has_elements::<_, i32>(rt, env, array, 3, &mut [], &[])?;
        env.set_array_region(array, 2, &[-40])?;
        env.set_array_region::<i32>(array, 3, &[])?;
        ends_at_its_length(rt, env, array);
        has_elements(rt, env, array, 0, &mut [7; 3], &[10, 20, -40])
    }
}

#[test]
fn parts_end_at_the_length(rt: HostRuntime) -> Result<(), Fail> {
    alone(&rt, rt.alloc(), TWO, HasParts)
}

/// Two threads, and words for an array of 4,096 elements.
const LONG: Config = Config {
    words: 4_096,
    ..TWO
};

/// The elements of a long array are read as they were written: all, all but the first, and thirteen from the sixth on.
#[derive(Drop)]
struct LongPart;

impl<R: Abort> EnvTest<R> for LongPart {
    fn run<S: Steps>(self, rt: &R, _alloc: Global, env: &mut Env<S>) -> Result<(), Fail> {
        let array = env.new_array::<i64>(4_096)?;
        let mut written = [0i64; 4_096];
        let mut next = i64::MIN;
        for element in &mut written {
            *element = next;
            next = next.wrapping_mul(3).wrapping_add(1);
        }
        env.set_array_region(array, 0, &written)?;
        has_elements(rt, env, array, 0, &mut [0; 4_096], &written)?;
        has_elements(rt, env, array, 1, &mut [0; 4_095], &written[1..])?;
        has_elements(rt, env, array, 5, &mut [0; 13], &written[5..18])
    }
}

#[test]
fn a_long_part_is_read_as_written(rt: HostRuntime) -> Result<(), Fail> {
    alone(&rt, rt.alloc(), LONG, LongPart)
}

#[test]
fn a_long_part_in_a_room_is_read_as_written(rt: HostRuntime) -> Result<(), Fail> {
    in_a_room(&rt, rt.alloc(), LONG, LongPart)
}

/// Words that name no array of chars, each with its refusal: a string is none, whose units are chars, and neither is an array of shorts.
pub(crate) fn no_arrays_of_chars<S: Steps>(env: &mut Env<S>) -> Result<[(Handle, Fault); 8], Fail> {
    let [plain, string, shorts, objects] = one_of_each(env)?;
    let deleted = env.new_array::<u16>(3)?;
    env.delete_local_ref(deleted)?;
    Ok([
        (Handle::NULL, Fault::Null),
        (ONES, Fault::Stale),
        (FOREIGN, Fault::Foreign),
        (deleted, Fault::Stale),
        (plain, Fault::NotArray),
        (string, Fault::NotArray),
        (objects, Fault::WrongElement),
        (shorts, Fault::WrongElement),
    ])
}

/// What the word names is no array of chars: nothing is read or written from the index on.
fn is_no_such_array<S: Steps>(
    rt: &impl Abort,
    env: &mut Env<S>,
    word: Handle,
    start: u32,
    fault: Fault,
) {
    let mut elements = [65_535u16, 7];
    let answer = env.get_array_region(word, start, &mut elements);
    refuses(rt, answer, fault);
    assert_same!(rt; elements, [65_535, 7]; at (word, start));
    let answer = env.set_array_region(word, start, &elements);
    refuses(rt, answer, fault);
}

/// None of these words names such an array. The kind is looked at before the length.
#[derive(Drop)]
struct HaveNoParts;

impl<R: Abort> EnvTest<R> for HaveNoParts {
    fn run<S: Steps>(self, rt: &R, _alloc: Global, env: &mut Env<S>) -> Result<(), Fail> {
        let rows = no_arrays_of_chars(env)?;
        for (word, fault) in rows {
            is_no_such_array(rt, env, word, 0, fault);
            is_no_such_array(rt, env, word, 3, fault);
        }
        Ok(())
    }
}

#[test]
fn no_part_is_read_or_written_of_what_is_no_array_of_the_kind(rt: HostRuntime) -> Result<(), Fail> {
    alone(&rt, rt.alloc(), TWO, HaveNoParts)
}
