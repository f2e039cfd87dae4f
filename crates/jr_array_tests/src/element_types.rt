//! Elements of arrays in a region as those of one type alone, and units of strings as chars.

use crate::at_a_level::{has, is_deep, is_not_put, is_not_read, is_told};
use crate::envs::TWO;
use assertions::assert_same;
use jr_env::{Env, NativeInterface, Region};
use jr_fixtures::{EnvTest, alone};
use jr_model::Mode;
use jr_steps::Steps;
use jr_word::{Elem, Fault, Kind};
use std::alloc::Global;
use std::fmt::Debug;
use std::process::Abort;
use std::test::Fail;

/// Checks with what the element at an index is refused as one of a type, if it is, where it is read and where it is written.
fn answers<S: Steps, E: Elem + PartialEq + Debug>(
    rt: &impl Abort,
    region: &mut Region<'_, S>,
    index: u32,
    value: E,
    wanted: Option<Fault>,
) {
    assert_same!(rt; region.get::<E>(0, index).err(), wanted; at (E::KIND, index));
    assert_same!(rt; region.set(0, index, value).err(), wanted; at (E::KIND, index));
}

/// The same as a boolean, a byte, a char, a short, an int and a long.
fn answers_each<S: Steps>(
    rt: &impl Abort,
    region: &mut Region<'_, S>,
    index: u32,
    wanted: [Option<Fault>; 6],
) {
    let [boolean, byte, char, short, int, long] = wanted;
    answers(rt, region, index, true, boolean);
    answers(rt, region, index, -1i8, byte);
    answers(rt, region, index, 1u16, char);
    answers(rt, region, index, -1i16, short);
    answers(rt, region, index, -1i32, int);
    answers(rt, region, index, -1i64, long);
}

/// The elements of a new array are those of one type, at each index below the length; past it none are, of whatever type, which is looked at before the index.
fn has_one_type<S: Steps, E: Elem + PartialEq + Debug>(
    rt: &impl Abort,
    env: &mut Env<S>,
    length: u32,
    within: [Option<Fault>; 6],
    past: [Option<Fault>; 6],
) -> Result<(), Fail> {
    let array = env.new_array::<E>(length)?;
    let mut region = env.get_array_critical(array)?;
    for index in 0..length {
        answers_each(rt, &mut region, index, within);
    }
    answers_each(rt, &mut region, length, past);
    answers_each(rt, &mut region, u32::MAX, past);
    match region.release(Mode::Copy) {
        None => {}
        Some(_) => panic!(rt; "a level is left"),
    }
    Ok(())
}

/// Another type, and an index past the length.
const NOT: Option<Fault> = Some(Fault::WrongElement);

const END: Option<Fault> = Some(Fault::Range);

/// The elements of booleans, bytes and chars are of no other type.
fn short_ones_are_of_one_type<S: Steps>(rt: &impl Abort, env: &mut Env<S>) -> Result<(), Fail> {
    let within = [None, NOT, NOT, NOT, NOT, NOT];
    let past = [END, NOT, NOT, NOT, NOT, NOT];
    has_one_type::<_, bool>(rt, env, 2, within, past)?;
    let within = [NOT, None, NOT, NOT, NOT, NOT];
    let past = [NOT, END, NOT, NOT, NOT, NOT];
    has_one_type::<_, i8>(rt, env, 2, within, past)?;
    let within = [NOT, NOT, None, NOT, NOT, NOT];
    let past = [NOT, NOT, END, NOT, NOT, NOT];
    has_one_type::<_, u16>(rt, env, 1, within, past)
}

/// Those of shorts, ints and longs neither.
fn long_ones_are_of_one_type<S: Steps>(rt: &impl Abort, env: &mut Env<S>) -> Result<(), Fail> {
    let within = [NOT, NOT, NOT, None, NOT, NOT];
    let past = [NOT, NOT, NOT, END, NOT, NOT];
    has_one_type::<_, i16>(rt, env, 1, within, past)?;
    let within = [NOT, NOT, NOT, NOT, None, NOT];
    let past = [NOT, NOT, NOT, NOT, END, NOT];
    has_one_type::<_, i32>(rt, env, 3, within, past)?;
    let within = [NOT, NOT, NOT, NOT, NOT, None];
    let past = [NOT, NOT, NOT, NOT, NOT, END];
    has_one_type::<_, i64>(rt, env, 0, within, past)
}

/// The elements of no array are of two types.
#[derive(Drop)]
struct AreOfOneType;

impl<R: Abort> EnvTest<R> for AreOfOneType {
    fn run<S: Steps>(self, rt: &R, _alloc: Global, env: &mut Env<S>) -> Result<(), Fail> {
        short_ones_are_of_one_type(rt, env)?;
        long_ones_are_of_one_type(rt, env)
    }
}

#[test]
fn elements_are_of_one_type_and_end_at_the_length(rt: HostRuntime) -> Result<(), Fail> {
    alone(&rt, rt.alloc(), TWO, AreOfOneType)
}

/// The units of a string are read as chars alone, and the type is looked at before the index; none is written, of whatever type.
#[derive(Drop)]
struct HasUnits;

impl<R: Abort> EnvTest<R> for HasUnits {
    fn run<S: Steps>(self, rt: &R, _alloc: Global, env: &mut Env<S>) -> Result<(), Fail> {
        let string = env.new_string(&[104, 65_535])?;
        let mut region = env.get_string_critical(string)?;
        is_deep(rt, &region, 1);
        is_told(rt, &region, 0, Kind::Text, 2);
        has(rt, &mut region, 0, 1, 65_535u16);
        is_not_read::<_, u16>(rt, &mut region, 0, u32::MAX, Fault::Range);
        is_not_read::<_, i16>(rt, &mut region, 0, 0, Fault::WrongElement);
        is_not_read::<_, i64>(rt, &mut region, 0, 2, Fault::WrongElement);
        is_not_put(rt, &mut region, 0, 0, 105u16, Fault::NotArray);
        is_not_put(rt, &mut region, 0, 0, true, Fault::NotArray);
        match region.release(Mode::Copy) {
            None => {}
            Some(_) => panic!(rt; "a level is left"),
        }
        Ok(())
    }
}

#[test]
fn units_are_read_as_chars_alone(rt: HostRuntime) -> Result<(), Fail> {
    alone(&rt, rt.alloc(), TWO, HasUnits)
}
