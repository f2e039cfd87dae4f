//! Parts of what stands at a level, a region that ends behind a closure, and copies from array to array.
ghost use Rattle.jr_env.specs.Envs.{IsOutside};

use crate::at_a_level::nests_string;
use crate::cases::in_a_room;
use crate::envs::{TWO, are_alike, has_elements, is_outside, refuses};
use assertions::assert_same;
use jr_env::{Env, NativeInterface, Region, with_critical};
use jr_fixtures::{EnvTest, alone};
use jr_steps::Steps;
use jr_word::{Elem, Fault, Handle};
use std::alloc::Global;
use std::fmt::Debug;
use std::process::Abort;
use std::test::Fail;

/// Checks what a part is.
fn has_part<S: Steps, E: Elem + PartialEq + Debug>(
    rt: &impl Abort,
    region: &mut Region<'_, S>,
    level: usize,
    start: u32,
    found: &mut [E],
    wanted: &[E],
) {
    assert_same!(rt; region.get_part(level, start, found), Ok(()); at (level, start));
    are_alike(rt, &*found, wanted);
}

/// Checks with what a part is refused, of which the slice has as many sevens.
fn is_no_part<S: Steps>(
    rt: &impl Abort,
    region: &mut Region<'_, S>,
    level: usize,
    start: u32,
    sevens: &mut [i32],
    wanted: Fault,
) {
    assert_same!(rt; region.get_part(level, start, sevens), Err(wanted); at (level, start));
    for seven in &*sevens {
        assert_same!(rt; *seven, 7; at (level, start));
    }
    assert_same!(rt; region.set_part(level, start, sevens), Err(wanted); at (level, start));
}

/// Parts of an array of four at the first level, which has these elements, are within it or refused.
fn ends_at_its_length<S: Steps>(rt: &impl Abort, region: &mut Region<'_, S>) {
    is_no_part(rt, region, 0, 0, &mut [7; 5], Fault::Range);
    is_no_part(rt, region, 0, 3, &mut [7; 2], Fault::Range);
    is_no_part(rt, region, 0, 4, &mut [7], Fault::Range);
    is_no_part(rt, region, 0, 5, &mut [], Fault::Range);
    is_no_part(rt, region, 0, u32::MAX, &mut [7; 2], Fault::Range);
    is_no_part(rt, region, 1, u32::MAX, &mut [7; 2], Fault::Stale);
    has_part(rt, region, 0, 0, &mut [7; 4], &[0, 5, 6, 0]);
    has_part::<_, i32>(rt, region, 0, 4, &mut [], &[]);
}

/// A part of a string at the second level is read as chars, and is never written. What has other elements is told before what ends too late.
fn has_units<S: Steps>(rt: &impl Abort, region: &mut Region<'_, S>) {
    has_part(rt, region, 1, 1, &mut [7u16; 2], &[105, 106]);
    assert_same!(rt; region.set_part(1, 9, &[7u16]), Err(Fault::NotArray));
    assert_same!(rt; region.get_part(1, 9, &mut [7i32]), Err(Fault::WrongElement));
    assert_same!(rt; region.get_part(0, 9, &mut [7i64]), Err(Fault::WrongElement));
    assert_same!(rt; region.set_part(0, 9, &[7i64]), Err(Fault::WrongElement));
}

/// Parts of an array and of a string are read and written in a region.
#[derive(Drop)]
struct HasLevelParts;

impl<R: Abort> EnvTest<R> for HasLevelParts {
    fn run<S: Steps>(self, rt: &R, _alloc: Global, env: &mut Env<S>) -> Result<(), Fail> {
        let array = env.new_array::<i32>(4)?;
        let text = env.new_string(&[104, 105, 106])?;
        let mut region = env.get_array_critical(array)?;
        assert_same!(rt; region.set_part(0, 1, &[5, 6]), Ok(()));
        ends_at_its_length(rt, &mut region);
        nests_string(rt, &mut region, text, Ok(1));
        has_units(rt, &mut region);
        region.release_all();
        has_elements(rt, env, array, 0, &mut [7; 4], &[0, 5, 6, 0])
    }
}

/// The sum of an array's first element and another, by a region that ends behind its closure.
fn sum_up<S: Steps>(env: &mut Env<S>, array: Handle, other: u32) -> Result<i32, Fault>
    ensures { IsOutside env.new }
{
    let region = env.get_array_critical(array)?;
    let (sum, _env) = with_critical(region, |region| -> Result<i32, Fault> {
        let first = region.get::<i32>(0, 0)?;
        let other = region.get::<i32>(0, other)?;
        Ok(first.wrapping_add(other))
    });
    sum
}

/// Turns an array of four round in a region.
fn turn_round<S: Steps>(env: &mut Env<S>, array: Handle) -> Result<(), Fault>
    ensures { IsOutside env.new }
{
    let region = env.get_array_critical(array)?;
    let (turned, _env) = with_critical(region, |region| -> Result<(), Fault> {
        let mut numbers = [0_i32; 4];
        region.get_part(0, 0, &mut numbers)?;
        numbers.reverse();
        region.set_part(0, 0, &numbers)
    });
    turned
}

/// A region ends behind a closure, whether that gives up or not.
#[derive(Drop)]
struct EndsWithAClosure;

impl<R: Abort> EnvTest<R> for EndsWithAClosure {
    fn run<S: Steps>(self, rt: &R, _alloc: Global, env: &mut Env<S>) -> Result<(), Fail> {
        let array = env.new_array::<i32>(4)?;
        env.set_array_region(array, 0, &[10, 20, 30, 40])?;
        assert_same!(rt; sum_up(env, array, 2), Ok(40));
        is_outside(rt, env);
        assert_same!(rt; sum_up(env, array, 4), Err(Fault::Range));
        is_outside(rt, env);
        turn_round(env, array)?;
        has_elements(rt, env, array, 0, &mut [7; 4], &[40, 30, 20, 10])
    }
}

/// A copy within an array of five, up and down over what it reads, is of what stood there before.
fn overlaps<S: Steps>(rt: &impl Abort, env: &mut Env<S>, array: Handle) -> Result<(), Fail> {
    env.set_array_region(array, 0, &[1, 2, 3, 4, 5])?;
    env.copy_array(array, 0, array, 1, &mut [7; 4])?;
    has_elements(rt, env, array, 0, &mut [7; 5], &[1, 1, 2, 3, 4])?;
    env.set_array_region(array, 0, &[1, 2, 3, 4, 5])?;
    env.copy_array(array, 2, array, 0, &mut [7; 3])?;
    has_elements(rt, env, array, 0, &mut [7; 5], &[3, 4, 5, 4, 5])
}

/// Elements are copied within an array, to another one, and not to what has no room for them or is of another kind.
#[derive(Drop)]
struct AreCopied;

impl<R: Abort> EnvTest<R> for AreCopied {
    fn run<S: Steps>(self, rt: &R, _alloc: Global, env: &mut Env<S>) -> Result<(), Fail> {
        let array = env.new_array::<i32>(5)?;
        let other = env.new_array::<i32>(3)?;
        let longs = env.new_array::<i64>(5)?;
        overlaps(rt, env, array)?;
        env.copy_array(array, 1, other, 1, &mut [7; 2])?;
        has_elements(rt, env, other, 0, &mut [7; 3], &[0, 4, 5])?;
        let past = env.copy_array(array, 0, other, 1, &mut [7; 3]);
        refuses(rt, past, Fault::Range);
        let past = env.copy_array(array, 3, other, 0, &mut [7; 3]);
        refuses(rt, past, Fault::Range);
        let unlike = env.copy_array(array, 0, longs, 0, &mut [7; 3]);
        refuses(rt, unlike, Fault::WrongElement);
        has_elements(rt, env, other, 0, &mut [7; 3], &[0, 4, 5])
    }
}

#[test]
fn parts_end_at_their_level(rt: HostRuntime) -> Result<(), Fail> {
    alone(&rt, rt.alloc(), TWO, HasLevelParts)
}

#[test]
fn parts_in_a_room_end_at_their_level(rt: HostRuntime) -> Result<(), Fail> {
    in_a_room(&rt, rt.alloc(), TWO, HasLevelParts)
}

#[test]
fn a_region_ends_behind_its_closure(rt: HostRuntime) -> Result<(), Fail> {
    in_a_room(&rt, rt.alloc(), TWO, EndsWithAClosure)
}

#[test]
fn elements_are_copied_from_array_to_array(rt: HostRuntime) -> Result<(), Fail> {
    in_a_room(&rt, rt.alloc(), TWO, AreCopied)
}
