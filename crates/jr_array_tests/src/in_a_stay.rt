//! Critical regions that are opened in a stay: what is refused there, what is done at their levels, and that the stay goes on behind them or ends with them.

use crate::at_a_level::{
    give_up, has, is_deep, is_missing, is_not_put, is_not_read, is_told, nests_array, nests_string,
    put,
};
use crate::cases::in_a_room;
use crate::envs::{ONES, TWO, has_elements, is_outside};
use assertions::assert_same;
use jr_env::{Env, NativeInterface, Region, Stay};
use jr_fixtures::{EnvTest, alone};
use jr_model::Mode;
use jr_steps::Steps;
use jr_word::{Fault, Handle, Kind};
use std::alloc::Global;
use std::process::Abort;
use std::test::Fail;

/// Opens a region over an array in a stay.
fn opened<'e, S: Steps>(rt: &impl Abort, stay: Stay<'e, S>, array: Handle) -> Region<'e, S> {
    match stay.get_array_critical(array) {
        Ok(region) => region,
        Err(_) => panic!(rt; "no region is opened"),
    }
}

/// Opens one over a string.
fn opened_text<'e, S: Steps>(rt: &impl Abort, stay: Stay<'e, S>, string: Handle) -> Region<'e, S> {
    match stay.get_string_critical(string) {
        Ok(region) => region,
        Err(_) => panic!(rt; "no region is opened"),
    }
}

/// Checks with what a region over an array is refused in a stay, which is handed back.
fn not_opened<'e, S: Steps>(
    rt: &impl Abort,
    stay: Stay<'e, S>,
    word: Handle,
    wanted: Fault,
) -> Stay<'e, S> {
    match stay.get_array_critical(word) {
        Ok(_) => panic!(rt; "a region is opened"),
        Err((stay, fault)) => {
            assert_same!(rt; fault, wanted);
            stay
        }
    }
}

/// The same of a region over a string.
fn not_opened_text<'e, S: Steps>(
    rt: &impl Abort,
    stay: Stay<'e, S>,
    word: Handle,
    wanted: Fault,
) -> Stay<'e, S> {
    match stay.get_string_critical(word) {
        Ok(_) => panic!(rt; "a region is opened"),
        Err((stay, fault)) => {
            assert_same!(rt; fault, wanted);
            stay
        }
    }
}

/// Checks the length of an array in a stay.
fn has_length<S: Steps>(rt: &impl Abort, stay: &mut Stay<'_, S>, array: Handle, wanted: u32) {
    assert_same!(rt; stay.get_array_length(array), Ok(wanted));
}

/// Reads and writes elements of an array of three at the first level, and of a string at a second one.
fn is_used<S: Steps>(rt: &impl Abort, region: &mut Region<'_, S>, text: Handle) {
    put(rt, region, 0, 2, 30);
    has(rt, region, 0, 2, 30);
    is_not_read::<_, i32>(rt, region, 0, 3, Fault::Range);
    is_not_put(rt, region, 0, 3, 1, Fault::Range);
    is_not_read::<_, i64>(rt, region, 0, 2, Fault::WrongElement);
    is_missing(rt, region, 1);
    nests_array(rt, region, text, Err(Fault::NotArray));
    nests_string(rt, region, text, Ok(1));
    is_told(rt, region, 1, Kind::Text, 2);
    has(rt, region, 1, 1, 105u16);
    is_not_put(rt, region, 1, 0, 1u16, Fault::NotArray);
}

/// What is refused leaves the stay, levels are used, and then the stay goes on, twice.
fn goes_on<S: Steps>(
    rt: &impl Abort,
    env: &mut Env<S>,
    array: Handle,
    text: Handle,
) -> Result<(), Fail> {
    let stay = env.stay()?;
    let stay = not_opened(rt, stay, Handle::NULL, Fault::Null);
    let stay = not_opened(rt, stay, text, Fault::NotArray);
    let stay = not_opened_text(rt, stay, array, Fault::WrongKind);
    let stay = not_opened_text(rt, stay, ONES, Fault::Stale);
    let mut region = opened(rt, stay, array);
    is_used(rt, &mut region, text);
    let mut stay = region.into_stay();
    has_length(rt, &mut stay, array, 3);
    let mut region = opened_text(rt, stay, text);
    is_deep(rt, &region, 1);
    has(rt, &mut region, 0, 0, 104u16);
    let mut stay = region.into_stay();
    has_length(rt, &mut stay, array, 3);
    stay.end();
    Ok(())
}

/// Where the first level is released the stay ends with it.
fn ends<S: Steps>(rt: &impl Abort, env: &mut Env<S>, array: Handle) -> Result<(), Fail> {
    let stay = env.stay()?;
    let mut region = opened(rt, stay, array);
    nests_array(rt, &mut region, array, Ok(1));
    put(rt, &mut region, 1, 0, 10);
    let region = give_up(rt, region, Mode::Copy);
    match region.release(Mode::Copy) {
        None => {}
        Some(_) => panic!(rt; "a level is left"),
    }
    is_outside(rt, env);
    Ok(())
}

/// A region in a stay has levels as any other; the stay goes on behind it, or ends with it.
#[derive(Drop)]
struct HasLevels;

impl<R: Abort> EnvTest<R> for HasLevels {
    fn run<S: Steps>(self, rt: &R, _alloc: Global, env: &mut Env<S>) -> Result<(), Fail> {
        let array = env.new_array::<i32>(3)?;
        let text = env.new_string(&[104, 105])?;
        goes_on(rt, env, array, text)?;
        is_outside(rt, env);
        ends(rt, env, array)?;
        has_elements(rt, env, array, 0, &mut [7; 3], &[10, 0, 30])
    }
}

#[test]
fn a_stay_goes_on_behind_its_levels(rt: HostRuntime) -> Result<(), Fail> {
    alone(&rt, rt.alloc(), TWO, HasLevels)
}

#[test]
fn a_stay_goes_on_behind_its_levels_in_a_room(rt: HostRuntime) -> Result<(), Fail> {
    in_a_room(&rt, rt.alloc(), TWO, HasLevels)
}
