//! Levels of a region: the newest is given up first, and a new one has its number.

use crate::at_a_level::{
    give_up, has, is_deep, is_missing, is_told, nests_array, nests_string, put,
};
use crate::envs::{TWO, has_elements, is_outside};
use jr_env::{Env, NativeInterface};
use jr_fixtures::{EnvTest, alone};
use jr_model::Mode;
use jr_steps::Steps;
use jr_word::Kind;
use std::alloc::Global;
use std::process::Abort;
use std::test::Fail;

/// The last level is given up, and a new one has its number.
#[derive(Drop)]
struct StandsAnew;

impl<R: Abort> EnvTest<R> for StandsAnew {
    fn run<S: Steps>(self, rt: &R, _alloc: Global, env: &mut Env<S>) -> Result<(), Fail> {
        let first = env.new_array::<i16>(1)?;
        let second = env.new_array::<bool>(2)?;
        let text = env.new_string(&[1, 2, 3])?;
        let mut region = env.get_array_critical(first)?;
        is_missing(rt, &mut region, 1);
        nests_array(rt, &mut region, second, Ok(1));
        is_deep(rt, &region, 2);
        put(rt, &mut region, 0, 0, -9i16);
        put(rt, &mut region, 1, 1, true);
        let mut region = give_up(rt, region, Mode::Copy);
        is_missing(rt, &mut region, 1);
        is_missing(rt, &mut region, usize::MAX);
        is_told(rt, &region, 0, Kind::Short, 1);
        has(rt, &mut region, 0, 0, -9i16);
        nests_string(rt, &mut region, text, Ok(1));
        is_told(rt, &region, 1, Kind::Text, 3);
        has(rt, &mut region, 1, 2, 3u16);
        let region = give_up(rt, region, Mode::Copy);
        match region.release(Mode::Copy) {
            None => {}
            Some(_) => panic!(rt; "a level is left"),
        }
        is_outside(rt, env);
        has_elements(rt, env, second, 0, &mut [true; 2], &[false, true])
    }
}

#[test]
fn the_last_level_is_given_up_first(rt: HostRuntime) -> Result<(), Fail> {
    alone(&rt, rt.alloc(), TWO, StandsAnew)
}
