//! The kind of each object.

use crate::envs::TWO;
use assertions::assert_same;
use jr_env::{Env, NativeInterface};
use jr_fixtures::{EnvTest, alone};
use jr_steps::Steps;
use jr_word::{Handle, Kind};
use std::alloc::Global;
use std::process::Abort;
use std::test::Fail;

/// An object without elements, a string, an array of numbers and one of objects, the last three of three elements.
pub(crate) fn one_of_each<S: Steps>(env: &mut Env<S>) -> Result<[Handle; 4], Fail> {
    let plain = env.new_plain()?;
    let string = env.new_string(&[1, 2, 3])?;
    let shorts = env.new_array::<i16>(3)?;
    let objects = env.new_object_array(3, plain)?;
    Ok([plain, string, shorts, objects])
}

/// Checks the kind of an object.
fn has_kind<S: Steps>(rt: &impl Abort, env: &mut Env<S>, word: Handle, kind: Kind) {
    assert_same!(rt; env.kind_of(word), Ok(kind); at word);
}

/// The kind of each of these.
#[derive(Drop)]
struct HaveKinds;

impl<R: Abort> EnvTest<R> for HaveKinds {
    fn run<S: Steps>(self, rt: &R, _alloc: Global, env: &mut Env<S>) -> Result<(), Fail> {
        let [plain, string, shorts, objects] = one_of_each(env)?;
        has_kind(rt, env, plain, Kind::Plain);
        has_kind(rt, env, string, Kind::Text);
        has_kind(rt, env, shorts, Kind::Short);
        has_kind(rt, env, objects, Kind::Objects);
        Ok(())
    }
}

#[test]
fn each_object_has_its_kind(rt: HostRuntime) -> Result<(), Fail> {
    alone(&rt, rt.alloc(), TWO, HaveKinds)
}
