//! What gives a full room back: a collection in turn, a call that is made again behind one, and cleared weak references that are deleted, over plain words.

use assertions::assert_same;
use jr_env::calls::NewArray;
use jr_env::{Env, NativeInterface, Patience};
use jr_fixtures::{EnvTest, alone, refusal};
use jr_steps::Steps;
use jr_weak::Marker;
use jr_word::{Config, Fault, Handle};
use std::alloc::Global;
use std::process::Abort;
use std::test::Fail;

/// A room of one slot, one object and four words.
const ONE: Config = Config {
    words: 4,
    ..Config::LEAST
};

/// How often what is refused is made again.
const FEW: Patience = Patience {
    more: 3,
    ..Patience::LONG
};

/// The one slot is held by a weak reference, which is deleted once a collection has cleared it, and not before.
fn gives_the_slot_back<S: Steps>(
    rt: &impl Abort,
    env: &mut Env<S>,
    marker: &mut Marker,
) -> Result<(), Fail> {
    let object = env.new_plain()?;
    let weak = Handle::or_null(env.new_weak_global_ref(object)?);
    assert_same!(rt; refusal(env.new_global_ref(object)), Some(Fault::RowFull));
    assert!(rt; !env.delete_cleared(weak, FEW)?);
    env.delete_local_ref(object)?;
    let collected = env.collect_in_turn(marker, 1, FEW)?;
    assert_same!(rt; collected.cleared, 1);
    assert!(rt; env.delete_cleared(weak, FEW)?);
    assert_same!(rt; refusal(env.delete_cleared(weak, FEW)), Some(Fault::Stale));
    Ok(())
}

/// An array of all words is made behind a collection of the one before, and another one not while it stands.
fn gives_the_words_back<S: Steps>(
    rt: &impl Abort,
    env: &mut Env<S>,
    marker: &mut Marker,
) -> Result<(), Fail> {
    let all = NewArray::<i32>::of(4);
    let first = env.retry_collecting_in_turn(marker, 1, all, FEW)?;
    let full = env.retry_collecting_in_turn(marker, 1, all, FEW);
    assert_same!(rt; refusal(full), Some(Fault::SpaceFull(4)));
    env.delete_local_ref(first)?;
    let second = env.retry_collecting_in_turn(marker, 1, all, FEW)?;
    assert_same!(rt; env.get_array_length(second)?, 4);
    Ok(())
}

/// Each remedy gives back what it is for.
#[derive(Drop)]
struct GiveBack;

impl<R: Abort> EnvTest<R> for GiveBack {
    fn run<S: Steps>(self, rt: &R, alloc: Global, env: &mut Env<S>) -> Result<(), Fail> {
        let mut marker = env.marker(alloc)?;
        gives_the_slot_back(rt, env, &mut marker)?;
        gives_the_words_back(rt, env, &mut marker)
    }
}

#[test]
fn remedies_give_a_full_room_back(rt: HostRuntime) -> Result<(), Fail> {
    alone(&rt, rt.alloc(), ONE, GiveBack)
}
