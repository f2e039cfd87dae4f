use assertions::assert_same;
use jr_env::calls::NewPlain;
use jr_env::{Env, NativeInterface, Patience};
use jr_fixtures::{plain_env, refusal};
use jr_steps::Steps;
use jr_weak::Marker;
use jr_word::{Config, Fault, Handle};
use std::alloc::Global;
use std::process::Abort;
use std::test::Fail;

/// A room of so many objects.
fn room_of(objects: u32) -> Config {
    Config {
        objects,
        ..Config::LEAST
    }
}

#[test]
fn a_new_marker_of_one_object_has_no_mark(rt: HostRuntime) -> Result<(), Fail> {
    let marker = Marker::new(rt.alloc(), room_of(1))?;
    assert!(rt; marker.found().is_empty());
    assert!(rt; !marker.is_marked(0));
    assert!(rt; !marker.is_marked(1));
    assert!(rt; !marker.is_marked(2));
    Ok(())
}

#[test]
fn a_new_marker_of_most_objects_has_no_mark(rt: HostRuntime) -> Result<(), Fail> {
    let marker = Marker::new(rt.alloc(), room_of(65_535))?;
    assert!(rt; marker.found().is_empty());
    assert!(rt; !marker.is_marked(1));
    assert!(rt; !marker.is_marked(65_535));
    Ok(())
}

#[test]
fn no_marker_is_made_for_a_room_beyond_the_limits(rt: HostRuntime) -> Result<(), Fail> {
    for objects in [0, 65_536] {
        let Err(fault) = Marker::new(rt.alloc(), room_of(objects)) else {
            return Err("a marker for no room")?;
        };
        assert_same!(&rt; fault, Fault::Size);
    }
    Ok(())
}

/// Checks that each collection by this marker is refused, with nothing changed.
fn fits_no_collection<S: Steps>(rt: &impl Abort, env: &mut Env<S>, marker: &mut Marker) {
    assert_same!(rt; refusal(env.collect(marker)), Some(Fault::Size));
    assert_same!(rt; refusal(env.collect_announced(marker, 3)), Some(Fault::Size));
    let few = Patience::of(3);
    assert_same!(rt; refusal(env.collect_in_turn(marker, 3, few)), Some(Fault::Size));
    let made = env.retry_collecting(marker, NewPlain, few);
    assert_same!(rt; refusal(made), Some(Fault::Size));
    let made = env.retry_collecting_in_turn(marker, 3, NewPlain, few);
    assert_same!(rt; refusal(made), Some(Fault::Size));
}

/// Deletes the reference to an object, which the next collection drops.
fn drops_one<S: Steps>(
    rt: &impl Abort,
    env: &mut Env<S>,
    marker: &mut Marker,
    object: Handle,
) -> Result<(), Fail> {
    env.delete_local_ref(object)?;
    let collected = env.collect(marker)?;
    assert_same!(rt; collected.dropped, 1);
    Ok(())
}

/// Makes an object, which a collection that is announced leaves.
fn drops_none<S: Steps>(
    rt: &impl Abort,
    env: &mut Env<S>,
    marker: &mut Marker,
) -> Result<(), Fail> {
    env.new_plain()?;
    let collected = env.collect_announced(marker, 3)?;
    assert_same!(rt; collected.dropped, 0);
    Ok(())
}

/// Each of two envs collects by its own marker, announced or not, and not by the other's.
fn collect_by_their_own<S: Steps>(
    rt: &impl Abort,
    alloc: Global,
    small: &mut Env<S>,
    large: &mut Env<S>,
) -> Result<(), Fail> {
    let mut for_small = small.marker(alloc)?;
    let mut for_large = large.marker(alloc)?;
    let object = small.new_plain()?;
    fits_no_collection(rt, small, &mut for_large);
    fits_no_collection(rt, large, &mut for_small);
    drops_one(rt, small, &mut for_small, object)?;
    drops_none(rt, large, &mut for_large)
}

/// The same, where both envs were made.
fn both_collect<S: Steps + Drop>(
    rt: &impl Abort,
    alloc: Global,
    small: Result<Env<S>, Fault>,
    large: Result<Env<S>, Fault>,
) -> Result<(), Fail> {
    let mut small = small?;
    let mut large = large?;
    collect_by_their_own(rt, alloc, &mut small, &mut large)
}

#[test]
fn a_marker_serves_no_other_number_of_objects(rt: HostRuntime) -> Result<(), Fail> {
    let small = plain_env(rt.alloc(), room_of(2));
    let large = plain_env(rt.alloc(), room_of(3));
    both_collect(&rt, rt.alloc(), small, large)
}
