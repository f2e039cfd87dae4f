//! What collections list: the weak references that they cleared and the objects that they dropped, in buffers of any size.

use jr_env::{Env, NativeInterface, Patience};
use jr_fixtures::{is_refused, made, plain_env};
use jr_steps::Steps;
use jr_weak::{Collected, Marker};
use jr_word::{Config, Fault, Handle};
use std::alloc::Global;
use std::process::Abort;
use std::test::Fail;

/// A room of one thread and three objects.
const THREE: Config = Config {
    slots: 4,
    objects: 3,
    ..Config::LEAST
};

/// What a place of a buffer has where nothing was listed.
const NO_HANDLE: Handle = Handle(9);

const NO_NUMBER: u16 = 9;

/// How often what is refused is made again.
const FEW: Patience = Patience {
    more: 3,
    ..Patience::LONG
};

/// What is tried.
#[derive(Clone, Copy, PartialEq, Eq)]
enum Case {
    /// Buffers with room for more than went.
    Ample,
    /// Buffers with room for less.
    Small,
    /// Buffers with no room.
    Empty,
    /// Two collections, one behind the other.
    Twice,
    /// An object that stays between two that go.
    Between,
    /// A marker for another room.
    Refused,
}

/// What collects.
#[derive(Clone, Copy, PartialEq, Eq)]
enum By {
    /// A collection that announces nothing.
    Plain,
    /// One that is announced.
    Announced,
    /// One that is announced until it gets its turn.
    InTurn,
}

/// Collects, and lists what went.
fn collect_by<S: Steps>(
    env: &mut Env<S>,
    marker: &mut Marker,
    by: By,
    handles: &mut [Handle],
    numbers: &mut [u16],
) -> Result<Collected, Fault> {
    match by {
        By::Plain => env.collect_listing(marker, handles, numbers),
        By::Announced => env.collect_announced_listing(marker, 2, handles, numbers),
        By::InTurn => env.collect_in_turn_listing(marker, 2, FEW, handles, numbers),
    }
}

/// A weak reference to a new object, which nothing else names.
fn lost<S: Steps>(env: &mut Env<S>) -> Result<Handle, Fail> {
    let object = env.new_plain()?;
    let weak = made(env.new_weak_global_ref(object))?;
    env.delete_local_ref(object)?;
    Ok(weak)
}

/// All that went is listed, in order, and what lies behind stays.
fn lists_all<S: Steps>(
    rt: &impl Abort,
    env: &mut Env<S>,
    marker: &mut Marker,
    by: By,
) -> Result<(), Fail> {
    let first = lost(env)?;
    let second = lost(env)?;
    let mut handles = [NO_HANDLE; 3];
    let mut numbers = [NO_NUMBER; 4];
    let collected = collect_by(env, marker, by, &mut handles, &mut numbers)?;
    assert!(rt; collected.cleared == 2);
    assert!(rt; collected.dropped == 2);
    assert!(rt; handles == [first, second, NO_HANDLE]);
    assert!(rt; numbers == [1, 2, NO_NUMBER, NO_NUMBER]);
    assert!(rt; marker.found().is_empty());
    Ok(())
}

/// The first of what went is listed, and all of it counted.
fn lists_the_first<S: Steps>(
    rt: &impl Abort,
    env: &mut Env<S>,
    marker: &mut Marker,
    by: By,
) -> Result<(), Fail> {
    let first = lost(env)?;
    let second = lost(env)?;
    lost(env)?;
    let mut handles = [NO_HANDLE; 2];
    let mut numbers = [NO_NUMBER; 1];
    let collected = collect_by(env, marker, by, &mut handles, &mut numbers)?;
    assert!(rt; collected.cleared == 3);
    assert!(rt; collected.dropped == 3);
    assert!(rt; handles == [first, second]);
    assert!(rt; numbers == [1]);
    Ok(())
}

/// Nothing is listed, and all of it counted.
fn lists_none<S: Steps>(
    rt: &impl Abort,
    env: &mut Env<S>,
    marker: &mut Marker,
    by: By,
) -> Result<(), Fail> {
    lost(env)?;
    let collected = collect_by(env, marker, by, &mut [], &mut [])?;
    assert!(rt; collected.cleared == 1);
    assert!(rt; collected.dropped == 1);
    Ok(())
}

/// A reference that was cleared is listed once, and the next collection lists nothing.
fn lists_it_once<S: Steps>(
    rt: &impl Abort,
    env: &mut Env<S>,
    marker: &mut Marker,
    by: By,
) -> Result<(), Fail> {
    let weak = lost(env)?;
    let mut handles = [NO_HANDLE; 2];
    let mut numbers = [NO_NUMBER; 2];
    collect_by(env, marker, by, &mut handles, &mut numbers)?;
    assert!(rt; handles == [weak, NO_HANDLE]);
    assert!(rt; numbers == [1, NO_NUMBER]);
    let mut handles = [NO_HANDLE; 1];
    let mut numbers = [NO_NUMBER; 1];
    let again = collect_by(env, marker, by, &mut handles, &mut numbers)?;
    assert!(rt; again.cleared == 0);
    assert!(rt; again.dropped == 0);
    assert!(rt; handles == [NO_HANDLE]);
    assert!(rt; numbers == [NO_NUMBER]);
    Ok(())
}

/// What stays is marked, and not listed.
fn lists_what_went<S: Steps>(
    rt: &impl Abort,
    env: &mut Env<S>,
    marker: &mut Marker,
    by: By,
) -> Result<(), Fail> {
    let first = lost(env)?;
    let kept = env.new_plain()?;
    env.new_weak_global_ref(kept)?;
    let last = lost(env)?;
    let mut handles = [NO_HANDLE; 3];
    let mut numbers = [NO_NUMBER; 3];
    collect_by(env, marker, by, &mut handles, &mut numbers)?;
    assert!(rt; handles == [first, last, NO_HANDLE]);
    assert!(rt; numbers == [1, 3, NO_NUMBER]);
    assert!(rt; marker.found().len() == 1);
    assert!(rt; marker.is_marked(2));
    Ok(())
}

/// Where it is refused the buffers are as they were.
fn lists_nothing<S: Steps>(
    rt: &impl Abort,
    alloc: Global,
    env: &mut Env<S>,
    by: By,
) -> Result<(), Fail> {
    lost(env)?;
    let mut other = Marker::new(alloc, Config::LEAST)?;
    let mut handles = [NO_HANDLE; 1];
    let mut numbers = [NO_NUMBER; 1];
    let refused = collect_by(env, &mut other, by, &mut handles, &mut numbers);
    assert!(rt; is_refused(refused, Some(Fault::Size)));
    assert!(rt; handles == [NO_HANDLE]);
    assert!(rt; numbers == [NO_NUMBER]);
    Ok(())
}

/// Tries a case in an env in which nothing stands.
fn try_case<S: Steps>(
    rt: &impl Abort,
    alloc: Global,
    env: &mut Env<S>,
    case: Case,
    by: By,
) -> Result<(), Fail> {
    let mut marker = env.marker(alloc)?;
    match case {
        Case::Ample => lists_all(rt, env, &mut marker, by),
        Case::Small => lists_the_first(rt, env, &mut marker, by),
        Case::Empty => lists_none(rt, env, &mut marker, by),
        Case::Twice => lists_it_once(rt, env, &mut marker, by),
        Case::Between => lists_what_went(rt, env, &mut marker, by),
        Case::Refused => lists_nothing(rt, alloc, env, by),
    }
}

/// Tries each case, in a room of plain words of its own.
fn try_all(rt: &impl Abort, alloc: Global, by: By) -> Result<(), Fail> {
    for case in [
        Case::Ample,
        Case::Small,
        Case::Empty,
        Case::Twice,
        Case::Between,
        Case::Refused,
    ] {
        let mut env = plain_env(alloc, THREE)?;
        try_case(rt, alloc, &mut env, case, by)?;
    }
    Ok(())
}

#[test]
fn collections_list_what_went(rt: HostRuntime) -> Result<(), Fail> {
    try_all(&rt, rt.alloc(), By::Plain)
}

#[test]
fn announced_collections_list_what_went(rt: HostRuntime) -> Result<(), Fail> {
    try_all(&rt, rt.alloc(), By::Announced)
}

#[test]
fn collections_in_turn_list_what_went(rt: HostRuntime) -> Result<(), Fail> {
    try_all(&rt, rt.alloc(), By::InTurn)
}
