//! How many handles a slot and a local place give, and what their row says then.

use crate::frames::are_free;
use crate::row::has_words;
use assertions::assert_same;
use jr_env::{Env, NativeInterface};
use jr_fixtures::{EnvTest, alone, has_type, made, opened_env, refusal};
use jr_rule::PlainSteps;
use jr_steps::Steps;
use jr_word::{Config, Fault, Handle};
use std::alloc::Global;
use std::process::Abort;
use std::test::Fail;

/// Kinds of references that are made and deleted over and over.
#[derive(Clone, Copy)]
enum Renewed {
    Local,
    Global,
}

/// Makes a reference to an object.
fn renew<S: Steps>(env: &mut Env<S>, kind: Renewed, object: Handle) -> Result<Handle, Fail> {
    let answer = match kind {
        Renewed::Local => env.new_local_ref(object),
        Renewed::Global => env.new_global_ref(object),
    };
    made(answer)
}

/// Deletes such a reference.
fn delete<S: Steps>(env: &mut Env<S>, kind: Renewed, handle: Handle) -> Result<(), Fault> {
    match kind {
        Renewed::Local => env.delete_local_ref(handle),
        Renewed::Global => env.delete_global_ref(handle),
    }
}

/// The last of 65,537 references that are each deleted before the next one is made.
fn last_renewed<S: Steps>(env: &mut Env<S>, kind: Renewed, object: Handle) -> Result<Handle, Fail> {
    let mut last = Handle::NULL;
    for _ in 0..65_537 {
        last = renew(env, kind, object)?;
        delete(env, kind, last)?;
    }
    Ok(last)
}

/// What the one free place gives: its first two handles, and the two behind 65,536 others, whose serials have the same lower halves.
#[derive(Drop)]
struct Given {
    first: [Handle; 2],
    later: [Handle; 2],
    ref_type: u8,
}

/// The one free place for references of a kind gives more than 65,536 handles, each of which is told from every other.
fn gives_more<S: Steps>(
    rt: &impl Abort,
    env: &mut Env<S>,
    kind: Renewed,
    object: Handle,
    given: &Given,
) -> Result<(), Fail> {
    let last = last_renewed(env, kind, object)?;
    assert_same!(rt; last, given.later[0]);
    has_type(env, last, 0)?;
    has_type(env, given.first[0], 0)?;
    // A later reference is told from the one whose serial has the same lower half.
    let next = renew(env, kind, object)?;
    assert_same!(rt; next, given.later[1]);
    has_type(env, next, given.ref_type)?;
    has_type(env, given.first[1], 0)
}

/// The one slot gives more than 65,536 handles.
#[derive(Drop)]
struct SlotGivesMore;

impl<R: Abort> EnvTest<R> for SlotGivesMore {
    fn run<S: Steps>(self, rt: &R, _alloc: Global, env: &mut Env<S>) -> Result<(), Fail> {
        let local = env.new_plain()?;
        let given = Given {
            first: [Handle(2), Handle(6)],
            later: [Handle(0x4_0002), Handle(0x4_0006)],
            ref_type: 2,
        };
        gives_more(rt, env, Renewed::Global, local, &given)
    }
}

#[test]
fn a_slot_gives_more_than_65_536_handles(rt: HostRuntime) -> Result<(), Fail> {
    alone(&rt, rt.alloc(), Config::LEAST, SlotGivesMore)
}

/// A local place gives more than 65,536 handles.
#[derive(Drop)]
struct PlaceGivesMore;

impl<R: Abort> EnvTest<R> for PlaceGivesMore {
    fn run<S: Steps>(self, rt: &R, _alloc: Global, env: &mut Env<S>) -> Result<(), Fail> {
        let local = env.new_plain()?;
        // One of the sixteen places is left free.
        for _ in 0..14 {
            made(env.new_local_ref(local))?;
        }
        let given = Given {
            first: [Handle(0x3C_0000_0001), Handle(0x3C_0000_0005)],
            later: [Handle(0x3C_0004_0001), Handle(0x3C_0004_0005)],
            ref_type: 1,
        };
        gives_more(rt, env, Renewed::Local, local, &given)
    }
}

#[test]
fn a_local_place_gives_more_than_65_536_handles(rt: HostRuntime) -> Result<(), Fail> {
    alone(&rt, rt.alloc(), Config::LEAST, PlaceGivesMore)
}

/// The one slot gives three handles, and is retired with the last of them. The reference to the object.
fn retires_a_slot<S: Steps>(rt: &impl Abort, env: &mut Env<S>) -> Result<Handle, Fail> {
    let local = env.new_plain()?;
    let words = [Handle(2), Handle(6), Handle(10)];
    for word in words {
        let global = made(env.new_global_ref(local))?;
        assert_same!(rt; global, word);
        env.delete_global_ref(global)?;
    }
    assert_same!(rt; refusal(env.new_global_ref(local)), Some(Fault::RowFull));
    for word in words {
        has_type(env, word, 0)?;
    }
    Ok(local)
}

/// A local place gives three handles, and is retired too: fourteen are free of sixteen, since one has the reference to the object.
fn retires_a_place<S: Steps>(rt: &impl Abort, env: &mut Env<S>, local: Handle) -> Result<(), Fail> {
    for _ in 0..3 {
        let other = made(env.new_local_ref(local))?;
        env.delete_local_ref(other)?;
    }
    are_free(rt, env, 14)
}

/// A slot and a local place are retired, and no room for a reference then.
fn retires<S: Steps>(rt: &impl Abort, env: &mut Env<S>) -> Result<(), Fail> {
    let local = retires_a_slot(rt, env)?;
    retires_a_place(rt, env, local)
}

#[test]
fn a_slot_and_a_place_are_retired_after_their_last_serials(rt: HostRuntime) -> Result<(), Fail> {
    let mut env = opened_env(PlainSteps::<2>::new(rt.alloc(), Config::LEAST)?);
    retires(&rt, &mut env)?;
    let mut row = [0; 20];
    row[2] = 9;
    row[3] = 1;
    row[19] = 1;
    has_words(&rt, &env.held.steps.cells.words, &row);
    Ok(())
}
