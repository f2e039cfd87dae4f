//! Two threads that delete the same references: round by round, each time at once.

use crate::side_by_side::{SideWork, both_do};
use assertions::assert_same;
use jr_env::{Env, NativeInterface};
use jr_steps::Steps;
use jr_word::{Config, Fault, Handle};
use std::process::Abort;
use std::test::Fail;
use std::thread;

/// How many references the two threads delete.
const ROUNDS: u16 = 1_000;

/// How often a thread looks for the other one at most.
const TRIES: u32 = 50_000_000;

/// How often a thread looks before it lets others run: so the two mostly go on within the time of one look.
const SPINS: u32 = 100;

/// A room of three threads with a slot for each round, and one more.
const CONTESTED: Config = Config {
    threads: 3,
    slots: 1_001,
    objects: 1,
    words: 4,
    locals: 16,
};

/// One of the two threads.
#[derive(Clone, Copy)]
pub(crate) enum Side {
    One,
    Other,
}

impl Side {
    /// At which index of the shared array the thread shows what it did in a round, and at which the other one does. Two rounds that follow each other have indices of their own.
    fn indices(self, round: u16) -> (u32, u32) {
        match (self, round % 2) {
            (Side::One, 0) => (0, 1),
            (Side::Other, 0) => (1, 0),
            (Side::One, _) => (2, 3),
            (Side::Other, _) => (3, 2),
        }
    }
}

/// Global, with serial 0 at a slot.
fn reference(slot: u16) -> Handle {
    Handle(2 | (u64::from(slot) << 34))
}

/// Makes the array that both threads share, a reference by which they come to it, and one for each round.
pub(crate) fn make_contested<S: Steps>(rt: &impl Abort, env: &mut Env<S>) -> Result<(), Fail> {
    let array = env.new_array::<i32>(4)?;
    for slot in 0..=ROUNDS {
        let made = env.new_global_ref(array)?;
        assert_same!(rt; made, Some(reference(slot)); at slot);
    }
    Ok(())
}

/// Shows the other thread that this one has come to a round, and what it did there. Waits for what the other one did.
fn meets<S: Steps>(env: &mut Env<S>, side: Side, round: u16, did: bool) -> Result<bool, Fault> {
    let (own, others) = side.indices(round);
    let wanted = i32::from(round) + 1;
    let shown = if did { wanted } else { -wanted };
    env.set_array_region(reference(0), own, &[shown])?;
    let mut found = [0];
    for tries in 1..=TRIES {
        env.get_array_region(reference(0), others, &mut found)?;
        if found[0] == wanted {
            return Ok(true);
        }
        if found[0] == -wanted {
            return Ok(false);
        }
        if tries % SPINS == 0 {
            thread::yield_now();
        }
    }
    Err(Fault::Turns)
}

/// Whether this thread deletes a reference, and not the other one.
fn deletes<S: Steps>(env: &mut Env<S>, handle: Handle) -> Result<bool, Fault> {
    match env.delete_global_ref(handle) {
        Ok(()) => Ok(true),
        Err(Fault::Stale) => Ok(false),
        Err(fault) => Err(fault),
    }
}

/// Deletes the reference of each round as the other thread does, and finds each time that just one of the two did. How many it deleted.
pub(crate) fn delete_beside<S: Steps>(env: &mut Env<S>, side: Side) -> Result<u32, Fault> {
    let mut deleted = 0u32;
    meets(env, side, 0, true)?;
    for round in 1..=ROUNDS {
        let did = deletes(env, reference(round))?;
        if meets(env, side, round, did)? == did {
            return Err(Fault::Value);
        }
        deleted = deleted.saturating_add(u32::from(did));
    }
    Ok(deleted)
}

/// Of two threads that delete a reference at once just one does, a thousand times.
#[test]
fn a_reference_is_deleted_by_one_of_two(rt: HostRuntime) -> Result<(), Fail> {
    let (one, other) = (SideWork::Delete(Side::One), SideWork::Delete(Side::Other));
    both_do(&rt, rt.alloc(), CONTESTED, one, other)
}
