//! Collections.
ghost use Rattle.std.specs.Prelude.{◌≡◌, ◌≤◌, OnErr};
ghost use Rattle.jr_weak.specs.declared.collecting.Collected.{Collected};
ghost use Rattle.jr_weak.specs.Listing.{ListsTell};
ghost use Rattle.jr_weak.specs.Markers.{marks_of, room_of};
ghost use Rattle.jr_env.specs.Collections.{FitsRoom, collection, announced_collection};
ghost use Rattle.jr_env.specs.Envs.{Does};
ghost use Rattle.jr_env.specs.Listings.{listed_in_turn};
ghost use Rattle.jr_env.specs.Remedies.{collection_in_turn};
ghost use Rattle.luthrady.specs.Collecting.{CountsReplied, at_least_one, counts_of};
ghost use Rattle.luthrady.specs.Replies.{reply_of};

use crate::handles::EnvHandle;
use crate::held::Native;
use crate::marker_call::{MarkerCall, make_marking};
use crate::reply::{Reply, nothing_reply};
use jr_env::Env;
use jr_steps::Steps;
use jr_weak::{Collected, Marker};
use jr_word::{Fault, Handle};

/// What a collection did.
#[repr(C)]
#[derive(Clone, Copy)]
pub struct Counts {
    /// How many weak references it cleared.
    pub cleared: u32,
    /// How many objects it dropped.
    pub dropped: u32,
    /// How many words were used then.
    pub used: u32,
}

/// Collects, by the thread's own marker, and writes what it did.
///
/// # Errors
///
/// E21 where no env stands behind the handle; E19 in a critical region; else those of `Env::collect`.
#[unsafe(no_mangle)]
pub extern "C" fn luthrady_collect(env: &mut EnvHandle, out: &mut Counts) -> Reply
    ensures { CountsReplied env.old env.new collection result out.old out.new }
{
    told(make_marking(env, Collect), out)
}

/// Collects as `luthrady_collect` does, but announces it first, and tries so many times to shut the gate, at least once.
///
/// # Errors
///
/// E21 where no env stands behind the handle; E19 in a critical region; else those of `Env::collect_announced`.
#[unsafe(no_mangle)]
pub extern "C" fn luthrady_collect_announced(
    env: &mut EnvHandle,
    tries: u32,
    out: &mut Counts,
) -> Reply
    ensures { CountsReplied env.old env.new (announced_collection (at_least_one tries)) result out.old out.new }
{
    told(make_marking(env, CollectAnnounced(tries)), out)
}

/// Collects as `luthrady_collect_announced` does, and announces it anew as long as it gets no turn (E14, E23), but no more than so many times more. The last answer is the answer.
/// Between two announcements none stands, so that others go in. It yields to nobody.
///
/// # Errors
///
/// E21 where no env stands behind the handle; E19 in a critical region; else those of `Env::collect_in_turn`.
#[unsafe(no_mangle)]
pub extern "C" fn luthrady_collect_in_turn(
    env: &mut EnvHandle,
    tries: u32,
    more: u32,
    out: &mut Counts,
) -> Reply
    ensures { CountsReplied env.old env.new (collection_in_turn (at_least_one tries) more) result out.old out.new }
{
    told(make_marking(env, CollectInTurn { tries, more }), out)
}

/// Tells what a collection did.
pub(crate) fn told(answer: Result<Collected, Fault>, out: &mut Counts) -> Reply
    ensures reply { result ≡ reply_of (λ (c : Collected). 0) answer }
    ensures counts { out.new ≡ counts_of answer out.old }
{
    match answer {
        Ok(collected) => {
            *out = Counts {
                cleared: collected.cleared,
                dropped: collected.dropped,
                used: collected.used,
            };
            nothing_reply(Ok(()))
        }
        Err(fault) => nothing_reply(Err(fault)),
    }
}

/// A collection.
#[derive(Clone, Copy)]
struct Collect;

impl MarkerCall for Collect {
    type Answer = Collected;

    ghost deed = { λ c. collection };

    fn by(self, native: &mut Native) -> Result<Collected, Fault> {
        native.env.collect(&mut native.marker)
    }
}

/// A collection that is announced, with so many tries, at least one.
#[derive(Clone, Copy)]
struct CollectAnnounced(u32);

impl MarkerCall for CollectAnnounced {
    type Answer = Collected;

    ghost deed = { λ c. announced_collection (at_least_one c.0) };

    fn by(self, native: &mut Native) -> Result<Collected, Fault> {
        native
            .env
            .collect_announced(&mut native.marker, some(self.0))
    }
}

/// A collection that is announced, with so many tries, at least one, and up to so many times more as long as it gets no turn.
#[derive(Clone, Copy)]
struct CollectInTurn {
    tries: u32,
    more: u32,
}

impl MarkerCall for CollectInTurn {
    type Answer = Collected;

    ghost deed = { λ c. collection_in_turn (at_least_one c.tries) c.more };

    fn by(self, native: &mut Native) -> Result<Collected, Fault> {
        collect_until_served(
            &mut native.env,
            &mut native.marker,
            some(self.tries),
            self.more,
            &mut [],
            &mut [],
        )
    }
}

/// Collects as `Env::collect_in_turn_listing` does, without a yield.
///
/// # Errors
///
/// Those of `Env::collect_in_turn_listing`.
///
/// The lists are as they were then.
pub(crate) fn collect_until_served<S: Steps>(
    env: &mut Env<S>,
    marker: &mut Marker,
    tries: u32,
    more: u32,
    handles: &mut [Handle],
    numbers: &mut [u16],
) -> Result<Collected, Fault>
    requires { 1 ≤ tries }
    ensures call { FitsRoom marker.old env.old → Does env.old env.new
        (listed_in_turn tries more (marks_of marker.new) (ListsTell handles.old numbers.old handles.new numbers.new)) result }
    ensures room { room_of marker.new ≡ room_of marker.old }
    ensures unlisted { OnErr result ((handles.new ≡ handles.old) × (numbers.new ≡ numbers.old)) }
{
    for _ in 0..more {
        match env.collect_announced_listing(marker, tries, handles, numbers) {
            Ok(collected) => return Ok(collected),
            Err(_) => {}
        }
    }
    env.collect_announced_listing(marker, tries, handles, numbers)
}

/// So many, and at least one.
pub(crate) fn some(tries: u32) -> u32
    ensures some { 1 ≤ result }
    ensures tries { result ≡ at_least_one tries }
{
    if tries == 0 { 1 } else { tries }
}
