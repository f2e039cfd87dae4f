//! How long a collection takes, announced or not, and how long a census.

ghost use Rattle.jr_env.specs.Collections.{FitsRoom};

use crate::case::Env;
use crate::measure::print_job;
use crate::round::{Done, RoundKind, Signs};
use jr_census::Census;
use jr_env::NativeInterface;
use jr_steps::Steps;
use jr_weak::{Collected, Marker};
use jr_word::{Config, Fault};
use std::alloc::Global;
use std::io;
use std::rt::Clock;
use std::thread::Threads;

/// How many elements each array has.
const LENGTH: u32 = 16;

/// How many local places the one thread has.
const LOCALS: u32 = 16;

/// How often an announced collection tries to shut the gate.
const TRIES: u32 = 100_000;

/// How a collection is made, or asked for.
#[derive(Clone, Copy)]
pub(crate) enum Way {
    /// By one step that is refused where another thread is inside.
    Direct,
    /// By an announcement, behind which nobody goes in.
    Announced,
    /// By one step, with a list of what went.
    Listed,
    /// Not at all: a census tells what it would come to.
    Asked,
}

/// Each way to collect, with its name.
pub(crate) const COLLECTING: [(Way, &'static str); 2] = [
    (Way::Direct, "collect"),
    (Way::Announced, "collect_announced"),
];

/// Each way, with its name.
pub(crate) const WAYS: [(Way, &'static str); 4] = [
    (Way::Direct, "collect"),
    (Way::Announced, "collect_announced"),
    (Way::Listed, "collect_listing"),
    (Way::Asked, "census"),
];

/// What a collection would come to where no weak reference stands, by a census.
fn told(census: Census) -> Collected {
    Collected {
        cleared: 0,
        dropped: census.unreached.live,
        used: census.words.reached,
    }
}

impl Way {
    /// Collects, or asks. One that lists has room for so many identities.
    #[inline(never)]
    pub(crate) fn collect<S: Steps>(
        self,
        env: &mut Env<S>,
        marker: &mut Marker,
        numbers: &mut [u16],
    ) -> Result<Collected, Fault>
        requires { FitsRoom marker.old env.old }
    {
        match self {
            Way::Direct => env.collect(marker),
            Way::Announced => env.collect_announced(marker, TRIES),
            Way::Listed => env.collect_listing(marker, &mut [], numbers),
            Way::Asked => env.census(marker).map(told),
        }
    }
}

/// What is collected: a room full of arrays of 16 elements, of which some are reached, each by a global reference of its own.
#[derive(Clone, Copy)]
pub(crate) struct Collections {
    /// How many arrays the room has.
    pub(crate) arrays: u32,
    /// One in so many of them is not reached: 0 where all are, 1 where none is.
    pub(crate) every: u32,
}

impl Collections {
    /// The sizes of a room that just these arrays fill.
    pub(crate) fn config(self) -> Config {
        Config {
            threads: 1,
            slots: self.arrays,
            objects: self.arrays,
            words: self.arrays.saturating_mul(LENGTH),
            locals: LOCALS,
        }
    }

    /// Makes the arrays, and tells how many of them are reached.
    fn fill<S: Steps>(self, env: &mut Env<S>) -> Option<u32> {
        let mut reached = 0u32;
        for number in 0..self.arrays {
            let array = env.new_array::<i32>(LENGTH).ok()?;
            if self.every == 0 || number % self.every != 0 {
                env.new_global_ref(array).ok()??;
                reached = reached.saturating_add(1);
            }
            env.delete_local_ref(array).ok()?;
        }
        Some(reached)
    }

    /// What a collection is to answer where so many of the arrays are reached.
    fn answer(self, reached: u32) -> Collected {
        Collected {
            cleared: 0,
            dropped: self.arrays.saturating_sub(reached),
            used: reached.saturating_mul(LENGTH),
        }
    }

    /// Collects by the env, which takes as long as the thread ran then: none where it does not answer as it should.
    pub(crate) fn time_in<R: Clock, S: Steps>(
        self,
        rt: &R,
        alloc: Global,
        env: &mut Env<S>,
        way: Way,
        signs: &Signs,
    ) -> Option<Done> {
        let wanted = self.answer(self.fill(env)?);
        let mut marker = Marker::new(alloc, env.held.steps.config()).ok()?;
        let mut numbers = vec![in alloc; 0u16; self.arrays as usize].ok()?;
        let began = signs.now(rt)?;
        let collected = way.collect(env, &mut marker, &mut numbers);
        let ended = signs.now(rt)?;
        if collected != Ok(wanted) {
            return None;
        }
        Some(Done::from_to(began, ended))
    }
}

/// Prints a line for a collection, one for an announced one and one for a census, as those of calls are.
pub(crate) fn print<R: Threads + Clock + Print + Sync>(
    rt: &R,
    alloc: Global,
    work: Collections,
    rounds: u32,
) -> io::Result<()> {
    for (way, name) in WAYS {
        print_job(rt, alloc, "", name, RoundKind::Collects(work, way), rounds)?;
    }
    Ok(())
}
