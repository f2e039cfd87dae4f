//! Numbers that an env tells while all others go on: its local references, and the words of array space that are used.
ghost use Rattle.jr_env.specs.Calling.{CanCall};
ghost use Rattle.jr_env.specs.UsedWords.{TellsUsedOver};

use crate::env::Env;
use crate::work::outside;
use jr_frames::{Held, LocalCounts};
use jr_gate::enter;
use jr_steps::{Steps, TopLoad};
use jr_word::Fault;

impl<S: Steps> Env<S> {
    ghost use Rattle.jr_frames.specs.Counted.{AreCounted};
    ghost use Rattle.jr_env.specs.Envs.{Does};
    ghost use Rattle.jr_env.specs.UsedWords.{words_used};

    /// How many local references the thread has, in how many frames, how many more can be made, and how many of its places were ever used. The env's own frames tell it:
    /// it enters no gate, and leaves the env as it is. Each of the thread's places is looked at.
    ///
    /// # Operations
    ///
    /// None.
    pub fn local_counts(&self) -> LocalCounts
        ensures { AreCounted self.now.held.frames result }
    {
        self.held.frames.counts()
    }

    /// How many words of array space are used: reserved, be it for objects that stand or for such as nothing reaches.
    /// So many were at a moment since the thread's step before the call, and before its exit.
    /// Others may go on meanwhile.
    ///
    /// # Errors
    ///
    /// That of the gate.
    ///
    /// Nothing has changed then, and the thread stands outside.
    ///
    /// # Operations
    ///
    /// At most 3: its events, the entry and the exit, and a look at the top of the array space.
    pub fn words_used(&mut self) -> Result<u32, Fault>
        ensures { Does self.old self.new words_used result }
    {
        used_whole(&mut self.held)
    }
}

/// How many words are used, by a call of its own. A stay that a region left is ended first.
///
/// # Errors
///
/// E13.
#[inline(always)]
fn used_whole<S: Steps>(held: &mut Held<S>) -> Result<u32, Fault>
    requires { CanCall (S.facts held.old.steps).stands }
    ensures call { TellsUsedOver held.old held.new result }
    ensures next { CanCall (S.facts held.new.steps).stands }
{
    outside(held);
    let inside = enter(&mut held.steps)?;
    let used = held.steps.see_top(TopLoad::Look);
    inside.leave(&mut held.steps);
    Ok(used)
}
