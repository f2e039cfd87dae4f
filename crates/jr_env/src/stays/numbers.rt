//! The same numbers, told in a stay.
ghost use Rattle.std.specs.Prelude.{◌≡◌};
ghost use Rattle.jr_gate.specs.Stays.{IsOwnStay};
ghost use Rattle.jr_env.specs.Calling.{CanCall};
ghost use Rattle.jr_env.specs.OpenStays.{StaysOn};
ghost use Rattle.jr_env.specs.UsedWords.{TellsUsedWithin};

use crate::env::Env;
use crate::stay::Stay;
use jr_frames::{Held, LocalCounts};
use jr_gate::Inside;
use jr_steps::{Steps, TopLoad};
use jr_word::Fault;

/// How many words are used, in a stay of the thread, which goes on.
#[inline(always)]
fn used_inside<S: Steps>(held: &mut Held<S>, _inside: &Inside) -> u32
    requires stay { IsOwnStay _inside.now (S.facts held.old.steps).stands }
    requires ready { CanCall (S.facts held.old.steps).stands }
    ensures call { TellsUsedWithin held.old held.new result }
    ensures frames { held.new.frames ≡ held.old.frames }
    ensures on { StaysOn held.old held.new }
    ensures own { IsOwnStay _inside.now (S.facts held.new.steps).stands }
    ensures next { CanCall (S.facts held.new.steps).stands }
{
    held.steps.see_top(TopLoad::Look)
}

impl<S: Steps> Env<S> {
    /// The same of an env whose thread is within.
    #[inline(always)]
    pub(crate) fn used_within(&mut self, inside: &Inside) -> u32
        requires { IsOwnStay inside.now (S.facts self.old.held.steps).stands }
        ensures call { TellsUsedWithin self.old.held self.new.held result }
        ensures frames { self.new.held.frames ≡ self.old.held.frames }
        ensures on { StaysOn self.old.held self.new.held }
        ensures own { IsOwnStay inside.now (S.facts self.new.held.steps).stands }
    {
        used_inside(&mut self.held, inside)
    }
}

impl<S: Steps> Stay<'_, S> {
    ghost use Rattle.jr_frames.specs.Counted.{AreCounted};
    ghost use Rattle.jr_env.specs.LentStays.{DoesWithin, frames_in};
    ghost use Rattle.jr_env.specs.UsedWords.{words_used_within};

    /// How many local references the thread has, in how many frames, how many more can be made, and how many of its places were ever used. The env's own frames tell it, and the stay is left as it is.
    /// Each of the thread's places is looked at.
    ///
    /// # Operations
    ///
    /// None.
    pub fn local_counts(&self) -> LocalCounts
        ensures { AreCounted (frames_in self.now) result }
    {
        self.env.held.frames.counts()
    }

    /// How many words of array space are used: reserved, be it for objects that stand or for such as nothing reaches. So many were at one moment of the call. Others may go on meanwhile.
    ///
    /// # Errors
    ///
    /// None: in a stay it answers Ok in any case.
    ///
    /// # Operations
    ///
    /// At most 1, a look at the top of the array space.
    #[inline(always)]
    pub fn words_used(&mut self) -> Result<u32, Fault>
        ensures { DoesWithin self.old self.new words_used_within result }
    {
        Ok(self.env.used_within(&self.inside))
    }
}
