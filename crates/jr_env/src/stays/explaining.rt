//! What a word is, told in a stay, over any steps.
ghost use Rattle.std.specs.Prelude.{◌≡◌};
ghost use Rattle.jr_frames.specs.Explaining.{ExplainsWord};
ghost use Rattle.jr_frames.specs.Reading.{OwnerFits, word_of};
ghost use Rattle.jr_gate.specs.Stays.{IsOwnStay};
ghost use Rattle.jr_env.specs.Calling.{CanCall};
ghost use Rattle.jr_env.specs.OpenStays.{StaysOn};

use crate::env::Env;
use crate::stay::Stay;
use jr_frames::{Explanation, Held, Reference, explain};
use jr_gate::Inside;
use jr_steps::Steps;
use jr_word::{Fault, Handle};

/// What a word is that was read, in a stay of the thread, which goes on.
#[inline(always)]
fn explain_inside<S: Steps>(held: &mut Held<S>, inside: &Inside, target: Reference) -> Explanation
    requires stay { IsOwnStay inside.now (S.facts held.old.steps).stands }
    requires ready { CanCall (S.facts held.old.steps).stands }
    requires owner { OwnerFits target }
    ensures call { ExplainsWord S.facts held.old.steps held.new.steps held.old.frames.frames (word_of target) result }
    ensures frames { held.new.frames ≡ held.old.frames }
    ensures on { StaysOn held.old held.new }
    ensures own { IsOwnStay inside.now (S.facts held.new.steps).stands }
    ensures next { CanCall (S.facts held.new.steps).stands }
{
    explain(&mut held.steps, inside, &held.frames, target)
}

impl<S: Steps> Env<S> {
    ghost use Rattle.jr_env.specs.OpenStays.{StaysOn};

    /// The same of an env whose thread is within.
    #[inline(always)]
    fn explain_within(&mut self, inside: &Inside, target: Reference) -> Explanation
        requires stay { IsOwnStay inside.now (S.facts self.old.held.steps).stands }
        requires owner { OwnerFits target }
        ensures call { ExplainsWord S.facts self.old.held.steps self.new.held.steps self.old.held.frames.frames (word_of target) result }
        ensures frames { self.new.held.frames ≡ self.old.held.frames }
        ensures on { StaysOn self.old.held self.new.held }
        ensures own { IsOwnStay inside.now (S.facts self.new.held.steps).stands }
    {
        explain_inside(&mut self.held, inside, target)
    }
}

impl<S: Steps> Stay<'_, S> {
    ghost use Rattle.jr_env.specs.LentStays.{DoesWithin};
    ghost use Rattle.jr_env.specs.Words.{explaining};

    /// What a word is that native code hands in as a handle: NULL, malformed, outside the room, another thread's local one, standing (of which kind, and for an object of which kind or cleared),
    /// of another kind than the reference that stands under its serial, given and gone, or not given yet. What it tells of the room was so at its one look. It changes nothing.
    ///
    /// # Errors
    ///
    /// None: in a stay it answers Ok in any case.
    ///
    /// # Operations
    ///
    /// At most 2: a look at the slot of a global or weak handle that lies in the room, and one at the header of an object that stands there.
    #[inline(always)]
    pub fn explain(&mut self, handle: Handle) -> Result<Explanation, Fault>
        ensures { DoesWithin self.old self.new (explaining handle.0) result }
    {
        let target = Reference::of(handle);
        Ok(self.env.explain_within(&self.inside, target))
    }
}
