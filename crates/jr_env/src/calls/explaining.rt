//! The call that tells what a word is, over any steps.
ghost use Rattle.jr_frames.specs.Reading.{OwnerFits, word_of};
ghost use Rattle.jr_env.specs.Calling.{CanCall};
ghost use Rattle.jr_env.specs.Words.{ExplainsOver};

use crate::env::Env;
use crate::work::outside;
use jr_frames::{Explanation, Held, Reference, explain};
use jr_gate::enter;
use jr_steps::Steps;
use jr_word::{Fault, Handle};

impl<S: Steps> Env<S> {
    ghost use Rattle.jr_env.specs.Envs.{Does};
    ghost use Rattle.jr_env.specs.Words.{explain as explanation};

    /// What a word is that native code hands in as a handle: NULL, malformed, outside the room, another thread's local one, standing (of which kind, and for an object of which kind or cleared),
    /// of another kind than the reference that stands under its serial, given and gone, or not given yet. What it tells of the room was so at its one look.
    /// It is refused for no word, and changes nothing.
    ///
    /// # Errors
    ///
    /// That of the gate.
    ///
    /// Nothing has changed then, and the thread stands outside.
    ///
    /// # Operations
    ///
    /// Its events, 2 or 3, and one more at the most: the entry, a look at the slot of a global or weak handle that lies in the room, one at the header of an object that stands there, and the exit.
    pub fn explain(&mut self, handle: Handle) -> Result<Explanation, Fault>
        ensures { Does self.old self.new (explanation handle.0) result }
    {
        let target = Reference::of(handle);
        explain_whole(&mut self.held, target)
    }
}

/// What a word is that was read: by a call of its own. A stay that a region left is ended first.
///
/// # Errors
///
/// E13.
#[inline(always)]
fn explain_whole<S: Steps>(held: &mut Held<S>, target: Reference) -> Result<Explanation, Fault>
    requires ready { CanCall (S.facts held.old.steps).stands }
    requires owner { OwnerFits target }
    ensures call { ExplainsOver held.old held.new (word_of target) result }
    ensures next { CanCall (S.facts held.new.steps).stands }
{
    outside(held);
    let inside = enter(&mut held.steps)?;
    let told = explain(&mut held.steps, &inside, &held.frames, target);
    inside.leave(&mut held.steps);
    Ok(told)
}
