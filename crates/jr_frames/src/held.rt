//! A thread's steps and its local references, whose parts agree.
ghost use Rattle.std.specs.Prelude.{◌≡◌};
ghost use Rattle.jr_gate.specs.Stays.{IsOwnStay};
ghost use Rattle.jr_frames.specs.OverSteps.{ResolvesWord};
ghost use Rattle.jr_frames.specs.Ready.{AreOwn};

use crate::frames::Frames;
use crate::reference::Reference;
use crate::resolving::resolve;
use jr_gate::Inside;
use jr_steps::Steps;
use jr_word::{Fault, Handle};

/// A thread's steps and its local references, which are its own. An env holds them, and who borrows them from it.
#[derive(Drop)]
pub struct Held<S: Steps> {
    /// The thread's steps.
    pub steps: S,
    /// Its local references.
    pub frames: Frames,
    ghost own: { AreOwn S.facts steps frames },
}

impl<S: Steps> Held<S> {
    /// The object of the reference that a handle is, in a stay of the thread: none for NULL and a cleared one.
    ///
    /// # Errors
    ///
    /// E2 where the handle is malformed or lies outside the room; E3 where it is a local one of another thread; E2 where its reference does not stand.
    ///
    /// Nothing has changed then.
    ///
    /// # Operations
    ///
    /// At most one, a look at the slot of a global or weak handle.
    #[inline(always)]
    pub fn resolve(&mut self, inside: &Inside, handle: Handle) -> Result<Option<u16>, Fault>
        requires { IsOwnStay inside.now (S.facts self.old.steps).stands }
        ensures resolved { ResolvesWord S.facts self.old.steps self.new.steps self.old.frames.frames handle.0 result }
        ensures frames { self.new.frames ≡ self.old.frames }
    {
        let reference = Reference::of(handle);
        resolve(&mut self.steps, inside, &self.frames, reference)
    }
}
