//! The calls of the Java Native Interface for the frames of one thread, over any steps.
use crate::demand::Demand;
use crate::env::Env;
use crate::native_call::{Handed, NativeCall};
use crate::work::outside;
use jr_frames::{Frames, Reference, free_all, pop_frame, resolve};
use jr_gate::Inside;
use jr_heap::Numbers;
use jr_model::FRAMES;
use jr_steps::Steps;
use jr_word::{Fault, Handle};

impl<S: Steps> Env<S> {
    ghost use Rattle.jr_env.specs.Envs.{Does};
    ghost use Rattle.jr_env.specs.Deeds.{ensure_local_capacity, push_local_frame};

    /// Tells whether so many more local references can be made. It enters no gate. A negative capacity can't be handed in. (JNI Specification, chapter 4, "EnsureLocalCapacity")
    ///
    /// # Errors
    ///
    /// E9 where fewer places are free.
    ///
    /// Nothing has changed then, and the thread stands outside.
    ///
    /// # Operations
    ///
    /// None.
    pub fn ensure_local_capacity(&mut self, capacity: u32) -> Result<(), Fault>
        ensures { Does self.old self.new (ensure_local_capacity capacity) result }
    {
        outside(&mut self.held);
        if self.held.frames.has_room(capacity) {
            Ok(())
        } else {
            Err(Fault::LocalsFull)
        }
    }

    /// Opens a frame, in which so many local references can be made. It enters no gate. A negative capacity can't be handed in. (JNI Specification, chapter 4, "PushLocalFrame")
    ///
    /// # Errors
    ///
    /// E9 where 256 frames are open, or fewer places are free.
    ///
    /// Nothing has changed then, and the thread stands outside.
    ///
    /// # Operations
    ///
    /// None.
    pub fn push_local_frame(&mut self, capacity: u32) -> Result<(), Fault>
        ensures { Does self.old self.new (push_local_frame capacity) result }
    {
        outside(&mut self.held);
        if self.held.frames.depth() >= FRAMES {
            return Err(Fault::LocalsFull);
        }
        if !self.held.frames.has_room(capacity) {
            return Err(Fault::LocalsFull);
        }
        self.held.frames.push();
        Ok(())
    }
}

/// The newest frame is taken away, and a local reference to what a handle names, none for NULL, goes to the frame below.
#[derive(Clone, Copy)]
pub struct PopLocalFrame(pub Handle);

impl<S: Steps> NativeCall<S> for PopLocalFrame {
    ghost use Rattle.jr_env.specs.Requests.{for_pop_local_frame};

    type Answer = Option<Handle>;

    ghost request = { λ c. for_pop_local_frame c.0.0 };

    #[inline(always)]
    fn name(&self) -> &'static str {
        "PopLocalFrame"
    }

    #[inline(always)]
    fn handed(&self) -> Handed {
        Handed::One(self.0)
    }

    #[inline(always)]
    fn demand(&self) -> Demand {
        Demand::Nothing
    }

    #[inline(always)]
    fn work(
        self,
        steps: &mut S,
        inside: &Inside,
        frames: &mut Frames,
        _numbers: &mut Numbers,
    ) -> Result<Option<Handle>, Fault> {
        let target = Reference::of(self.0);
        frames.are_sound();
        if frames.is_base() {
            return Err(Fault::NoFrame);
        }
        let object = resolve(steps, inside, frames, target)?;
        let made = pop_frame(steps, inside, frames, object)?;
        Ok(made.map(Handle::pack))
    }
}

/// All local references of the thread are freed, and one frame is left.
#[derive(Clone, Copy)]
pub struct FreeLocals;

impl<S: Steps> NativeCall<S> for FreeLocals {
    ghost use Rattle.jr_env.specs.Requests.{for_free_locals};

    type Answer = ();

    ghost request = { λ _. for_free_locals };

    #[inline(always)]
    fn name(&self) -> &'static str {
        "FreeLocals"
    }

    #[inline(always)]
    fn handed(&self) -> Handed {
        Handed::Nothing
    }

    #[inline(always)]
    fn demand(&self) -> Demand {
        Demand::Nothing
    }

    #[inline(always)]
    fn work(
        self,
        steps: &mut S,
        inside: &Inside,
        frames: &mut Frames,
        _numbers: &mut Numbers,
    ) -> Result<(), Fault> {
        free_all(steps, inside, frames);
        Ok(())
    }
}
