//! A call of native code as a value, and who makes it: an env, and a stay.

use crate::demand::Demand;
use crate::span::Span;
use jr_frames::Frames;
use jr_gate::Inside;
use jr_heap::Numbers;
use jr_steps::Steps;
use jr_word::{Elem, Fault, Handle};

/// The words that a call is handed as references, in their order, and which elements it asks of the object of the first.
#[derive(Clone, Copy, Debug, PartialEq, Eq)]
pub enum Handed {
    /// None.
    Nothing,
    /// One.
    One(Handle),
    /// Two.
    Both(Handle, Handle),
    /// One, and elements of its object.
    OneAt(Handle, Span),
    /// Two, and elements of the first one's object.
    BothAt(Handle, Handle, Span),
}

/// A call of native code, with the words that it is handed. One of the calls of `calls`, or one of your own: what it asks for is its `request`.
pub trait NativeCall<S: Steps> {
    ghost use Rattle.jr_model.specs.declared.event.Role.TheVariants.{Within};
    ghost use Rattle.jr_gate.specs.Stays.{IsOwnStay};
    ghost use Rattle.jr_frames.specs.Ready.{StandsReady, KeepsOwner};
    ghost use Rattle.std.specs.Prelude.{◌≡◌};
    ghost use Rattle.jr_env.specs.Demands.{Demands};
    ghost use Rattle.jr_env.specs.Requests.{Request, handed_words, request_name, request_words};
    ghost use Rattle.jr_env.specs.Spans.{Spans, handed_span};
    ghost use Rattle.jr_env.specs.Works.{Serves};

    /// What it answers.
    type Answer;

    ghost request: { Self → Request Self.Answer };

    /// What it is called: as the Java Native Interface does, where that has it.
    fn name(&self) -> &'static str
        ensures { result.now ≡ request_name (request self.now) };

    /// The words that it is handed as references. Of a request that reads more by what these say, they are the first. Where it says which elements it asks, it asks these.
    fn handed(&self) -> Handed
        ensures words { handed_words result ≡ request_words (request self.now) }
        ensures span { Spans (request self.now) (handed_span result) };

    /// What it asks of the room, and may be refused for want of. A call that makes no global or weak reference and no object asks for nothing.
    fn demand(&self) -> Demand
        ensures { Demands (request self.now) result };

    /// Does what it asks for, in a stay of the thread. An env makes a call, and so does a stay: it is they who call this.
    ///
    /// # Errors
    ///
    /// Those of the env's method for the call but E13.
    ///
    /// # Operations
    ///
    /// Those of the env's method for the call but the entry and the exit.
    fn work(
        self,
        steps: &mut S,
        inside: &Inside,
        frames: &mut Frames,
        numbers: &mut Numbers,
    ) -> Result<Self::Answer, Fault>
        requires stay { IsOwnStay inside.now (S.facts steps.old).stands }
        requires ready { StandsReady S.facts Within steps.old frames.old }
        ensures call { Serves S.facts steps.old steps.new frames.old.frames frames.new.frames (request self) result }
        ensures same { KeepsOwner frames.old frames.new };
}

/// Who makes calls of native code: an env, each by an entry and an exit of its own, and a stay, in which it goes on.
pub trait NativeCaller<S: Steps>: Sized {
    ghost use Rattle.std.specs.Prelude.{◌≡◌, IfErr, length, map, Result};
    ghost use Rattle.jr_word.specs.declared.fault.Fault.{Fault};
    ghost use Rattle.jr_env.specs.Deeds.{read_answer};
    ghost use Rattle.jr_env.specs.Requests.{Request, for_get_array_region};

    ghost made: { {A : Type 0} → Self → Self → Request A → Result A Fault → Type 0 };

    /// Makes a call. An env enters the gate for it, does what it asks for, and leaves. A stay that a region left is ended first.
    ///
    /// # Errors
    ///
    /// Those of the call. Of an env before them that of the gate.
    ///
    /// What stands then is what the call leaves.
    ///
    /// # Operations
    ///
    /// Those of the call, and of an env its entry and its exit.
    fn make<C: NativeCall<S> + Drop>(&mut self, call: C) -> Result<C::Answer, Fault>
        ensures { made self.old self.new (C.request call) result };

    /// Copies a part of an array out, as `get_array_region`. It is no value, since its answer is what a slice of its caller holds afterwards.
    ///
    /// # Errors
    ///
    /// Those of a handle to an object; E5 where it is to a plain object or a string; E6 where it is to an array of other elements; E7 where the part does not lie in the array.
    ///
    /// The slice is as it was, and nothing has changed.
    ///
    /// # Operations
    ///
    /// Those of `get_array_region`.
    fn copy_part<E: Elem>(
        &mut self,
        array: Handle,
        start: u32,
        elements: &mut [E],
    ) -> Result<(), Fault>
        ensures call { made self.old self.new (for_get_array_region E.KIND array.0 start (length elements.old)) (read_answer result (map E.word_of elements.new)) }
        ensures size { length elements.new ≡ length elements.old }
        ensures err { IfErr result (λ _. elements.new ≡ elements.old) };
}
