//! Calls with a watcher, who is told each refusal: whose, of which call, of which words, and why.
ghost use Rattle.std.specs.Prelude.{◌≡◌};
ghost use Rattle.jr_env.specs.Watching.{Examines, is_range};

use crate::calls::{GetArrayLength, names};
use crate::env::Env;
use crate::native_call::{Handed, NativeCall, NativeCaller};
use crate::span::Span;
use crate::stay::Stay;
use jr_frames::Explanation;
use jr_steps::Steps;
use jr_word::{Elem, Fault, Handle};

/// A word that a refused call was handed, and what it is.
#[derive(Clone, Copy, Debug, PartialEq, Eq)]
pub struct Examined {
    /// The word.
    pub handle: Handle,
    /// What it is, as a look behind the refusal tells; E13 where the gate was shut by then.
    pub is: Result<Explanation, Fault>,
}

/// The words that a refused call was handed, in their order, and what each is.
#[derive(Clone, Copy, Debug, PartialEq, Eq)]
pub enum Evidence {
    /// It was handed none.
    Nothing,
    /// It was handed one.
    One(Examined),
    /// It was handed two.
    Both(Examined, Examined),
}

/// The elements that a call asked of an object which doesn't have them.
#[derive(Clone, Copy, Debug, PartialEq, Eq)]
pub struct Missed {
    /// Which elements it asked.
    pub span: Span,
    /// How many the object of its first word has, as a look behind the refusal tells. It is the refusal of that look, where another thread deleted the reference meanwhile or shut the gate.
    pub length: Result<u32, Fault>,
}

/// What a watcher is told.
#[derive(Clone, Copy, Debug, PartialEq, Eq)]
pub struct Refusal {
    /// What the checked caller was named, where it has a name.
    pub caller: Option<&'static str>,
    /// The number of the thread whose call was refused.
    pub thread: u8,
    /// The call's name.
    pub call: &'static str,
    /// What it was handed as references.
    pub evidence: Evidence,
    /// Why it was refused.
    pub fault: Fault,
    /// Which elements it asked, where it was refused by E7.
    pub missed: Option<Missed>,
}

/// Who is told each refusal: it may write a line, count, or end the program.
pub trait Watcher {
    ghost use Rattle.jr_env.specs.declared.checked.Refusal.{Refusal};

    ghost hears: { Self → Self → Refusal → Type 0 };

    /// Is told a refusal.
    fn refused(&mut self, refusal: Refusal)
        ensures { hears self.old self.new refusal };
}

/// Who can tell what a word is: an env by a call of its own, and a stay.
pub trait Explains: Sized {
    ghost use Rattle.std.specs.Prelude.{ℕ, Result};
    ghost use Rattle.jr_frames.specs.declared.explaining.Explanation.{Explanation};
    ghost use Rattle.jr_word.specs.declared.fault.Fault.{Fault};

    ghost explained: { Self → Self → ℕ → Result Explanation Fault → Type 0 };

    ghost measured: { Self → Self → ℕ → Result ℕ Fault → Type 0 };

    ghost thread: { Self → ℕ };

    /// The number of its thread.
    fn thread(&self) -> u8
        ensures { result ≡ thread self.now };

    /// What a word is that native code hands in as a handle.
    ///
    /// # Errors
    ///
    /// Of an env that of the gate.
    ///
    /// # Operations
    ///
    /// Those of `explain` of an env or a stay.
    fn examine(&mut self, handle: Handle) -> Result<Explanation, Fault>
        ensures { explained self.old self.new handle.0 result };

    /// How many elements an array has.
    ///
    /// # Errors
    ///
    /// Those of `get_array_length` of an env or a stay.
    ///
    /// # Operations
    ///
    /// Those of `get_array_length` of an env or a stay.
    fn measure(&mut self, array: Handle) -> Result<u32, Fault>
        ensures { measured self.old self.new array.0 result };
}

impl<S: Steps> Explains for Env<S> {
    ghost use Rattle.jr_env.specs.Deeds.{whole};
    ghost use Rattle.jr_env.specs.Envs.{Does};
    ghost use Rattle.jr_env.specs.Requests.{for_get_array_length};
    ghost use Rattle.jr_env.specs.Words.{explain as explanation};

    ghost explained = { λ old new w answer. Does old new (explanation w) answer };

    ghost measured = { λ old new w answer. Does old new (whole (for_get_array_length w)) answer };

    ghost thread = { λ env. (S.facts env.held.steps).stands.thread };

    fn thread(&self) -> u8 {
        self.held.steps.thread()
    }

    fn examine(&mut self, handle: Handle) -> Result<Explanation, Fault> {
        self.explain(handle)
    }

    fn measure(&mut self, array: Handle) -> Result<u32, Fault> {
        self.make(GetArrayLength(array))
    }
}

impl<S: Steps> Explains for Stay<'_, S> {
    ghost use Rattle.jr_env.specs.Deeds.{in_a_stay};
    ghost use Rattle.jr_env.specs.LentStays.{DoesWithin, held_in};
    ghost use Rattle.jr_env.specs.Requests.{for_get_array_length};
    ghost use Rattle.jr_env.specs.Words.{explaining};

    ghost explained = { λ old new w answer. DoesWithin old new (explaining w) answer };

    ghost measured = { λ old new w answer. DoesWithin old new (in_a_stay (for_get_array_length w)) answer };

    ghost thread = { λ stay. (S.facts (held_in stay).steps).stands.thread };

    fn thread(&self) -> u8 {
        self.env.held.steps.thread()
    }

    fn examine(&mut self, handle: Handle) -> Result<Explanation, Fault> {
        self.explain(handle)
    }

    fn measure(&mut self, array: Handle) -> Result<u32, Fault> {
        self.make(GetArrayLength(array))
    }
}

/// What a word is, beside it.
fn look_at<N: Explains>(caller: &mut N, handle: Handle) -> Examined
    ensures { Examines N.explained caller.old caller.new handle.0 result }
{
    let is = caller.examine(handle);
    Examined { handle, is }
}

/// Whether a refusal is E7.
fn is_range(fault: Fault) -> bool
    ensures { result ≡ is_range fault }
{
    matches!(fault, Fault::Range)
}

/// An env or a stay with a watcher. It answers each call as the caller beneath does. Where a call is refused, it asks what each word is that the call was handed, and tells the watcher.
/// Where it is refused by E7, it asks how many elements the object of the first has, too.
/// So a refusal takes the operations of `explain` for each of them, and E7 those of `get_array_length` beside; a call that isn't refused takes none.
#[derive(Drop)]
pub struct Checked<'e, N, W> {
    /// Who makes the calls.
    pub caller: &'e mut N,
    /// Who is told the refusals.
    pub watcher: W,
    /// What it is named in the refusals, if anything.
    pub name: Option<&'static str>,
}

impl<'e, N, W> Checked<'e, N, W> {
    ghost use Rattle.std.specs.Prelude.{◌≡◌, Some, None};

    /// The env or the stay, with a watcher and no name.
    #[inline(always)]
    pub fn new(caller: &'e mut N, watcher: W) -> Self
        ensures same_reference { result.caller.ghost_name ≡ caller.entry.ghost_name }
        ensures caller { result.caller.now ≡ caller.old }
        ensures watcher { result.watcher ≡ watcher }
        ensures name { result.name ≡ None }
    {
        Checked {
            caller,
            watcher,
            name: None,
        }
    }

    /// The env or the stay, with a watcher who is told by this name whose call was refused.
    #[inline(always)]
    pub fn named(caller: &'e mut N, watcher: W, name: &'static str) -> Self
        ensures same_reference { result.caller.ghost_name ≡ caller.entry.ghost_name }
        ensures caller { result.caller.now ≡ caller.old }
        ensures watcher { result.watcher ≡ watcher }
        ensures name { result.name ≡ Some name.entry }
    {
        Checked {
            caller,
            watcher,
            name: Some(name),
        }
    }

    /// The watcher, with what it was told so far.
    pub fn watcher(&self) -> &W
        ensures { result.now ≡ self.now.watcher }
    {
        &self.watcher
    }

    /// Who makes the calls, and the watcher with what it was told.
    pub fn into_parts(self) -> (&'e mut N, W)
        ensures same_reference { result.0.ghost_name ≡ self.entry.caller.ghost_name }
        ensures caller { result.0.now ≡ self.entry.caller.now }
        ensures watcher { result.1 ≡ self.entry.watcher }
    {
        let Checked {
            caller,
            watcher,
            ..
        } = self;
        (caller, watcher)
    }
}

impl<N: Explains, W: Watcher> Checked<'_, N, W> {
    ghost use Rattle.std.specs.Prelude.{[], ◌∷◌};
    ghost use Rattle.std.specs.Prelude.{Some, None};
    ghost use Rattle.jr_env.specs.Requests.{handed_words};
    ghost use Rattle.jr_env.specs.Spans.{handed_span};
    ghost use Rattle.jr_env.specs.Watching.{ExaminesEach, HasTold, Measures, evidence_of, is_range, missed_at};

    /// What each word is that a refused call was handed.
    #[inline(always)]
    fn gather(&mut self, handed: Handed) -> Evidence
        ensures same_reference { self.new.caller.ghost_name ≡ self.old.caller.ghost_name }
        ensures looks { ExaminesEach N.explained self.old.caller.now self.new.caller.now (handed_words handed) (evidence_of result) }
        ensures watcher { self.new.watcher ≡ self.old.watcher }
        ensures name { self.new.name ≡ self.old.name }
    {
        match handed {
            Handed::Nothing => Evidence::Nothing,
            Handed::One(word) | Handed::OneAt(word, _) => {
                Evidence::One(look_at(self.caller, word))
            }
            Handed::Both(first, second) | Handed::BothAt(first, second, _) => {
                let first = look_at(self.caller, first);
                Evidence::Both(first, look_at(self.caller, second))
            }
        }
    }

    /// Which elements a call misses that was refused, and how many there are.
    #[inline(always)]
    fn measure(&mut self, handed: Handed, fault: Fault) -> Option<Missed>
        ensures same_reference { self.new.caller.ghost_name ≡ self.old.caller.ghost_name }
        ensures measures { Measures N.measured self.old.caller.now self.new.caller.now (missed_at (handed_words handed) (handed_span handed) (is_range fault)) result }
        ensures watcher { self.new.watcher ≡ self.old.watcher }
        ensures name { self.new.name ≡ self.old.name }
    {
        let (Handed::OneAt(array, span) | Handed::BothAt(array, _, span)) = handed else {
            return None;
        };
        if !is_range(fault) {
            return None;
        }
        let length = self.caller.measure(array);
        Some(Missed { span, length })
    }

    /// Tells the watcher of a refusal. It is written into each function that tells, so that none is handed what its watcher doesn't look at.
    #[inline(always)]
    fn report(&mut self, call: &'static str, handed: Handed, fault: Fault)
        ensures same_reference { self.new.caller.ghost_name ≡ self.old.caller.ghost_name }
        ensures told { HasTold N.explained N.measured N.thread W.hears self.old self.new call.now (handed_words handed) (handed_span handed) fault }
    {
        let thread = self.caller.thread();
        let evidence = self.gather(handed);
        let missed = self.measure(handed, fault);
        self.watcher.refused(Refusal {
            caller: self.name,
            thread,
            call,
            evidence,
            fault,
            missed,
        });
    }

    /// Tells of a call that was handed no word.
    #[cold]
    #[inline(never)]
    fn tell_of_nothing(&mut self, call: &'static str, fault: Fault)
        ensures same_reference { self.new.caller.ghost_name ≡ self.old.caller.ghost_name }
        ensures told { HasTold N.explained N.measured N.thread W.hears self.old self.new call.now [] None fault }
    {
        self.report(call, Handed::Nothing, fault);
    }

    /// Tells of a call that was handed one word.
    #[cold]
    #[inline(never)]
    fn tell_of_one(&mut self, call: &'static str, word: Handle, fault: Fault)
        ensures same_reference { self.new.caller.ghost_name ≡ self.old.caller.ghost_name }
        ensures told { HasTold N.explained N.measured N.thread W.hears self.old self.new call.now (word.0 ∷ []) None fault }
    {
        self.report(call, Handed::One(word), fault);
    }

    /// Tells of a call that was handed two words.
    #[cold]
    #[inline(never)]
    fn tell_of_both(&mut self, call: &'static str, first: Handle, second: Handle, fault: Fault)
        ensures same_reference { self.new.caller.ghost_name ≡ self.old.caller.ghost_name }
        ensures told { HasTold N.explained N.measured N.thread W.hears self.old self.new call.now (first.0 ∷ second.0 ∷ []) None fault }
    {
        self.report(call, Handed::Both(first, second), fault);
    }

    /// Tells of a call that was handed one word, and asked elements of its object.
    #[cold]
    #[inline(never)]
    fn tell_of_one_at(&mut self, call: &'static str, word: Handle, span: Span, fault: Fault)
        ensures same_reference { self.new.caller.ghost_name ≡ self.old.caller.ghost_name }
        ensures told { HasTold N.explained N.measured N.thread W.hears self.old self.new call.now (word.0 ∷ []) (Some span) fault }
    {
        self.report(call, Handed::OneAt(word, span), fault);
    }

    /// Tells of a call that was handed two words, and asked elements of the first one's object.
    #[cold]
    #[inline(never)]
    fn tell_of_both_at(
        &mut self,
        call: &'static str,
        first: Handle,
        second: Handle,
        span: Span,
        fault: Fault,
    )
        ensures same_reference { self.new.caller.ghost_name ≡ self.old.caller.ghost_name }
        ensures told { HasTold N.explained N.measured N.thread W.hears self.old self.new call.now (first.0 ∷ second.0 ∷ []) (Some span) fault }
    {
        self.report(call, Handed::BothAt(first, second, span), fault);
    }

    /// Tells the watcher of a refusal, by functions that take the words in registers: so a call that isn't refused stores none.
    #[inline(always)]
    pub(crate) fn tell_watcher(&mut self, call: &'static str, handed: Handed, fault: Fault)
        ensures same_reference { self.new.caller.ghost_name ≡ self.old.caller.ghost_name }
        ensures told { HasTold N.explained N.measured N.thread W.hears self.old self.new call.now (handed_words handed) (handed_span handed) fault }
    {
        match handed {
            Handed::Nothing => self.tell_of_nothing(call, fault),
            Handed::One(word) => self.tell_of_one(call, word, fault),
            Handed::Both(first, second) => self.tell_of_both(call, first, second, fault),
            Handed::OneAt(word, span) => self.tell_of_one_at(call, word, span, fault),
            Handed::BothAt(first, second, span) => {
                self.tell_of_both_at(call, first, second, span, fault)
            }
        }
    }
}

impl<S: Steps, N: NativeCaller<S> + Explains, W: Watcher> NativeCaller<S> for Checked<'_, N, W> {
    ghost use Rattle.jr_env.specs.Watching.{WasWatched};

    ghost made = { λ old new request answer. WasWatched N.explained N.measured N.thread W.hears N.made old new request answer };

    #[inline(always)]
    fn make<C: NativeCall<S> + Drop>(&mut self, call: C) -> Result<C::Answer, Fault> {
        let name = call.name();
        let handed = call.handed();
        let answer = self.caller.make(call);
        if let Err(fault) = &answer {
            self.tell_watcher(name, handed, *fault);
        }
        answer
    }

    #[inline(always)]
    fn copy_part<E: Elem>(
        &mut self,
        array: Handle,
        start: u32,
        elements: &mut [E],
    ) -> Result<(), Fault> {
        let count = elements.len();
        let answer = self.caller.copy_part(array, start, elements);
        if let Err(fault) = &answer {
            let handed = Handed::OneAt(array, Span { start, count });
            self.tell_watcher(names::get_region(E::KIND), handed, *fault);
        }
        answer
    }
}
