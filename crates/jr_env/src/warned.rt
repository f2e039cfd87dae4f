//! An env that warns before words of its room, or its thread's places for local references, run out.
ghost use Rattle.std.specs.Prelude.{◌≡◌, ◌&&◌, nat_lt};
ghost use Rattle.jr_env.specs.Warning.{takes_words};

use crate::calls::names;
use crate::checked::Explains;
use crate::demand::Demand;
use crate::env::Env;
use crate::native_call::{NativeCall, NativeCaller};
use jr_frames::Explanation;
use jr_steps::Steps;
use jr_word::{Elem, Fault, Handle};

/// How much is to be left behind a call: who is warned is told where it is less.
#[derive(Clone, Copy, Debug, PartialEq, Eq)]
pub struct Reserve {
    /// So many words of array space, of all threads together.
    pub words: u32,
    /// So many free places for local references, of the env's thread.
    pub locals: u32,
}

/// What a call took of which less is left than is to be.
#[derive(Clone, Copy, Debug, PartialEq, Eq)]
pub enum Scarce {
    /// Words of array space: E10 comes where a call asks for more than are left.
    Words,
    /// Places for local references: E9 comes where none is left.
    Locals,
}

/// A call that took words or a place, and behind which fewer are left than the reserve.
#[derive(Clone, Copy, Debug, PartialEq, Eq)]
pub struct Shortage {
    /// The number of the thread whose call it was.
    pub thread: u8,
    /// The call's name.
    pub call: &'static str,
    /// What runs short.
    pub scarce: Scarce,
    /// How much of it was left.
    pub left: u32,
}

/// Who is told what runs short. A call that asks for more than the reserve can be refused with nobody told before.
pub trait Warner {
    ghost use Rattle.jr_env.specs.declared.warned.Shortage.{Shortage};

    ghost warns: { Self → Self → Shortage → Type 0 };

    /// Is told that something runs short.
    fn runs_short(&mut self, shortage: Shortage)
        ensures { warns self.old self.new shortage };
}

/// Whether a call that asks this of the room takes words of it.
fn takes_words(demand: Demand) -> bool
    ensures { result ≡ takes_words demand }
{
    match demand {
        Demand::Nothing | Demand::Slot => false,
        Demand::Object(count) => count > 0,
    }
}

/// Whether something was taken where so much was left before, and less is left than is to be.
fn is_short(before: u32, left: u32, reserve: u32) -> bool
    ensures { result ≡ (nat_lt left before && nat_lt left reserve) }
{
    left < before && left < reserve
}

impl<S: Steps> Env<S> {
    ghost use Rattle.std.specs.Prelude.{◌≡◌, ◌-◌, IfOk, IfErr};
    ghost use Rattle.jr_env.specs.LentStays.{WasBarred};
    ghost use Rattle.jr_env.specs.Warning.{places_left, MadeSeeing};

    /// Makes a call, and looks in the same stay how many words are used behind it. So it enters the gate once, and takes one operation more than the call.
    /// A stay that a region left is ended first.
    ///
    /// # Errors
    ///
    /// E13. Each other refusal is the call's own answer, beside the number of words.
    #[inline(always)]
    fn make_seeing<C: NativeCall<S> + Drop>(
        &mut self,
        call: C,
    ) -> Result<(Result<C::Answer, Fault>, u32), Fault>
        ensures made { IfOk result (λ r. MadeSeeing self.old self.new (C.request call) r.0 r.1) }
        ensures barred { IfErr result (λ e. WasBarred self.old self.new e) }
    {
        let inside = self.enter_stay()?;
        let answer = self.make_inside(&inside, call);
        let used = self.used_within(&inside);
        self.leave_stay(inside);
        Ok((answer, used))
    }

    /// How many words are left, where so many are used.
    fn words_beside(&self, used: u32) -> u32
        ensures { result ≡ (S.facts self.now.held.steps).stands.config.words - used }
    {
        self.held.steps.config().words.saturating_sub(used)
    }

    /// How many places for local references are left.
    pub(crate) fn locals_left(&self) -> u32
        ensures { result ≡ places_left self.now }
    {
        self.held.frames.free_places()
    }
}

/// An env with a warner. It answers each call as the env does.
/// Behind a call that takes words it looks in the same stay how many are left, and tells the warner where these are fewer than the reserve.
/// Behind one that takes a place for a local reference it does so where fewer places are left.
/// So a call that takes words takes one operation more, and each other call none; and no call enters the gate once more.
#[derive(Drop)]
pub struct Warned<'e, S: Steps, W> {
    /// The env.
    pub env: &'e mut Env<S>,
    /// Who is told.
    pub warner: W,
    /// How much is to be left.
    pub reserve: Reserve,
}

impl<'e, S: Steps, W> Warned<'e, S, W> {
    ghost use Rattle.std.specs.Prelude.{◌≡◌};

    /// The env, with a warner who is told where less is left than the reserve.
    #[inline(always)]
    pub fn new(env: &'e mut Env<S>, warner: W, reserve: Reserve) -> Self
        ensures same_reference { result.env.ghost_name ≡ env.entry.ghost_name }
        ensures env { result.env.now ≡ env.old }
        ensures warner { result.warner ≡ warner }
        ensures reserve { result.reserve ≡ reserve }
    {
        Warned {
            env,
            warner,
            reserve,
        }
    }

    /// The warner, with what it was told so far.
    pub fn warner(&self) -> &W
        ensures { result.now ≡ self.now.warner }
    {
        &self.warner
    }

    /// The env, and the warner with what it was told.
    pub fn into_parts(self) -> (&'e mut Env<S>, W)
        ensures same_reference { result.0.ghost_name ≡ self.entry.env.ghost_name }
        ensures env { result.0.now ≡ self.entry.env.now }
        ensures warner { result.1 ≡ self.entry.warner }
    {
        let Warned { env, warner, .. } = self;
        (env, warner)
    }
}

impl<S: Steps, W: Warner> Warned<'_, S, W> {
    ghost use Rattle.std.specs.Prelude.{◌≡◌};
    ghost use Rattle.jr_env.specs.Warning.{MakesTelling, WarnsIf, WarnsOfLocals, WarnsOfWords};

    /// Tells the warner, where something is short.
    fn warn_if(&mut self, short: bool, call: &'static str, scarce: Scarce, left: u32)
        ensures { WarnsIf W.warns short call.now scarce left self.old self.new }
    {
        if short {
            let thread = self.env.thread();
            self.warner.runs_short(Shortage {
                thread,
                call,
                scarce,
                left,
            });
        }
    }

    /// Tells the warner where so many words are used that fewer are left than the reserve.
    fn warn_of_words(&mut self, call: &'static str, used: u32)
        ensures { WarnsOfWords W.warns call.now used self.old self.new }
    {
        let left = self.env.words_beside(used);
        self.warn_if(left < self.reserve.words, call, Scarce::Words, left);
    }

    /// Tells the warner where fewer places are left than before, and than the reserve.
    pub(crate) fn warn_of_locals(&mut self, call: &'static str, before: u32)
        ensures { WarnsOfLocals W.warns call.now before self.old self.new }
    {
        let left = self.env.locals_left();
        let short = is_short(before, left, self.reserve.locals);
        self.warn_if(short, call, Scarce::Locals, left);
    }

    /// Makes a call, and tells the warner where the words that it takes run short.
    #[inline(always)]
    fn make_telling<C: NativeCall<S> + Drop>(&mut self, call: C) -> Result<C::Answer, Fault>
        ensures { MakesTelling W.warns self.old self.new (C.request call) result }
    {
        if !takes_words(call.demand()) {
            return self.env.make(call);
        }
        let name = call.name();
        let (answer, used) = self.env.make_seeing(call)?;
        self.warn_of_words(name, used);
        answer
    }
}

impl<S: Steps, W: Warner> NativeCaller<S> for Warned<'_, S, W> {
    ghost use Rattle.jr_env.specs.Warning.{WasWarned};

    ghost made = { λ old new request answer. WasWarned W.warns old new request answer };

    #[inline(always)]
    fn make<C: NativeCall<S> + Drop>(&mut self, call: C) -> Result<C::Answer, Fault> {
        let name = call.name();
        let before = self.env.locals_left();
        let answer = self.make_telling(call);
        self.warn_of_locals(name, before);
        answer
    }

    #[inline(always)]
    fn copy_part<E: Elem>(
        &mut self,
        array: Handle,
        start: u32,
        elements: &mut [E],
    ) -> Result<(), Fault> {
        let before = self.env.locals_left();
        let answer = self.env.copy_part(array, start, elements);
        self.warn_of_locals(names::get_region(E::KIND), before);
        answer
    }
}

impl<S: Steps, W> Explains for Warned<'_, S, W> {
    ghost use Rattle.jr_env.specs.Deeds.{whole};
    ghost use Rattle.jr_env.specs.Envs.{Does};
    ghost use Rattle.jr_env.specs.Requests.{for_get_array_length};
    ghost use Rattle.jr_env.specs.Warning.{ActsUnwarned};
    ghost use Rattle.jr_env.specs.Words.{explain as explanation};

    ghost explained = { λ old new w answer. ActsUnwarned (λ before behind. Does before behind (explanation w) answer) old new };

    ghost measured = { λ old new w answer. ActsUnwarned (λ before behind. Does before behind (whole (for_get_array_length w)) answer) old new };

    ghost thread = { λ warned. (S.facts warned.env.now.held.steps).stands.thread };

    fn thread(&self) -> u8 {
        self.env.thread()
    }

    fn examine(&mut self, handle: Handle) -> Result<Explanation, Fault> {
        self.env.examine(handle)
    }

    fn measure(&mut self, array: Handle) -> Result<u32, Fault> {
        self.env.measure(array)
    }
}
