//! A stay of an env that goes on from call to call, as a value that borrows the env.
ghost use Rattle.jr_gate.specs.Stays.{IsOwnStay};

use crate::calls::array_parts::copy_inside;
use crate::env::Env;
use crate::native_call::{NativeCall, NativeCaller};
use crate::work::{go_inside, go_outside, make_within};
use jr_gate::Inside;
use jr_steps::Steps;
use jr_word::{Elem, Fault, Handle};

/// A stay: one entry at the gate and one exit for as many calls as are made in it.
/// Each is the call of `Env` of its name without an entry and an exit of its own, and is refused as that is, but never by E13.
/// While it stands no other call on its env compiles, no collection comes (E14), and it has to be ended.
pub struct Stay<'e, S: Steps> {
    pub(crate) env: &'e mut Env<S>,
    pub(crate) inside: Inside,
    ghost own: { IsOwnStay inside (S.facts env.now.held.steps).stands },
}

impl<S: Steps> Env<S> {
    ghost use Rattle.std.specs.Prelude.{◌≡◌, IfOk, IfErr, length, map};
    ghost use Rattle.std.specs.Borrow.{sem};
    ghost use Rattle.jr_word.specs.declared.fault.Fault.TheVariants.{Barred};
    ghost use Rattle.jr_elements.specs.Copies.{answer_in};
    ghost use Rattle.jr_env.specs.Envs.{IsOutside};
    ghost use Rattle.jr_env.specs.Requests.{for_get_array_region};
    ghost use Rattle.jr_env.specs.Deeds.{in_a_stay, read_answer};
    ghost use Rattle.jr_env.specs.LentStays.{DoesInside, env_in, rests_within, WasEntered};
    ghost use Rattle.jr_env.specs.OpenStays.{BehindExit, EndsAsOneStay, Enters, EntersOver, LeavesOver, StaysSince};
    ghost use Rattle.jr_env.specs.Retried.{TriesToStay};

    /// Enters a stay, in which calls are made without an entry and an exit of their own. The thread is within until it is ended, so that collections are kept out.
    ///
    /// # Errors
    ///
    /// That of the gate.
    ///
    /// Nothing has changed then, and the thread stands outside.
    ///
    /// # Operations
    ///
    /// One, the entry. Where it is refused, two: the knock and its withdrawal.
    #[inline(always)]
    pub fn stay(&mut self) -> Result<Stay<'_, S>, Fault>
        ensures* rests { sem 𝓛 (rests_within S.row S.Steps self.entry result) }
        ensures same_reference { IfOk result (λ r. (env_in r).ghost_name ≡ self.entry.ghost_name) }
        ensures entered { IfOk result (λ r. WasEntered self.old (env_in r).now) }
    {
        let inside = self.enter_stay()?;
        Ok(Stay::over(self, inside))
    }

    /// Enters the gate for a stay. One that a region left is ended first.
    #[inline(always)]
    pub(crate) fn enter_stay(&mut self) -> Result<Inside, Fault>
        ensures call { IsOutside self.old → EntersOver self.old.held self.new.held (answer_in (λ i. tt) result) }
        ensures left { BehindExit self.old.held (λ mid. Enters S.facts mid self.new.held.steps self.old.held.frames.frames (answer_in (λ i. tt) result)) }
        ensures frames { self.new.held.frames ≡ self.old.held.frames }
        ensures tried { TriesToStay self.old (answer_in (λ i. tt) result) self.new }
        ensures own { IfOk result (λ i. IsOwnStay i (S.facts self.new.held.steps).stands) }
        ensures since { IfOk result (λ i. IsOutside self.old → StaysSince self.old.held self.new.held) }
        ensures refused { IfErr result (λ e. (e ≡ Barred) × IsOutside self.new) }
    {
        go_inside(&mut self.held)
    }

    /// Makes a call in a stay of the thread, which goes on.
    ///
    /// # Errors
    ///
    /// Those of the call but E13.
    #[inline(always)]
    pub(crate) fn make_inside<C: NativeCall<S> + Drop>(
        &mut self,
        inside: &Inside,
        call: C,
    ) -> Result<C::Answer, Fault>
        requires { IsOwnStay inside.now (S.facts self.old.held.steps).stands }
        ensures call { DoesInside self.old self.new (in_a_stay (C.request call)) result }
        ensures own { IsOwnStay inside.now (S.facts self.new.held.steps).stands }
    {
        make_within(&mut self.held, &mut self.numbers, inside, call)
    }

    /// Copies a part of an array out in a stay of the thread, which goes on.
    ///
    /// # Errors
    ///
    /// E1, E2, E3, E5, E6, E7.
    #[inline(always)]
    fn copy_within<E: Elem>(
        &mut self,
        inside: &Inside,
        array: Handle,
        start: u32,
        elements: &mut [E],
    ) -> Result<(), Fault>
        requires { IsOwnStay inside.now (S.facts self.old.held.steps).stands }
        ensures size { length elements.new ≡ length elements.old }
        ensures call { DoesInside self.old self.new (in_a_stay (for_get_array_region E.KIND array.0 start (length elements.old))) (read_answer result (map E.word_of elements.new)) }
        ensures own { IsOwnStay inside.now (S.facts self.new.held.steps).stands }
        ensures err { IfErr result (λ _. elements.new ≡ elements.old) }
    {
        copy_inside(&mut self.held, inside, array, start, elements)
    }

    /// Ends a stay of the thread.
    #[inline(always)]
    pub(crate) fn leave_stay(&mut self, inside: Inside)
        requires { IsOwnStay inside (S.facts self.old.held.steps).stands }
        ensures call { LeavesOver self.old.held self.new.held }
        ensures one { EndsAsOneStay self.old.held self.new.held }
        ensures frames { self.new.held.frames ≡ self.old.held.frames }
        ensures outside { IsOutside self.new }
    {
        go_outside(&mut self.held, inside);
    }
}

impl<'e, S: Steps> Stay<'e, S> {
    ghost use Rattle.std.specs.Prelude.{◌≡◌};
    ghost use Rattle.jr_env.specs.Envs.{IsOutside};
    ghost use Rattle.jr_env.specs.OpenStays.{EndsAsOneStay, LeavesOver};
    ghost use Rattle.jr_env.specs.LentStays.{env_in, frames_in, held_in};

    /// The stay of an env whose thread is within.
    #[inline(always)]
    pub(crate) fn over(env: &'e mut Env<S>, inside: Inside) -> Self
        requires { IsOwnStay inside (S.facts env.old.held.steps).stands }
        ensures same_reference { (env_in result).ghost_name ≡ env.entry.ghost_name }
        ensures env { (env_in result).now ≡ env.old }
    {
        Stay { env, inside }
    }

    /// Ends the stay, and hands the env back: the thread has left the gate.
    ///
    /// # Operations
    ///
    /// One, the exit.
    #[inline(always)]
    pub fn end(self) -> &'e mut Env<S>
        ensures same_reference { result.ghost_name ≡ (env_in self.entry).ghost_name }
        ensures call { LeavesOver (held_in self.entry) result.now.held }
        ensures one_stay { EndsAsOneStay (held_in self.entry) result.now.held }
        ensures frames { result.now.held.frames ≡ frames_in self.entry }
        ensures outside { IsOutside result.now }
    {
        let Stay { env, inside } = self;
        env.leave_stay(inside);
        env
    }
}

impl<S: Steps> NativeCaller<S> for Stay<'_, S> {
    ghost use Rattle.jr_env.specs.LentStays.{DoesWithin};
    ghost use Rattle.jr_env.specs.Deeds.{in_a_stay};

    ghost made = { λ old new request answer. DoesWithin old new (in_a_stay request) answer };

    #[inline(always)]
    fn make<C: NativeCall<S> + Drop>(&mut self, call: C) -> Result<C::Answer, Fault> {
        self.env.make_inside(&self.inside, call)
    }

    #[inline(always)]
    fn copy_part<E: Elem>(
        &mut self,
        array: Handle,
        start: u32,
        elements: &mut [E],
    ) -> Result<(), Fault> {
        self.env.copy_within(&self.inside, array, start, elements)
    }
}
