//! A stay, and the calls that are made by one of their own and in one that goes on.

ghost use Rattle.std.specs.Prelude.{◌≡◌, IfOk, IfErr};
ghost use Rattle.jr_word.specs.declared.fault.Fault.TheVariants.{Barred};
ghost use Rattle.jr_model.specs.declared.event.Role.TheVariants.{Outside};
ghost use Rattle.jr_gate.specs.Stays.{IsOwnStay};
ghost use Rattle.jr_elements.specs.Copies.{answer_in};
ghost use Rattle.jr_env.specs.Calling.{CanCall};
ghost use Rattle.jr_env.specs.OpenStays.{BehindExit, EndsAsOneStay, Enters, EntersOver, LeavesOver, StaysOn, StaysSince};
ghost use Rattle.jr_env.specs.Works.{EndsStayOver, ServesWithin};

use crate::native_call::NativeCall;
use jr_frames::Held;
use jr_gate::{Inside, enter};
use jr_heap::Numbers;
use jr_steps::{Role, Steps};
use jr_word::Fault;

/// Ends the stay that a region left, and nothing where the thread stands outside. A region has to be released, so that one is left only where its parts were taken apart.
#[inline(always)]
pub fn outside<S: Steps>(held: &mut Held<S>)
    requires { CanCall (S.facts held.old.steps).stands }
    ensures { EndsStayOver held.old held.new }
{
    if let Role::Within = held.steps.role() {
        held.steps.go_out();
    }
}

/// Makes a call in a stay of the thread, which goes on.
///
/// # Errors
///
/// Those of the call but E13.
#[inline(always)]
pub fn make_within<S: Steps, C: NativeCall<S> + Drop>(
    held: &mut Held<S>,
    numbers: &mut Numbers,
    inside: &Inside,
    call: C,
) -> Result<C::Answer, Fault>
    requires stay { IsOwnStay inside.now (S.facts held.old.steps).stands }
    requires ready { CanCall (S.facts held.old.steps).stands }
    ensures call { ServesWithin held.old held.new (C.request call) result }
    ensures on { StaysOn held.old held.new }
    ensures own { IsOwnStay inside.now (S.facts held.new.steps).stands }
    ensures next { CanCall (S.facts held.new.steps).stands }
{
    call.work(&mut held.steps, inside, &mut held.frames, numbers)
}

/// Enters the gate for a stay that goes on from call to call. A stay that a region left is ended first.
///
/// # Errors
///
/// E13.
#[inline(always)]
pub fn go_inside<S: Steps>(held: &mut Held<S>) -> Result<Inside, Fault>
    requires { CanCall (S.facts held.old.steps).stands }
    ensures call { (S.facts held.old.steps).stands.role ≡ Outside → EntersOver held.old held.new (answer_in (λ i. tt) result) }
    ensures left { BehindExit held.old (λ mid. Enters S.facts mid held.new.steps held.old.frames.frames (answer_in (λ i. tt) result)) }
    ensures frames { held.new.frames ≡ held.old.frames }
    ensures own { IfOk result (λ i. IsOwnStay i (S.facts held.new.steps).stands) }
    ensures since { IfOk result (λ i. (S.facts held.old.steps).stands.role ≡ Outside → StaysSince held.old held.new) }
    ensures refused { IfErr result (λ e. (e ≡ Barred) × ((S.facts held.new.steps).stands.role ≡ Outside)) }
    ensures next { CanCall (S.facts held.new.steps).stands }
{
    outside(held);
    enter(&mut held.steps)
}

/// Ends a stay that went on from call to call.
#[inline(always)]
pub fn go_outside<S: Steps>(held: &mut Held<S>, inside: Inside)
    requires stay { IsOwnStay inside (S.facts held.old.steps).stands }
    requires ready { CanCall (S.facts held.old.steps).stands }
    ensures call { LeavesOver held.old held.new }
    ensures frames { held.new.frames ≡ held.old.frames }
    ensures one { EndsAsOneStay held.old held.new }
    ensures outside { (S.facts held.new.steps).stands.role ≡ Outside }
    ensures next { CanCall (S.facts held.new.steps).stands }
{
    inside.leave(&mut held.steps);
}
