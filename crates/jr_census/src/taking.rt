//! A census as a whole.
ghost use Rattle.std.specs.Prelude.{◌≡◌, ◌≤◌, ◌+◌, ℕ, [], ◌∷◌, IsOk, IfOk, IfErr, OnErr};
ghost use Rattle.jr_word.specs.declared.fault.Fault.TheVariants.{Busy};
ghost use Rattle.jr_model.specs.declared.event.Role.TheVariants.{Outside};
ghost use Rattle.jr_model.specs.declared.event.Act.TheVariants.{ShutBusy};
ghost use Rattle.jr_steps.specs.Knowing.{anything, keeps, CanReopen, IsLone, MayKnow, Took};
ghost use Rattle.jr_gate.specs.Stays.{IsOwnCollection};
ghost use Rattle.jr_weak.specs.Collecting.{GivesUp};
ghost use Rattle.jr_weak.specs.Markers.{room_of};
ghost use Rattle.jr_weak.specs.Waiting.{ShutsActByAct};
ghost use Rattle.jr_census.specs.Taking.{CountsOnce, TakesCensus, TakesCensusAnnounced, counting_steps};

use crate::locals::count_locals;
use crate::objects::{Objects, count_objects};
use crate::slots::{Slots, count_slots};
use crate::words::{WordCounts, count_words};
use jr_gate::{Shut, shut_gate};
use jr_steps::Steps;
use jr_weak::{Marker, shut_announced};
use jr_word::Fault;

/// What stands in a room at one step.
#[derive(Debug, Drop)]
pub struct Census {
    /// What the slots have: global and weak global references.
    pub slots: Slots,
    /// How many local references stand, by the number of their thread: none of numbers beyond the room's.
    pub locals: [u32; 64],
    /// The objects that are present.
    pub objects: Objects,
    /// Those of them that nothing reaches: what a collection would drop.
    pub unreached: Objects,
    /// The words of array space that are used, and what for.
    pub words: WordCounts,
}

/// Tells what stands in the room at the step that shuts the gate for it, and opens the gate again. It changes nothing, takes no memory, and never waits.
/// The marker, made for a room of so many objects, is for what nothing reaches, and serves again. The thread has to stand outside.
///
/// # Errors
///
/// E14 with how many threads were inside, knocking, announcing or collecting at the step that shuts the gate, at least 1.
///
/// Nothing has changed then, and the marker is as it was. Over one thread, and over plain words, it is never refused.
///
/// # Operations
///
/// One where it is refused. Else those of `mark`, a look at each slot, at each local place of every thread, at the header of each object number and at the top, and two at the gate:
/// at the most two for each slot, local place and object, one for each word of the room, and three.
pub fn take_census<S: Steps>(steps: &mut S, marker: &mut Marker) -> Result<Census, Fault>
    requires outside { (S.facts steps.old).stands.role ≡ Outside }
    requires room { room_of marker.old ≡ (S.facts steps.old).stands.config.objects }
    ensures room { room_of marker.new ≡ room_of marker.old }
    ensures ok { IfOk result (λ x. TakesCensus S.facts steps.old steps.new x) }
    ensures err { IfErr result (λ e. (n : ℕ) × (e ≡ Busy n) × (1 ≤ n) × Took S.facts steps.old steps.new (ShutBusy n ∷ []) anything keeps) }
    ensures kept { OnErr result (marker.new ≡ marker.old) }
    ensures alone { IsLone (S.facts steps.old).stands → IsOk result }
{
    let shut = shut_gate(steps)?;
    Ok(count(steps, shut, marker))
}

/// Takes a census as `take_census` does, but announces it first, so that nobody is let in any more.
/// It tries so many times to shut the gate, which is refused while another thread is inside or knocks, and takes the announcement back where the last try is refused, too.
/// It takes no memory and never waits. The thread has to stand outside.
///
/// # Errors
///
/// E14 with how many threads were inside, knocking, announcing or collecting, at least 1, where another thread kept the gate closed already;
/// E23 with two counts of the open gate, where another thread went in or out between the look at it and the announcement;
/// E14 with how many other threads were inside or knocking at the last try, at least 1.
///
/// Nothing has changed then, the marker is as it was, and the thread stands outside. Over one thread, and over plain words, it is never refused.
///
/// # Operations
///
/// Up to the shut of the gate those of `shut_announced`; from then on those of `take_census`.
pub fn take_census_announced<S: Steps>(
    steps: &mut S,
    marker: &mut Marker,
    tries: u32,
) -> Result<Census, Fault>
    requires outside { (S.facts steps.old).stands.role ≡ Outside }
    requires room { room_of marker.old ≡ (S.facts steps.old).stands.config.objects }
    requires tries { 1 ≤ tries }
    ensures room { room_of marker.new ≡ room_of marker.old }
    ensures ok { IfOk result (λ x. TakesCensusAnnounced S.facts steps.old steps.new tries x) }
    ensures counted { IfOk result (λ _. ShutsActByAct S.facts steps.old steps.new tries (λ c. counting_steps c + 1)) }
    ensures err { IfErr result (λ e. GivesUp S.facts steps.old steps.new tries e) }
    ensures kept { OnErr result (marker.new ≡ marker.old) }
    ensures alone { IsLone (S.facts steps.old).stands → IsOk result }
{
    let shut = shut_announced(steps, tries)?;
    Ok(count(steps, shut, marker))
}

/// Counts while the gate is shut for it, and opens the gate.
fn count<S: Steps>(steps: &mut S, shut: Shut, marker: &mut Marker) -> Census
    requires own { IsOwnCollection shut (S.facts steps.old).stands }
    requires closed { MayKnow S.facts steps.old CanReopen }
    requires room { room_of marker.old ≡ (S.facts steps.old).stands.config.objects }
    ensures room { room_of marker.new ≡ room_of marker.old }
    ensures all { CountsOnce S.facts steps.old steps.new result }
{
    marker.mark(steps);
    let slots = count_slots(steps);
    let (objects, unreached) = count_objects(steps, marker);
    let locals = count_locals(steps);
    let words = count_words(steps, objects.words, unreached.words);
    shut.reopen(steps);
    Census {
        slots,
        locals,
        objects,
        unreached,
        words,
    }
}
