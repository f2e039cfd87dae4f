//! A whole collection.
ghost use Rattle.std.specs.Prelude.{◌≡◌, ◌≤◌, ◌+◌, ℕ, [], ◌∷◌, IsOk, IfOk, IfErr, OnErr};
ghost use Rattle.jr_word.specs.declared.fault.Fault.TheVariants.{Busy};
ghost use Rattle.jr_model.specs.declared.event.Role.TheVariants.{Outside};
ghost use Rattle.jr_model.specs.declared.event.Act.TheVariants.{ShutBusy};
ghost use Rattle.jr_steps.specs.Knowing.{anything, keeps, CanReopen, IsLone, MayKnow, Took};
ghost use Rattle.jr_gate.specs.Stays.{IsOwnCollection};
ghost use Rattle.jr_weak.specs.Listing.{ListsTell};
ghost use Rattle.jr_weak.specs.Markers.{marks_of, room_of};
ghost use Rattle.jr_weak.specs.Collecting.{Finishes, GivesUp, MakesAnnouncedCollection, MakesAnnouncedListing};
ghost use Rattle.jr_weak.specs.Collecting.{MakesCollection, MakesListing};
ghost use Rattle.jr_weak.specs.Counting.{sweeping_steps};
ghost use Rattle.jr_weak.specs.Waiting.{ShutsActByAct};

use crate::marker::Marker;
use crate::waiting::shut_announced;
use jr_gate::{Shut, shut_gate};
use jr_steps::Steps;
use jr_word::{Fault, Handle};

/// What a collection did.
#[derive(Clone, Copy, Debug, PartialEq, Eq)]
pub struct Collected {
    /// How many weak references it cleared.
    pub cleared: u32,
    /// How many objects it dropped.
    pub dropped: u32,
    /// How many words of array space are used since.
    pub used: u32,
}

/// Collects:
/// clears each weak reference to an object that is not reached, drops each such object, moves all arrays together, and tells how many it cleared and dropped, and how many words are used then.
/// What is reached keeps its kind and elements. The gate is shut meanwhile. It takes no memory, and the marker, made for a room of so many objects, serves again. The thread has to stand outside.
///
/// # Errors
///
/// E14 with how many threads were inside, knocking, announcing or collecting at the step that shuts the gate, at least 1.
///
/// Nothing has changed then, and the marker is as it was. Over one thread, and over plain words, it is never refused.
///
/// # Operations
///
/// One where it is refused. A collection that is made takes those of `mark`, `clear_weak`, `drop_unreached` and `compact`, and two at the gate:
/// at the most three for each slot, one for each local place of every thread, four for each object and each word of the room, and three.
pub fn collect<S: Steps>(steps: &mut S, marker: &mut Marker) -> Result<Collected, Fault>
    requires outside { (S.facts steps.old).stands.role ≡ Outside }
    requires room { room_of marker.old ≡ (S.facts steps.old).stands.config.objects }
    ensures room { room_of marker.new ≡ room_of marker.old }
    ensures ok { IfOk result (λ c. MakesCollection S.facts steps.old steps.new c.cleared c.dropped c.used) }
    ensures err { IfErr result (λ e. (n : ℕ) × (e ≡ Busy n) × (1 ≤ n) × Took S.facts steps.old steps.new (ShutBusy n ∷ []) anything keeps) }
    ensures kept { OnErr result (marker.new ≡ marker.old) }
    ensures alone { IsLone (S.facts steps.old).stands → IsOk result }
{
    collect_listing(steps, marker, &mut [], &mut [])
}

/// Collects as `collect` does, and lists what went, at the front of two buffers, in the order in which it went and as much as there is room for:
/// the handles of the weak references that it cleared, and the numbers of the objects that it dropped. What lies behind stays.
/// `Collected` has how many there were, which may be more than the buffers have room for. The marker has what it marked: `found` lists the objects that were reached, which are those that it kept.
/// An empty buffer takes no memory, and will do.
///
/// # Errors
///
/// E14 with how many threads were inside, knocking, announcing or collecting at the step that shuts the gate, at least 1.
///
/// Nothing has changed then, and the marker and the buffers are as they were. Over one thread, and over plain words, it is never refused.
///
/// # Operations
///
/// Those of `collect`.
pub fn collect_listing<S: Steps>(
    steps: &mut S,
    marker: &mut Marker,
    handles: &mut [Handle],
    numbers: &mut [u16],
) -> Result<Collected, Fault>
    requires outside { (S.facts steps.old).stands.role ≡ Outside }
    requires room { room_of marker.old ≡ (S.facts steps.old).stands.config.objects }
    ensures room { room_of marker.new ≡ room_of marker.old }
    ensures ok { IfOk result (λ c. MakesListing S.facts steps.old steps.new (marks_of marker.new) (ListsTell handles.old numbers.old handles.new numbers.new) c.cleared c.dropped c.used) }
    ensures err { IfErr result (λ e. (n : ℕ) × (e ≡ Busy n) × (1 ≤ n) × Took S.facts steps.old steps.new (ShutBusy n ∷ []) anything keeps) }
    ensures kept { OnErr result (marker.new ≡ marker.old) }
    ensures unlisted { OnErr result ((handles.new ≡ handles.old) × (numbers.new ≡ numbers.old)) }
    ensures alone { IsLone (S.facts steps.old).stands → IsOk result }
{
    let shut = shut_gate(steps)?;
    Ok(finish(steps, shut, marker, handles, numbers))
}

/// Announces a collection, so that nobody is let in any more, shuts the gate, and collects as `collect` does.
/// It tries so many times to shut the gate, which is refused while another thread is inside or knocks, and takes the announcement back where the last try is refused, too.
/// It takes no memory and never waits. The thread has to stand outside.
///
/// # Errors
///
/// E14 with how many threads were inside, knocking, announcing or collecting, at least 1, where another thread kept the gate closed already;
/// E23 with two counts of the open gate, where another thread went in or out between the look at it and the announcement;
/// E14 with how many other threads were inside or knocking at the last try, at least 1.
///
/// Nothing has changed then, the marker is as it was, and the thread stands outside. Over one thread, and over plain words, it is never refused.
///
/// # Operations
///
/// Up to the shut of the gate those of `announce` and one for each try, with none between two tries; and one more where the announcement is taken back. From then on those of `collect`.
pub fn collect_announced<S: Steps>(
    steps: &mut S,
    marker: &mut Marker,
    tries: u32,
) -> Result<Collected, Fault>
    requires outside { (S.facts steps.old).stands.role ≡ Outside }
    requires room { room_of marker.old ≡ (S.facts steps.old).stands.config.objects }
    requires tries { 1 ≤ tries }
    ensures room { room_of marker.new ≡ room_of marker.old }
    ensures ok { IfOk result (λ c. MakesAnnouncedCollection S.facts steps.old steps.new tries c.cleared c.dropped c.used) }
    ensures counted { IfOk result (λ _. ShutsActByAct S.facts steps.old steps.new tries (λ c. sweeping_steps c + 1)) }
    ensures err { IfErr result (λ e. GivesUp S.facts steps.old steps.new tries e) }
    ensures kept { OnErr result (marker.new ≡ marker.old) }
    ensures alone { IsLone (S.facts steps.old).stands → IsOk result }
{
    collect_announced_listing(steps, marker, tries, &mut [], &mut [])
}

/// Collects as `collect_announced` does, and lists what went as `collect_listing` does.
///
/// # Errors
///
/// E14 with how many threads were inside, knocking, announcing or collecting, at least 1, where another thread kept the gate closed already;
/// E23 with two counts of the open gate, where another thread went in or out between the look at it and the announcement;
/// E14 with how many other threads were inside or knocking at the last try, at least 1.
///
/// Nothing has changed then, the marker and the buffers are as they were, and the thread stands outside. Over one thread, and over plain words, it is never refused.
///
/// # Operations
///
/// Those of `collect_announced`.
pub fn collect_announced_listing<S: Steps>(
    steps: &mut S,
    marker: &mut Marker,
    tries: u32,
    handles: &mut [Handle],
    numbers: &mut [u16],
) -> Result<Collected, Fault>
    requires outside { (S.facts steps.old).stands.role ≡ Outside }
    requires room { room_of marker.old ≡ (S.facts steps.old).stands.config.objects }
    requires tries { 1 ≤ tries }
    ensures room { room_of marker.new ≡ room_of marker.old }
    ensures ok { IfOk result (λ c. MakesAnnouncedListing S.facts steps.old steps.new tries (marks_of marker.new)
        (ListsTell handles.old numbers.old handles.new numbers.new) c.cleared c.dropped c.used) }
    ensures counted { IfOk result (λ _. ShutsActByAct S.facts steps.old steps.new tries (λ c. sweeping_steps c + 1)) }
    ensures err { IfErr result (λ e. GivesUp S.facts steps.old steps.new tries e) }
    ensures kept { OnErr result (marker.new ≡ marker.old) }
    ensures unlisted { OnErr result ((handles.new ≡ handles.old) × (numbers.new ≡ numbers.old)) }
    ensures alone { IsLone (S.facts steps.old).stands → IsOk result }
{
    let shut = shut_announced(steps, tries)?;
    Ok(finish(steps, shut, marker, handles, numbers))
}

/// Collects while the gate is shut for it, lists what went, and opens the gate.
fn finish<S: Steps>(
    steps: &mut S,
    shut: Shut,
    marker: &mut Marker,
    handles: &mut [Handle],
    numbers: &mut [u16],
) -> Collected
    requires own { IsOwnCollection shut (S.facts steps.old).stands }
    requires closed { MayKnow S.facts steps.old CanReopen }
    requires room { room_of marker.old ≡ (S.facts steps.old).stands.config.objects }
    ensures room { room_of marker.new ≡ room_of marker.old }
    ensures all { Finishes S.facts steps.old steps.new (marks_of marker.new) (ListsTell handles.old numbers.old handles.new numbers.new) result.cleared result.dropped result.used }
{
    marker.mark(steps);
    let cleared = marker.clear_weak(steps, handles);
    let dropped = marker.drop_unreached(steps, numbers);
    let used = marker.compact(steps);
    shut.reopen(steps);
    Collected {
        cleared,
        dropped,
        used,
    }
}
