//! The last owner of a room collects, and closes it.
ghost use Rattle.std.specs.Prelude.{◌≡◌, ◌≢◌, ◌⊎◌, ◌≤◌, ℕ, [], ◌∷◌, IfSome, IfOk, IfErr};
ghost use Rattle.std.specs.Arc.{arc_value};
ghost use Rattle.jr_word.specs.declared.fault.Fault.TheVariants.{Busy, Size};
ghost use Rattle.jr_model.specs.declared.event.Act.TheVariants.{ShutBusy};
ghost use Rattle.jr_model.specs.declared.event.Role.TheVariants.{Outside};
ghost use Rattle.jr_steps.specs.Knowing.{Took, anything, keeps, view};
ghost use Rattle.jr_rule.specs.Passes.{holder_of, known_of};
ghost use Rattle.jr_rule.specs.Rooms.{IsOfRoom};
ghost use Rattle.jr_rule.specs.Rule.{stepping_pass};
ghost use Rattle.jr_weak.specs.Collecting.{MakesCollection};
ghost use Rattle.jr_weak.specs.Markers.{room_of};
ghost use Rattle.jr_threads.specs.Closing.{ClosesCollected, HasSweptAll, IsNotCollected};
ghost use Rattle.jr_owned.specs.Owners.{owner_of, IsLeftCollecting};

use crate::LAST;
use crate::owned::{OwnedSteps, last_owner};
use jr_model::Summary;
use jr_rule::{Left, Pass, Room, RoomSteps};
use jr_steps::Steps;
use jr_weak::{Collected, Marker, collect};
use jr_word::Fault;

/// Collects with a marker that was made for as many objects as the room has; with another it is E17.
fn collect_fitting<S: Steps>(steps: &mut S, marker: &mut Marker) -> Result<Collected, Fault>
    requires outside { (S.facts steps.old).stands.role ≡ Outside }
    ensures room { room_of marker.new ≡ room_of marker.old }
    ensures ok { IfOk result (λ c. MakesCollection S.facts steps.old steps.new c.cleared c.dropped c.used) }
    ensures err { IfErr result (λ e. ((e ≡ Size) × (room_of marker.old ≢ (S.facts steps.old).stands.config.objects) × (steps.new ≡ steps.old))
        ⊎ ((n : ℕ) × (e ≡ Busy n) × (1 ≤ n) × Took S.facts steps.old steps.new (ShutBusy n ∷ []) anything keeps)) }
{
    if !marker.fits(steps.config().objects) {
        return Err(Fault::Size);
    }
    collect(steps, marker)
}

/// The holder of a pass of the room collects, and has it back.
fn collect_with(room: &Room<LAST>, pass: Pass, marker: &mut Marker) -> Result<Pass, (Pass, Fault)>
    requires pass { IsOfRoom room.now pass }
    requires outside { pass.role ≡ Outside }
    ensures marker { room_of marker.new ≡ room_of marker.old }
    ensures room { IfOk result (λ p. IsOfRoom room.now p) }
    ensures ok { IfOk result (λ p. HasSweptAll (view (known_of pass)) (view (known_of p))) }
    ensures left { IfErr result (λ l. IsOfRoom room.now l.0) }
    ensures err { IfErr result (λ l. IsNotCollected (room_of marker.old) room.now.row.config.objects (holder_of pass) (holder_of l.0) l.1) }
{
    let mut steps = RoomSteps::new(room, pass);
    match collect_fitting(&mut steps, marker) {
        Ok(_) => Ok(steps.into_pass()),
        Err(fault) => Err((steps.into_pass(), fault)),
    }
}

/// Closes the room by one pass, once its holder has collected.
fn close_with(room: Room<LAST>, pass: Pass, marker: &mut Marker) -> Result<Summary, Left<LAST>>
    requires pass { IsOfRoom room pass }
    requires outside { pass.role ≡ Outside }
    ensures marker { room_of marker.new ≡ room_of marker.old }
    ensures ok { IfOk result (λ s. ClosesCollected (known_of pass) s) }
    ensures err { IfErr result (λ l. IsLeftCollecting (room_of marker.old) room (holder_of pass) l) }
{
    match collect_with(&room, pass, marker) {
        Ok(pass) => room.close(pass),
        Err((pass, fault)) => Err(Left { room, pass, fault }),
    }
}

/// Ends the steps of a thread, which is outside, and where nobody else owns the room any more collects and closes it. So what it tells is reached:
/// by a global reference that nobody deleted, or by a local one that a thread left. Where others own the room still, the answer is `None`, and the thread's pass is gone.
///
/// Where a pass was let go outside by its thread, nothing hinders it. No clause can say that nobody acted behind the collection, since the rule of the row knows no owners:
/// where nobody did, nothing unreached is told.
///
/// # Errors
///
/// E17 where the marker was made for another number of objects; E14 with how many threads were inside, knocking, announcing or collecting at the step that was to shut the gate, at least 1:
/// the pass of each was let go there; E22 as `close_owned` has it, with how many were there behind the collection.
///
/// The room is handed back as it was but for the collection, and the pass: at E17 as it was, at E14 and E22 with its look.
///
/// # Operations
///
/// Those of `collect` and of `Room::close` where nobody else owns the room, and the marker fits; else none.
pub fn close_collected(
    steps: OwnedSteps,
    marker: &mut Marker,
) -> Result<Option<Summary>, Left<LAST>>
    requires { steps.role ≡ Outside }
    ensures marker { room_of marker.new ≡ room_of marker.old }
    ensures closed { IfOk result (λ o. IfSome o (λ s. ClosesCollected (stepping_pass steps.cells.cells.seat.me) s)) }
    ensures left { IfErr result (λ l. IsLeftCollecting (room_of marker.old) (arc_value steps.cells.room) (owner_of steps) l) }
{
    let Some((room, pass)) = last_owner(steps) else {
        return Ok(None);
    };
    let summary = close_with(room, pass, marker)?;
    Ok(Some(summary))
}
