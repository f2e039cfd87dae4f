//! The last owner of a room collects, notes what was left, and closes it.
ghost use Rattle.std.specs.Prelude.{◌≡◌, ◌≢◌, ◌⊎◌, IfSome, IfOk, IfErr};
ghost use Rattle.std.specs.Arc.{arc_value};
ghost use Rattle.jr_word.specs.declared.fault.Fault.TheVariants.{Size};
ghost use Rattle.jr_model.specs.declared.event.Role.TheVariants.{Outside};
ghost use Rattle.jr_rule.specs.Passes.{holder_of, known_of};
ghost use Rattle.jr_rule.specs.Rooms.{IsOfRoom};
ghost use Rattle.jr_rule.specs.Rule.{stepping_pass};
ghost use Rattle.jr_weak.specs.Markers.{room_of};
ghost use Rattle.jr_alive.specs.Graph.{HasRoomFor};
ghost use Rattle.jr_threads.specs.Listing.{ClosesListed, CollectsAndDumps, TookNoDump};
ghost use Rattle.jr_owned.specs.Listing.{HasDumped, IsLeftListing, IsNotDumped};
ghost use Rattle.jr_owned.specs.Owners.{owner_of};

use crate::LAST;
use crate::owned::{OwnedSteps, last_owner};
use jr_alive::Dump;
use jr_model::Summary;
use jr_rule::{Left, Pass, Room, RoomSteps};
use jr_steps::Steps;
use jr_threads::collect_and_dump;
use jr_weak::Marker;
use jr_word::Fault;
use std::alloc::Global;

/// Collects and takes a dump, with a marker that was made for as many objects as the room has; with another it is E17.
fn dump_fitting<S: Steps>(steps: &mut S, marker: &mut Marker, dump: Dump) -> Result<Dump, Fault>
    requires outside { (S.facts steps.old).stands.role ≡ Outside }
    requires memory { HasRoomFor (S.facts steps.old).stands.config dump }
    ensures room { room_of marker.new ≡ room_of marker.old }
    ensures ok { IfOk result (λ d. CollectsAndDumps S.facts steps.old steps.new d) }
    ensures err { IfErr result (λ e. ((e ≡ Size) × (room_of marker.old ≢ (S.facts steps.old).stands.config.objects) × (steps.new ≡ steps.old)) ⊎ TookNoDump S.facts steps.old steps.new e) }
{
    if !marker.fits(steps.config().objects) {
        return Err(Fault::Size);
    }
    collect_and_dump(steps, marker, dump)
}

/// The holder of a pass of the room collects and takes a dump, and has the pass back.
fn dump_with(
    alloc: Global,
    room: &Room<LAST>,
    pass: Pass,
    marker: &mut Marker,
) -> Result<(Pass, Dump), (Pass, Fault)>
    requires pass { IsOfRoom room.now pass }
    requires outside { pass.role ≡ Outside }
    ensures marker { room_of marker.new ≡ room_of marker.old }
    ensures room { IfOk result (λ p. IsOfRoom room.now p.0) }
    ensures ok { IfOk result (λ p. HasDumped (known_of pass) (known_of p.0) p.1) }
    ensures left { IfErr result (λ l. IsOfRoom room.now l.0) }
    ensures err { IfErr result (λ l. IsNotDumped (room_of marker.old) room.now.row.config.objects (holder_of pass) (holder_of l.0) l.1) }
{
    let mut steps = RoomSteps::new(room, pass);
    let Ok(dump) = Dump::new(alloc, steps.config()) else {
        return Err((steps.into_pass(), Fault::Memory));
    };
    match dump_fitting(&mut steps, marker, dump) {
        Ok(dump) => Ok((steps.into_pass(), dump)),
        Err(fault) => Err((steps.into_pass(), fault)),
    }
}

/// Closes the room by one pass, once its holder has collected and taken a dump.
fn close_dumped(
    alloc: Global,
    room: Room<LAST>,
    pass: Pass,
    marker: &mut Marker,
) -> Result<(Summary, Dump), Left<LAST>>
    requires pass { IsOfRoom room pass }
    requires outside { pass.role ≡ Outside }
    ensures marker { room_of marker.new ≡ room_of marker.old }
    ensures ok { IfOk result (λ r. ClosesListed (known_of pass) r.0 r.1) }
    ensures err { IfErr result (λ l. IsLeftListing (room_of marker.old) room (holder_of pass) l) }
{
    let (pass, dump) = match dump_with(alloc, &room, pass, marker) {
        Ok(dumped) => dumped,
        Err((pass, fault)) => return Err(Left { room, pass, fault }),
    };
    match room.close(pass) {
        Ok(summary) => Ok((summary, dump)),
        Err(left) => Err(left),
    }
}

/// Ends the steps of a thread as `close_collected` does, and notes what was left: between the collection and the close it takes a dump.
/// Where nobody acted behind the collection, the dump is of what the summary tells, and each object that it has is kept by a reference that it has: `path_to` tells which, and `draw` draws all.
///
/// # Errors
///
/// E16 where the dump's memory was refused, and then nothing was done; E17 where the marker was made for another number of objects;
/// E14 with how many threads were inside, knocking, announcing or collecting at the shut of the collection or of the dump, at least 1;
/// E22 as `close_owned` has it, with how many were there behind the dump.
///
/// The room is handed back, and the pass: at E16 and E17 as they were, else as `close_collected` does it.
///
/// # Operations
///
/// Those of `close_collected`, and those of `take_dump` between the collection and the close.
pub fn close_collected_listing(
    alloc: Global,
    steps: OwnedSteps,
    marker: &mut Marker,
) -> Result<Option<(Summary, Dump)>, Left<LAST>>
    requires { steps.role ≡ Outside }
    ensures marker { room_of marker.new ≡ room_of marker.old }
    ensures closed { IfOk result (λ o. IfSome o (λ r. ClosesListed (stepping_pass steps.cells.cells.seat.me) r.0 r.1)) }
    ensures left { IfErr result (λ l. IsLeftListing (room_of marker.old) (arc_value steps.cells.room) (owner_of steps) l) }
{
    let Some((room, pass)) = last_owner(steps) else {
        return Ok(None);
    };
    let closed = close_dumped(alloc, room, pass, marker)?;
    Ok(Some(closed))
}
