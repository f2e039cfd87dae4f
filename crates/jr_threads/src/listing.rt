//! A collection with a dump behind it, and the close of a room behind both: what stands then was leaked.
ghost use Rattle.std.specs.Prelude.{◌≡◌, ◌≤◌, ℕ, [], ◌∷◌, All, map, IfOk, IfErr};
ghost use Rattle.std.specs.List.{AllByRecursion};
ghost use Rattle.jr_word.specs.declared.fault.Fault.TheVariants.{Busy};
ghost use Rattle.jr_model.specs.declared.event.Act.TheVariants.{ShutBusy};
ghost use Rattle.jr_model.specs.declared.event.Role.TheVariants.{Outside};
ghost use Rattle.jr_steps.specs.Knowing.{anything, keeps, Took};
ghost use Rattle.jr_rule.specs.Passes.{HasEachPass, known_of, stands_of};
ghost use Rattle.jr_rule.specs.Rooms.{IsOfRoom};
ghost use Rattle.jr_weak.specs.Markers.{room_of};
ghost use Rattle.jr_alive.specs.Graph.{HasRoomFor};
ghost use Rattle.jr_threads.specs.Listing.{ClosesListing, CollectsAndDumps, LearnsAndDumps, TakesThis, TookNoDump};

use crate::closing::learn_all;
use crate::native::LAST;
use jr_alive::Dump;
use jr_census::take_dump;
use jr_model::Summary;
use jr_rule::{Pass, Room, RoomSteps};
use jr_steps::Steps;
use jr_weak::{Marker, collect};
use jr_word::Fault;

/// Takes a dump in the memory of this one, as `take_dump` does.
fn fill<S: Steps>(steps: &mut S, dump: Dump) -> Result<Dump, Fault>
    requires outside { (S.facts steps.old).stands.role ≡ Outside }
    requires memory { HasRoomFor (S.facts steps.old).stands.config dump }
    ensures memory { IfOk result (λ d. HasRoomFor (S.facts steps.old).stands.config d) }
    ensures ok { IfOk result (λ d. TakesThis S.facts steps.old steps.new d) }
    ensures err { IfErr result (λ e. (n : ℕ) × (e ≡ Busy n) × (1 ≤ n) × Took S.facts steps.old steps.new (ShutBusy n ∷ []) anything keeps) }
{
    let Dump {
        mut slots,
        places,
        mut locals,
        mut headers,
        mut words,
    } = dump;
    take_dump(steps, &mut slots, &mut locals, &mut headers, &mut words)?;
    Ok(Dump {
        slots,
        places,
        locals,
        headers,
        words,
    })
}

/// Collects, and then takes a dump in the memory of this one. The thread has to stand outside, the marker is one that was made for a room of so many objects, and the dump one for its sizes.
/// Where no other thread acts between the two shuts, the dump has no object that nothing reaches.
///
/// # Errors
///
/// E14 with how many threads were inside, knocking, announcing or collecting at the shut of the collection, at least 1, and then nothing was done; or at the shut of the dump, behind the collection.
///
/// The dump is gone then. Over one thread it is never refused.
///
/// # Operations
///
/// Those of `collect`, and then those of `take_dump`.
pub fn collect_and_dump<S: Steps>(
    steps: &mut S,
    marker: &mut Marker,
    dump: Dump,
) -> Result<Dump, Fault>
    requires outside { (S.facts steps.old).stands.role ≡ Outside }
    requires marker { room_of marker.old ≡ (S.facts steps.old).stands.config.objects }
    requires memory { HasRoomFor (S.facts steps.old).stands.config dump }
    ensures marker { room_of marker.new ≡ room_of marker.old }
    ensures ok { IfOk result (λ d. CollectsAndDumps S.facts steps.old steps.new d) }
    ensures err { IfErr result (λ e. TookNoDump S.facts steps.old steps.new e) }
{
    collect(steps, marker)?;
    fill(steps, dump)
}

/// The holder of a pass learns all that those of the others have seen, collects, and takes a dump.
fn sweep_listing(
    room: &Room<LAST>,
    first: Pass,
    others: Vec<Pass>,
    marker: &mut Marker,
    dump: Dump,
) -> (Pass, Vec<Pass>, Result<Dump, Fault>)
    requires first { IsOfRoom room.now first }
    requires others { All (λ p. IsOfRoom room.now p) others.items }
    requires outside { first.role ≡ Outside }
    requires marker { room_of marker.old ≡ room.now.row.config.objects }
    requires memory { HasRoomFor room.now.row.config dump }
    ensures first { IsOfRoom room.now result.0 }
    ensures outside { result.0.role ≡ Outside }
    ensures others { map stands_of result.1.items ≡ map stands_of others.items }
    ensures listed { LearnsAndDumps (known_of first) (known_of result.0) (map known_of others.items) result.2 }
{
    let mut steps = RoomSteps::new(room, first);
    let others = learn_all(&mut steps, others);
    let listed = collect_and_dump(&mut steps, marker, dump);
    (steps.into_pass(), others, listed)
}

/// Closes a room as `close` does, but takes a dump between the collection and the close.
pub(crate) fn close_listing(
    room: Room<LAST>,
    first: Pass,
    others: Vec<Pass>,
    marker: &mut Marker,
    dump: Dump,
) -> (Summary, Dump)
    requires first { IsOfRoom room first }
    requires others { All (λ p. IsOfRoom room p) others.items }
    requires each { HasEachPass room.row.config (map known_of (first ∷ others.items)) }
    requires outside { AllByRecursion (λ p. p.role ≡ Outside) (first ∷ others.items) }
    requires marker { room_of marker.old ≡ room.row.config.objects }
    requires memory { HasRoomFor room.row.config dump }
    ensures { ClosesListing (known_of first) (map known_of others.items) result.0 result.1 }
{
    let (first, others, listed) = sweep_listing(&room, first, others, marker, dump);
    let Ok(summary) = room.close_all(first, others) else {
        unreachable!();
    };
    let Ok(dump) = listed else {
        unreachable!();
    };
    (summary, dump)
}
