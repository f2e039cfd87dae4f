//! Steps without a lifetime: of a thread that owns its room together with others.
ghost use Rattle.std.specs.Prelude.{◌≡◌, ◌⊎◌, ◌↔◌, All, map, false, Err, IfSome, IfOk, IfErr};
ghost use Rattle.std.specs.Arc.{arc_value};
ghost use Rattle.jr_word.specs.declared.fault.Fault.TheVariants.{Memory, Size};
ghost use Rattle.jr_word.specs.Config.{in_limits};
ghost use Rattle.jr_rule.specs.Passes.{holder_of, known_of, Closes};
ghost use Rattle.jr_rule.specs.Rooms.{IsOfRoom};
ghost use Rattle.jr_rule.specs.Rule.{stepping_pass};
ghost use Rattle.jr_owned.specs.Owners.{owner_of, AreOfRoom, AreOwnersOpened, IsLeftByOwner};

use crate::LAST;
use jr_model::Summary;
use jr_rule::{Left, OwnedCells as CellsOfOwner, Pass, Room, RoomCells, RoomSteps, StepsOver};
use jr_word::{Config, Fault};
use std::alloc::{AllocError, Global};
use std::sync::Arc;

/// A seat, and the room that it is of.
pub type OwnedCells = CellsOfOwner<LAST>;

/// The steps of a thread that owns its room together with others.
pub type OwnedSteps = StepsOver<OwnedCells, ()>;

/// The steps of a pass in its own room, which the thread then owns together with others. That the pass is one of the room's is a condition: it has no bytes that name its room.
pub fn owned_steps(room: Arc<Room<LAST>>, pass: Pass) -> OwnedSteps
    requires { IsOfRoom (arc_value room) pass }
    ensures room { arc_value result.cells.room ≡ arc_value room }
    ensures pass { owner_of result ≡ holder_of pass }
    ensures seen { stepping_pass result.cells.cells.seat.me ≡ known_of pass }
{
    let StepsOver {
        cells,
        role,
        fresh,
        hint,
        place: _,
    } = RoomSteps::new(&*room, pass);
    StepsOver {
        cells: OwnedCells { cells, room },
        role,
        fresh,
        hint,
        place: (),
    }
}

/// The steps of each pass, in the same order, in the room that they then own together.
fn hand_out(
    alloc: Global,
    room: Room<LAST>,
    passes: Vec<Pass>,
) -> Result<Vec<OwnedSteps>, AllocError>
    requires { All (λ p. IsOfRoom room p) passes.items }
    ensures room { IfOk result (λ r. AreOfRoom room r.items) }
    ensures passes { IfOk result (λ r. map owner_of r.items ≡ map holder_of passes.items) }
{
    let room = Arc::new(alloc, room)?;
    let mut owners = Vec::with_capacity(alloc, passes.len())?;
    for pass in passes {
        let steps = owned_steps(Arc::try_clone(&room)?, pass);
        owners.push(steps)?;
    }
    Ok(owners)
}

/// Opens a room of these sizes, which its threads own together, and hands out the steps of each:
/// at each place those of the thread of that number, which stands outside, is fresh, and has seen nothing yet. The room is freed with the last of them.
///
/// # Errors
///
/// E17 exactly where the sizes are beyond their limits; E16 where memory was refused.
pub fn open_owned(alloc: Global, config: Config) -> Result<Vec<OwnedSteps>, Fault>
    ensures size { (result ≡ Err Size) ↔ (in_limits config ≡ false) }
    ensures memory { IfErr result (λ e. (e ≡ Size) ⊎ (e ≡ Memory)) }
    ensures opened { IfOk result (λ r. AreOwnersOpened config r.items) }
{
    let (room, passes) = Room::<LAST>::open(alloc, config)?;
    let Ok(owners) = hand_out(alloc, room, passes) else {
        return Err(Fault::Memory);
    };
    Ok(owners)
}

/// Gives up what the thread owns of the room: its pass, as it is, and the room, where nobody else owns it any more. Else the room is still the others'.
///
/// # Operations
///
/// None.
pub fn end_owner(steps: OwnedSteps) -> (Option<Room<LAST>>, Pass)
    ensures room { IfSome result.0 (λ r. r ≡ arc_value steps.cells.room) }
    ensures pass { holder_of result.1 ≡ owner_of steps }
    ensures of_room { IsOfRoom (arc_value steps.cells.room) result.1 }
    ensures seen { known_of result.1 ≡ stepping_pass steps.cells.cells.seat.me }
{
    let StepsOver {
        cells: OwnedCells { cells, room },
        role,
        fresh,
        hint,
        place: _,
    } = steps;
    let pass = StepsOver::<RoomCells, &Room<LAST>> {
        cells,
        role,
        fresh,
        hint,
        place: &*room,
    }
    .into_pass();
    (Arc::into_inner(room), pass)
}

/// The room and the pass of steps, as they are, where nobody else owns the room any more; else the pass is gone, and the room is still the others'.
///
/// # Operations
///
/// None.
pub fn last_owner(steps: OwnedSteps) -> Option<(Room<LAST>, Pass)>
    ensures room { IfSome result (λ r. r.0 ≡ arc_value steps.cells.room) }
    ensures pass { IfSome result (λ r. holder_of r.1 ≡ owner_of steps) }
    ensures of_room { IfSome result (λ r. IsOfRoom r.0 r.1) }
    ensures seen { IfSome result (λ r. known_of r.1 ≡ stepping_pass steps.cells.cells.seat.me) }
{
    let (room, pass) = end_owner(steps);
    Some((room?, pass))
}

/// Ends the steps of a thread, and closes the room where nobody else owns it any more. It tells what stands there then:
/// what stands after a legal history that begins with all that the thread has seen, and has no more of its events.
/// Where others own the room still, the answer is `None`, and the thread's pass is gone.
///
/// # Errors
///
/// E22 with how many threads were inside, knocking, announcing or collecting at its one look, at least 1: the pass of each was let go there.
///
/// The room is handed back as it was, and the pass, which has looked at the gate.
///
/// # Operations
///
/// Those of `Room::close` where nobody else owns the room; else none.
pub fn close_owned(steps: OwnedSteps) -> Result<Option<Summary>, Left<LAST>>
    ensures closed { IfOk result (λ o. IfSome o (λ s. Closes (stepping_pass steps.cells.cells.seat.me) s)) }
    ensures left { IfErr result (λ l. IsLeftByOwner (arc_value steps.cells.room) (owner_of steps) l) }
{
    let Some((room, pass)) = last_owner(steps) else {
        return Ok(None);
    };
    let summary = room.close(pass)?;
    Ok(Some(summary))
}
