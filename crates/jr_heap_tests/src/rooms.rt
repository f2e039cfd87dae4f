//! Rooms for tests: the steps over their passes, and how they are closed, or are not.
ghost use Rattle.std.specs.Prelude.{◌≡◌, All, IfOk};
ghost use Rattle.jr_model.specs.declared.event.Role.TheVariants.{Outside};
ghost use Rattle.jr_rule.specs.Passes.{standing_of, IsOpened};
ghost use Rattle.jr_rule.specs.Rooms.{IsOfRoom};

use assertions::assert_same;
use jr_model::Summary;
use jr_rule::{Left, Pass, Room, RoomSteps};
use jr_word::Fault;
use std::process::Abort;
use std::test::Fail;

/// What a room has in which nothing stands.
pub(crate) const NOTHING: Summary = Summary {
    globals: 0,
    weaks: 0,
    live: 0,
    used: 0,
};

/// The last of the passes.
pub(crate) fn last_of(_room: &Room<2>, passes: &mut Vec<Pass>) -> Result<Pass, Fail>
    requires { All (λ p. IsOpened _room.now.row p) passes.old.items }
    ensures others { All (λ p. IsOpened _room.now.row p) passes.new.items }
    ensures pass { IfOk result (λ p. IsOpened _room.now.row p) }
{
    let Some(pass) = passes.pop() else {
        return Err("there is no pass for each thread")?;
    };
    Ok(pass)
}

/// The steps over the last of the passes.
pub(crate) fn steps_of_last<'a>(
    room: &'a Room<2>,
    passes: &mut Vec<Pass>,
) -> Result<RoomSteps<'a, 2>, Fail>
    requires { All (λ p. IsOpened room.now.row p) passes.old.items }
    ensures others { All (λ p. IsOpened room.now.row p) passes.new.items }
    ensures outside { IfOk result (λ s. s.role ≡ Outside) }
{
    let pass = last_of(room, passes)?;
    Ok(RoomSteps::new(room, pass))
}

/// Checks what stands in a room that is closed with a pass.
pub(crate) fn leaves(rt: &impl Abort, room: Room<2>, pass: Pass, wanted: Summary)
    requires { IsOfRoom room pass }
{
    assert_same!(rt; room.close(pass).ok(), Some(wanted));
}

/// A room is not closed, since so many threads are not outside: it is handed back, and the pass.
pub(crate) fn stays_open(rt: &impl Abort, room: Room<2>, pass: Pass, count: u32) -> (Room<2>, Pass)
    requires { IsOfRoom room pass }
    ensures room { result.0 ≡ room }
    ensures pass { IsOfRoom room result.1 × ((standing_of result.1).role ≡ (standing_of pass).role) }
{
    let Left { room, pass, fault } = room.close(pass).err().expect(rt, "a thread is not outside");
    assert_same!(rt; fault, Fault::LeftInside(count));
    (room, pass)
}
