//! Rooms that are not closed, since a thread is inside, announces or collects, and then are.
ghost use Rattle.std.specs.Prelude.{IfOk};
ghost use Rattle.jr_rule.specs.Rooms.{IsOfRoom};

use crate::gate::{gate_is, keep_each_other_out};
use crate::passes::{Deed, did, opened};
use crate::rooms::{NOTHING, last_of, leaves, stays_open};
use assertions::assert_same;
use jr_model::Role;
use jr_rule::{AllLeft, Left, Pass, Room, RoomSteps};
use jr_word::{Config, Fault};
use std::alloc::Global;
use std::process::Abort;
use std::test::Fail;

/// A room of two threads.
const PAIR: Config = Config {
    threads: 2,
    slots: 2,
    objects: 2,
    words: 0,
    locals: 16,
};

/// A room is not closed with both its passes, since the other's thread is inside: it is handed back, and both.
fn both_are_back(
    rt: &impl Abort,
    alloc: Global,
    room: Room<2>,
    first: Pass,
    second: Pass,
) -> Result<(Room<2>, Pass, Pass), Fail>
    requires first { IsOfRoom room first }
    requires second { IsOfRoom room second }
    ensures { IfOk result (λ r. IsOfRoom r.0 r.1 × IsOfRoom r.0 r.2) }
{
    let others = vec![in alloc; second]?;
    let Err(AllLeft { left, mut others }) = room.close_all(first, others) else {
        return Err("thread 1 is inside")?;
    };
    let Left { room, pass, fault } = left;
    assert_same!(rt; fault, Fault::LeftInside(1));
    assert_same!(rt; others.len(), 1);
    let Some(second) = others.pop() else {
        return Err("the other pass is gone")?;
    };
    Ok((room, pass, second))
}

/// A room that is refused hands back the room and both passes. Once nobody is inside it closes with both.
#[test]
fn a_room_of_two_hands_both_passes_back(rt: HostRuntime) -> Result<(), Fail> {
    let (room, mut passes) = Room::<2>::open(rt.alloc(), PAIR)?;
    let second = last_of(&room, &mut passes)?;
    let first = last_of(&room, &mut passes)?;
    let second = did(&room, second, Deed::ComeIn)?;
    let (room, first, second) = both_are_back(&rt, rt.alloc(), room, first, second)?;
    let first = did(&room, first, Deed::Stand(0, Role::Outside))?;
    let second = did(&room, second, Deed::Stand(1, Role::Within))?;
    let second = did(&room, second, Deed::GoOut)?;
    let others = vec![in rt.alloc(); first]?;
    assert_same!(&rt; room.close_all(second, others).ok(), Some(NOTHING));
    Ok(())
}

/// A thread that has announced is counted beside one that is inside, and also where its own pass is to close the room.
#[test]
fn a_room_is_handed_back_while_a_thread_announces(rt: HostRuntime) -> Result<(), Fail> {
    let (room, first, second, third) = opened(rt.alloc())?;
    let first = did(&room, first, Deed::ComeIn)?;
    let second = did(&room, second, Deed::Announce(1))?;
    let (room, third) = stays_open(&rt, room, third, 2);
    let third = did(&room, third, Deed::Stand(2, Role::Outside))?;
    let _first = did(&room, first, Deed::GoOut)?;
    let (room, _third) = stays_open(&rt, room, third, 1);
    let (room, second) = stays_open(&rt, room, second, 1);
    let second = did(&room, second, Deed::Stand(1, Role::Announcing))?;
    let second = did(&room, second, Deed::TakeBack)?;
    leaves(&rt, room, second, NOTHING);
    Ok(())
}

/// While a thread is inside another doesn't collect, and while that one collects nobody comes in, nobody else collects, and the room is not closed.
#[test]
fn a_stay_and_a_collection_keep_each_other_out(rt: HostRuntime) -> Result<(), Fail> {
    let (room, mut passes) = Room::<2>::open(rt.alloc(), PAIR)?;
    let second = last_of(&room, &mut passes)?;
    let first = last_of(&room, &mut passes)?;
    let mut second = RoomSteps::new(&room, second);
    let mut first = RoomSteps::new(&room, first);
    let collection = keep_each_other_out(&rt, &mut first, &mut second)?;
    let (first, second) = (first.into_pass(), second.into_pass());
    let (room, first) = stays_open(&rt, room, first, 1);
    let mut second = RoomSteps::new(&room, second);
    collection.reopen(&mut second);
    gate_is(&rt, &mut second, 0);
    let _second = second.into_pass();
    leaves(&rt, room, first, NOTHING);
    Ok(())
}
