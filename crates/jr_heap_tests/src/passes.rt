//! Rooms, plain words, and the passes of a room that one thread holds.
ghost use Rattle.std.specs.Prelude.{◌≡◌, All, IfOk};
ghost use Rattle.jr_rule.specs.Passes.{IsAt, IsOpened};

use crate::rooms::{NOTHING, last_of, leaves, stays_open};
use assertions::assert_same;
use jr_model::Role;
use jr_rule::{Pass, PlainSteps, Room, RoomSteps};
use jr_steps::Steps;
use jr_word::{Config, Fault};
use std::alloc::Global;
use std::process::Abort;
use std::test::Fail;

/// A room of three threads with two slots and two objects.
pub(crate) const SMALL: Config = Config {
    threads: 3,
    slots: 2,
    objects: 2,
    words: 0,
    locals: 16,
};

/// A room, and the passes of threads 0, 1 and 2.
pub(crate) fn opened(alloc: Global) -> Result<(Room<2>, Pass, Pass, Pass), Fail>
    ensures { IfOk result (λ r. IsOpened r.0.row r.1 × IsOpened r.0.row r.2 × IsOpened r.0.row r.3) }
{
    let (room, mut passes) = Room::<2>::open(alloc, SMALL)?;
    let third = last_of(&room, &mut passes)?;
    let second = last_of(&room, &mut passes)?;
    let first = last_of(&room, &mut passes)?;
    Ok((room, first, second, third))
}

#[test]
fn a_room_and_plain_words_have_at_most_64_threads(rt: HostRuntime) {
    let config = Config {
        threads: 65,
        ..SMALL
    };
    assert_same!(&rt; Room::<2>::open(rt.alloc(), config).err(), Some(Fault::Size));
    assert_same!(&rt; PlainSteps::<2>::new(rt.alloc(), config).err(), Some(Fault::Size));
}

/// What the holder of a pass does.
#[derive(Clone, Copy)]
pub(crate) enum Deed {
    /// It comes in.
    ComeIn,
    /// It goes out.
    GoOut,
    /// It announces that it will shut the gate, where so many are inside.
    Announce(u16),
    /// It takes its announcement back.
    TakeBack,
    /// It does nothing, and is this thread, which stands so towards the gate, and is fresh.
    Stand(usize, Role),
}

/// Whether it was done. What can't be done from where the thread stands is not done.
fn does<S: Steps>(steps: &mut S, deed: Deed) -> bool
    ensures room { (S.facts steps.new).stands.room ≡ (S.facts steps.old).stands.room }
    ensures config { (S.facts steps.new).stands.config ≡ (S.facts steps.old).stands.config }
    ensures last { (S.facts steps.new).stands.last ≡ (S.facts steps.old).stands.last }
{
    match (deed, steps.role()) {
        (Deed::ComeIn, Role::Outside) => steps.go_in(),
        (Deed::GoOut, Role::Within) => {
            steps.go_out();
            true
        }
        (Deed::Announce(looked), Role::Outside) => steps.announce(looked).is_ok(),
        (Deed::TakeBack, Role::Announcing) => {
            steps.cancel();
            true
        }
        (Deed::Stand(thread, stands), role) => {
            usize::from(steps.thread()) == thread && role == stands && steps.fresh()
        }
        _ => false,
    }
}

/// The pass, whose holder did it.
pub(crate) fn did(room: &Room<2>, pass: Pass, deed: Deed) -> Result<Pass, Fail>
    requires { IsAt room.now.row pass }
    ensures { IfOk result (λ p. IsAt room.now.row p) }
{
    let mut steps = RoomSteps::new(room, pass);
    if !does(&mut steps, deed) {
        return Err("the thread stands elsewhere, or was refused")?;
    }
    Ok(steps.into_pass())
}

/// The passes are those of the threads from 0 upward, each outside and fresh.
fn are_fresh(room: &Room<2>, mut passes: Vec<Pass>) -> Result<(), Fail>
    requires { All (λ p. IsOpened room.now.row p) passes.items }
{
    for thread in (0..passes.len()).rev() {
        let pass = last_of(room, &mut passes)?;
        did(room, pass, Deed::Stand(thread, Role::Outside))?;
    }
    Ok(())
}

#[test]
fn a_room_opens_with_one_pass_a_thread(rt: HostRuntime) -> Result<(), Fail> {
    for threads in [1, 2, 64] {
        let config = Config { threads, ..SMALL };
        let (room, passes) = Room::<2>::open(rt.alloc(), config)?;
        assert_same!(&rt; passes.len(), threads as usize);
        are_fresh(&room, passes)?;
    }
    Ok(())
}

#[test]
fn a_room_is_handed_back_while_a_thread_is_inside(rt: HostRuntime) -> Result<(), Fail> {
    let (room, first, second, _third) = opened(rt.alloc())?;
    let first = did(&room, first, Deed::ComeIn)?;
    let (room, second) = stays_open(&rt, room, second, 1);
    let second = did(&room, second, Deed::Stand(1, Role::Outside))?;
    let second = did(&room, second, Deed::ComeIn)?;
    let (room, first) = stays_open(&rt, room, first, 2);
    let first = did(&room, first, Deed::Stand(0, Role::Within))?;
    let first = did(&room, first, Deed::GoOut)?;
    let _second = did(&room, second, Deed::GoOut)?;
    leaves(&rt, room, first, NOTHING);
    Ok(())
}
