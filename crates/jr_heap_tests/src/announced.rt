//! The gate while it is announced that it will be shut, over plain words and over a room that several passes share.
ghost use Rattle.std.specs.Prelude.{◌≡◌, IfOk};
ghost use Rattle.jr_model.specs.declared.event.Role.TheVariants.{Outside};
ghost use Rattle.jr_gate.specs.Stays.{IsOwnAnnouncement};

use crate::gate::{enters, gate_is, is_busy, is_kept_out};
use crate::plain::{FirstWord, WordsTest, alone, first_word_is};
use crate::rooms::{NOTHING, last_of, leaves, steps_of_last};
use assertions::assert_same;
use jr_gate::{Announced, announce, enter};
use jr_rule::{Room, RoomSteps};
use jr_steps::Steps;
use jr_word::{Config, Fault};
use std::process::Abort;
use std::test::Fail;

/// A room of three threads with one slot and one object.
const THREE: Config = Config {
    threads: 3,
    ..Config::LEAST
};

/// Announces that the gate will be shut, which nobody keeps it from.
fn announces<S: Steps>(rt: &impl Abort, steps: &mut S) -> Announced
    requires { (S.facts steps.old).stands.role ≡ Outside }
    ensures { IsOwnAnnouncement result (S.facts steps.new).stands }
{
    match announce(steps) {
        Ok(announced) => announced,
        Err(_) => panic!(rt; "another thread keeps the gate closed"),
    }
}

/// Why an announcement is refused, if it is. It is taken back at once.
fn announcement_refused<S: Steps>(steps: &mut S) -> Option<Fault>
    requires { (S.facts steps.old).stands.role ≡ Outside }
    ensures { (S.facts steps.new).stands ≡ (S.facts steps.old).stands }
{
    match announce(steps) {
        Ok(announced) => {
            announced.cancel(steps);
            None
        }
        Err(fault) => Some(fault),
    }
}

/// Checks that an announcement is refused, since one other thread keeps the gate closed.
fn finds_another<S: Steps>(rt: &impl Abort, steps: &mut S)
    requires { (S.facts steps.old).stands.role ≡ Outside }
    ensures { (S.facts steps.new).stands ≡ (S.facts steps.old).stands }
{
    assert_same!(rt; announcement_refused(steps), Some(Fault::Busy(1)));
}

/// The gate is not shut, as announced, since so many threads are inside or knocking. The announcement is handed back.
fn waits<S: Steps>(rt: &impl Abort, steps: &mut S, announced: Announced, count: u32) -> Announced
    requires { IsOwnAnnouncement announced (S.facts steps.old).stands }
    ensures { IsOwnAnnouncement result (S.facts steps.new).stands }
{
    match announced.shut(steps) {
        Ok(_) => panic!(rt; "a thread is inside or knocking"),
        Err((announced, fault)) => {
            assert_same!(rt; fault, Fault::Busy(count));
            announced
        }
    }
}

/// Thread 0 is inside, so that thread 2 can't collect. Thread 1 announces. From then on thread 2 is not let in, and finds both where it would shut the gate; thread 1 finds thread 0 alone, and waits.
/// Thread 0 leaves, and thread 2, which would announce too, finds thread 1.
fn announces_beside_a_stay<S: Steps>(
    rt: &impl Abort,
    first: &mut S,
    second: &mut S,
    third: &mut S,
) -> Result<Announced, Fail>
    requires first { (S.facts first.old).stands.role ≡ Outside }
    requires second { (S.facts second.old).stands.role ≡ Outside }
    requires third { (S.facts third.old).stands.role ≡ Outside }
    ensures first { (S.facts first.new).stands ≡ (S.facts first.old).stands }
    ensures second { IfOk result (λ a. IsOwnAnnouncement a (S.facts second.new).stands) }
    ensures third { (S.facts third.new).stands ≡ (S.facts third.old).stands }
{
    let Ok(stay) = enter(first) else {
        return Err("nobody keeps the gate closed")?;
    };
    gate_is(rt, third, 1);
    is_busy(rt, third, 1);
    gate_is(rt, third, 1);
    let announced = announces(rt, second);
    gate_is(rt, third, 131_073);
    is_kept_out(rt, third, 131_074, 131_073);
    is_busy(rt, third, 2);
    let announced = waits(rt, second, announced, 1);
    gate_is(rt, third, 131_073);
    stay.leave(first);
    gate_is(rt, third, 131_072);
    finds_another(rt, third);
    gate_is(rt, third, 131_072);
    Ok(announced)
}

/// Once nobody is inside, thread 1 shuts the gate, as it announced. Thread 0 knocks in vain, and can neither collect nor announce, until it is open again; then it is let in.
fn shuts_as_announced<S: Steps>(
    rt: &impl Abort,
    first: &mut S,
    second: &mut S,
    announced: Announced,
)
    requires first { (S.facts first.old).stands.role ≡ Outside }
    requires second { IsOwnAnnouncement announced (S.facts second.old).stands }
    ensures first { (S.facts first.new).stands ≡ (S.facts first.old).stands }
    ensures second { (S.facts second.new).stands.role ≡ Outside }
{
    match announced.shut(second) {
        Ok(collection) => {
            gate_is(rt, first, 65_536);
            is_kept_out(rt, first, 65_537, 65_536);
            is_busy(rt, first, 1);
            finds_another(rt, first);
            gate_is(rt, first, 65_536);
            collection.reopen(second);
        }
        Err(_) => panic!(rt; "nobody is inside"),
    }
    gate_is(rt, first, 0);
}

/// Thread 1 announces once more, and takes it back: thread 0 is let in.
fn takes_it_back<S: Steps>(rt: &impl Abort, first: &mut S, second: &mut S)
    requires first { (S.facts first.old).stands.role ≡ Outside }
    requires second { (S.facts second.old).stands.role ≡ Outside }
{
    let announced = announces(rt, second);
    gate_is(rt, first, 131_072);
    announced.cancel(second);
    gate_is(rt, first, 0);
    match enter(first) {
        Ok(stay) => {
            gate_is(rt, second, 1);
            stay.leave(first);
        }
        Err(_) => panic!(rt; "nobody keeps the gate closed"),
    }
    gate_is(rt, first, 0);
}

/// Three threads at one gate, with the word of the gate after each of their calls.
fn is_closed_before_it_is_empty<S: Steps>(
    rt: &impl Abort,
    first: &mut S,
    second: &mut S,
    third: &mut S,
) -> Result<(), Fail>
    requires first { (S.facts first.old).stands.role ≡ Outside }
    requires second { (S.facts second.old).stands.role ≡ Outside }
    requires third { (S.facts third.old).stands.role ≡ Outside }
    ensures { (S.facts third.new).stands ≡ (S.facts third.old).stands }
{
    let announced = announces_beside_a_stay(rt, first, second, third)?;
    shuts_as_announced(rt, first, second, announced);
    takes_it_back(rt, first, second);
    Ok(())
}

#[test]
fn a_gate_is_closed_to_entries_before_it_is_empty(rt: HostRuntime) -> Result<(), Fail> {
    let (room, mut passes) = Room::<2>::open(rt.alloc(), THREE)?;
    let third = last_of(&room, &mut passes)?;
    let mut third = RoomSteps::new(&room, third);
    let mut second = steps_of_last(&room, &mut passes)?;
    let mut first = steps_of_last(&room, &mut passes)?;
    is_closed_before_it_is_empty(&rt, &mut first, &mut second, &mut third)?;
    let (_first, _second) = (first.into_pass(), second.into_pass());
    let third = third.into_pass();
    leaves(&rt, room, third, NOTHING);
    Ok(())
}

/// An announcement is a bit of the word, until the gate is shut.
struct ClosedUntilShut;

impl WordsTest for ClosedUntilShut {
    fn run<S: Steps + FirstWord, R: Abort>(rt: &R, steps: &mut S) -> Result<(), Fail> {
        let announced = announces(rt, steps);
        first_word_is(rt, steps, 0x2_0000);
        match announced.shut(steps) {
            Ok(collection) => {
                first_word_is(rt, steps, 0x1_0000);
                collection.reopen(steps);
            }
            Err(_) => panic!(rt; "nobody else is there"),
        }
        first_word_is(rt, steps, 0);
        Ok(())
    }
}

#[test]
fn an_announcement_keeps_the_gate_closed_until_it_is_shut(rt: HostRuntime) -> Result<(), Fail> {
    alone::<ClosedUntilShut, _>(&rt, rt.alloc(), Config::LEAST)
}

/// An announcement is a bit of the word, until it is taken back.
struct TakenBack;

impl WordsTest for TakenBack {
    fn run<S: Steps + FirstWord, R: Abort>(rt: &R, steps: &mut S) -> Result<(), Fail> {
        let announced = announces(rt, steps);
        first_word_is(rt, steps, 0x2_0000);
        announced.cancel(steps);
        first_word_is(rt, steps, 0);
        enters(rt, steps, None);
        Ok(())
    }
}

#[test]
fn an_announcement_is_taken_back(rt: HostRuntime) -> Result<(), Fail> {
    alone::<TakenBack, _>(&rt, rt.alloc(), Config::LEAST)
}
