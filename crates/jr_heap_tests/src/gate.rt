//! The gate while nothing is announced, and what threads find there.
ghost use Rattle.std.specs.Prelude.{◌≡◌, IfOk};
ghost use Rattle.jr_model.specs.declared.event.Role.TheVariants.{Outside};
ghost use Rattle.jr_steps.specs.Knowing.{CanReopen, MayKnow};
ghost use Rattle.jr_gate.specs.Stays.{IsOwnCollection};

use crate::plain::{FirstWord, WordsTest, alone, first_word_is};
use crate::rooms::NOTHING;
use crate::shared::{PairTest, in_a_room};
use assertions::assert_same;
use jr_gate::{Shut, enter, shut_gate};
use jr_steps::{GateLoad, Role, Steps};
use jr_word::{Config, Fault, GateWord};
use std::process::Abort;
use std::test::Fail;

/// A room of two threads with one slot and one object.
const TWO: Config = Config {
    threads: 2,
    ..Config::LEAST
};

/// Checks the word of the gate.
pub(crate) fn gate_is<S: Steps>(rt: &impl Abort, steps: &mut S, wanted: u64)
    ensures { (S.facts steps.new).stands ≡ (S.facts steps.old).stands }
{
    assert_same!(rt; GateWord::pack(steps.see_gate(GateLoad::Meet)).0, wanted);
}

/// Why an entry is refused, if it is. It is ended at once.
fn entry_refused<S: Steps>(steps: &mut S) -> Option<Fault>
    requires { (S.facts steps.old).stands.role ≡ Outside }
    ensures { (S.facts steps.new).stands ≡ (S.facts steps.old).stands }
{
    match enter(steps) {
        Ok(stay) => {
            stay.leave(steps);
            None
        }
        Err(fault) => Some(fault),
    }
}

/// Why a collection is refused, if it is. It is ended at once.
fn shut_refused<S: Steps>(steps: &mut S) -> Option<Fault>
    requires { (S.facts steps.old).stands.role ≡ Outside }
    ensures { (S.facts steps.new).stands ≡ (S.facts steps.old).stands }
{
    match shut_gate(steps) {
        Ok(collection) => {
            collection.reopen(steps);
            None
        }
        Err(fault) => Some(fault),
    }
}

/// Checks why an entry is refused, or that it is not.
pub(crate) fn enters<S: Steps>(rt: &impl Abort, steps: &mut S, refused: Option<Fault>)
    requires { (S.facts steps.old).stands.role ≡ Outside }
    ensures { (S.facts steps.new).stands ≡ (S.facts steps.old).stands }
{
    assert_same!(rt; entry_refused(steps), refused);
}

/// Checks that a collection is refused, since so many threads are not outside.
pub(crate) fn is_busy<S: Steps>(rt: &impl Abort, steps: &mut S, count: u32)
    requires { (S.facts steps.old).stands.role ≡ Outside }
    ensures { (S.facts steps.new).stands ≡ (S.facts steps.old).stands }
{
    assert_same!(rt; shut_refused(steps), Some(Fault::Busy(count)));
}

/// A thread knocks in vain: what the word of the gate is between knock and withdrawal, and what it is afterwards.
pub(crate) fn knocks<S: Steps>(rt: &impl Abort, steps: &mut S, between: u64, after: u64)
    requires { (S.facts steps.old).stands.role ≡ Outside }
    ensures { (S.facts steps.new).stands ≡ (S.facts steps.old).stands }
{
    assert!(rt; !steps.go_in());
    gate_is(rt, steps, between);
    steps.go_out();
    gate_is(rt, steps, after);
}

/// A thread knocks in vain, by the step and by `enter`: what the word of the gate is between knock and withdrawal, and what it is afterwards.
pub(crate) fn is_kept_out<S: Steps>(rt: &impl Abort, steps: &mut S, between: u64, after: u64)
    requires { (S.facts steps.old).stands.role ≡ Outside }
    ensures { (S.facts steps.new).stands ≡ (S.facts steps.old).stands }
{
    knocks(rt, steps, between, after);
    enters(rt, steps, Some(Fault::Barred));
    gate_is(rt, steps, after);
}

/// Shuts the gate, which nobody keeps this thread from.
fn shuts<S: Steps>(steps: &mut S) -> Result<Shut, Fail>
    requires { (S.facts steps.old).stands.role ≡ Outside }
    ensures own { IfOk result (λ s. IsOwnCollection s (S.facts steps.new).stands) }
    ensures room { IfOk result (λ _. (S.facts steps.new).stands.room ≡ (S.facts steps.old).stands.room) }
    ensures config { IfOk result (λ _. (S.facts steps.new).stands.config ≡ (S.facts steps.old).stands.config) }
    ensures last { IfOk result (λ _. (S.facts steps.new).stands.last ≡ (S.facts steps.old).stands.last) }
    ensures closed { IfOk result (λ _. MayKnow S.facts steps.new CanReopen) }
{
    let Ok(collection) = shut_gate(steps) else {
        return Err("nobody is inside")?;
    };
    Ok(collection)
}

/// Thread 0 is inside, so that thread 1 can't collect. It leaves, and thread 1 shuts the gate: then thread 0 knocks in vain, and can't collect.
pub(crate) fn keep_each_other_out<S: Steps>(
    rt: &impl Abort,
    first: &mut S,
    second: &mut S,
) -> Result<Shut, Fail>
    requires first { (S.facts first.old).stands.role ≡ Outside }
    requires second { (S.facts second.old).stands.role ≡ Outside }
    ensures first { IfOk result (λ _. (S.facts first.new).stands ≡ (S.facts first.old).stands) }
    ensures own { IfOk result (λ s. IsOwnCollection s (S.facts second.new).stands) }
    ensures room { IfOk result (λ _. (S.facts second.new).stands.room ≡ (S.facts second.old).stands.room) }
    ensures config { IfOk result (λ _. (S.facts second.new).stands.config ≡ (S.facts second.old).stands.config) }
    ensures last { IfOk result (λ _. (S.facts second.new).stands.last ≡ (S.facts second.old).stands.last) }
    ensures closed { IfOk result (λ _. MayKnow S.facts second.new CanReopen) }
{
    let Ok(stay) = enter(first) else {
        return Err("nobody collects")?;
    };
    gate_is(rt, second, 1);
    is_busy(rt, second, 1);
    stay.leave(first);
    gate_is(rt, second, 0);
    let collection = shuts(second)?;
    gate_is(rt, first, 65_536);
    is_kept_out(rt, first, 65_537, 65_536);
    is_busy(rt, first, 1);
    Ok(collection)
}

/// Thread 0 knocks while thread 1 collects, and is counted until it withdraws: the collection ends, and the next one finds it.
struct CountedUntilItWithdraws;

impl PairTest for CountedUntilItWithdraws {
    fn run<S: Steps, R: Abort>(rt: &R, first: &mut S, second: &mut S) -> Result<(), Fail> {
        let Ok(collection) = shut_gate(second) else {
            return Err("nobody is inside")?;
        };
        gate_is(rt, first, 65_536);
        assert!(rt; !first.go_in());
        assert_same!(rt; first.role(), Role::Knocking);
        gate_is(rt, first, 65_537);
        collection.reopen(second);
        gate_is(rt, first, 1);
        is_busy(rt, second, 1);
        first.go_out();
        gate_is(rt, first, 0);
        assert_same!(rt; shut_refused(second), None);
        Ok(())
    }
}

#[test]
fn a_knock_is_counted_until_it_is_withdrawn(rt: HostRuntime) -> Result<(), Fail> {
    in_a_room::<CountedUntilItWithdraws, _>(&rt, rt.alloc(), TWO, NOTHING)
}

/// A stay is one in the word, until it ends.
struct StayIsCounted;

impl WordsTest for StayIsCounted {
    fn run<S: Steps + FirstWord, R: Abort>(rt: &R, steps: &mut S) -> Result<(), Fail> {
        let Ok(stay) = enter(steps) else {
            return Err("nobody collects")?;
        };
        first_word_is(rt, steps, 1);
        stay.leave(steps);
        first_word_is(rt, steps, 0);
        Ok(())
    }
}

#[test]
fn a_stay_is_counted_until_it_ends(rt: HostRuntime) -> Result<(), Fail> {
    alone::<StayIsCounted, _>(&rt, rt.alloc(), Config::LEAST)
}

/// A collection is a bit of the word, until it ends.
struct GateIsShut;

impl WordsTest for GateIsShut {
    fn run<S: Steps + FirstWord, R: Abort>(rt: &R, steps: &mut S) -> Result<(), Fail> {
        let Ok(collection) = shut_gate(steps) else {
            return Err("nobody is inside")?;
        };
        first_word_is(rt, steps, 0x1_0000);
        collection.reopen(steps);
        first_word_is(rt, steps, 0);
        Ok(())
    }
}

#[test]
fn a_collection_keeps_the_gate_shut_until_it_ends(rt: HostRuntime) -> Result<(), Fail> {
    alone::<GateIsShut, _>(&rt, rt.alloc(), Config::LEAST)
}
