//! Tests of two threads that share a room: each has a room of its own, which is made and closed here alone.
ghost use Rattle.std.specs.Prelude.{◌≡◌, IfOk};
ghost use Rattle.jr_model.specs.declared.event.Role.TheVariants.{Outside};

use crate::rooms::{last_of, leaves, steps_of_last};
use jr_model::Summary;
use jr_rule::{Room, RoomSteps};
use jr_steps::Steps;
use jr_word::Config;
use std::alloc::Global;
use std::process::Abort;
use std::test::Fail;

/// A test over the steps of two threads that are outside.
pub(crate) trait PairTest {
    /// Runs it.
    fn run<S: Steps, R: Abort>(rt: &R, first: &mut S, second: &mut S) -> Result<(), Fail>
        requires first { (S.facts first.old).stands.role ≡ Outside }
        requires second { (S.facts second.old).stands.role ≡ Outside }
        ensures { IfOk result (λ _. (S.facts second.new).stands ≡ (S.facts second.old).stands) };
}

/// Runs a test in a room of these sizes, which has two threads, and checks what is left in it.
pub(crate) fn in_a_room<T: PairTest, R: Abort>(
    rt: &R,
    alloc: Global,
    config: Config,
    left: Summary,
) -> Result<(), Fail> {
    let (room, mut passes) = Room::<2>::open(alloc, config)?;
    let second = last_of(&room, &mut passes)?;
    let mut second = RoomSteps::new(&room, second);
    let mut first = steps_of_last(&room, &mut passes)?;
    T::run(rt, &mut first, &mut second)?;
    let _first = first.into_pass();
    let second = second.into_pass();
    leaves(rt, room, second, left);
    Ok(())
}
