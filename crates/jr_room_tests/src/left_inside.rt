//! Steps that are dropped while their thread is inside: the gate counts it for good, so that nobody collects any more and the room is not closed.
ghost use Rattle.std.specs.Prelude.{◌≡◌};
ghost use Rattle.jr_model.specs.declared.event.Role.TheVariants.{Outside};

use crate::shared::{RoomTest, in_a_room_for_good};
use assertions::assert_same;
use jr_env::{Env, Patience};
use jr_fixtures::{has_type, refusal};
use jr_gate::shut_gate;
use jr_steps::Steps;
use jr_weak::Marker;
use jr_word::{Fault, Handle};
use std::alloc::Global;
use std::process::Abort;
use std::test::Fail;

/// A thread goes in, and its steps are dropped.
fn drop_inside<S: Steps + Drop>(rt: &impl Abort, mut steps: S)
    requires { (S.facts steps).stands.role ≡ Outside }
{
    assert!(rt; steps.go_in());
    drop(steps);
}

/// Another thread shuts no gate, and the collection of a third is refused. Its other calls go in.
fn is_kept_out<S: Steps>(
    rt: &impl Abort,
    alloc: Global,
    other: &mut S,
    env: &mut Env<S>,
) -> Result<(), Fail>
    requires { (S.facts other.old).stands.role ≡ Outside }
{
    match shut_gate(other) {
        Ok(shut) => shut.reopen(other),
        Err(fault) => assert_same!(rt; fault, Fault::Busy(1)),
    }
    let mut marker = Marker::new(alloc, env.held.steps.config())?;
    assert_same!(rt; refusal(env.collect(&mut marker)), Some(Fault::Busy(1)));
    let refused = env.collect_in_turn(&mut marker, 2, Patience::of(3));
    assert_same!(rt; refusal(refused), Some(Fault::Busy(1)));
    has_type(env, Handle::NULL, 0)
}

/// A thread whose steps are dropped while it is inside keeps the collections of others out for good.
struct KeepsOutForGood;

impl RoomTest for KeepsOutForGood {
    fn run<S: Steps + Drop, R: Abort>(
        rt: &R,
        alloc: Global,
        first: &mut S,
        second: S,
        env: &mut Env<S>,
        _other: &mut Env<S>,
    ) -> Result<(), Fail> {
        drop_inside(rt, second);
        is_kept_out(rt, alloc, first, env)
    }
}

#[test]
fn a_pass_dropped_inside_bars_all_collections(rt: HostRuntime) -> Result<(), Fail> {
    in_a_room_for_good::<KeepsOutForGood, _>(&rt, rt.alloc())
}
