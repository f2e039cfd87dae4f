//! Regions beside the collections of another thread of the room: what a shut gate bars, and what goes on while one is announced.
ghost use Rattle.std.specs.Prelude.{◌≡◌, IfOk};
ghost use Rattle.jr_model.specs.declared.event.Role.TheVariants.{Outside};
ghost use Rattle.jr_gate.specs.Stays.{IsOwnAnnouncement};

use crate::at_a_level::{give_up, has, nests_array, put};
use crate::envs::{ONES, TWO, env_of, has_elements};
use crate::not_opened::{opens_array, opens_string};
use assertions::assert_same;
use jr_env::{Env, NativeInterface};
use jr_fixtures::{LAST, NoPass, next_steps};
use jr_gate::{Announced, announce, shut_gate};
use jr_model::Mode;
use jr_rule::Room;
use jr_steps::{Role, Steps};
use jr_word::Fault;
use std::alloc::Global;
use std::process::Abort;
use std::test::Fail;

/// While another thread collects no region is opened, over an array or a string, and none over what is neither: the gate comes before all. Afterwards they are.
fn is_barred<S: Steps>(rt: &impl Abort, env: &mut Env<S>, other: &mut S) -> Result<(), Fail> {
    let array = env.new_array::<i32>(2)?;
    let string = env.new_string(&[104])?;
    let Role::Outside = other.role() else {
        panic!(rt; "the thread is inside")
    };
    let Ok(collection) = shut_gate(other) else {
        return Err("a thread is inside")?;
    };
    opens_array(rt, env, array, Some(Fault::Barred));
    opens_string(rt, env, string, Some(Fault::Barred));
    opens_array(rt, env, ONES, Some(Fault::Barred));
    assert_same!(rt; env.held.steps.role(), Role::Outside);
    collection.reopen(other);
    opens_array(rt, env, array, None);
    opens_string(rt, env, string, None);
    Ok(())
}

#[test]
fn a_collection_bars_regions(rt: HostRuntime) -> Result<(), Fail> {
    beside_another(&rt, rt.alloc(), Beside::Collecting)
}

/// The gate is not shut, as announced, since one other thread is inside. The announcement is handed back.
fn is_kept_waiting<S: Steps>(rt: &impl Abort, steps: &mut S, announced: Announced) -> Announced
    requires { IsOwnAnnouncement announced (S.facts steps.old).stands }
    ensures { IsOwnAnnouncement result (S.facts steps.new).stands }
{
    match announced.shut(steps) {
        Ok(_) => panic!(rt; "a region stands"),
        Err((announced, fault)) => {
            assert_same!(rt; fault, Fault::Busy(1));
            announced
        }
    }
}

/// A region that stands goes on once another thread has announced that it will shut the gate: a level is added, and elements are read and written at both.
/// The gate is not shut before the region has ended, and no other region is opened before it is open again.
fn goes_on_while_announced<S: Steps>(
    rt: &impl Abort,
    env: &mut Env<S>,
    other: &mut S,
) -> Result<(), Fail> {
    let array = env.new_array::<i32>(2)?;
    let nested = env.new_array::<i64>(1)?;
    let Role::Outside = other.role() else {
        panic!(rt; "the thread is inside")
    };
    let mut region = env.get_array_critical(array)?;
    let announced = match announce(other) {
        Ok(announced) => announced,
        Err(_) => panic!(rt; "nobody keeps the gate closed"),
    };
    let announced = is_kept_waiting(rt, other, announced);
    nests_array(rt, &mut region, nested, Ok(1));
    put(rt, &mut region, 0, 1, -20);
    put(rt, &mut region, 1, 0, i64::MIN);
    has(rt, &mut region, 0, 1, -20);
    has(rt, &mut region, 1, 0, i64::MIN);
    let announced = is_kept_waiting(rt, other, announced);
    let region = give_up(rt, region, Mode::Copy);
    let announced = is_kept_waiting(rt, other, announced);
    match region.release(Mode::Copy) {
        None => {}
        Some(_) => panic!(rt; "a level is left"),
    }
    opens_array(rt, env, array, Some(Fault::Barred));
    match announced.shut(other) {
        Ok(collection) => collection.reopen(other),
        Err(_) => panic!(rt; "nobody is inside"),
    }
    has_elements(rt, env, array, 0, &mut [7; 2], &[0, -20])?;
    has_elements(rt, env, nested, 0, &mut [7i64], &[i64::MIN])
}

/// What another thread does beside regions.
#[derive(Clone, Copy)]
enum Beside {
    /// It shuts the gate, and opens it.
    Collecting,
    /// It announces first that it will.
    Announcing,
}

/// Shows it over an env of these steps, of a thread whose pass was not used, where there is a pass for both threads.
fn shows<S: Steps + Drop>(
    rt: &impl Abort,
    steps: Result<S, NoPass>,
    other: Result<S, NoPass>,
    what: Beside,
) -> Result<(), Fail>
    requires { IfOk steps (λ s. (S.facts s).stands.role ≡ Outside) }
{
    let mut other = other?;
    let mut env = env_of(steps?)?;
    match what {
        Beside::Collecting => is_barred(rt, &mut env, &mut other),
        Beside::Announcing => goes_on_while_announced(rt, &mut env, &mut other),
    }
}

/// Shows what regions are beside another thread of the room.
fn beside_another(rt: &impl Abort, alloc: Global, what: Beside) -> Result<(), Fail> {
    let (room, mut passes) = Room::<LAST>::open(alloc, TWO)?;
    let other = next_steps(&room, &mut passes);
    let steps = next_steps(&room, &mut passes);
    shows(rt, steps, other, what)
}

#[test]
fn a_region_goes_on_while_a_collection_is_announced(rt: HostRuntime) -> Result<(), Fail> {
    beside_another(&rt, rt.alloc(), Beside::Announcing)
}
