//! Collections while a thread announces one: what it keeps out, and that a pass which is dropped then keeps it out for good.
ghost use Rattle.std.specs.Prelude.{◌≡◌, ◌≤◌, IfOk, IfSome};
ghost use Rattle.jr_model.specs.declared.event.Role.TheVariants.{Outside};
ghost use Rattle.jr_env.specs.Collections.{FitsRoom};
ghost use Rattle.jr_env.specs.Envs.{IsOutside};

use crate::shared::{RoomTest, in_a_room, in_a_room_for_good};
use assertions::assert_same;
use jr_env::{Env, NativeInterface};
use jr_fixtures::{made, refusal};
use jr_gate::{announce, enter};
use jr_steps::Steps;
use jr_weak::{Collected, Marker};
use jr_word::{Fault, Handle};
use std::alloc::Global;
use std::process::Abort;
use std::test::Fail;

/// What a collection does with what `fill` makes.
const OF_FILLED: Collected = Collected {
    cleared: 1,
    dropped: 1,
    used: 2,
};

/// What a thread has made for a collection.
#[derive(Clone, Copy, Drop)]
struct Filled {
    /// A global reference to an array of two elements, which stand behind three words of an array that no reference but a weak one names.
    kept: Handle,
    /// A weak reference to the other.
    gone_weak: Handle,
}

/// Makes two arrays, of which no reference but a weak one names the first.
fn fill<S: Steps>(env: &mut Env<S>) -> Result<Filled, Fail>
    ensures { IfOk result (λ _. IsOutside env.new) }
{
    let gone = env.new_array::<i32>(3)?;
    let gone_weak = made(env.new_weak_global_ref(gone))?;
    let array = env.new_array::<i32>(2)?;
    let kept = made(env.new_global_ref(array))?;
    env.delete_local_ref(array)?;
    env.delete_local_ref(gone)?;
    Ok(Filled { kept, gone_weak })
}

/// A collection: announced, with so many tries, or else not announced.
fn collection<S: Steps>(
    env: &mut Env<S>,
    marker: &mut Marker,
    tries: Option<u32>,
) -> Result<Collected, Fault>
    requires room { FitsRoom marker.old env.old }
    requires outside { IsOutside env.old }
    requires tries { IfSome tries (λ n. 1 ≤ n) }
    ensures room { FitsRoom marker.new env.new }
    ensures outside { IsOutside env.new }
{
    match tries {
        Some(tries) => env.collect_announced(marker, tries),
        None => env.collect(marker),
    }
}

/// Checks what a collection answers.
fn collects<S: Steps>(
    rt: &impl Abort,
    env: &mut Env<S>,
    marker: &mut Marker,
    tries: Option<u32>,
    wanted: Result<Collected, Fault>,
)
    requires room { FitsRoom marker.old env.old }
    requires outside { IsOutside env.old }
    requires tries { IfSome tries (λ n. 1 ≤ n) }
    ensures room { FitsRoom marker.new env.new }
    ensures outside { IsOutside env.new }
{
    assert_same!(rt; collection(env, marker, tries), wanted; at tries);
}

/// A word names an array of so many elements.
fn has_length<S: Steps>(
    rt: &impl Abort,
    env: &mut Env<S>,
    word: Handle,
    wanted: u32,
) -> Result<(), Fail> {
    assert_same!(rt; env.get_array_length(word)?, wanted);
    Ok(())
}

/// Before a collection all stands, and five words are used.
fn is_as_filled<S: Steps>(rt: &impl Abort, env: &mut Env<S>, filled: Filled) -> Result<(), Fail> {
    assert!(rt; !env.is_same_object(filled.gone_weak, Handle::NULL)?);
    has_length(rt, env, filled.gone_weak, 3)?;
    assert_same!(rt; refusal(env.new_array::<i32>(6)), Some(Fault::SpaceFull(5)));
    Ok(())
}

/// No collection is made, announced or not: so many threads are inside, knocking, announcing or collecting.
fn is_kept_out<S: Steps>(rt: &impl Abort, env: &mut Env<S>, marker: &mut Marker, count: u32)
    requires room { FitsRoom marker.old env.old }
    requires outside { IsOutside env.old }
    ensures room { FitsRoom marker.new env.new }
    ensures outside { IsOutside env.new }
{
    collects(rt, env, marker, Some(1), Err(Fault::Busy(count)));
    collects(rt, env, marker, Some(1000), Err(Fault::Busy(count)));
    collects(rt, env, marker, None, Err(Fault::Busy(count)));
}

/// A call is barred. What it would answer else need not be dropped then, so that no proof of its drop is asked for.
fn is_barred<A>(rt: &impl Abort, answer: Result<A, Fault>) {
    match answer {
        Ok(_) => panic!(rt; "wanted {:?}, and a call goes in", Fault::Barred),
        Err(fault) => assert_same!(rt; fault, Fault::Barred),
    }
}

/// Each call on references that goes in is barred.
fn bars_references<S: Steps>(rt: &impl Abort, env: &mut Env<S>, word: Handle) {
    is_barred(rt, env.new_global_ref(word));
    is_barred(rt, env.new_weak_global_ref(word));
    is_barred(rt, env.new_local_ref(word));
    is_barred(rt, env.delete_global_ref(word));
    is_barred(rt, env.delete_weak_global_ref(word));
    is_barred(rt, env.delete_local_ref(word));
    is_barred(rt, env.is_same_object(word, word));
    is_barred(rt, env.get_object_ref_type(word));
    is_barred(rt, env.pop_local_frame(word));
    is_barred(rt, env.free_locals());
    is_barred(rt, env.identity_of(word));
    is_barred(rt, env.words_used());
}

/// Each call on objects that goes in is barred.
fn bars_objects<S: Steps>(rt: &impl Abort, alloc: Global, env: &mut Env<S>, word: Handle) {
    is_barred(rt, env.new_plain());
    is_barred(rt, env.new_array::<i32>(1));
    is_barred(rt, env.new_object_array(1, word));
    is_barred(rt, env.new_string(&[104]));
    is_barred(rt, env.kind_of(word));
    is_barred(rt, env.get_array_length(word));
    is_barred(rt, env.get_string_length(word));
    is_barred(rt, env.get_array_region(word, 0, &mut [0i32]));
    is_barred(rt, env.set_array_region(word, 0, &[0i32]));
    is_barred(rt, env.get_object_array_element(word, 0));
    is_barred(rt, env.set_object_array_element(word, 0, word));
    is_barred(rt, env.get_array_elements::<i32>(alloc, word));
    is_barred(rt, env.get_string_chars(alloc, word));
    is_barred(rt, env.get_array_critical(word));
    is_barred(rt, env.get_string_critical(word));
}

/// While a thread announces, first beside one that is inside, and then alone, no other collects, and no call goes in.
/// Once it has taken the announcement back, calls go in and find all as it was, and the other collects, with the marker that was refused.
struct BarsAllOthers;

impl RoomTest for BarsAllOthers {
    fn run<S: Steps + Drop, R: Abort>(
        rt: &R,
        alloc: Global,
        first: &mut S,
        mut second: S,
        env: &mut Env<S>,
        other: &mut Env<S>,
    ) -> Result<(), Fail> {
        let filled = fill(env)?;
        let mut marker = Marker::new(alloc, env.held.steps.config())?;
        let Ok(stay) = enter(first) else {
            return Err("nobody keeps the gate closed")?;
        };
        match announce(&mut second) {
            Ok(announced) => {
                is_kept_out(rt, env, &mut marker, 2);
                stay.leave(first);
                is_kept_out(rt, env, &mut marker, 1);
                bars_references(rt, other, filled.kept);
                bars_objects(rt, alloc, other, filled.kept);
                announced.cancel(&mut second);
            }
            Err(_) => panic!(rt; "nobody keeps the gate closed"),
        }
        is_as_filled(rt, other, filled)?;
        collects(rt, env, &mut marker, Some(1), Ok(OF_FILLED));
        Ok(())
    }
}

/// The steps of a thread are dropped while it announces.
fn drop_while_announcing<S: Steps + Drop>(steps: S) -> Result<(), Fail>
    requires { (S.facts steps).stands.role ≡ Outside }
{
    let mut steps = steps;
    let Ok(()) = steps.announce(0) else {
        return Err("nobody is inside")?;
    };
    drop(steps);
    Ok(())
}

/// No call goes in any more, and no collection is made.
fn is_barred_for_good<S: Steps>(
    rt: &impl Abort,
    alloc: Global,
    env: &mut Env<S>,
    word: Handle,
) -> Result<(), Fail>
    requires { IsOutside env.old }
{
    let mut marker = Marker::new(alloc, env.held.steps.config())?;
    is_kept_out(rt, env, &mut marker, 1);
    bars_references(rt, env, word);
    bars_objects(rt, alloc, env, word);
    Ok(())
}

/// A thread whose steps are dropped while it announces bars the others for good.
struct BarsForGood;

impl RoomTest for BarsForGood {
    fn run<S: Steps + Drop, R: Abort>(
        rt: &R,
        alloc: Global,
        _first: &mut S,
        second: S,
        env: &mut Env<S>,
        _other: &mut Env<S>,
    ) -> Result<(), Fail> {
        let filled = fill(env)?;
        drop_while_announcing(second)?;
        is_barred_for_good(rt, alloc, env, filled.kept)
    }
}

/// One thread announces at a time, and from then on no other goes in.
#[test]
fn an_announcement_bars_calls_and_collections(rt: HostRuntime) -> Result<(), Fail> {
    in_a_room::<BarsAllOthers, _>(&rt, rt.alloc())
}

/// Where a thread's pass is dropped while it announces, entries are barred for good, and the room is not closed any more: who announced is counted.
#[test]
fn a_pass_dropped_while_announcing_bars_all_calls(rt: HostRuntime) -> Result<(), Fail> {
    in_a_room_for_good::<BarsForGood, _>(&rt, rt.alloc())
}
