//! A thread that others overtake as it announces a collection: between its look at the gate and its announcement, and between two of its tries to shut the gate.
ghost use Rattle.std.specs.Prelude.{◌≤◌, IfOk};
ghost use Rattle.jr_env.specs.Collections.{FitsRoom};
ghost use Rattle.jr_env.specs.Envs.{IsOutside};

use crate::courses::{By, Shown, overtakes};
use crate::envs::refuses;
use crate::overtaken::{Before, Overtaken};
use crate::plans::{Neighbour, PLANS, Plan};
use assertions::assert_same;
use jr_env::{Env, NativeInterface};
use jr_model::Summary;
use jr_rule::{Parts, StepsOver};
use jr_steps::Steps;
use jr_weak::{Collected, Marker};
use jr_word::{Config, Fault, Handle};
use std::alloc::Global;
use std::process::Abort;
use std::test::Fail;

/// A room of four threads, with room for one array.
const FOUR: Config = Config {
    threads: 4,
    slots: 1,
    objects: 1,
    words: 3,
    locals: 16,
};

/// What a collection does with what `fill` makes.
const ALL: Collected = Collected {
    cleared: 1,
    dropped: 1,
    used: 0,
};

/// Makes an array of all words, which no reference names but a weak one.
fn fill<S: Steps>(env: &mut Env<S>) -> Result<Handle, Fail>
    ensures { IfOk result (λ _. IsOutside env.new) }
{
    let array = env.new_array::<i32>(3)?;
    let weak = env.new_weak_global_ref(array)?.ok_or("an object")?;
    env.delete_local_ref(array)?;
    Ok(weak)
}

/// Before a collection the array stands, and no word is free.
fn is_as_filled<S: Steps>(rt: &impl Abort, env: &mut Env<S>, weak: Handle)
    ensures { IsOutside env.new }
{
    assert_same!(rt; env.get_array_length(weak), Ok(3));
    refuses(rt, env.new_array::<i32>(1), Fault::SpaceFull(3));
}

/// Checks what an announced collection answers.
fn collects<S: Steps>(
    rt: &impl Abort,
    env: &mut Env<S>,
    marker: &mut Marker,
    tries: u32,
    wanted: Result<Collected, Fault>,
)
    requires room { FitsRoom marker.old env.old }
    requires outside { IsOutside env.old }
    requires tries { 1 ≤ tries }
    ensures room { FitsRoom marker.new env.new }
    ensures outside { IsOutside env.new }
{
    assert_same!(rt; env.collect_announced(marker, tries), wanted);
}

/// Another thread came in, and then went out, between a look at the gate and an announcement:
/// each time it is refused with what was looked at and what was found then, in however many tries, and nothing has changed. Once nobody comes in between the collection is made.
pub(crate) fn is_moved<S: Steps>(
    rt: &impl Abort,
    alloc: Global,
    env: &mut Env<S>,
) -> Result<(), Fail> {
    let weak = fill(env)?;
    let mut marker = Marker::new(alloc, env.held.steps.config())?;
    collects(rt, env, &mut marker, 1, Err(Fault::Moved(0, 1)));
    is_as_filled(rt, env, weak);
    let mut marker = Marker::new(alloc, env.held.steps.config())?;
    collects(rt, env, &mut marker, 1000, Err(Fault::Moved(1, 0)));
    collects(rt, env, &mut marker, 1, Ok(ALL));
    assert_same!(rt; env.is_same_object(weak, Handle::NULL), Ok(true));
    Ok(())
}

/// What stands where a weak reference to a dropped array is left.
const WEAK: Summary = Summary {
    globals: 0,
    weaks: 1,
    live: 0,
    used: 0,
};

/// Another thread announces first, between this one's look at the gate and its announcement: the exchange finds it, and the next look does. No call goes in.
fn finds_it_closed<S: Steps>(
    rt: &impl Abort,
    alloc: Global,
    env: &mut Env<S>,
) -> Result<Handle, Fail> {
    let weak = fill(env)?;
    let mut marker = Marker::new(alloc, env.held.steps.config())?;
    collects(rt, env, &mut marker, 1000, Err(Fault::Busy(1)));
    collects(rt, env, &mut marker, 1000, Err(Fault::Busy(1)));
    refuses(rt, env.get_array_length(weak), Fault::Barred);
    Ok(weak)
}

/// Nothing has changed once the other took its announcement back, and the collection is made.
fn finds_it_open<S: Steps>(
    rt: &impl Abort,
    alloc: Global,
    env: &mut Env<S>,
    weak: Handle,
) -> Result<(), Fail> {
    is_as_filled(rt, env, weak);
    let mut marker = Marker::new(alloc, env.held.steps.config())?;
    collects(rt, env, &mut marker, 1, Ok(ALL));
    Ok(())
}

/// Another thread closes the gate between the look at it and the announcement, and opens it later.
pub(crate) fn is_closed_between<C: Parts<P>, P: Copy, U: Steps>(
    rt: &impl Abort,
    alloc: Global,
    env: &mut Env<StepsOver<Overtaken<C, U>, P>>,
) -> Result<(), Fail> {
    let weak = finds_it_closed(rt, alloc, env)?;
    let held = &mut env.held;
    held.steps.cells.others.give_way();
    finds_it_open(rt, alloc, env, weak)
}

/// Another thread has these plans before announcements. The array is collected at last, and the weak reference is left.
fn precedes(
    rt: &impl Abort,
    alloc: Global,
    plans: [Plan; PLANS],
    shown: Shown,
) -> Result<(), Fail> {
    let first = Neighbour {
        is_inside: false,
        plans,
    };
    let by = By::Both(Before::Announcement, first, ABSENT);
    overtakes(rt, alloc, FOUR, by, shown, Some(WEAK))
}

/// Another thread moves the count of the gate between the look at it and the announcement.
#[test]
fn another_thread_comes_in_before_the_announcement(rt: HostRuntime) -> Result<(), Fail> {
    let plans = [Plan::ComeOrGo, Plan::ComeOrGo, Plan::Rest, Plan::Rest];
    precedes(&rt, rt.alloc(), plans, Shown::IsMoved)
}

/// Another thread closes the gate between the look at it and the announcement.
#[test]
fn another_thread_announces_first(rt: HostRuntime) -> Result<(), Fail> {
    let plans = [Plan::Announce, Plan::Rest, Plan::Rest, Plan::Rest];
    precedes(&rt, rt.alloc(), plans, Shown::IsClosedBetween)
}

/// Checks what an announced collection of so many tries answers. Where it is refused nothing has changed.
pub(crate) fn answers<S: Steps>(
    rt: &impl Abort,
    alloc: Global,
    env: &mut Env<S>,
    tries: u32,
    wanted: Result<Collected, Fault>,
) -> Result<(), Fail> {
    if tries == 0 {
        return Err("a collection has one try at least")?;
    }
    let weak = fill(env)?;
    let mut marker = Marker::new(alloc, env.held.steps.config())?;
    collects(rt, env, &mut marker, tries, wanted);
    if wanted.is_err() {
        is_as_filled(rt, env, weak);
    }
    Ok(())
}

/// Is not there.
const ABSENT: Neighbour = Neighbour {
    is_inside: false,
    plans: [Plan::Rest; PLANS],
};

/// Is inside, and stays.
const STAYS: Neighbour = Neighbour {
    is_inside: true,
    plans: [Plan::Rest; PLANS],
};

/// Is inside, and leaves before the second try.
const LEAVES_SECOND: Neighbour = Neighbour {
    is_inside: true,
    plans: [Plan::Rest, Plan::ComeOrGo, Plan::Rest, Plan::Rest],
};

/// Is inside, and leaves before the third try.
const LEAVES_THIRD: Neighbour = Neighbour {
    is_inside: true,
    plans: [Plan::Rest, Plan::Rest, Plan::ComeOrGo, Plan::Rest],
};

/// Knocks before the first try, and withdraws before the second.
const KNOCKS_FIRST: Neighbour = Neighbour {
    is_inside: false,
    plans: [Plan::ComeOrGo, Plan::ComeOrGo, Plan::Rest, Plan::Rest],
};

/// Knocks before the second try, and withdraws before the third.
const KNOCKS_SECOND: Neighbour = Neighbour {
    is_inside: false,
    plans: [Plan::Rest, Plan::ComeOrGo, Plan::ComeOrGo, Plan::Rest],
};

/// Checks what an announced collection of so many tries answers beside two threads.
fn answers_beside(
    rt: &impl Abort,
    alloc: Global,
    first: Neighbour,
    second: Neighbour,
    tries: u32,
    wanted: Result<Collected, Fault>,
) -> Result<(), Fail> {
    let shown = Shown::Answers(tries, wanted);
    let by = By::Both(Before::Shut, first, second);
    overtakes(rt, alloc, FOUR, by, shown, None)
}

/// It waits for who is inside in just as many tries as it is given.
#[test]
fn a_thread_leaves_before_the_third_try(rt: HostRuntime) -> Result<(), Fail> {
    let alloc = rt.alloc();
    let busy = Err(Fault::Busy(1));
    answers_beside(&rt, alloc, LEAVES_THIRD, ABSENT, 1, busy)?;
    answers_beside(&rt, alloc, LEAVES_THIRD, ABSENT, 2, busy)?;
    answers_beside(&rt, alloc, LEAVES_THIRD, ABSENT, 3, Ok(ALL))?;
    answers_beside(&rt, alloc, LEAVES_THIRD, ABSENT, 4, Ok(ALL))
}

/// It tells how many it found at its last try, be they fewer than at the first or more.
#[test]
fn the_last_try_tells_the_count(rt: HostRuntime) -> Result<(), Fail> {
    let alloc = rt.alloc();
    let (one, two) = (Err(Fault::Busy(1)), Err(Fault::Busy(2)));
    answers_beside(&rt, alloc, LEAVES_SECOND, STAYS, 1, two)?;
    answers_beside(&rt, alloc, LEAVES_SECOND, STAYS, 2, one)?;
    answers_beside(&rt, alloc, LEAVES_SECOND, STAYS, 3, one)?;
    answers_beside(&rt, alloc, STAYS, KNOCKS_SECOND, 1, one)?;
    answers_beside(&rt, alloc, STAYS, KNOCKS_SECOND, 2, two)?;
    answers_beside(&rt, alloc, STAYS, KNOCKS_SECOND, 3, one)
}

/// A thread that knocks is waited for until it withdraws.
#[test]
fn a_thread_knocks_between_the_tries(rt: HostRuntime) -> Result<(), Fail> {
    let alloc = rt.alloc();
    answers_beside(&rt, alloc, KNOCKS_FIRST, ABSENT, 1, Err(Fault::Busy(1)))?;
    answers_beside(&rt, alloc, KNOCKS_FIRST, ABSENT, 2, Ok(ALL))?;
    answers_beside(
        &rt,
        alloc,
        KNOCKS_FIRST,
        KNOCKS_SECOND,
        2,
        Err(Fault::Busy(1)),
    )?;
    answers_beside(&rt, alloc, KNOCKS_FIRST, KNOCKS_SECOND, 3, Ok(ALL))
}
