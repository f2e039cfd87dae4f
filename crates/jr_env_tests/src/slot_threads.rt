//! Threads that fight for the last serials of two slots.

use assertions::assert_same;
use jr_env::{Env, NativeInterface};
use jr_fixtures::{NoPass, has_type, next_env};
use jr_rule::Room;
use jr_steps::{Role, SlotLoad, Steps};
use jr_word::{Config, Fault, Handle, SlotParts, SlotWord};
use std::alloc::Global;
use std::process::Abort;
use std::sync::Wait;
use std::test::Fail;
use std::thread;
use std::thread::{JoinHandle, Scope, Threads};

/// A room of three threads with two slots.
const SIZES: Config = Config {
    threads: 3,
    slots: 2,
    objects: 3,
    words: 0,
    locals: 16,
};

/// The handles that two slots give, where the last serial is 2.
const ALL: [Handle; 6] = [
    Handle(2),
    Handle(6),
    Handle(10),
    Handle(0x4_0000_0002),
    Handle(0x4_0000_0006),
    Handle(0x4_0000_000A),
];

/// A slot that gave all of them.
const RETIRED: SlotParts = SlotParts::Retired { serial: 2 };

/// How often two threads fight.
const ROUNDS: u32 = 100;

/// The place of a handle among all.
fn place_of(handle: Handle) -> Option<usize> {
    for place in 0..ALL.len() {
        if ALL[place] == handle {
            return Some(place);
        }
    }
    None
}

/// Makes and deletes global references until no slot is free. How often it was given each of the six handles; nothing where a call answered otherwise.
fn until_none_is_free<S: Steps>(env: &mut Env<S>) -> Option<[u8; 6]> {
    let object = env.new_plain().ok()?;
    let mut given = [0u8; 6];
    for _ in 0..=ALL.len() {
        match env.new_global_ref(object) {
            Ok(Some(handle)) => {
                let count = given.get_mut(place_of(handle)?)?;
                *count = count.saturating_add(1);
                env.delete_global_ref(handle).ok()?;
            }
            Err(Fault::RowFull) => return Some(given),
            _ => return None,
        }
    }
    None
}

/// Does so in a thread of its own, where there is a pass for it and one can be started.
fn start<'s, E, S: Steps + Drop + Send + 's>(
    scope: &Scope<'s, E>,
    env: Result<Env<S>, NoPass>,
) -> Option<JoinHandle<Option<[u8; 6]>>> {
    let mut env = env.ok()?;
    scope.spawn(move || until_none_is_free(&mut env)).ok()
}

/// What two threads were given that ran side by side.
fn both_given<R: Threads + Wait, S: Steps + Drop + Send>(
    rt: &R,
    first: Result<Env<S>, NoPass>,
    second: Result<Env<S>, NoPass>,
) -> [Option<Option<[u8; 6]>>; 2] {
    thread::scope(thread::scope_env(), rt, |scope| {
        let first = start(scope, first);
        let second = start(scope, second);
        [first.map(|it| it.join(rt)), second.map(|it| it.join(rt))]
    })
}

/// Each of the six handles was given once, by whichever of three.
fn is_each_given_once(rt: &impl Abort, given: [[u8; 6]; 3]) {
    let [first, second, third] = given;
    for at in 0..6 {
        let times = first[at]
            .saturating_add(second[at])
            .saturating_add(third[at]);
        assert_same!(rt; times, 1);
    }
}

/// Both slots are retired.
fn are_retired<S: Steps>(rt: &impl Abort, steps: &mut S) -> Result<(), Fail> {
    let Role::Outside = steps.role() else {
        return Err("a call is under way")?;
    };
    if steps.config().slots != 2 {
        return Err("the room has other sizes")?;
    }
    assert!(rt; steps.go_in());
    assert_same!(rt; steps.see_slot(0, SlotLoad::Probe), RETIRED);
    assert_same!(rt; steps.see_slot(1, SlotLoad::Probe), RETIRED);
    steps.go_out();
    assert_same!(rt; SlotWord::pack(RETIRED).0, 9);
    Ok(())
}

/// Once both have found no slot free, a third makes what is left. Then six references were made in all, each handle is of none, and both slots are retired.
fn is_at_its_end<S: Steps + Drop>(
    rt: &impl Abort,
    env: Result<Env<S>, NoPass>,
    given: [Option<Option<[u8; 6]>>; 2],
) -> Result<(), Fail> {
    let mut env = env?;
    let [Some(Some(first)), Some(Some(second))] = given else {
        return Err("a thread was not started, or a call answered otherwise")?;
    };
    let Some(third) = until_none_is_free(&mut env) else {
        return Err("a call answered otherwise")?;
    };
    is_each_given_once(rt, [first, second, third]);
    for handle in ALL {
        has_type(&mut env, handle, 0)?;
    }
    let mut steps = env.into_pass();
    are_retired(rt, &mut steps)
}

/// Two threads make and delete references side by side until each has found no slot free.
fn fight<R: Threads + Wait + Abort>(rt: &R, alloc: Global) -> Result<(), Fail> {
    let (room, mut passes) = Room::<2>::open(alloc, SIZES)?;
    let first = next_env(&room, &mut passes);
    let second = next_env(&room, &mut passes);
    let third = next_env(&room, &mut passes);
    let given = both_given(rt, first, second);
    is_at_its_end(rt, third, given)
}

/// However two threads share the last serials of two slots, each is given once.
#[test]
fn two_threads_come_to_the_last_serials(rt: HostRuntime) -> Result<(), Fail> {
    for _ in 0..ROUNDS {
        fight(&rt, rt.alloc())?;
    }
    Ok(())
}
