//! Stays that go on from call to call: each call once in one, what a refusal leaves, and what a stay keeps out and is kept out by.
ghost use Rattle.std.specs.Prelude.{◌≡◌, ◌∷◌, [], true};
ghost use Rattle.jr_model.specs.declared.event.Act.TheVariants.{Gate};
ghost use Rattle.jr_model.specs.declared.event.GateAct.TheVariants.{Leave};
ghost use Rattle.jr_model.specs.declared.event.Role.TheVariants.{Outside};
ghost use Rattle.jr_model.specs.History.{by};
ghost use Rattle.jr_model.specs.OpenStays.{IsOneStay};
ghost use Rattle.jr_rule.specs.Rooms.{IsNoteThere};
ghost use Rattle.jr_rule.specs.Rule.{stepping_pass};
ghost use Rattle.jr_steps.specs.Knowing.{view};

use crate::shared::{RoomTest, in_a_room};
use assertions::assert_same;
use jr_env::{Env, NativeInterface, Stay};
use jr_fixtures::{EnvTest, LAST, alone, collected, collects, has_type, made, next_pass, refusal};
use jr_gate::announce;
use jr_model::{Mode, open_stays_exclude_collections};
use jr_rule::{Note, Room, RoomSteps};
use jr_steps::Steps;
use jr_word::{Config, Fault, Handle, Kind};
use std::alloc::Global;
use std::process::Abort;
use std::test::Fail;

/// The sizes of a room of one thread.
const SIZES: Config = Config {
    threads: 1,
    slots: 8,
    objects: 8,
    words: 32,
    locals: 16,
};

/// The reference that a call made to an object.
fn one(rt: &impl Abort, answer: Result<Option<Handle>, Fault>) -> Handle {
    match answer {
        Ok(Some(handle)) => handle,
        other => panic!(rt; "wanted a reference, came {other:?}"),
    }
}

/// The reference to an object that a call made.
fn new(rt: &impl Abort, answer: Result<Handle, Fault>) -> Handle {
    one(rt, answer.map(Some))
}

/// A call is done.
fn done(rt: &impl Abort, answer: Result<(), Fault>) {
    assert_same!(rt; answer, Ok(()));
}

/// Checks the types of words in a stay, as `has_type` does in an env.
fn have_types<S: Steps>(rt: &impl Abort, stay: &mut Stay<'_, S>, rows: &[(Handle, u8)]) {
    for (word, wanted) in rows {
        assert_same!(rt; stay.get_object_ref_type(*word), Ok(*wanted); at *word);
    }
}

/// Two words name one object.
fn are_same<S: Steps>(rt: &impl Abort, stay: &mut Stay<'_, S>, first: Handle, second: Handle) {
    assert_same!(rt; stay.is_same_object(first, second), Ok(true));
}

/// Checks the length of an array.
fn has_length<S: Steps>(rt: &impl Abort, stay: &mut Stay<'_, S>, array: Handle, wanted: u32) {
    assert_same!(rt; stay.get_array_length(array), Ok(wanted));
}

/// Makes, compares and deletes references in a stay.
fn calls_on_references<S: Steps>(rt: &impl Abort, stay: &mut Stay<'_, S>, array: Handle) {
    let global = one(rt, stay.new_global_ref(array));
    let weak = one(rt, stay.new_weak_global_ref(global));
    let local = one(rt, stay.new_local_ref(weak));
    let strong = one(rt, stay.upgrade_global(weak));
    let near = one(rt, stay.upgrade_local(weak));
    have_types(rt, stay, &[(local, 1), (global, 2), (weak, 3)]);
    are_same(rt, stay, strong, near);
    done(rt, stay.delete_local_ref(local));
    done(rt, stay.delete_local_ref(near));
    done(rt, stay.delete_weak_global_ref(weak));
    done(rt, stay.delete_global_ref(strong));
    have_types(rt, stay, &[(strong, 0)]);
    are_same(rt, stay, array, global);
}

/// Checks that a string has so many units, and is of another kind than an array.
fn is_text<S: Steps>(
    rt: &impl Abort,
    stay: &mut Stay<'_, S>,
    text: Handle,
    length: u32,
    array: Handle,
) {
    assert_same!(rt; stay.get_string_length(text), Ok(length));
    assert_same!(rt; stay.kind_of(text), Ok(Kind::Text));
    assert_same!(rt; stay.kind_of(array), Ok(Kind::Objects));
}

/// Makes objects in a stay, and looks at them.
fn calls_on_objects<S: Steps>(rt: &impl Abort, stay: &mut Stay<'_, S>) {
    let plain = new(rt, stay.new_plain());
    let row = new(rt, stay.new_object_array(2, plain));
    let text = new(rt, stay.new_string(&[104, 105, 33]));
    has_length(rt, stay, row, 2);
    is_text(rt, stay, text, 3, row);
    done(rt, stay.set_object_array_element(row, 1, text));
    let second = one(rt, stay.get_object_array_element(row, 1));
    are_same(rt, stay, second, text);
    let identity = stay.identity_of(text);
    assert!(rt; identity.is_ok());
    assert!(rt; identity == stay.identity_of(second));
    assert!(rt; identity != stay.identity_of(row));
}

/// The words that are used and the local references, told in a stay in which more are made.
fn tells_numbers<S: Steps>(rt: &impl Abort, stay: &mut Stay<'_, S>) {
    let Ok(used) = stay.words_used() else {
        panic!(rt; "a stay tells what is used");
    };
    let before = stay.local_counts();
    let text = new(rt, stay.new_string(&[104, 105]));
    assert!(rt; stay.words_used() == Ok(used.saturating_add(2)));
    assert!(rt; stay.local_counts().standing.saturating_sub(1) == before.standing);
    done(rt, stay.delete_local_ref(text));
    assert!(rt; stay.local_counts().standing == before.standing);
}

/// Writes an array of three elements in a stay, and reads two of them.
fn calls_on_parts<S: Steps>(rt: &impl Abort, stay: &mut Stay<'_, S>, array: Handle) {
    done(rt, stay.set_array_region(array, 0, &[3, 4, 5]));
    let mut read = [0, 0];
    done(rt, stay.get_array_region(array, 1, &mut read));
    assert_same!(rt; read, [4, 5]);
}

/// Copies an array of three elements in a stay, and gives them back.
fn copies_elements<S: Steps>(
    rt: &impl Abort,
    alloc: Global,
    stay: &mut Stay<'_, S>,
    array: Handle,
) -> Result<(), Fail> {
    let elements = stay.get_array_elements::<i32>(alloc, array)?;
    assert_same!(rt; elements.length(), 3);
    match stay.release_array_elements(array, elements, Mode::Copy) {
        Ok(None) => Ok(()),
        Ok(Some(_left)) => panic!(rt; "a release keeps elements"),
        Err((_left, _)) => panic!(rt; "a release is refused"),
    }
}

/// Copies the units of a string in a stay.
fn copies_units<S: Steps>(
    rt: &impl Abort,
    alloc: Global,
    stay: &mut Stay<'_, S>,
) -> Result<(), Fail> {
    let text = new(rt, stay.new_string(&[104, 105]));
    let units = stay.get_string_chars(alloc, text)?;
    assert_same!(rt; units.len(), 2);
    Ok(())
}

/// Pops a frame in a stay that was opened before it; then all local references are freed there.
fn calls_on_frames<S: Steps>(rt: &impl Abort, stay: &mut Stay<'_, S>, array: Handle) {
    let kept = one(rt, stay.pop_local_frame(array));
    have_types(rt, stay, &[(array, 0)]);
    has_length(rt, stay, kept, 3);
    assert_same!(rt; refusal(stay.pop_local_frame(kept)), Some(Fault::NoFrame));
    done(rt, stay.free_locals());
    have_types(rt, stay, &[(kept, 0)]);
}

/// Makes each call once in a stay, the last of which frees all local references.
fn makes_each_call<S: Steps>(
    rt: &impl Abort,
    alloc: Global,
    stay: &mut Stay<'_, S>,
    array: Handle,
) -> Result<(), Fail> {
    calls_on_references(rt, stay, array);
    calls_on_objects(rt, stay);
    tells_numbers(rt, stay);
    calls_on_parts(rt, stay, array);
    copies_elements(rt, alloc, stay, array)?;
    copies_units(rt, alloc, stay)?;
    calls_on_frames(rt, stay, array);
    Ok(())
}

/// What is refused in a stay, which stands then.
fn is_refused_in<S: Steps>(rt: &impl Abort, stay: &mut Stay<'_, S>, array: Handle) {
    assert_same!(rt; refusal(stay.new_global_ref(Handle(8))), Some(Fault::Stale));
    assert_same!(rt; refusal(stay.delete_global_ref(array)), Some(Fault::WrongKind));
    assert_same!(rt; refusal(stay.get_string_length(array)), Some(Fault::WrongKind));
    assert_same!(rt; refusal(stay.new_array::<i64>(1000)), Some(Fault::SpaceFull(3)));
    assert_same!(rt; refusal(stay.set_array_region(array, 3, &[1])), Some(Fault::Range));
    assert_same!(rt; refusal(stay.pop_local_frame(array)), Some(Fault::NoFrame));
    has_length(rt, stay, array, 3);
}

/// Each call is made once in a stay, in which nothing was refused for good, and behind which the env goes on.
#[derive(Drop)]
struct GoesOn;

impl<R: Abort> EnvTest<R> for GoesOn {
    fn run<S: Steps>(self, rt: &R, alloc: Global, env: &mut Env<S>) -> Result<(), Fail> {
        let array = env.new_array::<i32>(3)?;
        let mut stay = env.stay()?;
        is_refused_in(rt, &mut stay, array);
        stay.end();
        env.push_local_frame(8)?;
        let inner = made(env.new_local_ref(array))?;
        let mut stay = env.stay()?;
        let tried = makes_each_call(rt, alloc, &mut stay, inner);
        stay.end();
        tried?;
        has_type(env, array, 0)
    }
}

/// Each call is made in a stay, by a thread that is alone.
#[test]
fn each_call_is_made_in_a_stay(rt: HostRuntime) -> Result<(), Fail> {
    alone(&rt, rt.alloc(), SIZES, GoesOn)
}

/// A collection was kept out by one thread, if there was memory for its marker.
fn is_kept_out(rt: &impl Abort, answer: Result<[u32; 3], Fault>) -> Result<(), Fail> {
    if matches!(answer, Err(Fault::Memory)) {
        return Err(Fault::Memory)?;
    }
    assert_same!(rt; refusal(answer), Some(Fault::Busy(1)));
    Ok(())
}

/// While a stay stands no other thread collects. What was made in it stands behind it, and then the other collects.
fn keeps_a_collection_out<S: Steps>(
    rt: &impl Abort,
    alloc: Global,
    env: &mut Env<S>,
    other: &mut Env<S>,
) -> Result<(), Fail> {
    let mut stay = env.stay()?;
    let array = stay.new_array::<i32>(2);
    let kept_out = collected(alloc, other);
    let global = match array {
        Ok(array) => stay.new_global_ref(array),
        Err(fault) => Err(fault),
    };
    stay.end();
    is_kept_out(rt, kept_out)?;
    let global = made(global)?;
    assert_same!(rt; env.get_array_length(global)?, 2);
    collects(alloc, other, [0, 0, 2])
}

/// While a level stands in a stay no other thread collects, and then the stay goes on.
fn a_level_keeps_a_collection_out<S: Steps>(
    rt: &impl Abort,
    alloc: Global,
    env: &mut Env<S>,
    other: &mut Env<S>,
) -> Result<(), Fail> {
    let array = env.new_array::<i32>(2)?;
    let stay = env.stay()?;
    match stay.get_array_critical(array) {
        Ok(mut region) => {
            let kept_out = collected(alloc, other);
            let written = region.set(0, 1, -4);
            let mut stay = region.into_stay();
            let mut read = [0];
            let answer = stay.get_array_region(array, 1, &mut read);
            stay.end();
            is_kept_out(rt, kept_out)?;
            done(rt, written);
            done(rt, answer);
            assert_same!(rt; read, [-4]);
            Ok(())
        }
        Err(_) => panic!(rt; "no region is opened"),
    }
}

/// How a stay of an env is refused, which is ended where it is not.
fn refused_stay<S: Steps>(env: &mut Env<S>) -> Option<Fault> {
    match env.stay() {
        Ok(stay) => {
            stay.end();
            None
        }
        Err(fault) => Some(fault),
    }
}

/// While a thread announces that it will collect, a stay that stands goes on, and no other is entered; once the announcement is taken back, one is.
fn goes_on_beside_who_announces<S: Steps>(
    rt: &impl Abort,
    announcer: &mut S,
    env: &mut Env<S>,
    other: &mut Env<S>,
) -> Result<(), Fail>
    requires { (S.facts announcer.old).stands.role ≡ Outside }
{
    let mut stay = env.stay()?;
    match announce(announcer) {
        Ok(announced) => {
            let barred = refused_stay(other);
            let plain = stay.new_plain();
            announced.cancel(announcer);
            stay.end();
            assert_same!(rt; barred, Some(Fault::Barred));
            has_type(env, plain?, 1)?;
            assert_same!(rt; refused_stay(other), None);
            Ok(())
        }
        Err(_) => panic!(rt; "nobody keeps the gate closed"),
    }
}

/// A stay of one thread and the collection of another exclude each other, and so do an announcement and a new stay.
struct ExcludesCollections;

impl RoomTest for ExcludesCollections {
    fn run<S: Steps + Drop, R: Abort>(
        rt: &R,
        alloc: Global,
        first: &mut S,
        _second: S,
        env: &mut Env<S>,
        other: &mut Env<S>,
    ) -> Result<(), Fail> {
        keeps_a_collection_out(rt, alloc, env, other)?;
        a_level_keeps_a_collection_out(rt, alloc, env, other)?;
        goes_on_beside_who_announces(rt, first, env, other)
    }
}

/// A stay keeps collections out, and an announcement keeps new stays out.
#[test]
fn stays_and_collections_exclude_each_other(rt: HostRuntime) -> Result<(), Fail> {
    in_a_room::<ExcludesCollections, _>(&rt, rt.alloc())
}

/// A thread goes in, learns a note, and goes out: all between is one stay, in which no event of any thread is a step of a collection. It is false where the gate was closed.
fn learns_in_a_stay(steps: &mut RoomSteps<'_, LAST>, note: Note) -> bool
    requires outside { steps.old.role ≡ Outside }
    requires note { IsNoteThere steps.old note }
    ensures { result ≡ true → IsOneStay (view (stepping_pass steps.old.cells.seat.me)) (view (stepping_pass steps.new.cells.seat.me))
        (by (stepping_pass steps.old.cells.seat.me).thread (Gate Leave) ∷ []) }
{
    open_stays_exclude_collections();
    if !steps.go_in() {
        steps.go_out();
        return false;
    }
    steps.learn(note);
    steps.go_out();
    true
}

/// A thread learns a note in a stay.
#[test]
fn a_note_is_learned_in_a_stay(rt: HostRuntime) -> Result<(), Fail> {
    let two = Config {
        threads: 2,
        ..SIZES
    };
    let (room, mut passes) = Room::<LAST>::open(rt.alloc(), two)?;
    let second = next_pass(&room, &mut passes)?;
    let first = next_pass(&room, &mut passes)?;
    let mut steps = RoomSteps::new(&room, first);
    let note = RoomSteps::new(&room, second).note();
    assert!(rt; learns_in_a_stay(&mut steps, note));
    Ok(())
}
