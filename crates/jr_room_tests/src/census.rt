//! A census and a dump of a room: what they tell, and that they leave all as it is.

use crate::shared::{RoomTest, in_a_room};
use assertions::assert_same;
use jr_census::Census;
use jr_env::{Env, NativeInterface};
use jr_fixtures::{collected, made, refusal};
use jr_steps::Steps;
use jr_weak::Marker;
use jr_word::{Fault, HeaderParts, LocalParts, SlotParts};
use std::alloc::Global;
use std::process::Abort;
use std::test::Fail;

/// Makes a plain object that a collection drops, of which a cleared weak reference is left.
fn leave_cleared<S: Steps>(alloc: Global, env: &mut Env<S>) -> Result<(), Fail> {
    let plain = env.new_plain()?;
    made(env.new_weak_global_ref(plain))?;
    env.delete_local_ref(plain)?;
    collected(alloc, env)?;
    Ok(())
}

/// Makes a string that nothing reaches.
fn leave_text<S: Steps>(env: &mut Env<S>) -> Result<(), Fail> {
    let text = env.new_string(&[7; 3])?;
    env.delete_local_ref(text)?;
    Ok(())
}

/// Makes two arrays, which two local references name and a global one. A string that nothing reaches is left too, and a cleared weak reference.
fn fill<S: Steps>(alloc: Global, env: &mut Env<S>) -> Result<(), Fail> {
    leave_cleared(alloc, env)?;
    let ints = env.new_array::<i32>(3)?;
    let pair = env.new_object_array(2, ints)?;
    made(env.new_global_ref(pair))?;
    leave_text(env)
}

/// The numbers of slots, of the local references of two threads, of objects, present and unreached, and of words.
fn numbers(census: &Census) -> [u32; 16] {
    let (slots, all, left) = (&census.slots, &census.objects, &census.unreached);
    let words = &census.words;
    [
        slots.globals,
        slots.weaks,
        slots.cleared,
        slots.retired,
        census.locals[0],
        census.locals[1],
        all.live,
        all.words,
        all.kinds.strings,
        left.live,
        left.words,
        left.kinds.objects,
        words.used,
        words.lost,
        words.reached,
        words.freed,
    ]
}

/// Checks the numbers of a census, with three tries to announce it or without an announcement.
fn is_counted<S: Steps>(
    rt: &impl Abort,
    env: &mut Env<S>,
    marker: &mut Marker,
    is_announced: bool,
    wanted: [u32; 16],
) -> Result<(), Fail> {
    let census = if is_announced {
        env.census_announced(marker, 3)?
    } else {
        env.census(marker)?
    };
    assert_same!(rt; numbers(&census), wanted; at ("is_announced", is_announced));
    Ok(())
}

/// A census by thread 1, which has made all that stands, another by the same marker, and one that is announced.
struct TellsWhatStands;

impl RoomTest for TellsWhatStands {
    fn run<S: Steps + Drop, R: Abort>(
        rt: &R,
        alloc: Global,
        _first: &mut S,
        _second: S,
        env: &mut Env<S>,
        _other: &mut Env<S>,
    ) -> Result<(), Fail> {
        fill(alloc, env)?;
        let mut marker = Marker::new(alloc, env.held.steps.config())?;
        let wanted = [1, 1, 1, 0, 0, 2, 3, 8, 1, 1, 3, 0, 8, 0, 5, 3];
        is_counted(rt, env, &mut marker, false, wanted)?;
        is_counted(rt, env, &mut marker, false, wanted)?;
        is_counted(rt, env, &mut marker, true, wanted)
    }
}

#[test]
fn a_census_tells_what_stands(rt: HostRuntime) -> Result<(), Fail> {
    in_a_room::<TellsWhatStands, _>(&rt, rt.alloc())
}

/// Makes an array, and plain objects up to the last number, behind which an array is refused whose words are reserved already.
fn lose_words<S: Steps>(rt: &impl Abort, env: &mut Env<S>) -> Result<(), Fail> {
    env.new_array::<i32>(3)?;
    for _ in 0..3 {
        env.new_plain()?;
    }
    let refused = env.new_array::<i32>(2);
    assert_same!(rt; refusal(refused), Some(Fault::ObjectsFull));
    Ok(())
}

/// Checks the words of a census that are used, lost, reached and freed. How many are reached.
fn has_words<S: Steps>(
    rt: &impl Abort,
    env: &mut Env<S>,
    marker: &mut Marker,
    wanted: [u32; 4],
) -> Result<u32, Fail> {
    let words = env.census(marker)?.words;
    let found = [words.used, words.lost, words.reached, words.freed];
    assert_same!(rt; found, wanted);
    Ok(words.reached)
}

/// A census tells words that no object has, which the collection behind it frees.
struct TellsLostWords;

impl RoomTest for TellsLostWords {
    fn run<S: Steps + Drop, R: Abort>(
        rt: &R,
        alloc: Global,
        _first: &mut S,
        _second: S,
        env: &mut Env<S>,
        _other: &mut Env<S>,
    ) -> Result<(), Fail> {
        lose_words(rt, env)?;
        let mut marker = Marker::new(alloc, env.held.steps.config())?;
        let reached = has_words(rt, env, &mut marker, [5, 2, 3, 2])?;
        let used = env.collect(&mut marker)?.used;
        assert_same!(rt; used, reached);
        has_words(rt, env, &mut marker, [3, 0, 3, 0])?;
        Ok(())
    }
}

#[test]
fn a_census_tells_words_of_no_object(rt: HostRuntime) -> Result<(), Fail> {
    in_a_room::<TellsLostWords, _>(&rt, rt.alloc())
}

/// Of two slots the first has a cleared weak reference, and the second a global one.
fn have_references(rt: &impl Abort, slots: &[SlotParts; 4]) {
    let is_cleared = matches!(slots[0], SlotParts::Weak { object: None, .. });
    let is_global = matches!(slots[1], SlotParts::Global { .. });
    assert!(rt; is_cleared);
    assert!(rt; is_global);
}

/// Three of four numbers are those of objects.
fn has_three(rt: &impl Abort, headers: &[Option<HeaderParts>; 4]) {
    let mut count = 0u32;
    for header in headers {
        if header.is_some() {
            count = count.saturating_add(1);
        }
    }
    assert_same!(rt; count, 3);
}

/// Of five threads with 16 local places each, thread 1 has two references, and no other thread has one.
fn have_locals(rt: &impl Abort, locals: &[LocalParts; 80]) {
    let mut own = 0u32;
    let mut all = 0u32;
    for (at, local) in locals.iter().enumerate() {
        if let LocalParts::Object(_) = local {
            all = all.saturating_add(1);
            if at / 16 == 1 {
                own = own.saturating_add(1);
            }
        }
    }
    assert_same!(rt; own, 2);
    assert_same!(rt; all, 2);
}

/// Checks a dump, announced or not, of a room of four slots, four objects and eight words, for five threads with 16 local places each.
fn is_noted<S: Steps>(rt: &impl Abort, env: &mut Env<S>, is_announced: bool) -> Result<(), Fail> {
    let config = env.held.steps.config();
    if config.slots != 4 || config.objects != 4 || config.words != 8 {
        return Err("the room has other sizes")?;
    }
    if config.threads != 5 || config.locals != 16 {
        return Err("the room has other threads or places")?;
    }
    let mut slots = [SlotParts::Free { serial: 0 }; 4];
    let mut locals = [LocalParts::Free; 80];
    let mut headers = [None; 4];
    let mut words = [0u64; 8];
    if is_announced {
        env.dump_announced(3, &mut slots, &mut locals, &mut headers, &mut words)?;
    } else {
        env.dump(&mut slots, &mut locals, &mut headers, &mut words)?;
    }
    have_references(rt, &slots);
    have_locals(rt, &locals);
    has_three(rt, &headers);
    Ok(())
}

/// A dump of what thread 1 has made, and another that is announced.
struct HasWhatStands;

impl RoomTest for HasWhatStands {
    fn run<S: Steps + Drop, R: Abort>(
        rt: &R,
        alloc: Global,
        _first: &mut S,
        _second: S,
        env: &mut Env<S>,
        _other: &mut Env<S>,
    ) -> Result<(), Fail> {
        fill(alloc, env)?;
        is_noted(rt, env, false)?;
        is_noted(rt, env, true)
    }
}

#[test]
fn a_dump_has_each_reference_and_object(rt: HostRuntime) -> Result<(), Fail> {
    in_a_room::<HasWhatStands, _>(&rt, rt.alloc())
}
