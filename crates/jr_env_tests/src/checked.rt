//! Refusals, as a watcher is told them.

use assertions::assert_same;
use jr_env::calls::{GetArrayLength, NewArray, SetArrayRegion};
use jr_env::{
    Checked, Env, NativeEnv, NativeInterface, OverEnv, Patience, Refusal, Watcher, with_local_frame,
};
use jr_fixtures::refusal;
use jr_steps::Steps;
use jr_word::{Fault, Handle};
use std::alloc::Global;
use std::process::Abort;
use std::test::Fail;

/// Counts refusals by their numbers, and keeps the last.
#[derive(Drop)]
struct Tally {
    counts: [u32; 24],
    last: Option<Refusal>,
}

impl Watcher for Tally {
    ghost use Rattle.std.specs.Prelude.{◌≡◌, Some};

    ghost hears = { λ old new refusal. new.last ≡ Some refusal };

    fn refused(&mut self, refusal: Refusal) {
        if let Some(count) = self.counts.get_mut(refusal.fault.number() as usize) {
            *count = count.wrapping_add(1);
        }
        self.last = Some(refusal);
    }
}

/// Checks that a call was refused as it was told, and the line of that.
fn said(
    rt: &impl Abort,
    alloc: Global,
    refused: Option<Fault>,
    last: Option<Refusal>,
    wanted: &str,
) -> Result<(), Fail> {
    let Some(last) = last else {
        return Err("no refusal was told")?;
    };
    assert_same!(rt; refused, Some(last.fault));
    assert_eq!(rt; format!(in alloc; "{last}")?.as_str(), wanted);
    Ok(())
}

/// A tally that was told nothing.
fn nothing_told() -> Tally {
    Tally {
        counts: [0; 24],
        last: None,
    }
}

/// Each refusal is told.
pub(crate) fn are_told<S: Steps>(
    rt: &impl Abort,
    alloc: Global,
    env: &mut Env<S>,
) -> Result<(), Fail> {
    calls_are_told(rt, alloc, env)?;
    all_are_told(rt, alloc, env)
}

/// The words that the calls are made with: of a string, of an array of three elements, and of one of two objects.
#[derive(Clone, Copy)]
struct Words {
    string: Handle,
    ints: Handle,
    objects: Handle,
}

/// A call that is refused, by its place in `TOLD`.
fn asks<S: Steps, N: NativeEnv<S>>(checked: &mut N, words: Words, asked: usize) -> Option<Fault> {
    let Words {
        string,
        ints,
        objects,
    } = words;
    match asked {
        0 => refusal(checked.get_array_length(string)),
        1 => refusal(checked.is_same_object(ints, Handle(u64::MAX))),
        2 => refusal(checked.set_array_region(ints, 1, &[7i64])),
        3 => refusal(checked.get_array_region(ints, 2, &mut [0i32, 0])),
        4 => refusal(checked.set_array_region(ints, 3, &[7i32])),
        5 => refusal(checked.get_object_array_element(objects, 2)),
        6 => refusal(checked.set_object_array_element(objects, 9, Handle::NULL)),
        7 => refusal(checked.get_array_region(ints, 2, &mut [0i64, 0])),
        8 => refusal(checked.retry(SetArrayRegion(ints, 4, &[] as &[i32]), Patience::of(3))),
        _ => None,
    }
}

/// What is told of each of these: the call, what its words are, and of E7 which elements it asked, and how many there are.
const TOLD: [&str; 9] = [
    "thread 0: GetArrayLength: E5, the object is not an array; 0x1 is a local reference to a String",
    "thread 0: IsSameObject: E2, no reference of this word stands; 0x400000001 is a local reference to an int[]; 0xffffffffffffffff is no handle",
    "thread 0: SetLongArrayRegion: E6, the array's elements are of another kind than the call is for; 0x400000001 is a local reference to an int[]",
    "thread 0: GetIntArrayRegion: E7, an index, a part or a length doesn't fit the object (asked: 2 elements from index 2 on; length: 3); 0x400000001 is a local reference to an int[]",
    "thread 0: SetIntArrayRegion: E7, an index, a part or a length doesn't fit the object (asked: index 3; length: 3); 0x400000001 is a local reference to an int[]",
    "thread 0: GetObjectArrayElement: E7, an index, a part or a length doesn't fit the object (asked: index 2; length: 2); 0x800000001 is a local reference to an Object[]",
    "thread 0: SetObjectArrayElement: E7, an index, a part or a length doesn't fit the object (asked: index 9; length: 2); 0x800000001 is a local reference to an Object[]; 0x0 is NULL",
    "thread 0: GetLongArrayRegion: E6, the array's elements are of another kind than the call is for; 0x400000001 is a local reference to an int[]",
    "thread 0: SetIntArrayRegion: E7, an index, a part or a length doesn't fit the object (asked: 0 elements from index 4 on; length: 3); 0x400000001 is a local reference to an int[]",
];

/// Each refused call is told, once, and one that is not refused isn't. Of another refusal than E7 no elements are told.
fn calls_are_told<S: Steps>(rt: &impl Abort, alloc: Global, env: &mut Env<S>) -> Result<(), Fail> {
    let string = env.new_string(&[7])?;
    let ints = env.new_array::<i32>(3)?;
    let objects = env.new_object_array(2, ints)?;
    let words = Words {
        string,
        ints,
        objects,
    };
    let mut checked = Checked::new(env, nothing_told());
    checked.get_array_length(ints)?;
    assert!(rt; checked.watcher().last.is_none());
    for asked in 0..TOLD.len() {
        let refused = asks(&mut checked, words, asked);
        said(rt, alloc, refused, checked.watcher().last, TOLD[asked])?;
    }
    assert!(rt; checked.new_array::<i64>(u32::MAX).is_err());
    let (_env, tally) = checked.into_parts();
    assert!(rt; tally.counts[2] == 1 && tally.counts[5] == 1);
    assert!(rt; tally.counts[6] == 2 && tally.counts[7] == 5);
    Ok(())
}

/// Makes calls that an env makes again, or by its frames and regions, three of which are refused; and answers how many of three were.
fn refused_calls<S: Steps, N: NativeEnv<S> + OverEnv<Env<S>>>(
    env: &mut N,
    string: Handle,
) -> Result<u32, Fault> {
    let array = env.retry(NewArray::<i32>::of(1), Patience::of(3))?;
    let mut refused = 0u32;
    if env.retry(GetArrayLength(string), Patience::of(3)).is_err() {
        refused = refused.wrapping_add(1);
    }
    match env.retry_array_critical(string, Patience::of(3)) {
        Ok(region) => {
            region.release_all();
        }
        Err(_) => refused = refused.wrapping_add(1),
    }
    if with_local_frame(env, u32::MAX, Patience::of(3), |_env| ()).is_err() {
        refused = refused.wrapping_add(1);
    }
    env.retry_array_critical(array, Patience::of(3))?
        .release_all();
    Ok(refused)
}

/// Of a call that is made again, of a frame and of a region the last refusal is told, once, by the name of the checked env.
fn all_are_told<S: Steps>(rt: &impl Abort, alloc: Global, env: &mut Env<S>) -> Result<(), Fail> {
    let string = env.new_string(&[7])?;
    assert!(rt; refused_calls(env, string)? == 3);
    let mut checked = Checked::named(env, nothing_told(), "loader");
    assert!(rt; refused_calls(&mut checked, string)? == 3);
    said(
        rt,
        alloc,
        Some(Fault::LocalsFull),
        checked.watcher().last,
        "loader: thread 0: PushLocalFrame: E9, the thread has too little room for local references",
    )?;
    let (_env, tally) = checked.into_parts();
    assert!(rt; tally.counts[5] == 2 && tally.counts[9] == 1);
    Ok(())
}
