//! The rooms in which each call is made with each word.

use crate::words::calls::{
    CALLS, CallOfReference, DELETIONS, Given, INTS, NESTING, OF_TWO, refused_by,
};
use crate::words::known::Known;
use assertions::assert_same;
use jr_env::{Env, NativeInterface};
use jr_fixtures::{LAST, NoPass, closed, collects, has_type, made, next_env, next_pass, plain_env};
use jr_model::Summary;
use jr_rule::Room;
use jr_steps::Steps;
use jr_word::{Config, Fault, Handle, Kind};
use std::alloc::{AllocError, Global};
use std::process::Abort;
use std::test::Fail;

/// A room of three threads, one of which takes no step: all that it has is made use of.
const SIZES: Config = Config {
    threads: 3,
    slots: 4,
    objects: 11,
    words: 16,
    locals: 16,
};

/// A room of one thread with an array of two elements.
const OTHER: Config = Config {
    words: 2,
    ..Config::LEAST
};

/// Words that no single bit makes: all ones, with each kind; references with index 65,535; a place past the last of this thread, of another, and of no thread; the second reference of a place;
/// and a slot past the last.
const WORDS: [Handle; 14] = [
    Handle(u64::MAX),
    Handle(u64::MAX - 1),
    Handle(u64::MAX - 2),
    Handle(u64::MAX - 3),
    Handle(0x3_FFFC_0000_0001),
    Handle(0x3_FFFC_0000_0002),
    Handle(0x3_FFFC_0000_0003),
    Handle(0x40_0000_0001),
    Handle(0x4_0040_0000_0001),
    Handle(0xC_0000_0000_0001),
    Handle(5),
    Handle(0x4_0000_0000_0005),
    Handle(0x10_0000_0002),
    Handle(0x10_0000_0003),
];

/// A local reference of thread 1, with serial 0 at the first place.
const FOREIGN: Handle = Handle(0x4_0000_0000_0001);

/// The first two global references of the first slot.
const FIRST_GLOBAL: Handle = Handle(2);

const SECOND_GLOBAL: Handle = Handle(6);

/// Adds each single bit, alone and with each kind of a reference.
fn add_bits(words: &mut Vec<Handle>) -> Result<(), AllocError> {
    let mut alone = 1u64;
    for _ in 0..64 {
        let with_each = [alone, alone | 1, alone | 2, alone | 3];
        words.extend_from_slice(&with_each.map(Handle))?;
        alone = alone.wrapping_mul(2);
    }
    Ok(())
}

/// The two ints of an array of another room, copied there. The words of references that were made there are added: the serials of two of them no slot here comes to.
fn copied_in<S: Steps>(
    alloc: Global,
    env: &mut Env<S>,
    words: &mut Vec<Handle>,
) -> Result<Given, Fail> {
    let array = env.new_array::<i32>(2)?;
    env.set_array_region(array, 0, &INTS)?;
    for _ in 0..4 {
        let global = made(env.new_global_ref(array))?;
        words.push(global)?;
        env.delete_global_ref(global)?;
    }
    let ints = env.get_array_elements(alloc, array)?;
    Ok(Given {
        base: Handle::NULL,
        ints: Some(ints),
    })
}

/// The same, where there is an env.
fn copied_by<S: Steps + Drop>(
    alloc: Global,
    env: Result<Env<S>, Fault>,
    words: &mut Vec<Handle>,
) -> Result<Given, Fail> {
    let mut env = env?;
    copied_in(alloc, &mut env, words)
}

/// The same, by the env of a room that is made for it.
fn given_by_another(alloc: Global, words: &mut Vec<Handle>) -> Result<Given, Fail> {
    copied_by(alloc, plain_env(alloc, OTHER), words)
}

/// The reference that a call made stands, and is one of the words.
fn stands(
    known: &mut Known,
    words: &mut Vec<Handle>,
    answer: Result<Handle, Fault>,
    kind: Option<Kind>,
) -> Result<Handle, Fail> {
    let word = answer?;
    words.push(word)?;
    known.note(word, kind)?;
    Ok(word)
}

/// The same of a reference that a call made to an object that was there.
fn names(
    known: &mut Known,
    words: &mut Vec<Handle>,
    answer: Result<Option<Handle>, Fault>,
    kind: Kind,
) -> Result<Handle, Fail> {
    stands(known, words, Ok(made(answer)?), Some(kind))
}

/// Makes an object of each kind, with a local reference each.
fn make_objects<S: Steps>(
    env: &mut Env<S>,
    known: &mut Known,
    words: &mut Vec<Handle>,
) -> Result<(), Fail> {
    stands(known, words, env.new_plain(), Some(Kind::Plain))?;
    stands(known, words, env.new_array::<bool>(2), Some(Kind::Boolean))?;
    stands(known, words, env.new_array::<i8>(2), Some(Kind::Byte))?;
    stands(known, words, env.new_array::<u16>(2), Some(Kind::Char))?;
    stands(known, words, env.new_array::<i16>(2), Some(Kind::Short))?;
    stands(known, words, env.new_array::<i64>(2), Some(Kind::Long))?;
    stands(known, words, env.new_string(&[7, 8]), Some(Kind::Text))?;
    Ok(())
}

/// Makes references whose object is dropped: a global and a local one, which are deleted, and a weak one, which is cleared.
fn leave_behind<S: Steps>(
    rt: &impl Abort,
    alloc: Global,
    env: &mut Env<S>,
    known: &mut Known,
    words: &mut Vec<Handle>,
) -> Result<(), Fail> {
    let gone = env.new_plain()?;
    let deleted = made(env.new_global_ref(gone))?;
    assert_same!(rt; deleted, FIRST_GLOBAL);
    let cleared = made(env.new_weak_global_ref(gone))?;
    env.delete_global_ref(deleted)?;
    env.delete_local_ref(gone)?;
    words.push(deleted)?;
    words.push(gone)?;
    stands(known, words, Ok(cleared), None)?;
    collects(alloc, env, [1, 1, 16])
}

/// Makes references to an array of ints and to one of objects, until no slot and no local place is free.
fn name_again<S: Steps>(
    rt: &impl Abort,
    env: &mut Env<S>,
    known: &mut Known,
    words: &mut Vec<Handle>,
    ints: Handle,
    objects: Handle,
) -> Result<(), Fail> {
    names(known, words, env.new_global_ref(ints), Kind::Int)?;
    names(
        known,
        words,
        env.new_weak_global_ref(objects),
        Kind::Objects,
    )?;
    let again = names(known, words, env.new_global_ref(objects), Kind::Objects)?;
    assert_same!(rt; again, SECOND_GLOBAL);
    for _ in 0..6 {
        names(known, words, env.new_local_ref(ints), Kind::Int)?;
    }
    Ok(())
}

/// Makes objects of each kind and references of each, until no slot, no local place, no number and no word is free. The first slot, and the place of a deleted local reference, are given again.
/// An array by which a region can be opened.
fn fill<S: Steps>(
    rt: &impl Abort,
    alloc: Global,
    env: &mut Env<S>,
    known: &mut Known,
    words: &mut Vec<Handle>,
) -> Result<Handle, Fail> {
    make_objects(env, known, words)?;
    let ints = stands(known, words, env.new_array::<i32>(2), Some(Kind::Int))?;
    let objects = env.new_object_array(2, Handle::NULL);
    let objects = stands(known, words, objects, Some(Kind::Objects))?;
    leave_behind(rt, alloc, env, known, words)?;
    stands(known, words, env.new_plain(), Some(Kind::Plain))?;
    name_again(rt, env, known, words, ints, objects)?;
    Ok(ints)
}

/// A call of these words is refused as it is to be, or not at all.
fn is_answered<S: Steps>(
    rt: &impl Abort,
    alloc: Global,
    env: &mut Env<S>,
    given: &mut Given,
    known: &Known,
    call: CallOfReference,
    words: [Handle; 2],
) -> Result<(), Fault> {
    let refused = refused_by(rt, alloc, env, given, call, words);
    if refused == Some(Fault::Memory) {
        return Err(Fault::Memory);
    }
    assert_same!(rt; refused, known.refusal(call, words); at (call, words));
    Ok(())
}

/// Each of these calls of a word is.
fn is_answered_by<S: Steps>(
    rt: &impl Abort,
    alloc: Global,
    env: &mut Env<S>,
    given: &mut Given,
    known: &Known,
    calls: &[CallOfReference],
    word: Handle,
) -> Result<(), Fail> {
    has_type(env, word, known.ref_type(word))?;
    for call in calls {
        is_answered(rt, alloc, env, given, known, *call, [word, Handle::NULL])?;
    }
    Ok(())
}

/// Each of these calls of each word is.
fn are_answered_by<S: Steps>(
    rt: &impl Abort,
    alloc: Global,
    env: &mut Env<S>,
    given: &mut Given,
    known: &Known,
    calls: &[CallOfReference],
    words: &[Handle],
) -> Result<(), Fail> {
    for word in words {
        is_answered_by(rt, alloc, env, given, known, calls, *word)?;
    }
    Ok(())
}

/// Each call of two references is, where the word is the first and where it is the second.
fn is_answered_beside<S: Steps>(
    rt: &impl Abort,
    alloc: Global,
    env: &mut Env<S>,
    given: &mut Given,
    known: &Known,
    word: Handle,
    others: &[Handle],
) -> Result<(), Fail> {
    for other in others {
        let [same, set] = OF_TWO;
        is_answered(rt, alloc, env, given, known, same, [word, *other])?;
        is_answered(rt, alloc, env, given, known, same, [*other, word])?;
        is_answered(rt, alloc, env, given, known, set, [word, *other])?;
        is_answered(rt, alloc, env, given, known, set, [*other, word])?;
    }
    Ok(())
}

/// Each call of two references is, of each word beside each of the others.
fn are_answered_beside<S: Steps>(
    rt: &impl Abort,
    alloc: Global,
    env: &mut Env<S>,
    given: &mut Given,
    known: &Known,
    words: &[Handle],
    others: &[Handle],
) -> Result<(), Fail> {
    for word in words {
        is_answered_beside(rt, alloc, env, given, known, *word, others)?;
    }
    Ok(())
}

/// Each word is deleted as a global, a weak global and a local reference: what stands by the call for its kind alone.
fn are_deleted<S: Steps>(
    rt: &impl Abort,
    alloc: Global,
    env: &mut Env<S>,
    given: &mut Given,
    known: &mut Known,
    words: &[Handle],
) -> Result<(), Fail> {
    for word in words {
        is_answered_by(rt, alloc, env, given, known, &DELETIONS, *word)?;
        known.forget(*word);
        has_type(env, *word, 0)?;
    }
    Ok(())
}

/// Each call of each word, where nothing was made.
fn are_answered_by_nothing<S: Steps>(
    rt: &impl Abort,
    alloc: Global,
    env: &mut Env<S>,
    given: &mut Given,
    known: &mut Known,
    words: &[Handle],
    others: &[Handle],
) -> Result<(), Fail> {
    let null = [Handle::NULL];
    are_answered_beside(rt, alloc, env, given, known, words, others)?;
    are_deleted(rt, alloc, env, given, known, words)?;
    are_answered_by(rt, alloc, env, given, known, &CALLS, words)?;
    are_answered_by(rt, alloc, env, given, known, &DELETIONS, &null)?;
    is_answered_beside(rt, alloc, env, given, known, Handle::NULL, words)?;
    are_answered_by(rt, alloc, env, given, known, &CALLS, &null)
}

/// Each call of each word, in a room where nothing was made. The last call of all makes an array.
fn in_an_empty_room<S: Steps>(
    rt: &impl Abort,
    alloc: Global,
    env: &mut Env<S>,
    given: &mut Given,
    words: &mut Vec<Handle>,
) -> Result<(), Fail> {
    words.extend_from_slice(&WORDS)?;
    let mut known = Known::of_nothing(alloc, SIZES);
    let others = words.clone()?;
    add_bits(words)?;
    are_answered_by_nothing(rt, alloc, env, given, &mut known, words, &others)
}

/// Each call of each word, where nothing is free and a frame was pushed; then all are deleted.
fn are_answered_by_all<S: Steps>(
    rt: &impl Abort,
    alloc: Global,
    env: &mut Env<S>,
    given: &mut Given,
    known: &mut Known,
    words: &[Handle],
    others: &[Handle],
) -> Result<(), Fail> {
    env.push_local_frame(0)?;
    known.is_full = true;
    known.has_frame = true;
    known.array_refused = Some(Fault::LocalsFull);
    are_answered_by(rt, alloc, env, given, known, &CALLS, words)?;
    are_answered_by(rt, alloc, env, given, known, &NESTING, words)?;
    are_answered_beside(rt, alloc, env, given, known, words, others)?;
    are_deleted(rt, alloc, env, given, known, words)
}

/// Each call of each word, once all are deleted and all objects still stand.
fn are_answered_later<S: Steps>(
    rt: &impl Abort,
    alloc: Global,
    env: &mut Env<S>,
    given: &mut Given,
    known: &mut Known,
    words: &[Handle],
    others: &[Handle],
) -> Result<(), Fail> {
    known.is_full = false;
    known.array_refused = Some(Fault::ObjectsFull);
    are_answered_beside(rt, alloc, env, given, known, words, others)?;
    are_answered_by(rt, alloc, env, given, known, &CALLS, words)
}

/// Each call of each word, in a room that is full of every kind of object, and once all references of this thread in it are deleted.
fn in_a_full_room<S: Steps>(
    rt: &impl Abort,
    alloc: Global,
    env: &mut Env<S>,
    given: &mut Given,
    words: &mut Vec<Handle>,
) -> Result<(), Fail> {
    words.extend_from_slice(&WORDS)?;
    words.push(Handle::NULL)?;
    let mut known = Known::of_nothing(alloc, SIZES);
    given.base = fill(rt, alloc, env, &mut known, words)?;
    let others = words.clone()?;
    add_bits(words)?;
    are_answered_by_all(rt, alloc, env, given, &mut known, words, &others)?;
    are_answered_later(rt, alloc, env, given, &mut known, words, &others)
}

/// Thread 1 makes an object, with a local reference to it, where the room is to be full. Then thread 0 tries the words.
fn tries<S: Steps>(
    rt: &impl Abort,
    alloc: Global,
    env: &mut Env<S>,
    foreign: &mut Env<S>,
    given: &mut Given,
    words: &mut Vec<Handle>,
    is_full: bool,
) -> Result<(), Fail> {
    if !is_full {
        return in_an_empty_room(rt, alloc, env, given, words);
    }
    assert_same!(rt; foreign.new_plain()?, FOREIGN);
    in_a_full_room(rt, alloc, env, given, words)?;
    has_type(foreign, FOREIGN, 1)
}

/// The same, where there is a pass for each of the two threads, with words and elements of another room.
fn tries_all<S: Steps + Drop>(
    rt: &impl Abort,
    alloc: Global,
    env: Result<Env<S>, NoPass>,
    foreign: Result<Env<S>, NoPass>,
    is_full: bool,
) -> Result<(), Fail> {
    let mut env = env?;
    let mut foreign = foreign?;
    let mut words = Vec::new(alloc);
    let mut given = given_by_another(alloc, &mut words)?;
    let (env, foreign) = (&mut env, &mut foreign);
    let tried = tries(rt, alloc, env, foreign, &mut given, &mut words, is_full);
    given.discard();
    tried
}

/// Tries the words in a room, and checks what is left in it.
fn in_a_room(rt: &impl Abort, alloc: Global, is_full: bool, left: Summary) -> Result<(), Fail> {
    let (room, mut passes) = Room::<LAST>::open(alloc, SIZES)?;
    let closing = next_pass(&room, &mut passes)?;
    let foreign = next_env(&room, &mut passes);
    let env = next_env(&room, &mut passes);
    tries_all(rt, alloc, env, foreign, is_full)?;
    assert_same!(rt; closed(room, closing), Some(left));
    Ok(())
}

#[test]
fn each_call_refuses_each_word_in_an_empty_room(rt: HostRuntime) -> Result<(), Fail> {
    let left = Summary {
        globals: 0,
        weaks: 0,
        live: 1,
        used: 0,
    };
    in_a_room(&rt, rt.alloc(), false, left)
}

#[test]
fn each_call_answers_each_word_in_a_full_room(rt: HostRuntime) -> Result<(), Fail> {
    let left = Summary {
        globals: 0,
        weaks: 0,
        live: 11,
        used: 16,
    };
    in_a_room(&rt, rt.alloc(), true, left)
}
