//! Copies of elements and of units: words that are no array, and long ones, over plain words and over a room.

use crate::cases::in_a_room;
use crate::envs::{TWO, has_elements, refuses};
use crate::parts::no_arrays_of_chars;
use assertions::assert_same;
use jr_elements::{Elements, discard_left, elements_of};
use jr_env::{Env, NativeInterface};
use jr_fixtures::{EnvTest, alone};
use jr_model::Mode;
use jr_steps::Steps;
use jr_word::{Config, Elem, Fault, Handle};
use std::alloc::Global;
use std::fmt::Debug;
use std::process::Abort;
use std::test::Fail;

/// Checks that copied elements are these.
pub(crate) fn are<E: Elem + PartialEq + Debug>(
    rt: &impl Abort,
    elements: &Elements<E>,
    wanted: &[E],
) {
    assert_same!(rt; elements.as_slice(), wanted);
}

/// Checks that a release was not refused, and kept no elements.
fn keeps_none<E: Elem>(
    rt: &impl Abort,
    released: Result<Option<Elements<E>>, (Elements<E>, Fault)>,
) {
    match released {
        Ok(None) => {}
        Ok(Some(_left)) => panic!(rt; "a release keeps elements"),
        Err((_left, fault)) => panic!(rt; "a release is refused: {fault}"),
    }
}

/// What the word names is no array of chars: no elements of it are copied, and an abort, which looks at nothing, is not refused.
fn is_no_such_array<S: Steps>(
    rt: &impl Abort,
    env: &mut Env<S>,
    alloc: Global,
    word: Handle,
    fault: Fault,
) -> Result<(), Fail> {
    refuses(rt, env.get_array_elements::<u16>(alloc, word), fault);
    let elements = elements_of(Vec::from_slice(alloc, &[65_535u16, 7])?);
    keeps_none(rt, env.release_array_elements(word, elements, Mode::Abort));
    Ok(())
}

/// None of these words names such an array.
#[derive(Drop)]
struct HaveNoCopies;

impl<R: Abort> EnvTest<R> for HaveNoCopies {
    fn run<S: Steps>(self, rt: &R, alloc: Global, env: &mut Env<S>) -> Result<(), Fail> {
        let rows = no_arrays_of_chars(env)?;
        for (word, fault) in rows {
            is_no_such_array(rt, env, alloc, word, fault)?;
        }
        Ok(())
    }
}

#[test]
fn nothing_is_copied_of_what_is_no_array_of_the_kind(rt: HostRuntime) -> Result<(), Fail> {
    alone(&rt, rt.alloc(), TWO, HaveNoCopies)
}

/// The elements that a commit keeps.
fn committed<E: Elem>(
    rt: &impl Abort,
    released: Result<Option<Elements<E>>, (Elements<E>, Fault)>,
) -> Elements<E> {
    match released {
        Ok(Some(elements)) => elements,
        Ok(None) => panic!(rt; "a commit gives the elements up"),
        Err((_left, fault)) => panic!(rt; "a commit is refused: {fault}"),
    }
}

/// The elements of one array are written to another, by a commit and then by a copy, which keeps none.
#[derive(Drop)]
struct GoesToAnother;

impl<R: Abort> EnvTest<R> for GoesToAnother {
    fn run<S: Steps>(self, rt: &R, alloc: Global, env: &mut Env<S>) -> Result<(), Fail> {
        let array = env.new_array::<i64>(2)?;
        env.set_array_region(array, 0, &[10i64, -20])?;
        let other = env.new_array::<i64>(2)?;
        let mut elements = env.get_array_elements::<i64>(alloc, array)?;
        assert_same!(rt; elements.set(0, i64::MIN), Ok(()));
        let elements = committed(
            rt,
            env.release_array_elements(other, elements, Mode::Commit),
        );
        let written = has_elements(rt, env, other, 0, &mut [7i64; 2], &[i64::MIN, -20]);
        keeps_none(rt, env.release_array_elements(array, elements, Mode::Copy));
        written?;
        has_elements(rt, env, array, 0, &mut [7i64; 2], &[i64::MIN, -20])
    }
}

#[test]
fn elements_of_one_array_are_released_to_another(rt: HostRuntime) -> Result<(), Fail> {
    alone(&rt, rt.alloc(), TWO, GoesToAnother)
}

/// An array has nothing of what was written to a copy that is discarded, nor to one whose release was refused.
#[derive(Drop)]
struct IsDiscarded;

impl<R: Abort> EnvTest<R> for IsDiscarded {
    fn run<S: Steps>(self, rt: &R, alloc: Global, env: &mut Env<S>) -> Result<(), Fail> {
        let array = env.new_array::<i64>(2)?;
        env.set_array_region(array, 0, &[10i64, -20])?;
        let mut elements = env.get_array_elements::<i64>(alloc, array)?;
        assert_same!(rt; elements.set(0, i64::MIN), Ok(()));
        elements.discard();
        let longer = env.new_array::<i64>(3)?;
        let mut elements = env.get_array_elements::<i64>(alloc, array)?;
        assert_same!(rt; elements.set(1, i64::MAX), Ok(()));
        let released = discard_left(env.release_array_elements(longer, elements, Mode::Copy));
        assert_same!(rt; released, Err(Fault::Range));
        has_elements(rt, env, longer, 0, &mut [7i64; 3], &[0; 3])?;
        has_elements(rt, env, array, 0, &mut [7i64; 2], &[10, -20])
    }
}

#[test]
fn what_is_written_to_a_discarded_copy_is_lost(rt: HostRuntime) -> Result<(), Fail> {
    alone(&rt, rt.alloc(), TWO, IsDiscarded)
}

/// Units of which no two beside each other are alike, and none comes again within some thousands.
fn long_units(alloc: Global, count: u32) -> Result<Vec<u16>, Fail> {
    let mut units = Vec::with_capacity(alloc, count as usize)?;
    let mut next = 1u16;
    for _ in 0..count {
        units.push(next)?;
        next = next.wrapping_mul(3).wrapping_add(1);
    }
    Ok(units)
}

/// A room with so many words.
fn with_words(words: u32) -> Config {
    Config { words, ..TWO }
}

/// All units of a string of so many are copied.
fn copies_units<S: Steps>(
    rt: &impl Abort,
    alloc: Global,
    env: &mut Env<S>,
    count: u32,
) -> Result<(), Fail> {
    let units = long_units(alloc, count)?;
    let string = env.new_string(units.as_slice())?;
    let copied = env.get_string_chars(alloc, string)?;
    assert_same!(rt; copied.as_slice(), units.as_slice());
    Ok(())
}

/// All elements of an array of so many are copied.
fn copies_elements<S: Steps>(
    rt: &impl Abort,
    alloc: Global,
    env: &mut Env<S>,
    count: u32,
) -> Result<(), Fail> {
    let units = long_units(alloc, count)?;
    let array = env.new_array::<u16>(count)?;
    env.set_array_region(array, 0, units.as_slice())?;
    let copied = env.get_array_elements::<u16>(alloc, array)?;
    are(rt, &copied, units.as_slice());
    copied.discard();
    Ok(())
}

/// All units of a string of so many are copied.
#[derive(Drop)]
struct Units(u32);

impl<R: Abort> EnvTest<R> for Units {
    fn run<S: Steps>(self, rt: &R, alloc: Global, env: &mut Env<S>) -> Result<(), Fail> {
        copies_units(rt, alloc, env, self.0)
    }
}

/// All elements of an array of so many are copied.
#[derive(Drop)]
struct ElementsOf(u32);

impl<R: Abort> EnvTest<R> for ElementsOf {
    fn run<S: Steps>(self, rt: &R, alloc: Global, env: &mut Env<S>) -> Result<(), Fail> {
        copies_elements(rt, alloc, env, self.0)
    }
}

/// All units of a string of so many are copied, and then all elements of an array of so many beside it.
#[derive(Drop)]
struct UnitsAndElements(u32, u32);

impl<R: Abort> EnvTest<R> for UnitsAndElements {
    fn run<S: Steps>(self, rt: &R, alloc: Global, env: &mut Env<S>) -> Result<(), Fail> {
        copies_units(rt, alloc, env, self.0)?;
        copies_elements(rt, alloc, env, self.1)
    }
}

// With ample memory a copy is made, however long it is: of a thousand, and of all words of the room.
#[test]
fn a_copy_may_be_as_long_as_the_space(rt: HostRuntime) -> Result<(), Fail> {
    let alloc = rt.alloc();
    let most = Config::MOST_WORDS;
    for (words, count) in [(4_096, 1_000), (4_096, 4_096), (most, most)] {
        alone(&rt, alloc, with_words(words), Units(count))?;
        alone(&rt, alloc, with_words(words), ElementsOf(count))?;
    }
    Ok(())
}

#[test]
fn a_copy_in_a_room_may_be_as_long_as_the_space(rt: HostRuntime) -> Result<(), Fail> {
    let alloc = rt.alloc();
    let both = UnitsAndElements(1_000, 4_096);
    in_a_room(&rt, alloc, with_words(5_096), both)?;
    in_a_room(&rt, alloc, with_words(4_096), Units(4_096))
}
