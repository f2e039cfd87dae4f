//! Strings of a text, and texts of a string.

use crate::cases::in_a_room;
use crate::envs::{TWO, refuses};
use assertions::assert_same;
use jr_env::{Env, NativeInterface};
use jr_fixtures::{EnvTest, alone};
use jr_steps::Steps;
use jr_word::{Fault, Handle};
use std::alloc::Global;
use std::process::Abort;
use std::test::Fail;

/// A letter, a letter of two bytes in UTF-8, one of three, and one of four, which is two units in UTF-16.
const TEXT: &str = "aßࠀ𐀀";

/// The units of the text: the last two are a pair of surrogates.
const UNITS: [u16; 5] = [0x61, 0xDF, 0x800, 0xD800, 0xDC00];

/// Checks which text a string spells.
fn spells<S: Steps>(
    rt: &impl Abort,
    alloc: Global,
    env: &mut Env<S>,
    string: Handle,
    wanted: &str,
) -> Result<(), Fail> {
    let Some(text) = env.string_of(alloc, string)? else {
        return Err("the units spell no text")?;
    };
    assert_same!(rt; text.as_str(), wanted);
    Ok(())
}

/// A text comes back from its string, whose units are those; no text comes of a surrogate alone, nor of what is no string.
#[derive(Drop)]
struct SpellTexts;

impl<R: Abort> EnvTest<R> for SpellTexts {
    fn run<S: Steps>(self, rt: &R, alloc: Global, env: &mut Env<S>) -> Result<(), Fail> {
        let string = env.new_string_of(alloc, TEXT)?;
        let units = env.get_string_chars(alloc, string)?;
        assert_same!(rt; units.as_slice(), UNITS.as_slice());
        spells(rt, alloc, env, string, TEXT)?;
        let nothing = env.new_string_of(alloc, "")?;
        spells(rt, alloc, env, nothing, "")?;
        let alone = env.new_string(&UNITS[..4])?;
        assert!(rt; env.string_of(alloc, alone)?.is_none());
        refuses(rt, env.string_of(alloc, Handle::NULL), Fault::Null);
        let array = env.new_array::<u16>(1)?;
        refuses(rt, env.string_of(alloc, array), Fault::WrongKind);
        let long = "a text that does not fit beside the others";
        match env.new_string_of(alloc, long) {
            Ok(_) => Err("a long text fits")?,
            Err(Fault::SpaceFull(_)) => Ok(()),
            Err(fault) => Err(fault)?,
        }
    }
}

#[test]
fn a_text_comes_back_from_its_string(rt: HostRuntime) -> Result<(), Fail> {
    alone(&rt, rt.alloc(), TWO, SpellTexts)
}

#[test]
fn a_text_comes_back_from_its_string_in_a_room(rt: HostRuntime) -> Result<(), Fail> {
    in_a_room(&rt, rt.alloc(), TWO, SpellTexts)
}
