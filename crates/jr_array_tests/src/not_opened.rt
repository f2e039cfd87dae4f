//! Regions that are not opened.

use assertions::assert_same;
use jr_env::Env;
use jr_model::Mode;
use jr_steps::Steps;
use jr_word::{Fault, Handle};
use std::process::Abort;

/// With what a region over an array is refused; one that is opened is ended at once.
fn array_refused<S: Steps>(rt: &impl Abort, env: &mut Env<S>, word: Handle) -> Option<Fault> {
    match env.get_array_critical(word) {
        Ok(region) => {
            match region.release(Mode::Copy) {
                None => {}
                Some(_) => panic!(rt; "a level is left"),
            }
            None
        }
        Err(fault) => Some(fault),
    }
}

/// The same of a region over a string.
fn string_refused<S: Steps>(rt: &impl Abort, env: &mut Env<S>, word: Handle) -> Option<Fault> {
    match env.get_string_critical(word) {
        Ok(region) => {
            match region.release(Mode::Copy) {
                None => {}
                Some(_) => panic!(rt; "a level is left"),
            }
            None
        }
        Err(fault) => Some(fault),
    }
}

/// Checks with what a region over an array is refused, if it is.
pub(crate) fn opens_array<S: Steps>(
    rt: &impl Abort,
    env: &mut Env<S>,
    word: Handle,
    wanted: Option<Fault>,
) {
    assert_same!(rt; array_refused(rt, env, word), wanted);
}

/// The same of a region over a string.
pub(crate) fn opens_string<S: Steps>(
    rt: &impl Abort,
    env: &mut Env<S>,
    word: Handle,
    wanted: Option<Fault>,
) {
    assert_same!(rt; string_refused(rt, env, word), wanted);
}
