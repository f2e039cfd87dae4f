//! The envs that arrays are made and read in, what their calls refuse, and words that are no reference.
ghost use Rattle.std.specs.Prelude.{◌≡◌, All};
ghost use Rattle.jr_model.specs.declared.event.Role.TheVariants.{Outside};
ghost use Rattle.jr_rule.specs.Passes.{IsOpened};

use assertions::assert_same;
use jr_env::{Env, NativeInterface};
use jr_fixtures::{LAST, closed, next_pass};
use jr_model::Summary;
use jr_rule::{Pass, Room};
use jr_steps::{Role, Steps};
use jr_word::{Config, Elem, Fault, Handle};
use std::fmt::Debug;
use std::process::Abort;
use std::test::Fail;

/// Two threads with four slots and 16 local places each, eight objects, and 32 words for their elements.
pub(crate) const TWO: Config = Config {
    threads: 2,
    slots: 4,
    objects: 8,
    words: 32,
    locals: 16,
};

/// Malformed: all ones.
pub(crate) const ONES: Handle = Handle(u64::MAX);

/// Local, of thread 1, with serial 0 at the first place.
pub(crate) const FOREIGN: Handle = Handle(0x4_0000_0000_0001);

/// The env of a thread whose pass was not used.
pub(crate) fn env_of<S: Steps + Drop>(steps: S) -> Result<Env<S>, Fail>
    requires { (S.facts steps).stands.role ≡ Outside }
{
    match Env::new(steps) {
        Ok(env) => Ok(env),
        Err((_, fault)) => Err(fault)?,
    }
}

/// Checks what stands in a room that is closed with the last of the passes.
pub(crate) fn leaves(rt: &impl Abort, room: Room<LAST>, passes: Vec<Pass>, wanted: Summary)
    requires { All (λ p. IsOpened room.row p) passes.items }
{
    let mut passes = passes;
    let left = match next_pass(&room, &mut passes) {
        Ok(pass) => closed(room, pass),
        Err(_) => None,
    };
    assert_same!(rt; left, Some(wanted));
}

/// Checks that a call was refused so.
pub(crate) fn refuses<A>(rt: &impl Abort, answer: Result<A, Fault>, fault: Fault) {
    match answer {
        Ok(_) => panic!(rt; "wanted {fault:?}, and a call is not refused"),
        Err(refusal) => assert_same!(rt; refusal, fault),
    }
}

/// Checks that the thread is outside the gate, and that its calls are made.
pub(crate) fn is_outside<S: Steps>(rt: &impl Abort, env: &mut Env<S>) {
    assert_same!(rt; env.held.steps.role(), Role::Outside);
    assert_same!(rt; env.get_object_ref_type(Handle::NULL), Ok(0));
}

/// Checks that elements are the same.
pub(crate) fn are_alike<E: Elem + PartialEq + Debug>(rt: &impl Abort, found: &[E], wanted: &[E]) {
    assert_same!(rt; found, wanted);
}

/// The array has these elements from an index on.
pub(crate) fn has_elements<S: Steps, E: Elem + PartialEq + Debug>(
    rt: &impl Abort,
    env: &mut Env<S>,
    array: Handle,
    start: u32,
    found: &mut [E],
    wanted: &[E],
) -> Result<(), Fail> {
    env.get_array_region(array, start, found)?;
    are_alike(rt, &*found, wanted);
    Ok(())
}
