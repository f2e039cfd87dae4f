//! How often something is made again, and a closure that is called again.

ghost use Rattle.std.specs.Prelude.{◌≡◌};
ghost use Rattle.jr_env.specs.Tries.{is_worth_a_try, CalledAgain};

use crate::retrying::{is_made_again, is_short_of_room};
use jr_word::Fault;
use std::thread;

/// How often what is refused is made again, and for which refusals.
#[derive(Clone, Copy, Debug, PartialEq, Eq)]
pub struct Patience {
    /// How many more tries there may be behind the first.
    pub more: u64,
    /// Whether the thread yields before each of them, so that others may run meanwhile.
    pub yields: bool,
    /// Whether want of room (E10, E11) is worth another try too, since another thread may collect meanwhile.
    pub waits_for_room: bool,
}

impl Patience {
    ghost use Rattle.std.specs.Prelude.{◌≡◌, true, false, Err};
    ghost use Rattle.jr_env.specs.Tries.{is_worth_a_try};

    /// The patience for most programs: 4,194,304 more tries, each behind a yield, and none for want of room.
    pub const LONG: Patience = Patience {
        more: 4_194_304,
        yields: true,
        waits_for_room: false,
    };

    /// So many more tries, each behind a yield, and none for want of room.
    pub const fn of(more: u64) -> Patience
        ensures more { result.more ≡ more }
        ensures yields { result.yields ≡ true }
        ensures room { result.waits_for_room ≡ false }
    {
        Patience {
            more,
            ..Patience::LONG
        }
    }

    /// The same patience with no yield between two tries.
    pub const fn without_yields(self) -> Patience
        ensures more { result.more ≡ self.more }
        ensures yields { result.yields ≡ false }
        ensures room { result.waits_for_room ≡ self.waits_for_room }
    {
        Patience {
            yields: false,
            ..self
        }
    }

    /// The same patience for want of room too.
    pub const fn waiting_for_room(self) -> Patience
        ensures more { result.more ≡ self.more }
        ensures yields { result.yields ≡ self.yields }
        ensures room { result.waits_for_room ≡ true }
    {
        Patience {
            waits_for_room: true,
            ..self
        }
    }

    /// Whether a refusal is worth another try.
    fn is_for_later(self, fault: Fault) -> bool
        ensures { result ≡ is_worth_a_try {A = Unit {0}} self.waits_for_room (Err fault) }
    {
        let refused = Err::<(), Fault>(fault);
        is_made_again(&refused) || self.waits_for_room && is_short_of_room(&refused)
    }

    /// Lets others run before the next try, where that is wanted.
    pub(crate) fn pause(self) {
        if self.yields {
            thread::yield_now();
        }
    }
}

/// Calls a closure, and again as long as its answer is worth another try, but no more often than there is patience for. The last answer is the answer.
/// It is for what is more than one call of an env, and for calls that open a region or a stay or copy elements.
///
/// What it is handed may be an env, a stay, or anything else. Each call begins with what the one before left there, and with what that left of the closure.
///
/// # Errors
///
/// Those of the closure at its last call.
///
/// What stands then is what the calls leave.
///
/// # Operations
///
/// Those of each call of the closure.
pub fn with_patience<E, T, F: FnMut(&mut E) -> Result<T, Fault>>(
    env: &mut E,
    patience: Patience,
    mut body: F,
) -> Result<T, Fault>
    requires { F.IsAlwaysCallable body }
    ensures { (left : F) × CalledAgain F.FnMut patience.waits_for_room patience.more (body, env.old) result (left, env.new) }
{
    for _ in 0..patience.more {
        match body(env) {
            Ok(made) => return Ok(made),
            Err(fault) => {
                if !patience.is_for_later(fault) {
                    return Err(fault);
                }
                patience.pause();
            }
        }
    }
    body(env)
}
