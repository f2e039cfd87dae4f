//! By whom calls are made: with a watcher, who is told none of them since none is refused, or without, and in stays.

use crate::calls::{AnyCall, Apart, make_some};
use crate::stays::StayCase;
use jr_env::{Checked, Env, Explains, NativeInterface, Refusal, Watcher};
use jr_steps::Steps;
use jr_word::Handle;

/// How many calls are made in each of the stays.
const CALLS: usize = 16;

/// Counts what it is told.
#[derive(Drop)]
struct Counting(u64);

impl Watcher for Counting {
    ghost hears = { λ old new refusal. Unit {0} };

    fn refused(&mut self, _refusal: Refusal) {
        self.0 = self.0.wrapping_add(1);
    }
}

/// Keeps what it is told last.
#[derive(Drop)]
struct Keeping(Option<Refusal>);

impl Watcher for Keeping {
    ghost hears = { λ old new refusal. Unit {0} };

    fn refused(&mut self, refusal: Refusal) {
        self.0 = Some(refusal);
    }
}

/// By which name a watcher is told of the caller.
const NAME: &str = "bench";

/// Who is told the refusals of a stay.
#[derive(Clone, Copy)]
enum Told {
    Nobody,
    Counting,
    Keeping,
}

/// By whom a call is made.
#[derive(Clone, Copy)]
pub(crate) enum Caller {
    /// The env.
    Env,
    /// The env with a watcher who counts.
    CheckedEnv,
    /// The env with a name, and a watcher who keeps what it is told.
    NamedEnv,
    /// A stay.
    Stay,
    /// A stay with a watcher who counts.
    CheckedStay,
    /// A stay with a name, and a watcher who keeps what it is told.
    NamedStay,
    /// Stays of sixteen calls.
    Stays,
}

/// Which call is made, and by whom.
#[derive(Clone, Copy)]
pub(crate) struct CheckedCase {
    pub(crate) call: StayCase,
    pub(crate) caller: Caller,
}

impl CheckedCase {
    /// What its name has before the call's.
    pub(crate) fn before_name(self) -> &'static str {
        match self.caller {
            Caller::Env | Caller::Stay | Caller::Stays => "",
            Caller::CheckedEnv | Caller::CheckedStay => "checked:",
            Caller::NamedEnv | Caller::NamedStay => "named:",
        }
    }

    /// The call's name.
    pub(crate) fn name(self) -> &'static str {
        match self.caller {
            Caller::Env | Caller::CheckedEnv | Caller::NamedEnv => self.call.whole().name(),
            _ => self.call.name(),
        }
    }
}

/// Makes a call with each of the handles, by whom it is to be made: how often it answered as it should.
pub(crate) fn make_by<S: Steps, C: AnyCall + Copy>(
    env: &mut Env<S>,
    handed: &[Handle],
    caller: Caller,
    call: Apart<C>,
) -> usize {
    let Some(first) = handed.first() else {
        return 0;
    };
    match caller {
        Caller::Env => make_some(env, *first, handed, call),
        Caller::CheckedEnv => make_watched(env, *first, handed, call),
        Caller::NamedEnv => make_named(env, *first, handed, call),
        Caller::Stay => make_in_stay(env, *first, handed, call, Told::Nobody),
        Caller::CheckedStay => make_in_stay(env, *first, handed, call, Told::Counting),
        Caller::NamedStay => make_in_stay(env, *first, handed, call, Told::Keeping),
        Caller::Stays => make_in_stays(env, *first, handed, call),
    }
}

/// Makes a call with a watcher: 0 where that was told a refusal.
fn make_watched<S: Steps, N: NativeInterface<S> + Explains, C: AnyCall + Copy>(
    made: &mut N,
    first: Handle,
    handed: &[Handle],
    call: Apart<C>,
) -> usize {
    let mut checked = Checked::new(made, Counting(0));
    let right = make_some(&mut checked, first, handed, call);
    if checked.watcher().0 == 0 { right } else { 0 }
}

/// Makes a call by a caller with a name: 0 where a refusal was told.
fn make_named<S: Steps, N: NativeInterface<S> + Explains, C: AnyCall + Copy>(
    made: &mut N,
    first: Handle,
    handed: &[Handle],
    call: Apart<C>,
) -> usize {
    let mut checked = Checked::named(made, Keeping(None), NAME);
    let right = make_some(&mut checked, first, handed, call);
    if checked.watcher().0.is_none() {
        right
    } else {
        0
    }
}

/// Makes a call in one stay, with a watcher where that is asked for.
#[inline(always)]
fn make_in_stay<S: Steps, C: AnyCall + Copy>(
    env: &mut Env<S>,
    first: Handle,
    handed: &[Handle],
    call: Apart<C>,
    told: Told,
) -> usize {
    let Ok(mut stay) = env.stay() else {
        return 0;
    };
    let right = match told {
        Told::Nobody => make_some(&mut stay, first, handed, call),
        Told::Counting => make_watched(&mut stay, first, handed, call),
        Told::Keeping => make_named(&mut stay, first, handed, call),
    };
    stay.end();
    right
}

/// Makes a call in stays of sixteen.
fn make_in_stays<S: Steps, C: AnyCall + Copy>(
    env: &mut Env<S>,
    first: Handle,
    handed: &[Handle],
    call: Apart<C>,
) -> usize {
    let mut right = 0usize;
    for stay in 0..handed.len().div_ceil(CALLS) {
        let from = stay.saturating_mul(CALLS);
        let to = from.saturating_add(CALLS).min(handed.len());
        if let Some(some) = handed.get(from..to) {
            right = right.saturating_add(make_in_stay(env, first, some, call, Told::Nobody));
        }
    }
    right
}
