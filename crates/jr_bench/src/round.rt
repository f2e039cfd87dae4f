//! A round: threads of a room that start together, and each do their part of a job.

ghost use Rattle.jr_rule.specs.Passes.{IsOpened};
ghost use Rattle.jr_rule.specs.Sites.{IsSiteOf};

use crate::beside::Task;
use crate::case::{Case, Env, FrameCase};
use crate::collections::{Collections, Way};
use crate::notes::note_all;
use crate::owned;
use jr_env::NativeInterface;
use jr_rule::{Pass, Room, Site, SiteSteps, StepsIn, ThreadNumber};
use jr_steps::Steps;
use jr_word::{Config, LAST_SERIAL};
use std::alloc::Global;
use std::hint::spin_loop;
use std::marker::Brand;
use std::rt::Clock;
use std::sync::atomic::{AtomicBool, AtomicU64, Ordering};
use std::thread;
use std::thread::Threads;
use std::time::Instant;

/// How many words the arrays have.
const WORDS: u32 = 131_072;

/// How many objects and slots a room has whose marker is made, or which is collected, within what is measured.
const FEW_OBJECTS: u32 = 64;

const SOME_SLOTS: u32 = 4_096;

/// How often a thread looks whether the others have come.
const LOOKS: u32 = 1 << 30;

/// The most local references that stand for each thread, and the most objects in all.
const MOST_BESIDE: u32 = 2_000;

/// How often which call is made.
#[derive(Clone, Copy)]
pub(crate) struct Work {
    /// How many threads.
    pub(crate) threads: u32,
    /// How many references stand meanwhile.
    pub(crate) standing: u32,
    /// How often each thread makes the call.
    pub(crate) calls: u32,
}

/// What the threads of a round do.
#[derive(Clone, Copy)]
pub(crate) enum RoundKind {
    /// Each makes the same call.
    Calls(Case, Work),
    /// Each makes the same call, in a room that they own.
    Owned(Case, Work),
    /// Each notes what it has seen, and learns it.
    Notes(Work),
    /// One tries collections, and the others call without a break.
    Beside(Task),
    /// The one thread fills the room, and collects.
    Collects(Collections, Way),
}

/// What a thread did in a round. Times are in nanoseconds, from before the round on.
#[derive(Clone, Copy)]
pub(crate) struct Done {
    /// When it began.
    pub(crate) began: u128,
    /// When it ended.
    pub(crate) ended: u128,
    /// How long it ran.
    pub(crate) ran: u128,
    /// How often its calls answered as they should.
    pub(crate) right: usize,
    /// What its tries of collections came to.
    pub(crate) tries: u128,
}

impl Done {
    /// What a thread did that ran from the one time to the other.
    pub(crate) fn from_to(began: u128, ended: u128) -> Done {
        Done {
            began,
            ended,
            ran: ended.saturating_sub(began),
            right: 0,
            tries: 0,
        }
    }
}

/// What a thread of a round did, unless it gave up.
pub(crate) fn done_at(done: &[Option<Done>], thread: usize) -> Option<Done> {
    match done.get(thread) {
        Some(done) => *done,
        None => None,
    }
}

/// What the threads of a round tell each other.
#[derive(Drop)]
pub(crate) struct Signs {
    /// When the round began.
    began: Instant,
    /// How many have come.
    pub(crate) came: AtomicU64,
    /// Whether the tries have ended.
    pub(crate) ended: AtomicBool,
}

impl Signs {
    /// How many nanoseconds it is since the round began.
    pub(crate) fn now<R: Clock>(&self, rt: &R) -> Option<u128> {
        let now = Instant::now(rt).ok()?;
        Some(now.duration_since(self.began).as_nanos())
    }
}

/// Makes what stands beside the calls: this thread's part of the global references, local references unless all of them are to be freed, and before new objects its part of objects.
fn stand<S: Steps>(env: &mut Env<S>, case: Case, work: Work) -> Option<()> {
    let threads = work.threads.max(1);
    let object = env.new_plain().ok()?;
    for _ in 0..work.standing / threads {
        env.new_global_ref(object).ok()?;
    }
    let beside = work.standing.min(MOST_BESIDE);
    if !matches!(case, Case::Frames(FrameCase::FreeOne)) {
        for _ in 0..beside {
            env.new_local_ref(object).ok()?;
        }
    }
    if matches!(case, Case::NewPlain) {
        for _ in 0..beside / threads {
            let made = env.new_plain().ok()?;
            env.delete_local_ref(made).ok()?;
        }
    }
    Some(())
}

/// Says that a thread has come, and waits a while for the others: whether all came.
pub(crate) fn all_came(signs: &Signs, threads: u32) -> bool {
    signs.came.fetch_add(1, Ordering::SeqCst);
    for _ in 0..LOOKS {
        if signs.came.load(Ordering::SeqCst) >= u64::from(threads) {
            return true;
        }
        spin_loop();
    }
    false
}

/// A thread makes ready what it needs, waits for the others, and makes the calls.
pub(crate) fn call_all<R: Clock, S: Steps>(
    rt: &R,
    alloc: Global,
    env: &mut Env<S>,
    case: Case,
    work: Work,
    signs: &Signs,
) -> Option<Done> {
    let stands = stand(env, case, work);
    let handed = case.handed(env, alloc, work.calls);
    if !all_came(signs, work.threads) {
        return None;
    }
    let (Some(()), Some(handed)) = (stands, handed) else {
        return None;
    };
    let began = signs.now(rt)?;
    let right = case.make_all(env, alloc, &handed);
    let mut done = Done::from_to(began, signs.now(rt)?);
    done.right = right;
    Some(done)
}

impl RoundKind {
    /// The sizes of its room.
    fn config(self) -> Config {
        match self {
            RoundKind::Calls(Case::Others(_), work) => Config {
                threads: work.threads,
                slots: SOME_SLOTS,
                objects: FEW_OBJECTS,
                words: WORDS,
                locals: Config::MOST_LOCALS,
            },
            RoundKind::Calls(_, work) | RoundKind::Owned(_, work) | RoundKind::Notes(work) =>
                Config {
                    threads: work.threads,
                    slots: Config::MOST_SLOTS,
                    objects: Config::MOST_OBJECTS,
                    words: WORDS,
                    locals: Config::MOST_LOCALS,
                },
            RoundKind::Beside(task) => task.tries.config(),
            RoundKind::Collects(work, _) => work.config(),
        }
    }

    /// A thread does its part.
    fn act<Q: Site, R: Clock, S: StepsIn<Q>>(
        self,
        rt: &R,
        alloc: Global,
        env: &mut Env<S>,
        signs: &Signs,
    ) -> Option<Done> {
        match self {
            RoundKind::Calls(case, work) | RoundKind::Owned(case, work) => call_all(
                rt, alloc, env, case, work, signs,
            ),
            RoundKind::Notes(work) => note_all::<Q, R, S>(rt, env, work, signs),
            RoundKind::Beside(task) => task.act(rt, alloc, env, signs),
            RoundKind::Collects(work, way) => work.time_in(rt, alloc, env, way, signs),
        }
    }
}

/// What the site's thread does: its part, in an env of its own.
fn work_at<Q: Site, T: ThreadNumber, R: Clock>(
    rt: &R,
    alloc: Global,
    room: &Room<LAST_SERIAL>,
    pass: Pass,
    job: RoundKind,
    signs: &Signs,
) -> Option<Done>
    requires pass { IsOpened room.now.row pass }
    requires site { IsSiteOf Q.room Q.sizes T.number room.now pass }
{
    let steps = SiteSteps::<LAST_SERIAL, Q, T>::new(room, pass);
    let Ok(mut env) = Env::new(steps) else {
        return None;
    };
    job.act::<Q, R, _>(rt, alloc, &mut env, signs)
}

/// What one thread does.
fn work_one<R: Clock>(
    rt: &R,
    alloc: Global,
    room: &Room<LAST_SERIAL>,
    pass: Pass,
    job: RoundKind,
    signs: &Signs,
) -> Option<Done>
    requires { IsOpened room.now.row pass }
{
    work_at::<Brand, Brand, R>(rt, alloc, room, pass, job, signs)
}

/// A round in a room of its own: what each thread did.
pub(crate) fn round<R: Threads + Clock + Sync>(
    rt: &R,
    alloc: Global,
    job: RoundKind,
) -> Option<Vec<Option<Done>>> {
    let signs = Signs {
        began: Instant::now(rt).ok()?,
        came: AtomicU64::new(0),
        ended: AtomicBool::new(false),
    };
    if let RoundKind::Owned(case, work) = job {
        return owned::round(rt, alloc, job.config(), case, work, &signs);
    }
    let (room, passes) = Room::<LAST_SERIAL>::open(alloc, job.config()).ok()?;
    let (room, signs) = (&room, &signs);
    let work_each = |pass| work_one(rt, alloc, room, pass, job, signs);
    thread::map_vec(rt, passes, &work_each).ok()
}
