//! Every order of the steps of a case, one run each.
ghost use Rattle.std.specs.Prelude.{◌≡◌, All, IfSome};
ghost use Rattle.jr_model.specs.declared.event.Role.TheVariants.{Outside};
ghost use Rattle.jr_rule.specs.Passes.{IsOpened};

use crate::case::{Case, EnvCall};
use crate::machine::{Machine, NO_MEMORY, add, must};
use crate::play::play;
use crate::run::{Baton, Run, Stage, State};
use crate::schedule::{Choice, Schedule};
use crate::scheduled::Scheduled;
use jr_env::Env;
use jr_model::Summary;
use jr_rule::{Pass, Room, RoomSteps};
use jr_steps::Steps;
use std::alloc::Global;
use std::sync::atomic::AtomicU64;
use std::sync::{Mutex, Wait};
use std::thread;
use std::thread::Threads;

/// The last serial of a slot and of a local place: two handles each.
const LAST: u32 = 1;

/// How many runs the same threads go through, each in a room of its own. A thread costs more than a run.
const RUNS: u32 = 64;

/// What is wrong, and after which order of steps.
#[derive(Drop)]
pub(crate) struct Wrong {
    /// What is wrong.
    pub(crate) what: &'static str,
    /// Who went, step by step.
    pub(crate) order: Vec<Choice>,
}

/// A thread's part in a run: its steps in the room of that run.
#[derive(Drop)]
struct Seat<'a, S: Steps + Drop> {
    steps: S,
    run: &'a Run,
    /// The run behind this one.
    next: Option<&'a Run>,
    ghost outside: { (S.facts steps).stands.role ≡ Outside },
}

/// What each thread goes through, the first run last.
type Seats<'a> = Vec<Vec<Seat<'a, RoomSteps<'a, LAST>>>>;

/// A thread's part in a run, in an env of its own.
fn play_by<R: Wait, S: Steps + Drop>(rt: &R, alloc: Global, case: &Case, seat: Seat<'_, S>) {
    let Seat { steps, run, next } = seat;
    let thread = steps.thread();
    let baton = Baton::new(rt, run, next, thread);
    if !baton.is_on() {
        return;
    }
    let at = usize::from(thread);
    let ready = calls_at(case.ready, at);
    let calls = calls_at(case.calls, at);
    if let Ok(mut env) = Env::new(Scheduled { steps, baton }) {
        play(&mut env, alloc, ready, calls);
    }
}

/// One thread, in each run.
fn play_each<R: Wait, S: Steps + Drop>(
    rt: &R,
    alloc: Global,
    case: &Case,
    mut seats: Vec<Seat<'_, S>>,
) {
    for _ in 0..seats.len() {
        if let Some(seat) = seats.pop() {
            play_by(rt, alloc, case, seat);
        }
    }
}

/// The calls of a thread.
fn calls_at(calls: &'static [&'static [EnvCall]], thread: usize) -> &'static [EnvCall] {
    match calls.get(thread) {
        Some(calls) => *calls,
        None => &[],
    }
}

/// The last of the passes of a room, none of which has stepped.
fn take_last(room: &Room<LAST>, passes: &mut Vec<Pass>) -> Option<Pass>
    requires { All (λ p. IsOpened room.now.row p) passes.old.items }
    ensures rest { All (λ p. IsOpened room.now.row p) passes.new.items }
    ensures taken { IfSome result (λ p. IsOpened room.now.row p) }
{
    passes.pop()
}

/// What stands in a room that is closed with a pass.
fn closed(room: Room<LAST>, pass: Option<Pass>) -> Option<Summary>
    requires { IfSome pass (λ p. IsOpened room.row p) }
{
    room.close(pass?).ok()
}

/// What the threads of a run share, before the first step.
fn start(alloc: Global, case: &Case) -> Result<Run, &'static str> {
    let mut turns = Vec::new(alloc);
    let mut stages = Vec::new(alloc);
    let mut own = Vec::new(alloc);
    for _ in 0..case.threads() {
        add(&mut turns, AtomicU64::new(0))?;
        add(&mut stages, Stage::Ready)?;
        add(&mut own, None)?;
    }
    let state = State {
        schedule: None,
        machine: Machine::new(alloc, case.config(), LAST)?,
        stages,
        own,
        ready: Vec::new(alloc),
        could: 0,
        wrong: None,
    };
    Ok(Run {
        state: Mutex::new(state),
        turns,
    })
}

/// The threads, none with a part in a run yet.
fn no_seats<'a>(alloc: Global, case: &Case) -> Result<Seats<'a>, &'static str> {
    let mut seats = Vec::new(alloc);
    for _ in 0..case.threads() {
        seats.push(Vec::new(alloc)).map_err(|_| NO_MEMORY)?;
    }
    Ok(seats)
}

/// A thread's part in a run, by its pass.
fn seated<'a>(
    room: &'a Room<LAST>,
    pass: Pass,
    run: &'a Run,
    next: Option<&'a Run>,
) -> Seat<'a, RoomSteps<'a, LAST>>
    requires { IsOpened room.now.row pass }
{
    Seat {
        steps: RoomSteps::new(room, pass),
        run,
        next,
    }
}

/// Gives each thread its part in a run, which comes before those that it has.
fn give_seats<'a>(
    room: &'a Room<LAST>,
    passes: Vec<Pass>,
    run: &'a Run,
    next: Option<&'a Run>,
    mut seats: Seats<'a>,
) -> Result<Seats<'a>, &'static str>
    requires { All (λ p. IsOpened room.now.row p) passes.items }
{
    for pass in passes {
        let seat = seated(room, pass, run, next);
        if let Some(own) = seats.get_mut(usize::from(seat.steps.thread())) {
            own.push(seat).map_err(|_| NO_MEMORY)?;
        }
    }
    Ok(seats)
}

/// What some runs came to.
#[derive(Drop)]
struct Played {
    /// How many there were.
    count: u64,
    /// The order of the last, none where each order was tried before it.
    last: Option<Schedule>,
}

/// Something is wrong, in no order of steps.
fn nothing(alloc: Global, what: &'static str) -> Wrong {
    Wrong {
        what,
        order: Vec::new(alloc),
    }
}

/// A case, and with what it is run.
#[derive(Clone, Copy)]
struct Exploring<'r, R: Threads + Wait + Sync> {
    rt: &'r R,
    alloc: Global,
    case: &'r Case,
}

impl<'r, R: Threads + Wait + Sync> Exploring<'r, R> {
    /// The threads go through their runs, the first of which has this order.
    fn play_all(
        &self,
        first: Option<&Run>,
        schedule: Schedule,
        seats: Seats<'_>,
    ) -> Result<Played, Wrong> {
        let Exploring { rt, alloc, case } = *self;
        if let Some(first) = first {
            first.begin(rt, Some(schedule));
        }
        let play = |seats| play_each(rt, alloc, case, seats);
        match thread::map_vec(rt, seats, &play) {
            Ok(_) => Ok(Played {
                count: 0,
                last: None,
            }),
            Err(_) => Err(nothing(alloc, NO_MEMORY)),
        }
    }

    /// Goes through so many further runs before those of which the threads have a part, each in a room of its own and in the order behind that of the run before.
    fn play_runs(
        &self,
        left: u32,
        schedule: Schedule,
        next: Option<&Run>,
        seats: Seats<'_>,
    ) -> Result<Played, Wrong> {
        if left == 0 {
            return self.play_all(next, schedule, seats);
        }
        let Exploring { rt: _, alloc, case } = *self;
        let run = start(alloc, case).map_err(|what| nothing(alloc, what))?;
        let Ok((room, mut passes)) = Room::<LAST>::open(alloc, case.config()) else {
            return Err(nothing(alloc, NO_MEMORY));
        };
        let closing = take_last(&room, &mut passes);
        let seats = give_seats(&room, passes, &run, next, seats).map_err(|what| nothing(
            alloc, what,
        ))?;
        let before = self.play_runs(left - 1, schedule, Some(&run), seats)?;
        let Run { state, turns: _ } = run;
        ended(before.count, state.into_inner(), closed(room, closing))
    }
}

/// What runs came to, of which the last ended in this state, and its room closed with this.
fn ended(before: u64, state: State, summary: Option<Summary>) -> Result<Played, Wrong> {
    let State {
        schedule,
        machine,
        wrong,
        ..
    } = state;
    let Some(schedule) = schedule else {
        return Ok(Played {
            count: before,
            last: None,
        });
    };
    let verdict = match wrong {
        Some(wrong) => Err(wrong),
        None => must(
            summary == Some(machine.summary()),
            "the room closed with other things than stood",
        ),
    };
    match verdict {
        Ok(()) => Ok(Played {
            count: before.saturating_add(1),
            last: Some(schedule),
        }),
        Err(what) => Err(Wrong {
            what,
            order: schedule.choices,
        }),
    }
}

/// Runs a case in every order of its steps: how many there are.
pub(crate) fn explore<R: Threads + Wait + Sync>(
    rt: &R,
    alloc: Global,
    case: &Case,
) -> Result<u64, Wrong> {
    let exploring = Exploring { rt, alloc, case };
    let mut schedule = Schedule::new(Vec::new(alloc));
    let mut count = 0u64;
    for _ in 0..u64::MAX {
        let seats = no_seats(alloc, case).map_err(|what| nothing(alloc, what))?;
        let played = exploring.play_runs(RUNS, schedule, None, seats)?;
        count = count.saturating_add(played.count);
        let Some(last) = played.last else {
            return Ok(count);
        };
        match last.following(alloc).map_err(|what| nothing(alloc, what))? {
            Some(next) => schedule = next,
            None => return Ok(count),
        }
    }
    Ok(count)
}
