//! One run of a case: its threads, of which one goes at a time, and the machine beside them.

use crate::case::{EnvCall, Name};
use crate::machine::{Machine, Verdict, add, at, at_or, must, put_at};
use crate::schedule::{Schedule, bit};
use crate::seen::Answer;
use crate::step::Step;
use jr_word::Handle;
use std::alloc::Global;
use std::hint::spin_loop;
use std::sync::atomic::{AtomicU64, Ordering};
use std::sync::{Mutex, Wait};

/// How often a thread looks for its turn before it sleeps. Yields between the looks would be worse: beside other work each gives a whole slice of time away.
const LOOKS: u32 = 100;

/// How often it looks at most, with a sleep behind each further look.
const TURNS: u32 = 1_000_100;

/// Where a thread is.
#[derive(Clone, Copy)]
pub(crate) enum Stage {
    /// It makes ready what it needs.
    Ready,
    /// It was handed the turn, and has not taken its step.
    Handed,
    /// It has taken its step.
    Stepped,
}

/// What the threads of a run share. Who has the turn changes it, and nobody else.
#[derive(Drop)]
pub(crate) struct State {
    /// The order of steps: none where each was tried, or none has come yet.
    pub(crate) schedule: Option<Schedule>,
    /// The sequential machine.
    pub(crate) machine: Machine,
    /// Where each thread is that is to call.
    pub(crate) stages: Vec<Stage>,
    /// The last reference that each made by its calls.
    pub(crate) own: Vec<Option<Handle>>,
    /// The references that were made ready.
    pub(crate) ready: Vec<Handle>,
    /// The threads that have steps left, a bit each.
    pub(crate) could: u8,
    /// What is wrong, if anything is.
    pub(crate) wrong: Option<&'static str>,
}

/// A run of a case.
#[derive(Drop)]
pub(crate) struct Run {
    pub(crate) state: Mutex<State>,
    /// A word for each thread: 1 where it is handed the turn.
    pub(crate) turns: Vec<AtomicU64>,
}

impl Run {
    /// The word of a thread.
    fn turn(&self, thread: u8) -> Option<&AtomicU64> {
        self.turns.get(usize::from(thread))
    }

    /// Hands the turn to a thread: whether there is such a thread.
    fn hand<R: Wait>(&self, rt: &R, thread: u8) -> bool {
        let Some(turn) = self.turn(thread) else {
            return false;
        };
        turn.store(1, Ordering::SeqCst);
        turn.wake_one();
        true
    }

    /// The run begins, in this order of steps. Where there is none its threads leave it out.
    pub(crate) fn begin<R: Wait>(&self, rt: &R, schedule: Option<Schedule>) {
        self.state.lock(rt).schedule = schedule;
        self.hand(rt, 0);
    }
}

impl State {
    /// Notes what is wrong first.
    fn note(&mut self, verdict: Verdict) {
        if let (Err(wrong), None) = (verdict, self.wrong) {
            self.wrong = Some(wrong);
        }
    }

    /// Who goes next.
    fn pick(&mut self) -> Option<u8> {
        let could = self.could;
        let picked = match &mut self.schedule {
            Some(schedule) => schedule.pick(could),
            None => Ok(None),
        };
        match picked {
            Ok(next) => next,
            Err(wrong) => {
                self.note(Err(wrong));
                None
            }
        }
    }

    /// The stage of a thread, which is at another one from now on.
    fn go_to(&mut self, thread: u8, stage: Stage) -> Stage {
        let before = self.stage(thread);
        put_at(&mut self.stages, usize::from(thread), stage);
        before
    }

    /// The stage of a thread.
    fn stage(&self, thread: u8) -> Stage {
        at_or(&self.stages, usize::from(thread), Stage::Ready)
    }

    /// A thread has made ready what it needs: who goes next.
    fn is_ready(&mut self, thread: u8) -> Option<u8> {
        self.go_to(thread, Stage::Handed);
        self.could |= bit(thread);
        let next = thread.saturating_add(1);
        if usize::from(next) < self.stages.len() {
            return Some(next);
        }
        self.pick()
    }

    /// A thread has made all its calls: who goes next.
    fn is_done(&mut self, thread: u8) -> Option<u8> {
        self.could &= !bit(thread);
        self.pick()
    }

    /// A thread is about to take a step: who goes next.
    fn steps(&mut self, thread: u8) -> Option<u8> {
        match self.go_to(thread, Stage::Stepped) {
            Stage::Ready => {
                self.go_to(thread, Stage::Ready);
                Some(thread)
            }
            Stage::Handed => Some(thread),
            Stage::Stepped => self.pick(),
        }
    }

    /// A thread takes a step, with its reply.
    fn take(&mut self, thread: u8, step: Step) {
        if self.wrong.is_none() {
            let verdict = self.machine.take(thread, step);
            self.note(verdict);
        }
    }

    /// A call of a thread has answered.
    fn answer(&mut self, thread: u8, call: EnvCall, answer: Answer) {
        if self.wrong.is_none() {
            let verdict = self.machine.answers(thread, call, answer);
            self.note(verdict);
        }
        if let Answer::Made(handle) = answer {
            self.keep(thread, handle);
        }
    }

    /// Keeps a reference that a thread made.
    fn keep(&mut self, thread: u8, handle: Handle) {
        match self.stage(thread) {
            Stage::Ready => {
                let verdict = add(&mut self.ready, handle);
                self.note(verdict);
            }
            _ => put_at(&mut self.own, usize::from(thread), Some(handle)),
        }
    }

    /// The order of the next run: none where something is wrong, or each was tried.
    fn following(&mut self, alloc: Global) -> Option<Schedule> {
        let (Some(schedule), None) = (&self.schedule, self.wrong) else {
            return None;
        };
        match schedule.following(alloc) {
            Ok(following) => following,
            Err(wrong) => {
                self.note(Err(wrong));
                None
            }
        }
    }

    /// The handle that a name means for a thread.
    fn handle(&self, thread: u8, name: Name) -> Option<Handle> {
        match name {
            Name::Own => at_or(&self.own, usize::from(thread), None),
            Name::Ready(number) => at(&self.ready, number),
        }
    }
}

/// A thread's side of a run.
#[derive(Drop)]
pub(crate) struct Baton<'r, 'a, R: Wait> {
    rt: &'r R,
    run: &'a Run,
    /// The run behind this one, which the same threads go through.
    next: Option<&'a Run>,
    thread: u8,
}

impl<'r, 'a, R: Wait> Baton<'r, 'a, R> {
    /// The side of a thread, which waits for its turn to make ready what it needs.
    pub(crate) fn new(rt: &'r R, run: &'a Run, next: Option<&'a Run>, thread: u8) -> Self {
        let baton = Baton {
            rt,
            run,
            next,
            thread,
        };
        baton.wait();
        baton
    }

    /// Waits until the thread is handed the turn.
    fn wait(&self) {
        let Some(turn) = self.run.turn(self.thread) else {
            return;
        };
        for look in 0..TURNS {
            if turn.swap(0, Ordering::SeqCst) != 0 {
                return;
            }
            if look < LOOKS {
                spin_loop();
            } else {
                turn.park(self.rt, 0);
            }
        }
    }

    /// Hands the turn to a thread.
    fn hand(&self, next: Option<u8>) {
        if let Some(next) = next {
            self.run.hand(self.rt, next);
        }
    }

    /// The run behind this one begins, in this order.
    fn begin_next(&self, schedule: Option<Schedule>) {
        if let Some(next) = self.next {
            next.begin(self.rt, schedule);
        }
    }

    /// Whether an order is left for the run. Where none is, the next thread learns so, and behind the last one the next run.
    pub(crate) fn is_on(&self) -> bool {
        if self.run.state.lock(self.rt).schedule.is_some() {
            return true;
        }
        if !self.run.hand(self.rt, self.thread.saturating_add(1)) {
            self.begin_next(None);
        }
        false
    }

    /// The run is at its end.
    pub(crate) fn end(&self, alloc: Global) {
        let following = self.run.state.lock(self.rt).following(alloc);
        self.begin_next(following);
    }

    /// Hands the turn to a thread, and waits for it to come back; goes on where it is this thread.
    fn hand_on(&self, next: Option<u8>) {
        if next != Some(self.thread) && next.is_some() {
            self.hand(next);
            self.wait();
        }
    }

    /// All is ready: from now on each step waits for its turn.
    pub(crate) fn be_ready(&self) {
        let next = self.run.state.lock(self.rt).is_ready(self.thread);
        self.hand_on(next);
    }

    /// The thread has made all its calls: whether all others have, too.
    pub(crate) fn be_done(&self) -> bool {
        let next = self.run.state.lock(self.rt).is_done(self.thread);
        self.hand(next);
        next.is_none()
    }

    /// How many references calls answered.
    pub(crate) fn answers(&self) -> usize {
        self.run.state.lock(self.rt).machine.handles.len()
    }

    /// One of the references that calls answered, with the type that it has.
    pub(crate) fn answer(&self, number: usize) -> Option<(Handle, u8)> {
        let state = self.run.state.lock(self.rt);
        let handle = at(&state.machine.handles, number)?;
        Some((handle, state.machine.type_of(handle)))
    }

    /// Whether a look after all calls found what it was to find.
    pub(crate) fn looked(&self, is_right: bool) {
        let verdict = must(is_right, "a reference had another type after the run");
        self.run.state.lock(self.rt).note(verdict);
    }

    /// Before a step: waits until it is the turn of this thread.
    pub(crate) fn before(&self) {
        let next = self.run.state.lock(self.rt).steps(self.thread);
        self.hand_on(next);
    }

    /// After a step: the machine takes it too.
    pub(crate) fn after(&self, step: Step) {
        self.run.state.lock(self.rt).take(self.thread, step);
    }

    /// The handle that a name means.
    pub(crate) fn handle(&self, name: Name) -> Option<Handle> {
        self.run.state.lock(self.rt).handle(self.thread, name)
    }

    /// A call has answered.
    pub(crate) fn answered(&self, call: EnvCall, answer: Answer) {
        self.run
            .state
            .lock(self.rt)
            .answer(self.thread, call, answer);
    }
}
