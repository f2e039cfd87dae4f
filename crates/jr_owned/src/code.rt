//! Threads that were spawned, each with an env of its own in the room that they own together, and an end of one queue of notes.
ghost use Rattle.std.specs.Prelude.{◌≡◌, ◌⊎◌, ◌↔◌, ◌++◌, All, List, Some, length, map, true, false, IfOk, IfErr, MatchResult};
ghost use Rattle.jr_rule.specs.declared.pass.Pass.{Pass as PassOf};
ghost use Rattle.std.specs.Arc.{arc_value};
ghost use Rattle.jr_word.specs.declared.fault.Fault.TheVariants.{Memory, Size};
ghost use Rattle.jr_word.specs.Config.{in_limits};
ghost use Rattle.jr_model.specs.declared.event.Role.TheVariants.{Outside};
ghost use Rattle.jr_rule.specs.Passes.{known_of, IsOpened};
ghost use Rattle.jr_owned.specs.Started.{AreFirstStarted, AreStarted};

use crate::LAST;
use crate::envs::env_over;
use crate::owned::owned_steps;
use crate::site::{OwnedStepsOf, of_site};
use jr_env::Env;
use jr_rule::{Pass, Room, Site};
use jr_steps::Steps;
use jr_threads::{HandedOn, NoteQueue, QueueEnd};
use jr_word::{Config, Fault};
use std::alloc::{AllocError, Global};
use std::marker::Brand;
use std::snapshot::Snapshot;
use std::sync::Arc;
use std::thread;
use std::thread::{Promise, PromisedHandle, Threads};

/// What each of the threads runs that own a room together, over its env.
///
/// It may tell what it answers: `tells` is what holds of the room, the thread's number and its answer. By default it tells nothing. Whoever joins a thread of `spawn_owned` knows it of the answer.
pub trait OwnedCode: Drop {
    ghost use Rattle.std.specs.Prelude.{◌≡◌, ℕ, Option};
    ghost use Rattle.atomic_table.specs.Seated.{TableId};
    ghost use Rattle.jr_model.specs.Frames.{fresh_frames};
    ghost use Rattle.jr_env.specs.Envs.{IsOutside};
    ghost use Rattle.jr_rule.specs.Over.{facts_over};

    /// What a thread hands on beside a note, as a handle.
    type Message: HandedOn;

    /// What a thread answers at its end.
    type Answer: Drop;

    /// How many messages may lie between the threads at a time, at least 1.
    const PLACES: usize = 64;

    ghost tells: { Self → Option TableId → ℕ → Self.Answer → Type 0 } = { λ code room thread answer. Unit {0} };

    /// Runs in the thread of this number, from 0 upward, with its env and its end of the queue. The env stands outside and has no local reference.
    /// All threads of the room share the queue, and the type `Q` stands for their room. So a note of the queue is one of this room, and `learn` has no condition.
    fn run<Q: Site>(
        &self,
        thread: u8,
        env: Env<OwnedStepsOf<Q>>,
        queue: &mut QueueEnd<'_, Self::Message, Q>,
    ) -> Self::Answer
        requires outside { IsOutside env }
        requires number { (facts_over env.held.steps).stands.thread ≡ thread }
        requires frames { env.held.frames.frames ≡ fresh_frames (facts_over env.held.steps).stands.config.locals }
        ensures told { tells self.now Q.room thread result };
}

/// What a thread that was started promises: its answer is what the code tells, of the room and the thread of this pass.
#[derive(Drop)]
pub struct RunsCode<C: OwnedCode> {
    /// The code, as it was handed in.
    pub code: Snapshot<C>,
    /// The thread's pass, as it was opened.
    pub pass: Snapshot<Pass>,
}

impl<C: OwnedCode> Promise<C::Answer> for RunsCode<C> {
    ghost kept_by = { λ p answer. C.tells p.code.value (Some p.pass.value.seat.table_id) (known_of p.pass.value).thread answer };
}

/// Threads that run the code, in the order of their numbers, each to be joined.
pub type OwnedThreads<C> = Vec<PromisedHandle<<C as OwnedCode>::Answer, RunsCode<C>>>;

/// What one thread is started with: its pass as it was opened, in the site's room.
#[derive(Drop)]
struct CodeJob<Q: Site, C: OwnedCode> {
    room: Arc<Room<LAST>>,
    pass: Pass,
    code: Arc<C>,
    queue: Arc<NoteQueue<C::Message, Q>>,
    ghost opened: { IsOpened (arc_value room).row pass },
    ghost site: { Some (arc_value room).row.table.shared.table_id ≡ Q.room },
}

impl<Q: Site, C: OwnedCode> CodeJob<Q, C> {
    /// Runs the code, in the thread that calls.
    fn run(self) -> C::Answer
        ensures { C.tells (arc_value self.code) (Some self.pass.seat.table_id) (known_of self.pass).thread result }
    {
        let CodeJob {
            room,
            pass,
            code,
            queue,
        } = self;
        let steps = of_site::<Q>(owned_steps(room, pass));
        let thread = steps.thread();
        let mut end = queue.end();
        code.run(thread, env_over(steps), &mut end)
    }
}

/// A queue for so many threads.
fn queue_for<Q: Site, C: OwnedCode>(
    alloc: Global,
    threads: usize,
) -> Result<Arc<NoteQueue<C::Message, Q>>, AllocError> {
    let queue = NoteQueue::new(alloc, C::PLACES, threads as u64)?;
    Ok(Arc::new(alloc, queue)?)
}

/// Starts the thread of a pass of the site's room, which owns the room from here on.
fn start<R: Threads, Q: Site + Send + Sync + 'static, C: OwnedCode + Send + Sync + 'static>(
    rt: &R,
    room: Arc<Room<LAST>>,
    pass: Pass,
    code: &Arc<C>,
    queue: &Arc<NoteQueue<C::Message, Q>>,
) -> Result<PromisedHandle<C::Answer, RunsCode<C>>, AllocError>
where
    C::Message: Send + 'static,
    C::Answer: Send + 'static,
    requires opened { IsOpened (arc_value room).row pass }
    requires site { Some (arc_value room).row.table.shared.table_id ≡ Q.room }
    ensures pass { IfOk result (λ h. h.promise.pass.value ≡ pass) }
    ensures code { IfOk result (λ h. h.promise.code.value ≡ arc_value code.now) }
{
    let promise = RunsCode {
        code: Snapshot::of(&**code),
        pass: Snapshot::of(&pass),
    };
    let job = CodeJob {
        room,
        pass,
        code: Arc::try_clone(code)?,
        queue: Arc::try_clone(queue)?,
    };
    Ok(thread::spawn_with(rt, promise, move || job.run())?)
}

/// Starts the thread of a pass of the site's room, which owns the room with whoever starts it.
fn start_beside<R: Threads, Q: Site + Send + Sync + 'static, C: OwnedCode + Send + Sync + 'static>(
    rt: &R,
    room: &Arc<Room<LAST>>,
    pass: Pass,
    code: &Arc<C>,
    queue: &Arc<NoteQueue<C::Message, Q>>,
) -> Result<PromisedHandle<C::Answer, RunsCode<C>>, AllocError>
where
    C::Message: Send + 'static,
    C::Answer: Send + 'static,
    requires opened { IsOpened (arc_value room.now).row pass }
    requires site { Some (arc_value room.now).row.table.shared.table_id ≡ Q.room }
    ensures pass { IfOk result (λ h. h.promise.pass.value ≡ pass) }
    ensures code { IfOk result (λ h. h.promise.code.value ≡ arc_value code.now) }
{
    start::<R, Q, C>(rt, Arc::try_clone(room)?, pass, code, queue)
}

/// Lets go the ends of threads that were not started, so that the queue is over without them.
fn let_go_ends<M: HandedOn, Q: Site>(queue: &NoteQueue<M, Q>, started: usize, threads: usize) {
    for _ in started..threads {
        drop(queue.end());
    }
}

/// Starts a thread for each pass of the site's room, in the same order. Where one can't be started, those before it are handed back. All memory but the threads' own is taken first.
fn start_each<R: Threads, Q: Site + Send + Sync + 'static, C: OwnedCode + Send + Sync + 'static>(
    rt: &R,
    alloc: Global,
    room: Room<LAST>,
    mut passes: Vec<Pass>,
    code: C,
) -> Result<OwnedThreads<C>, OwnedThreads<C>>
where
    C::Message: Send + 'static,
    C::Answer: Send + 'static,
    requires opened { All (λ p. IsOpened room.row p) passes.items }
    requires site { Some room.row.table.shared.table_id ≡ Q.room }
    ensures passes { MatchResult result (λ r. map (λ h. h.promise.pass.value) r.items ≡ passes.items) (λ r. (rest : List PassOf) × (map (λ h. h.promise.pass.value) r.items ++ rest ≡ passes.items)) }
    ensures codes { MatchResult result (λ r. All (λ h. h.promise.code.value ≡ code) r.items) (λ r. All (λ h. h.promise.code.value ≡ code) r.items) }
{
    let count = passes.len();
    let mut threads = Vec::new(alloc);
    let (Ok(()), Ok(room), Ok(code), Ok(queue)) = (
        threads.reserve(count),
        Arc::new(alloc, room),
        Arc::new(alloc, code),
        queue_for::<Q, C>(alloc, count),
    ) else {
        return Err(threads);
    };
    let Some(last) = passes.pop() else {
        return Ok(threads);
    };
    for pass in passes {
        let Ok(thread) = start_beside::<R, Q, C>(rt, &room, pass, &code, &queue) else {
            let_go_ends(&*queue, threads.len(), count);
            return Err(threads);
        };
        threads.push_reserved(thread);
    }
    // The last one gets the room itself: else all threads could end before it is let go here, and none would close it.
    let Ok(thread) = start::<R, Q, C>(rt, room, last, &code, &queue) else {
        let_go_ends(&*queue, threads.len(), count);
        return Err(threads);
    };
    threads.push_reserved(thread);
    Ok(threads)
}

/// Opens a room of these sizes, which its threads own together, and starts a thread for each of its envs, in the order of their numbers.
///
/// # Errors
///
/// E17 exactly where the sizes are beyond their limits; E16 where memory was refused, or a thread could not be started.
///
/// The threads that were started are handed back, those of the first numbers. They go on, and whoever joins one waits for its end.
/// Where each of them has ended before the room is let go here, none has closed it.
pub fn spawn_owned<R: Threads, C: OwnedCode + Send + Sync + 'static>(
    rt: &R,
    alloc: Global,
    config: Config,
    code: C,
) -> Result<OwnedThreads<C>, (OwnedThreads<C>, Fault)>
where
    C::Message: Send + 'static,
    C::Answer: Send + 'static,
    ensures size { MatchResult result (λ r. in_limits config ≡ true) (λ e. (e.1 ≡ Size) ↔ (in_limits config ≡ false)) }
    ensures memory { IfErr result (λ e. (e.1 ≡ Size) ⊎ (e.1 ≡ Memory)) }
    ensures count { IfOk result (λ r. length r.items ≡ config.threads) }
    ensures started { MatchResult result (λ r. AreStarted config (map (λ h. h.promise.pass.value) r.items)) (λ e. AreFirstStarted config (map (λ h. h.promise.pass.value) e.0.items)) }
    ensures codes { MatchResult result (λ r. All (λ h. h.promise.code.value ≡ code) r.items) (λ e. All (λ h. h.promise.code.value ≡ code) e.0.items) }
{
    let (room, passes) = match Room::<LAST>::open(alloc, config) {
        Ok(opened) => opened,
        Err(fault) => return Err((Vec::new(alloc), fault)),
    };
    match start_each::<R, Brand, C>(rt, alloc, room, passes, code) {
        Ok(threads) => Ok(threads),
        Err(threads) => Err((threads, Fault::Memory)),
    }
}
