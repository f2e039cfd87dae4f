//! Notes between threads that own their room: each thread takes over the array that its neighbour sent by a queue, with a note of it.
//! It tells what it answers, and whoever joins it knows that by contract. No file of proofs is written here.
ghost use Rattle.std.specs.Prelude.{◌≡◌, IfOk, IfSome};
ghost use Rattle.jr_steps.specs.declared.known.Known.{Known};
ghost use Rattle.jr_rule.specs.Passes.{known_of, Closes};

use crate::owners::{AT_THE_END, THREE, closed_by_one, shares, takes_over};
use jr::{
    Env, Fault, HandedOn, Handle, NoMessage, NoteOf, OwnedCode, OwnedStepsOf, Patience, QueueEnd,
    RunsCode, Site, StepsIn, Summary, close_owned, of_any_site, spawn_owned, with_patience,
};
use std::test::Fail;
use std::thread::{PromisedHandle, Threads};

/// A global reference, and the number of the thread that sent it.
#[derive(Clone, Copy)]
struct Sent {
    from: u8,
    shared: Handle,
}

impl HandedOn for Sent {}

/// Each thread sends an array, and takes over the one that its neighbour sent.
#[derive(Drop)]
struct TakesOver;

/// What came of a thread: its number, the length of the array that it took over, and the summary where it closed the room.
#[derive(Drop)]
struct Ended {
    thread: u8,
    length: u32,
    closed: Option<Summary>,
}

/// Puts a message with its note, as soon as there is room.
fn puts<Q: Site>(queue: &QueueEnd<'_, Sent, Q>, sent: Sent, note: NoteOf<Q>) -> Result<(), Fault> {
    queue
        .retry_put(sent, note, Patience::LONG)
        .map_err(|_| Fault::Turns)
}

/// The oldest message with its note, where the thread of this number sent it. What another sent is put back: E13, as where none is there yet.
fn takes<Q: Site>(queue: &QueueEnd<'_, Sent, Q>, from: u8) -> Result<(Sent, NoteOf<Q>), Fault> {
    match queue.take() {
        Ok((sent, note)) if sent.from == from => Ok((sent, note)),
        Ok((sent, note)) => {
            puts(queue, sent, note)?;
            Err(Fault::Barred)
        }
        Err(NoMessage::Yet) => Err(Fault::Barred),
        Err(NoMessage::More) => Err(Fault::Turns),
    }
}

/// What the thread of this number sent, with its note, once it is there.
fn taken<Q: Site>(queue: &QueueEnd<'_, Sent, Q>, from: u8) -> Result<(Sent, NoteOf<Q>), Fault> {
    with_patience(&mut (), Patience::LONG, |_| takes(queue, from))
}

/// Learns a note of its own, which is pinned, and which no other thread has.
fn learns_pinned<Q: Site, S: StepsIn<Q>>(env: &mut Env<S>) -> Result<(), Fault> {
    let pinned = env.pin();
    if env.learn_pinned(&pinned) {
        Ok(())
    } else {
        Err(Fault::Turns)
    }
}

/// Sends an array, and takes over the one that the neighbour sent: its length. It learns the note that came with it, and a pinned one.
fn hands_on<Q: Site, S: StepsIn<Q>>(
    thread: u8,
    env: &mut Env<S>,
    queue: &QueueEnd<'_, Sent, Q>,
) -> Result<u32, Fault> {
    let shared = shares(env, Patience::of(3))?;
    let sent = Sent {
        from: thread,
        shared,
    };
    puts(queue, sent, env.note())?;
    let neighbour = if thread == 0 { 2 } else { thread - 1 };
    let (sent, note) = taken(queue, neighbour)?;
    env.learn(note);
    learns_pinned(env)?;
    takes_over(env, sent.shared)
}

impl OwnedCode for TakesOver {
    ghost use Rattle.std.specs.Prelude.{◌≡◌, IfOk, IfSome};
    ghost use Rattle.jr_steps.specs.declared.known.Known.{Known};
    ghost use Rattle.jr_rule.specs.Passes.{Closes};

    type Message = Sent;

    type Answer = Result<Ended, Fault>;

    ghost tells = { λ code room thread answer. IfOk answer (λ a. (a.thread ≡ thread) × IfSome a.closed (λ s. (k : Known) × Closes k s)) };

    fn run<Q: Site>(
        &self,
        thread: u8,
        mut env: Env<OwnedStepsOf<Q>>,
        queue: &mut QueueEnd<'_, Sent, Q>,
    ) -> Result<Ended, Fault> {
        let length = hands_on(thread, &mut env, queue);
        let closed = close_owned(of_any_site(env.into_pass())).map_err(|left| left.fault)?;
        Ok(Ended {
            thread,
            length: length?,
            closed,
        })
    }
}

/// What came of the thread, once it has ended: it is the thread of that number, and a summary is of a legal history.
fn joined<R: Threads>(
    rt: &R,
    thread: PromisedHandle<Result<Ended, Fault>, RunsCode<TakesOver>>,
) -> Result<Ended, Fault>
    ensures { IfOk result (λ a. (a.thread ≡ (known_of thread.promise.pass.value).thread) × IfSome a.closed (λ s. (k : Known) × Closes k s)) }
{
    thread.join(rt)
}

/// Three threads that were spawned hand references on with notes, and the last one closes the room.
#[test]
fn three_owners_hand_notes_on(rt: HostRuntime) -> Result<(), Fail> {
    let threads = spawn_owned(&rt, rt.alloc(), THREE, TakesOver).map_err(|refused| refused.1)?;
    assert!(rt; threads.len() == 3);
    let mut closed = None;
    for thread in threads {
        let ended = joined(&rt, thread)?;
        closed = closed_by_one(&rt, closed, ended.length, ended.closed);
    }
    assert!(rt; closed == Some(AT_THE_END));
    Ok(())
}
