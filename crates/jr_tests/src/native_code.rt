//! Native code that tells what each of its threads does, so that `run_native` says it of all of them; and the queue between its threads.
ghost use Rattle.std.specs.Prelude.{true, IfOk};
ghost use Rattle.jr_env.specs.Deeds.{new_plain};
ghost use Rattle.jr_threads.specs.Parts.{replied, RanTogether};

use jr::{
    Config, Env, Fault, HandedOn, Handle, NativeCode, NativeInterface, NoMessage, QueueEnd, Ran,
    Site, StepsIn, run_native,
};
use std::alloc::Global;
use std::test::Fail;
use std::thread::Threads;

/// The sizes of the room.
const SIZES: Config = Config {
    threads: 3,
    slots: 4,
    objects: 3,
    words: 8,
    locals: 16,
};

/// In each thread a plain object is made.
struct Makes;

impl NativeCode for Makes {
    ghost use Rattle.std.specs.Prelude.{true};
    ghost use Rattle.jr_env.specs.Deeds.{new_plain};
    ghost use Rattle.jr_threads.specs.Parts.{replied};

    type Message = ();

    type Answer = Result<Handle, Fault>;

    ghost tells = { λ answer. true };

    ghost deed = { λ native thread. replied new_plain };

    fn run<Q: Site, S: StepsIn<Q> + Drop>(
        &self,
        _: u8,
        env: &mut Env<S>,
        _: &mut QueueEnd<'_, (), Q>,
    ) -> Result<Handle, Fault> {
        env.new_plain()
    }
}

/// What each thread of a room answers in which each makes a plain object, and what stands at the end: of one history, in which each has done this and nothing else.
fn each_makes<R: Threads + Sync>(
    rt: &R,
    alloc: Global,
    config: Config,
) -> Result<Ran<Result<Handle, Fault>>, Fault>
    ensures { IfOk result (λ r. RanTogether (λ answer. true) (λ thread. replied new_plain) config 4294967295 r.answers.items r.summary) }
{
    run_native(rt, alloc, config, &Makes)
}

/// Each thread made its object, with a local reference to it, as its answer says.
#[test]
fn each_thread_made_an_object(rt: HostRuntime) -> Result<(), Fail> {
    let ran = each_makes(&rt, rt.alloc(), SIZES)?;
    assert!(rt; ran.answers.len() == 3);
    assert!(rt; ran.summary.live == 3);
    for answer in ran.answers {
        assert!(rt; answer.is_ok());
    }
    Ok(())
}

/// A thread fills the queue, hands a message on, and empties the queue to its end.
struct Fills;

/// What the queue answered to it.
#[derive(Clone, Copy, PartialEq)]
struct Queued {
    /// Of each message that was put, what came back.
    back: [Option<Handle>; 4],
    /// Whether a message was taken and put again.
    handed_on: Result<(), NoMessage>,
    /// What was taken, or why nothing was.
    taken: [Result<Handle, NoMessage>; 4],
}

/// Puts a handle: what came back.
fn back<Q: Site, S: StepsIn<Q>>(
    env: &mut Env<S>,
    queue: &QueueEnd<'_, Handle, Q>,
    handle: Handle,
) -> Option<Handle> {
    match queue.put(handle, env.note()) {
        Ok(()) => None,
        Err((handle, _)) => Some(handle),
    }
}

/// Takes a handle.
fn taken<Q: Site>(queue: &QueueEnd<'_, Handle, Q>) -> Result<Handle, NoMessage> {
    match queue.take() {
        Ok((handle, _)) => Ok(handle),
        Err(why) => Err(why),
    }
}

/// Takes a message and puts it again, whatever it says of its thread: whoever took it knows that.
fn handed_on<M: HandedOn, Q: Site>(queue: &QueueEnd<'_, M, Q>) -> Result<(), NoMessage> {
    let (message, note) = queue.take()?;
    match queue.put(message, note) {
        Ok(()) => Ok(()),
        Err(_) => Err(NoMessage::Yet),
    }
}

impl NativeCode for Fills {
    type Message = Handle;

    type Answer = Queued;

    const PLACES: usize = 2;

    fn run<Q: Site, S: StepsIn<Q> + Drop>(
        &self,
        _: u8,
        env: &mut Env<S>,
        queue: &mut QueueEnd<'_, Handle, Q>,
    ) -> Queued {
        let empty = taken(queue);
        let first = back(env, queue, Handle(1));
        let second = back(env, queue, Handle(2));
        let too_many = back(env, queue, Handle(3));
        let handed_on = handed_on(queue);
        let oldest = taken(queue);
        let next = taken(queue);
        queue.puts_no_more();
        let too_late = back(env, queue, Handle(4));
        Queued {
            back: [first, second, too_many, too_late],
            handed_on,
            taken: [empty, oldest, next, taken(queue)],
        }
    }
}

/// A queue of two places takes no third message, hands them out in their order, the one that was put again last, and is over once nobody puts.
#[test]
fn a_queue_is_full_and_comes_to_its_end(rt: HostRuntime) -> Result<(), Fail> {
    let one = Config {
        threads: 1,
        ..SIZES
    };
    let ran = run_native(&rt, rt.alloc(), one, &Fills)?;
    let queued = Queued {
        back: [None, None, Some(Handle(3)), Some(Handle(4))],
        handed_on: Ok(()),
        taken: [
            Err(NoMessage::Yet),
            Ok(Handle(2)),
            Ok(Handle(1)),
            Err(NoMessage::More),
        ],
    };
    assert!(rt; ran.answers.len() == 1);
    for answer in ran.answers {
        assert!(rt; answer == queued);
    }
    Ok(())
}
