//! Threads that own their room, each under stress by a seed of its own: what they hand on by a queue arrives as without.

use jr::calls::{DeleteGlobalRef, GetArrayLength, NewArray, NewGlobalRef, NewWeakGlobalRef};
use jr::{
    Config, Env, Fault, HandedOn, Handle, Marker, NativeEnv, NoMessage, OverEnv, OwnedCode,
    OwnedStepsOf, Patience, QueueEnd, Site, Steps, StepsIn, Stress, Stressed, Summary, close_owned,
    of_any_site, spawn_owned,
};
use std::alloc::Global;
use std::process::Abort;
use std::test::Fail;

/// A room of three threads.
const THREE: Config = Config {
    threads: 3,
    slots: 8,
    objects: 16,
    words: 64,
    locals: 16,
};

/// What stands at the end: an array of three elements of each thread, and a weak reference to it of its neighbour.
const AT_THE_END: Summary = Summary {
    globals: 0,
    weaks: 3,
    live: 3,
    used: 9,
};

/// How often a call is made again: for want of room too, since a stress refuses for that.
const PATIENCE: Patience = Patience {
    waits_for_room: true,
    ..Patience::LONG
};

/// A global reference, and the number of the thread that sent it.
#[derive(Clone, Copy)]
struct Sent {
    from: u8,
    shared: Handle,
}

impl HandedOn for Sent {}

/// Each thread sends an array, and takes over one, by stresses of these seeds.
#[derive(Drop)]
struct UnderStress {
    alloc: Global,
    seed: u64,
}

/// The stress of a thread. A full row is no refusal of it: no patience waits for that.
fn plan_of(seed: u64, thread: u8) -> Stress {
    Stress {
        row_full: false,
        ..Stress::of(seed.wrapping_mul(64).wrapping_add(u64::from(thread)))
    }
}

/// Makes an array of three elements and a global reference to it.
fn shares<S: Steps, N: NativeEnv<S>>(env: &mut N) -> Result<Handle, Fault> {
    let array = env.retry(NewArray::<i32>::of(3), PATIENCE)?;
    Ok(Handle::or_null(env.retry(NewGlobalRef(array), PATIENCE)?))
}

/// Takes an array over: a weak reference to it is left, and no global one. Its length.
fn takes_over<S: Steps, N: NativeEnv<S>>(env: &mut N, shared: Handle) -> Result<u32, Fault> {
    let length = env.retry(GetArrayLength(shared), PATIENCE)?;
    env.retry(NewWeakGlobalRef(shared), PATIENCE)?;
    env.retry(DeleteGlobalRef(shared), PATIENCE)?;
    Ok(length)
}

/// Sends an array, and takes one over that some thread has sent: its length.
fn hands_on<Q: Site, S: StepsIn<Q>, N: NativeEnv<S> + OverEnv<Env<S>>>(
    thread: u8,
    env: &mut N,
    queue: &QueueEnd<'_, Sent, Q>,
) -> Result<u32, Fault> {
    let shared = shares(env)?;
    let sent = Sent {
        from: thread,
        shared,
    };
    let note = Env::note(env.env());
    let handed = queue.retry_put(sent, note, PATIENCE);
    handed.map_err(|_| Fault::Turns)?;
    match queue.retry_take(PATIENCE) {
        Ok((sent, note)) => {
            Env::learn(env.env(), note);
            takes_over(env, sent.shared)
        }
        Err(NoMessage::Yet) => Err(Fault::Barred),
        Err(NoMessage::More) => Err(Fault::Turns),
    }
}

/// The same under stress by a plan.
fn hands_on_stressed<Q: Site, S: StepsIn<Q>>(
    thread: u8,
    env: &mut Env<S>,
    marker: Marker,
    plan: Stress,
    queue: &QueueEnd<'_, Sent, Q>,
) -> Result<u32, Fault> {
    let mut stressed = Stressed::new(env, marker, plan);
    hands_on(thread, &mut stressed, queue)
}

impl OwnedCode for UnderStress {
    type Message = Sent;

    type Answer = Result<(u32, Option<Summary>), Fault>;

    fn run<Q: Site>(
        &self,
        thread: u8,
        mut env: Env<OwnedStepsOf<Q>>,
        queue: &mut QueueEnd<'_, Sent, Q>,
    ) -> Result<(u32, Option<Summary>), Fault> {
        let marker = env.marker(self.alloc)?;
        let plan = plan_of(self.seed, thread);
        let length = hands_on_stressed(thread, &mut env, marker, plan, queue);
        let closed = close_owned(of_any_site(env.into_pass())).map_err(|left| left.fault)?;
        Ok((length?, closed))
    }
}

/// Three threads hand arrays on under stress, by 20 seeds, and the last closes the room, in which stands what stands without stress.
#[test]
fn owners_hand_on_under_stress(rt: HostRuntime) -> Result<(), Fail> {
    let alloc = rt.alloc();
    for seed in 0..20 {
        let code = UnderStress { alloc, seed };
        let threads = spawn_owned(&rt, alloc, THREE, code).map_err(|refused| refused.1)?;
        let mut closed = None;
        for thread in threads {
            let (length, by_this) = thread.join(&rt)?;
            assert!(rt; length == 3);
            closed = closed.or(by_this);
        }
        assert!(rt; closed == Some(AT_THE_END));
    }
    Ok(())
}
