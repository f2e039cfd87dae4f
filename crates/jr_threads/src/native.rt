//! What the threads of a room run, and one of them from its pass to its end.
ghost use Rattle.std.specs.Prelude.{◌≡◌, true};
ghost use Rattle.jr_model.specs.declared.event.Role.TheVariants.{Outside};
ghost use Rattle.jr_rule.specs.Passes.{holder_of, IsOpened};
ghost use Rattle.jr_rule.specs.Sites.{IsPassOf, IsSiteOf};
ghost use Rattle.jr_threads.specs.Parts.{DidOver, DidWithPass};
ghost use Rattle.jr_threads.specs.Sites.{ThreadRan, IsSiteRoom};
ghost use Rattle.jr_threads.specs.Starting.{HaveDoneNothing};

use crate::queue::{HandedOn, QueueEnd};
use jr_env::Env;
use jr_rule::{Pass, Room, Site, SiteSteps, StepsIn, ThreadNumber};
use jr_word::LAST_SERIAL;
use std::marker::Brand;

/// The last serial: a slot or a local place gives as many handles, and one more.
pub(crate) const LAST: u32 = LAST_SERIAL;

/// Native code: what each thread of a room runs, over its env.
///
/// Where it wants to, it tells what it does: `tells` picks the answers that tell of a deed, by default none, and `deed` is what a run does in the thread of a number.
/// `run_native` then says so of each thread.
pub trait NativeCode {
    ghost use Rattle.std.specs.Prelude.{◌≡◌, ℕ, Bool, true, false, Ok};
    ghost use Rattle.jr_env.specs.Deeds.{Deed};
    ghost use Rattle.jr_env.specs.Envs.{Does};
    ghost use Rattle.jr_threads.specs.Starting.{IsAtStart};

    /// What a thread hands on to another, beside a note of what it had seen: `()` where none does.
    type Message: HandedOn + Send;

    /// What a thread answers at its end.
    type Answer: Send + Drop;

    /// How many messages may lie between the threads at a time, at least 1.
    const PLACES: usize = 64;

    ghost tells: { Self.Answer → Bool } = { λ answer. false };

    ghost deed: { Self → ℕ → Deed Self.Answer } = { λ native thread old answer new. Unit {0} };

    /// Runs in the thread of this number, from 0 upward, with its env, which is that thread's and stands at its start: it has seen nothing, stands outside, and has no local reference.
    /// What it leaves in the env's frames stays.
    ///
    /// `Q` stands for the room of all threads. So a note that comes by the queue, whose end the thread has, is one of this room.
    fn run<Q: Site, S: StepsIn<Q> + Drop>(
        &self,
        thread: u8,
        env: &mut Env<S>,
        queue: &mut QueueEnd<'_, Self::Message, Q>,
    ) -> Self::Answer
        requires { IsAtStart Q.sizes thread env.old }
        ensures deed { tells result ≡ true → Does env.old env.new (deed self.now thread) (Ok result) };
}

/// What a thread gives back: its answer, and its pass.
#[derive(Drop)]
pub(crate) struct Ended<A: Drop> {
    pub(crate) answer: A,
    pub(crate) pass: Pass,
}

/// The place of a thread: its pass until it starts, and what it gives back once it has ended.
#[derive(Drop)]
pub(crate) struct Place<A: Drop> {
    pub(crate) waiting: Option<Pass>,
    pub(crate) ended: Option<Ended<A>>,
}

/// Runs the native code over an env of these steps, which are fresh and have done nothing, and hands them back.
fn run_over<Q: Site, S: StepsIn<Q> + Drop, N: NativeCode>(
    native: &N,
    steps: S,
    mut queue: QueueEnd<'_, N::Message, Q>,
) -> (N::Answer, S)
    requires start { HaveDoneNothing S.facts Q.sizes 4294967295 (S.facts steps).stands.thread steps }
    requires fresh { (S.facts steps).stands.fresh ≡ true }
    ensures outside { (S.facts result.1).stands.role ≡ Outside }
    ensures came { N.tells result.0 ≡ true → DidOver S.facts (N.deed native.now (S.facts steps).stands.thread) steps result.1 result.0 }
{
    let thread = steps.thread();
    let Ok(mut env) = Env::new(steps) else {
        unreachable!();
    };
    let answer = native.run(thread, &mut env, &mut queue);
    (answer, env.into_pass())
}

/// Runs the native code in the site's thread.
fn run_at<Q: Site, T: ThreadNumber, N: NativeCode>(
    room: &Room<LAST>,
    native: &N,
    pass: Pass,
    queue: QueueEnd<'_, N::Message, Q>,
) -> Ended<N::Answer>
    requires pass { IsOpened room.now.row pass }
    requires site { IsSiteOf Q.room Q.sizes T.number room.now pass }
    ensures back { IsPassOf Q.room Q.sizes 4294967295 T.number result.pass × (result.pass.role ≡ Outside) }
    ensures came { N.tells result.answer ≡ true → DidWithPass (N.deed native.now pass.thread) pass (holder_of result.pass) result.answer }
{
    let steps = SiteSteps::<LAST, Q, T>::new(room, pass);
    let (answer, steps) = run_over(native, steps, queue);
    let pass = steps.into_pass();
    Ended { answer, pass }
}

/// Runs the native code in one thread.
pub(crate) fn run_thread<Q: Site, N: NativeCode>(
    room: &Room<LAST>,
    native: &N,
    pass: Pass,
    queue: QueueEnd<'_, N::Message, Q>,
) -> Ended<N::Answer>
    requires pass { IsOpened room.now.row pass }
    requires site { IsSiteRoom Q.room Q.sizes room.now }
    ensures { ThreadRan N.tells (N.deed native.now) room.now.row pass result }
{
    run_at::<Q, Brand, N>(room, native, pass, queue)
}
