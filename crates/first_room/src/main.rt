//! An embedder's first hour: two native threads in one room, with references, arrays, a critical region and a collection.
//!
//! What stands behind `ghost`, `requires` and `ensures` is proved, and takes no time as the program runs. Skip it at first.
#![tactic(auto)]

ghost use Rattle.std.specs.Prelude.{◌≡◌, IfOk, OnOk, Ok};
ghost use Rattle.std.specs.Int.{w32};
ghost use Rattle.std.specs.Io.KnownBytes.{Appends};
ghost use Rattle.jr_word.specs.Elem.{signed_word};
ghost use Rattle.jr_env.specs.Envs.{Does, IsOutside};
ghost use Rattle.jr_threads.specs.Parts.{RanTogether};
ghost use Rattle.jr_threads.specs.Starting.{IsAtStart};
ghost use Rattle.first_room.specs.Calls.{clearing, collecting_twice, has_found, making_own};
ghost use Rattle.first_room.specs.Calls.{preparing, reading_within, sharing, story_of, visiting};
ghost use Rattle.first_room.specs.Hour.{IsTrueReport, IsWritten, report_lines, report_text};

mod handing;
mod message;

use crate::handing::{give_turn, hand, take_turns};
use crate::message::{Found, Handed, Report};
use jr_env::{Env, NativeInterface, Patience};
use jr_rule::{Site, Steps, StepsIn, Summary};
use jr_threads::{NativeCode, QueueEnd, run_native};
use jr_word::{Config, Fault, Handle};
use std::alloc::Global;
use std::io;
use std::io::Write;
use std::thread::Threads;
use thiserror::Error;

/// How often an announced collection tries to shut the gate.
const TRIES: u32 = 1_000;

/// The sizes of the room.
const SIZES: Config = Config {
    threads: 2,
    slots: 16,
    objects: 16,
    words: 64,
    locals: 16,
};

/// Why the program fails.
#[derive(Debug, Drop, Error)]
pub enum Trouble {
    /// A call was refused.
    #[error("refused: {0}")]
    Refused(#[from] Fault),
    /// What the threads found was not written.
    #[error("not written: {0}")]
    Output(#[from] io::Error),
}

/// What both threads run.
#[derive(Drop)]
struct Hour {
    alloc: Global,
}

impl NativeCode for Hour {
    ghost use Rattle.first_room.specs.Calls.{has_found, story_of};

    type Message = Handed;

    type Answer = Result<Found, Fault>;

    // A message goes in once the one before it was taken: so the first thread waits for the second.
    const PLACES: usize = 1;

    ghost tells = { λ answer. has_found answer };

    ghost deed = { λ native thread. story_of thread };

    fn run<Q: Site, S: StepsIn<Q> + Drop>(
        &self,
        thread: u8,
        env: &mut Env<S>,
        queue: &mut QueueEnd<'_, Handed, Q>,
    ) -> Result<Found, Fault> {
        match thread {
            0 => share(self.alloc, env, queue),
            _ => visit(env, queue),
        }
    }
}

fn main(rt: HostRuntime) -> Result<(), Trouble> {
    run(&rt, rt.alloc(), &mut io::writer(&rt))
}

/// Opens a room, runs two threads in it, closes it, and writes what they found.
pub(crate) fn run<T: Threads + Sync, W: Write + Drop>(
    rt: &T,
    alloc: Global,
    out: &mut W,
) -> Result<(), Trouble>
    ensures { OnOk result (IsWritten (W.contents out.old) (W.contents out.new)) }
{
    let ran = run_native(rt, alloc, SIZES, &Hour { alloc })?;
    let report = gathered(&ran.answers, ran.summary)?;
    write_report(out, report)?;
    Ok(())
}

/// What both threads found, if no call of theirs was refused.
fn gathered(answers: &[Result<Found, Fault>], left: Summary) -> Result<Report, Fault>
    requires { RanTogether has_found story_of SIZES 4294967295 answers.now left }
    ensures { IfOk result IsTrueReport }
{
    let (first, second) = (answers[0]?, answers[1]?);
    match (first, second) {
        (
            Found::Shared {
                inside,
                cleared,
                kind,
            },
            Found::Visited { read },
        ) => Ok(Report {
            read,
            inside,
            cleared,
            kind,
            left,
        }),
        _ => unreachable!(),
    }
}

/// Writes what the threads found, and what stood as the room was closed.
fn write_report<W: Write + Drop>(out: &mut W, report: Report) -> io::Result<()>
    ensures { IfOk result (λ u. Appends (W.contents out.old) (W.contents out.new) (report_text (report_lines report))) }
{
    let Report {
        read,
        inside,
        cleared,
        kind,
        left,
    } = report;
    writeln!(out, "a collection is refused: E14, inside: {inside}")?;
    writeln!(out, "the second thread reads {read}")?;
    writeln!(out, "the weak reference is to null: {cleared}")?;
    writeln!(out, "the deleted reference has type {kind}")?;
    writeln!(out, "global references left: {}", left.globals)?;
    writeln!(out, "weak references left: {}", left.weaks)?;
    writeln!(out, "objects left: {}", left.live)?;
    writeln!(out, "words left: {}", left.used)?;
    Ok(())
}

/// The first thread shares an array, and collects: in vain while the other has a critical region, and then in its turn, as soon as the other has none.
fn share<Q: Site, S: StepsIn<Q>>(
    alloc: Global,
    env: &mut Env<S>,
    queue: &QueueEnd<'_, Handed, Q>,
) -> Result<Found, Fault>
    requires { IsAtStart Q.sizes 0 env.old }
    ensures { IfOk result (λ x. Does env.old env.new sharing (Ok x)) }
{
    let (weak, global) = prepare(env)?;
    let note = env.note();
    hand(queue, Handed::Reference(global), note)?;
    let inside = collect_twice(alloc, env, queue)?;
    let (cleared, kind) = clear(env, weak, global)?;
    Ok(Found::Shared {
        inside,
        cleared,
        kind,
    })
}

/// Makes two arrays in a frame, and then a weak reference to the one and a global one to the other: the two references.
fn prepare<S: Steps>(env: &mut Env<S>) -> Result<(Handle, Handle), Fault>
    requires { IsOutside env.old }
    ensures { IfOk result (λ r. Does env.old env.new preparing (Ok (r.0.0, r.1.0))) }
{
    env.push_local_frame(4)?;
    let lost = env.new_array::<i64>(4)?;
    let weak = env.new_weak_global_ref(lost)?.unwrap_or(Handle::NULL);
    let array = env.new_array::<i32>(3)?;
    env.set_array_region(array, 0, &[10, 20, 30])?;
    let global = env.new_global_ref(array)?.unwrap_or(Handle::NULL);
    env.pop_local_frame(Handle::NULL)?;
    Ok((weak, global))
}

/// Collects, in vain while the other thread is inside, tells it so, and collects in its turn: how many threads were inside.
fn collect_twice<Q: Site, S: StepsIn<Q>>(
    alloc: Global,
    env: &mut Env<S>,
    queue: &QueueEnd<'_, Handed, Q>,
) -> Result<u32, Fault>
    requires { IsOutside env.old }
    ensures { IfOk result (λ n. Does env.old env.new collecting_twice (Ok n)) }
{
    let mut marker = env.marker(alloc)?;
    // The second of these turns goes in once the first was taken: the other thread takes it in its region.
    give_turn(env, queue)?;
    give_turn(env, queue)?;
    let Err(Fault::Busy(inside)) = env.collect(&mut marker) else {
        return Err(Fault::Turns);
    };
    give_turn(env, queue)?;
    env.collect_in_turn(&mut marker, TRIES, Patience::LONG)?;
    Ok(inside)
}

/// Whether the weak reference is to null, and the type of the global one, once it is deleted.
fn clear<S: Steps>(env: &mut Env<S>, weak: Handle, global: Handle) -> Result<(bool, u8), Fault>
    requires { IsOutside env.old }
    ensures { IfOk result (λ r. Does env.old env.new (clearing weak.0 global.0) (Ok (r.0, r.1))) }
{
    let cleared = env.is_same_object(weak, Handle::NULL)?;
    env.delete_global_ref(global)?;
    let kind = env.get_object_ref_type(global)?;
    Ok((cleared, kind))
}

/// The second thread has objects of its own, and reads in the first one's array, in a critical region.
fn visit<Q: Site, S: StepsIn<Q>>(
    env: &mut Env<S>,
    queue: &mut QueueEnd<'_, Handed, Q>,
) -> Result<Found, Fault>
    requires outside { IsOutside env.old }
    requires sizes { (S.facts env.old.held.steps).stands.config ≡ Q.sizes }
    ensures { IfOk result (λ x. Does env.old env.new visiting (Ok x)) }
{
    queue.puts_no_more();
    let Ok((Handed::Reference(global), note)) = queue.retry_take(Patience::LONG) else {
        return Err(Fault::Turns);
    };
    env.learn(note);
    make_own(env)?;
    let read = read_within(env, global, queue)?;
    Ok(Found::Visited { read })
}

/// Makes an object and an array in a frame of its own.
fn make_own<S: Steps>(env: &mut Env<S>) -> Result<(), Fault>
    requires { IsOutside env.old }
    ensures { IfOk result (λ u. Does env.old env.new making_own (Ok u)) }
{
    env.push_local_frame(4)?;
    let object = env.new_plain()?;
    env.new_object_array(2, object)?;
    env.pop_local_frame(Handle::NULL)?;
    Ok(())
}

/// Reads an element of an array in a critical region, in which it takes three turns: by two the other thread sees that the region stands, and the third comes once that one has collected in vain.
fn read_within<Q: Site, S: Steps>(
    env: &mut Env<S>,
    array: Handle,
    queue: &QueueEnd<'_, Handed, Q>,
) -> Result<i32, Fault>
    requires { IsOutside env.old }
    ensures { IfOk result (λ x. Does env.old env.new (reading_within array.0) (Ok (signed_word w32 x))) }
{
    let mut region = env.get_array_critical(array)?;
    let read = region.get::<i32>(0, 1);
    let refused = take_turns(queue);
    region.release_all();
    refused?;
    read
}
