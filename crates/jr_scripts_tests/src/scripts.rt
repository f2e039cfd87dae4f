//! What is no script that can be run, as none is that was read; runs without turns, and what is called around commands.

ghost use Rattle.jr_env.specs.Envs.{IsOutside};

use crate::printing::{BEFORE, TURNS, leaves};
use crate::thread_ends::plain_env;
use assertions::{Text, assert_same};
use jr_env::Env;
use jr_scripts::{Hold, NoHold, Posts, Reply, Sightings, Task, run_all, run_one, run_thread};
use jr_steps::Steps;
use jr_syntax::{Command, Name, Script, Sequence, ThreadPart, is_name, parse};
use jr_weak::Marker;
use jr_word::{Config, Fault};
use std::alloc::Global;
use std::process::Abort;
use std::sync::atomic::{AtomicU64, Ordering};
use std::test::Fail;

/// Sizes of a room.
pub(crate) const SIZES: Config = Config {
    objects: 2,
    ..Config::LEAST
};

/// The name of these bytes.
pub(crate) fn name_of(word: &[u8]) -> Result<Name, Fail> {
    if !is_name(word) {
        return Err("the word is no name")?;
    }
    Ok(Name::new(word))
}

/// A script of these sizes, with a part without commands for each name, which is one letter.
fn without_commands(alloc: Global, config: Config, names: &[u8]) -> Result<Script, Fail> {
    let mut threads = Sequence::new(alloc);
    for letter in names {
        let name = name_of(&[*letter])?;
        let commands = Sequence::new(alloc);
        threads.push(ThreadPart { name, commands })?;
    }
    Ok(Script { config, threads })
}

/// Checks that such a script is not run alone, and that nothing is printed.
fn is_not_run(rt: &impl Abort, alloc: Global, config: Config, names: &[u8]) -> Result<(), Fail> {
    let script = without_commands(alloc, config, names)?;
    let mut out = Vec::from_slice(alloc, BEFORE)?;
    assert_same!(rt; run_one(alloc, &script, TURNS, &mut out), Err(Fault::Size));
    assert_same!(rt; Text(out.as_slice()), Text(BEFORE));
    Ok(())
}

#[test]
fn a_script_without_one_thread_is_not_run_alone(rt: HostRuntime) -> Result<(), Fail> {
    let alloc = rt.alloc();
    let two = Config {
        threads: 2,
        ..SIZES
    };
    is_not_run(&rt, alloc, SIZES, b"")?;
    is_not_run(&rt, alloc, SIZES, b"ab")?;
    is_not_run(&rt, alloc, two, b"a")?;
    is_not_run(&rt, alloc, Config { slots: 0, ..SIZES }, b"a")
}

/// Runs commands, of which the first stands on line 10, with a marker that is made for it.
fn run_from_line_10<S: Steps>(
    alloc: Global,
    env: &mut Env<S>,
    commands: &[Command],
    turns: u64,
    out: &mut Vec<u8>,
) -> Result<(), Fault>
    requires { IsOutside env.old }
    ensures { IsOutside env.new }
{
    let board = Posts::<()>::new(alloc);
    let mut marker = Marker::new(alloc, env.held.steps.config())?;
    let task = Task {
        first: 10,
        turns,
        commands,
    };
    let mut notes = Sightings::new(alloc, &board);
    run_thread(alloc, env, &mut marker, task, &mut notes, &NoHold, out)
}

/// A script of one thread.
const TWO_COMMANDS: &[u8] =
    b"vm threads 1 slots 1 objects 2 words 0 locals 16\nthread a\nplain p\ntype p\n";

#[test]
fn a_thread_without_turns_stops_at_its_first_line(rt: HostRuntime) -> Result<(), Fail> {
    let alloc = rt.alloc();
    let script = parse(alloc, TWO_COMMANDS)?;
    let [part] = script.threads.as_slice() else {
        return Err("the script has one thread")?;
    };
    let commands = part.commands.as_slice();
    let mut env = plain_env(alloc)?;
    let mut out = Vec::new(alloc);
    run_from_line_10(alloc, &mut env, commands, 0, &mut out)?;
    assert_same!(&rt; Text(out.as_slice()), Text(b"10 ! E20\ntype p 0\n"));
    run_from_line_10(alloc, &mut env, commands, 1, &mut out)?;
    assert_same!(&rt; Text(out.as_slice()), Text(b"10 ! E20\ntype p 0\ntype p 1\n"));
    Ok(())
}

/// Three threads, of which each makes an object and two references to it, and deletes one.
const BUSY: &[u8] =
    b"vm threads 3 slots 6 objects 3 words 0 locals 16\nthread a\nplain p\nglobal g p\nweak w g\ntype g\ndrop g\ntype g\nglobal z g\nthread b\nplain p\nglobal g p\nweak w g\ntype g\ndrop g\ntype g\nglobal z g\nthread c\nplain p\nglobal g p\nweak w g\ntype g\ndrop g\ntype g\nglobal z g\n";

/// What they print.
const BUSY_OUTPUT: &[u8] =
    b"before\n[a]\ntype g 2\ntype g 0\n9 ! E2\n[b]\ntype g 2\ntype g 0\n17 ! E2\n[c]\ntype g 2\ntype g 0\n25 ! E2\n[end]\nglobals 0 weaks 3 live 3 used 0\n";

/// Counts the commands that have begun, and those that were answered.
#[derive(Drop)]
struct CommandCounts {
    begun: AtomicU64,
    answered: AtomicU64,
}

impl Hold for CommandCounts {
    fn before(&self, _thread: u8, _line: usize) {
        self.begun.fetch_add(1, Ordering::SeqCst);
    }

    fn after(&self, _thread: u8, _line: usize, _answer: &Result<Reply, Fault>) {
        self.answered.fetch_add(1, Ordering::SeqCst);
    }
}

#[test]
fn three_threads_of_one_script_run_in_one_room(rt: HostRuntime) -> Result<(), Fail> {
    let alloc = rt.alloc();
    let script = parse(alloc, BUSY)?;
    let mut out = Vec::from_slice(alloc, BEFORE)?;
    let hold = CommandCounts {
        begun: AtomicU64::new(0),
        answered: AtomicU64::new(0),
    };
    let answer = run_all(&rt, alloc, &script, &hold, 1_000_000, &mut out);
    // Each thread was joined, also where memory was refused: no command is under way.
    let begun = hold.begun.load(Ordering::SeqCst);
    assert_same!(&rt; hold.answered.load(Ordering::SeqCst), begun);
    assert!(rt; begun == 21 || answer.is_err());
    leaves(&rt, answer, &out, BUSY_OUTPUT)
}

#[test]
fn a_script_with_a_part_too_few_is_refused(rt: HostRuntime) -> Result<(), Fail> {
    let alloc = rt.alloc();
    let mut script = parse(alloc, BUSY)?;
    script.config.threads = 4;
    let mut out = Vec::from_slice(alloc, BEFORE)?;
    let answer = run_all(&rt, alloc, &script, &NoHold, TURNS, &mut out);
    assert_same!(&rt; answer, Err(Fault::Size));
    assert_same!(&rt; Text(out.as_slice()), Text(BEFORE));
    Ok(())
}
