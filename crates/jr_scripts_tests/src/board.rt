//! What threads post to each other.

use crate::printing::{BEFORE, TURNS, prints};
use crate::scripts::{SIZES, name_of};
use crate::threads::HANDED_OVER;
use assertions::{Text, assert_same};
use jr_rule::PlainSteps;
use jr_scripts::{Board, NoHold, Posts, Sightings, run_all, run_one};
use jr_steps::Steps;
use jr_syntax::{Command, OnName, Script, Sequence, ThreadPart, parse};
use jr_word::Fault;
use std::alloc::Global;
use std::process::Abort;
use std::test::Fail;

/// A command that posts a name.
fn posting(word: &[u8]) -> Result<Command, Fail> {
    Ok(Command::OnName {
        verb: OnName::Post,
        name: name_of(word)?,
    })
}

/// A script of one thread that posts six names.
const SIX_POSTS: &[u8] =
    b"vm threads 1 slots 1 objects 1 words 0 locals 16\nthread a\npost m\npost ab\npost z\npost a\npost abcdefghijklmnop\npost b\n";

/// Checks that each of these commands posts a name, which has its own number, if any has.
fn have_numbers<S: Steps>(
    rt: &impl Abort,
    steps: &mut S,
    notes: &mut Sightings<'_, ()>,
    commands: &[Command],
    any: bool,
) {
    for (i, command) in commands.iter().enumerate() {
        let Command::OnName { verb: _, name } = command else {
            panic!(rt; "a command posts no name")
        };
        let wanted = if any { Some(i as u64) } else { None };
        assert_same!(rt; notes.look(steps, name), wanted; at i);
    }
}

/// Posts the number of each command under the name that it posts.
fn post_numbers<S: Steps>(steps: &mut S, notes: &mut Sightings<'_, ()>, commands: &[Command]) {
    for (i, command) in commands.iter().enumerate() {
        if let Command::OnName { verb: _, name } = command {
            notes.post(steps, name, i as u64);
        }
    }
}

#[test]
fn each_name_has_a_word_of_its_own(rt: HostRuntime) -> Result<(), Fail> {
    let alloc = rt.alloc();
    let script = parse(alloc, SIX_POSTS)?;
    let [part] = script.threads.as_slice() else {
        return Err("the script has one thread")?;
    };
    let commands = part.commands.as_slice();
    assert_same!(&rt; commands.len(), 6);
    let mut posts = Posts::<()>::new(alloc);
    posts.add(commands)?;
    let mut notes = Sightings::new(alloc, &posts);
    let mut steps = PlainSteps::<2>::new(alloc, SIZES)?;
    have_numbers(&rt, &mut steps, &mut notes, commands, false);
    post_numbers(&mut steps, &mut notes, commands);
    have_numbers(&rt, &mut steps, &mut notes, commands, true);
    let mut others = Sightings::new(alloc, &posts);
    have_numbers(&rt, &mut steps, &mut others, commands, true);
    Ok(())
}

#[test]
fn the_first_word_of_a_name_stays(rt: HostRuntime) -> Result<(), Fail> {
    let alloc = rt.alloc();
    let mut posts = Posts::<()>::new(alloc);
    let name = name_of(b"g")?;
    posts.add(&[posting(b"g")?])?;
    let mut notes = Sightings::new(alloc, &posts);
    let mut steps = PlainSteps::<2>::new(alloc, SIZES)?;
    notes.post(&mut steps, &name, 0);
    notes.post(&mut steps, &name, 6);
    assert_same!(&rt; notes.look(&mut steps, &name), Some(0));
    Ok(())
}

/// A script of one thread that posts a name twice; none that is read does.
fn posting_twice(alloc: Global) -> Result<Script, Fail> {
    let mut commands = Sequence::new(alloc);
    commands.push(posting(b"g")?)?;
    commands.push(posting(b"g")?)?;
    let mut threads = Sequence::new(alloc);
    threads.push(ThreadPart {
        name: name_of(b"a")?,
        commands,
    })?;
    Ok(Script {
        config: SIZES,
        threads,
    })
}

#[test]
fn a_script_that_posts_a_name_twice_is_not_run(rt: HostRuntime) -> Result<(), Fail> {
    let alloc = rt.alloc();
    let script = posting_twice(alloc)?;
    let mut out = Vec::from_slice(alloc, BEFORE)?;
    let answer = run_all(&rt, alloc, &script, &NoHold, TURNS, &mut out);
    assert_same!(&rt; answer, Err(Fault::Size));
    assert_same!(&rt; run_one(alloc, &script, TURNS, &mut out), Err(Fault::Size));
    assert_same!(&rt; Text(out.as_slice()), Text(BEFORE));
    Ok(())
}

#[test]
fn a_name_without_a_cell_is_not_posted(rt: HostRuntime) -> Result<(), Fail> {
    let alloc = rt.alloc();
    let mut posts = Posts::<()>::new(alloc);
    posts.add(&[posting(b"g")?])?;
    let mut notes = Sightings::new(alloc, &posts);
    let mut steps = PlainSteps::<2>::new(alloc, SIZES)?;
    let other = name_of(b"ga")?;
    notes.post(&mut steps, &other, 6);
    assert_same!(&rt; notes.look(&mut steps, &other), None);
    assert_same!(&rt; notes.look(&mut steps, &name_of(b"g")?), None);
    Ok(())
}

#[test]
fn a_wait_that_runs_out_of_turns_sets_no_name(rt: HostRuntime) -> Result<(), Fail> {
    prints(
        &rt,
        rt.alloc(),
        b"vm threads 1 slots 4 objects 8 words 16 locals 16\nthread a\nwait never\ntype never\nint a 1\nwait a\ntype a\ncrit r a\nwait never\ncget r 0\nendcrit copy\ntype never\npost a\n",
        b"[a]\n3 ! E20\ntype never 0\n6 ! E20\ntype a 1\n9 ! E20\ncget r 0 0\ntype never 0\n[end]\nglobals 0 weaks 0 live 1 used 1\n",
    )
}

#[test]
fn a_wait_hears_no_later_post(rt: HostRuntime) -> Result<(), Fail> {
    prints(
        &rt,
        rt.alloc(),
        b"vm threads 1 slots 1 objects 1 words 1 locals 16\nthread a\nwait a\npost a\nsame a null\nwait a\nsame a null\n",
        b"[a]\n3 ! E20\n5 ! E2\nsame a null true\n[end]\nglobals 0 weaks 0 live 0 used 0\n",
    )
}

#[test]
fn the_first_of_two_threads_that_wait_for_each_other_hears_nothing(
    rt: HostRuntime,
) -> Result<(), Fail> {
    let alloc = rt.alloc();
    let script = parse(
        alloc,
        b"vm threads 2 slots 1 objects 1 words 1 locals 16\nthread a\nwait y\npost x\nthread b\nwait x\npost y\n",
    )?;
    let mut out = Vec::from_slice(alloc, BEFORE)?;
    run_all(&rt, alloc, &script, &NoHold, TURNS, &mut out)?;
    assert!(rt;
        out.starts_with(b"before\n[a]\n3 ! E20\n")
            || out.ends_with(b"[b]\n6 ! E20\n[end]\nglobals 0 weaks 0 live 0 used 0\n")
    );
    Ok(())
}

#[test]
fn a_thread_waits_for_one_without_memory_and_ends(rt: HostRuntime) -> Result<(), Fail> {
    let alloc = rt.alloc();
    let script = parse(alloc, HANDED_OVER)?;
    let mut out = Vec::from_slice(alloc, BEFORE)?;
    if let Err(fault) = run_all(&rt, alloc, &script, &NoHold, 1_000, &mut out) {
        assert_same!(&rt; fault, Fault::Memory);
        assert_same!(&rt; Text(out.as_slice()), Text(BEFORE));
        return Err(fault)?;
    }
    assert!(rt; out.starts_with(BEFORE));
    Ok(())
}
