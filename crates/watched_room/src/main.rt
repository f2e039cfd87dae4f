//! Native code that makes wrong calls, and three watchers over them: one writes a line for each refusal, as CheckJNI does, one hands each to a logger, and one counts them by call and refusal.
#![tactic(auto)]

mod counts;
mod lines;
mod native;

use crate::counts::Counts;
use crate::lines::Lines;
use crate::native::native_code;
use jr::{
    Checked, Config, Env, Fault, Handle, LAST_SERIAL, LogWatcher, NativeInterface, Patience, Room,
    RoomSteps, Steps, Watcher,
};
use log::sink::Writer;
use std::io;
use std::io::{Cursor, Write};
use thiserror::Error;

/// The sizes of the room.
const SIZES: Config = Config {
    threads: 2,
    slots: 8,
    objects: 16,
    words: 64,
    locals: 16,
};

/// Why the program fails.
#[derive(Debug, Drop, Error)]
pub enum Trouble {
    /// A call was refused that is right.
    #[error("refused: {0}")]
    Refused(#[from] Fault),
    /// What was told was not written.
    #[error("not written: {0}")]
    Output(#[from] io::Error),
}

fn main(rt: HostRuntime) -> Result<(), Trouble> {
    let alloc = rt.alloc();
    let (room, mut passes) = Room::<LAST_SERIAL>::open(alloc, SIZES)?;
    let (pass, other) = (passes.remove(1), passes.remove(0));
    let mut owner = Env::new(RoomSteps::new(&room, other)).map_err(|refused| refused.1)?;
    let foreign = owner.new_plain()?;
    let mut env = Env::new(RoomSteps::new(&room, pass)).map_err(|refused| refused.1)?;
    write_lines(&mut env, foreign, io::writer(&rt))?;
    write_counts(&mut env, foreign, &mut io::writer(&rt))?;
    write_log(&mut env, foreign, io::writer(&rt))?;
    let is_told = tells_of_no_room(&mut env, foreign);
    println!(rt; "it is told that a line has no room in 64 bytes: {is_told}")?;
    Ok(())
}

/// Lets native code call an env, and writes each refusal at once.
fn write_lines<S: Steps, W: Write + Drop>(
    env: &mut Env<S>,
    foreign: Handle,
    out: W,
) -> Result<(), Trouble> {
    let mut checked = Checked::new(env, Lines::to(out));
    native_code(&mut checked, foreign)?;
    let (_env, lines) = checked.into_parts();
    lines.end()?;
    Ok(())
}

/// Lets native code call an env by a name, and hands each refusal to a logger that writes at once.
fn write_log<S: Steps, W: Write + Drop>(
    env: &mut Env<S>,
    foreign: Handle,
    out: W,
) -> Result<(), Trouble> {
    call_by_name(env, foreign, LogWatcher::new(Writer::new(out), "jni"))
}

/// Lets native code call an env by a name, with this watcher.
fn call_by_name<S: Steps, W: Watcher + Drop>(
    env: &mut Env<S>,
    foreign: Handle,
    watcher: W,
) -> Result<(), Trouble> {
    let mut checked = Checked::named(env, watcher, "loader");
    native_code(&mut checked, foreign)?;
    Ok(())
}

/// Lets native code make the same calls in one stay, and writes how often each was refused.
fn write_counts<S: Steps, W: Write>(
    env: &mut Env<S>,
    foreign: Handle,
    out: &mut W,
) -> Result<(), Trouble> {
    let mut stay = env.retry_stay(Patience::LONG)?;
    let mut checked = Checked::new(&mut stay, Counts::none());
    let called = native_code(&mut checked, foreign);
    let (_stay, counts) = checked.into_parts();
    stay.end();
    called?;
    counts.write(out)?;
    Ok(())
}

/// Whether a watcher tells that it could not write, where its writer has no room for a line.
fn tells_of_no_room<S: Steps>(env: &mut Env<S>, foreign: Handle) -> bool {
    match write_lines(env, foreign, Cursor::new([0u8; 64])) {
        Err(Trouble::Output(_)) => true,
        _ => false,
    }
}
