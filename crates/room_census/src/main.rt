//! A room that leaks, and what a census and a dump tell of it: as text, and as a drawing that Graphviz's `dot` makes.
#![tactic(auto)]

mod leak;
mod why;

use crate::leak::{keep_some, leak};
use crate::why::tell_why;
use jr_alive::{Dump, NotDrawn};
use jr_env::Env;
use jr_rule::{Room, RoomSteps, Steps};
use jr_word::{Config, Fault, LAST_SERIAL};
use std::alloc::{AllocError, Global};
use std::io;
use std::io::Write;
use thiserror::Error;

/// The sizes of the room.
const SIZES: Config = Config {
    threads: 2,
    slots: 8,
    objects: 11,
    words: 64,
    locals: 16,
};

/// Why the program fails.
#[derive(Debug, Drop, Error)]
pub enum Trouble {
    /// A call was refused.
    #[error("refused: {0}")]
    Refused(#[from] Fault),
    /// What was told was not written.
    #[error("not written: {0}")]
    Output(#[from] io::Error),
    /// Memory was refused.
    #[error("memory was refused")]
    Memory(#[from] AllocError),
    /// The dump was not drawn.
    #[error("not drawn: {0}")]
    Drawing(#[from] NotDrawn),
}

fn main(rt: HostRuntime) -> Result<(), Trouble> {
    tell(rt.alloc(), &mut io::writer(&rt))
}

/// Makes a room of two threads, of which one keeps some objects and the other leaks, and tells what stands.
fn tell<W: Write + Drop>(alloc: Global, out: &mut W) -> Result<(), Trouble> {
    let (room, mut passes) = Room::<LAST_SERIAL>::open(alloc, SIZES)?;
    let (other, pass) = (passes.remove(1), passes.remove(0));
    let mut keeper = Env::new(RoomSteps::new(&room, other)).map_err(|refused| refused.1)?;
    keep_some(&mut keeper)?;
    let mut env = Env::new(RoomSteps::new(&room, pass)).map_err(|refused| refused.1)?;
    tell_by(alloc, &mut env, out)
}

/// Leaks by an env, and tells what stands in its room, and why.
fn tell_by<S: Steps, W: Write>(
    alloc: Global,
    env: &mut Env<S>,
    out: &mut W,
) -> Result<(), Trouble> {
    let mut marker = env.marker(alloc)?;
    let (local, shelf) = leak(env, &mut marker)?;
    let census = env.census(&mut marker)?;
    writeln!(out, "{census}")?;
    let dump = dump_of(alloc, env)?;
    tell_why(alloc, &dump, shelf, out)?;
    dump.draw(alloc, out, 50, census.words.lost, &[local])?;
    Ok(())
}

/// A dump of the room of an env.
fn dump_of<S: Steps>(alloc: Global, env: &mut Env<S>) -> Result<Dump, Fault> {
    let room = Dump::new(alloc, env.held.steps.config())?;
    let Dump {
        mut slots,
        places,
        mut locals,
        mut headers,
        mut words,
    } = room;
    env.dump(&mut slots, &mut locals, &mut headers, &mut words)?;
    Ok(Dump {
        slots,
        places,
        locals,
        headers,
        words,
    })
}
