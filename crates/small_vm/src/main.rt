//! A small machine of four native threads over one room: a loader, two workers and a collector, each with an env of its own.
#![tactic(auto)]

mod collector;
mod loader;
#[cfg(test)]
mod stressed;
mod symbol_table;
#[cfg(test)]
mod tests;
mod worker;

use jr::{
    Config, Env, Fault, HandedOn, Handle, NativeCode, NativeEnv, OverEnv, Patience, QueueEnd, Site,
    StepsIn, Summary, run_native,
};
use std::alloc::{AllocError, Global};
use std::io;
use symbol_table::SymbolTable;
use thiserror::Error;
use worker::Totals;

/// How many symbols there are.
const SYMBOLS: u32 = 24;

/// How often a call is made again: also for want of room, until the collector has collected.
const PATIENCE: Patience = Patience {
    waits_for_room: true,
    ..Patience::LONG
};

/// The sizes of the room.
const SIZES: Config = Config {
    threads: 4,
    slots: 128,
    objects: 128,
    words: 512,
    locals: 64,
};

/// What the threads share.
#[derive(Drop)]
struct Machine {
    alloc: Global,
    table: SymbolTable,
}

/// A symbol that is handed on, with a global reference to it.
#[derive(Clone, Copy, Drop)]
struct Symbol {
    number: u32,
    shared: Handle,
}

/// What a thread did.
#[derive(Clone, Copy, Drop)]
enum Done {
    /// The loader gave the symbols names of so many units.
    Loaded(u32),
    /// A worker found this.
    Worked(Totals),
    /// The collector left so many weak references of the cache cleared.
    Collected(u32),
}

impl HandedOn for Symbol {}

impl NativeCode for Machine {
    type Message = Symbol;

    type Answer = Result<Done, Fault>;

    const PLACES: usize = 8;

    fn run<Q: Site, S: StepsIn<Q> + Drop>(
        &self,
        thread: u8,
        env: &mut Env<S>,
        queue: &mut QueueEnd<'_, Symbol, Q>,
    ) -> Result<Done, Fault> {
        self.work(thread, env, queue)
    }
}

impl Machine {
    /// Lets a thread do its work, by an env, or by one that is checked or stressed.
    fn work<Q: Site, S: StepsIn<Q>, N: NativeEnv<S> + OverEnv<Env<S>>>(
        &self,
        thread: u8,
        env: &mut N,
        queue: &mut QueueEnd<'_, Symbol, Q>,
    ) -> Result<Done, Fault> {
        if thread > 0 {
            queue.puts_no_more();
        }
        match thread {
            0 => Ok(Done::Loaded(loader::run(env, &self.table, queue)?)),
            1 | 2 => Ok(Done::Worked(worker::run(self.alloc, env, &self.table, queue)?)),
            _ => Ok(Done::Collected(collector::run(self.alloc, env, &self.table)?)),
        }
    }
}

/// Why the machine stops.
#[derive(Debug, Drop, Error)]
enum Trouble {
    /// A call was refused.
    #[error("refused: {0}")]
    Refused(#[from] Fault),
    /// Memory was refused.
    #[error("no memory")]
    Memory(#[from(alloc)] AllocError),
    /// Nothing could be written.
    #[error("not written: {0}")]
    Output(#[from] io::Error),
}

fn main(rt: HostRuntime) -> Result<(), Trouble> {
    let alloc = rt.alloc();
    let table = SymbolTable::new(alloc, SYMBOLS)?;
    let machine = Machine { alloc, table };
    let ran = run_native(&rt, alloc, SIZES, &machine)?;
    let mut found = Totals::NONE;
    for answer in ran.answers {
        match answer? {
            Done::Loaded(units) => {
                println!(rt; "the loader named {SYMBOLS} symbols, by {units} units")?
            }
            Done::Worked(one) => found = found.with(one),
            Done::Collected(cleared) => {
                print_count(
                    &rt,
                    "weak references of the cache that are cleared",
                    cleared,
                )?
            }
        }
    }
    print_totals(&rt, found)?;
    print_left(&rt, ran.summary)?;
    Ok(())
}

/// Prints what the workers read.
fn print_totals<R: Print>(rt: &R, found: Totals) -> io::Result<()> {
    let (entries, units, numbers) = (found.entries, found.units, found.numbers);
    println!(rt; "the workers read {entries} entries, {units} units and {numbers} numbers")?;
    print_count(rt, "the sum of the names' hashes", found.hash)?;
    let (first, last) = (found.first, found.last);
    println!(rt; "the sum of the first two numbers of each is {first}, and of the last two {last}")
}

/// Prints what stood as the room was closed.
fn print_left<R: Print>(rt: &R, left: Summary) -> io::Result<()> {
    print_count(rt, "global references left", left.globals)?;
    print_count(rt, "weak references left", left.weaks)?;
    print_count(rt, "objects left", left.live)?;
    print_count(rt, "words left", left.used)
}

/// Prints a line: what is counted, and how many of it there are.
fn print_count<R: Print>(rt: &R, what: &str, count: u32) -> io::Result<()> {
    println!(rt; "{what}: {count}")
}
