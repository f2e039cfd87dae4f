//! A worker reads the symbols that it takes, keeps a weak reference to the numbers of each, and lets go of it.

use crate::symbol_table::SymbolTable;
use crate::{PATIENCE, SYMBOLS, Symbol};
use jr::calls::{
    DeleteGlobalRef, FreeLocals, GetArrayLength, GetObjectArrayElement, GetStringChars,
    NewWeakGlobalRef,
};
use jr::{
    Env, Fault, Handle, NativeCall, NativeEnv, NoMessage, OverEnv, QueueEnd, Site, Steps, StepsIn,
    with_local_frame,
};
use std::alloc::Global;

/// What workers read.
#[derive(Clone, Copy)]
pub(crate) struct Totals {
    /// How many entries the symbols have.
    pub(crate) entries: u32,
    /// How many units their names have.
    pub(crate) units: usize,
    /// How many numbers they have.
    pub(crate) numbers: u32,
    /// The sum of the hashes of the names.
    pub(crate) hash: u32,
    /// The sum of the first two numbers of each.
    pub(crate) first: i64,
    /// The sum of the last two numbers of each.
    pub(crate) last: i64,
}

impl Totals {
    /// Nothing yet.
    pub(crate) const NONE: Totals = Totals {
        entries: 0,
        units: 0,
        numbers: 0,
        hash: 0,
        first: 0,
        last: 0,
    };

    /// These and some more.
    pub(crate) fn with(self, one: Totals) -> Totals {
        Totals {
            entries: self.entries.wrapping_add(one.entries),
            units: self.units.wrapping_add(one.units),
            numbers: self.numbers.wrapping_add(one.numbers),
            hash: self.hash.wrapping_add(one.hash),
            first: self.first.wrapping_add(one.first),
            last: self.last.wrapping_add(one.last),
        }
    }
}

/// Works through symbols until no more come.
pub(crate) fn run<Q: Site, S: StepsIn<Q>, N: NativeEnv<S> + OverEnv<Env<S>>>(
    alloc: Global,
    env: &mut N,
    table: &SymbolTable,
    queue: &QueueEnd<'_, Symbol, Q>,
) -> Result<Totals, Fault> {
    let found = work_all(alloc, env, table, queue);
    let freed = env.retry(FreeLocals, PATIENCE);
    table.leave();
    freed?;
    found
}

/// Works through the symbols that come, until no more do.
fn work_all<Q: Site, S: StepsIn<Q>, N: NativeEnv<S> + OverEnv<Env<S>>>(
    alloc: Global,
    env: &mut N,
    table: &SymbolTable,
    queue: &QueueEnd<'_, Symbol, Q>,
) -> Result<Totals, Fault> {
    let mut found = Totals::NONE;
    for _ in 0..SYMBOLS {
        let (symbol, note) = match queue.retry_take(PATIENCE) {
            Ok(taken) => taken,
            Err(NoMessage::More) => break,
            Err(NoMessage::Yet) => return Err(Fault::Turns),
        };
        env.learn(note);
        found = found.with(work_in_frame(alloc, env, table, symbol)?);
    }
    Ok(found)
}

/// Works at a symbol in a frame of its own, and lets go of it.
fn work_in_frame<S: Steps, N: NativeEnv<S> + OverEnv<Env<S>>>(
    alloc: Global,
    env: &mut N,
    table: &SymbolTable,
    symbol: Symbol,
) -> Result<Totals, Fault> {
    let worked = with_local_frame(env, 8, PATIENCE, |env| work(alloc, env, table, symbol)).map_err(
        |unscoped| unscoped.fault(),
    )?;
    env.retry(DeleteGlobalRef(symbol.shared), PATIENCE)?;
    worked
}

/// Works at a symbol: copies its name out, and adds its numbers up.
fn work<S: Steps, N: NativeEnv<S> + OverEnv<Env<S>>>(
    alloc: Global,
    env: &mut N,
    table: &SymbolTable,
    symbol: Symbol,
) -> Result<Totals, Fault> {
    let Symbol { number, shared } = symbol;
    let string = made(env, GetObjectArrayElement(shared, 0))?;
    let numbers = made(env, GetObjectArrayElement(shared, 1))?;
    let units = env.retry(GetStringChars { alloc, string }, PATIENCE)?;
    let found = Totals {
        entries: env.retry(GetArrayLength(shared), PATIENCE)?,
        units: units.len(),
        numbers: env.retry(GetArrayLength(numbers), PATIENCE)?,
        hash: hash_of(&units),
        first: added(env, numbers, [0, 1])?,
        last: added(env, numbers, [2, 3])?,
    };
    table.keep(number, made(env, NewWeakGlobalRef(numbers))?);
    Ok(found)
}

/// The hash of a name, as Java's `String.hashCode` has it.
fn hash_of(name: &[u16]) -> u32 {
    let mut hash = 0u32;
    for unit in name {
        hash = hash.wrapping_mul(31).wrapping_add(u32::from(*unit));
    }
    hash
}

/// The sum of two of an array's numbers, in a critical region.
fn added<S: Steps, N: NativeEnv<S> + OverEnv<Env<S>>>(
    env: &mut N,
    numbers: Handle,
    at: [u32; 2],
) -> Result<i64, Fault> {
    let mut region = env.retry_array_critical(numbers, PATIENCE)?;
    let first = region.get::<i32>(0, at[0]);
    let second = region.get::<i32>(0, at[1]);
    region.release_all();
    Ok(i64::from(first?).wrapping_add(i64::from(second?)))
}

/// The reference that a call made, NULL where that is to nothing.
fn made<S: Steps, N: NativeEnv<S>, C: NativeCall<S, Answer = Option<Handle>> + Copy>(
    env: &mut N,
    call: C,
) -> Result<Handle, Fault> {
    Ok(Handle::or_null(env.retry(call, PATIENCE)?))
}
