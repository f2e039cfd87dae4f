//! The loader makes the symbols: each is an array of its name and its numbers.

use crate::symbol_table::SymbolTable;
use crate::{PATIENCE, SYMBOLS, Symbol};
use jr::calls::{
    FreeLocals, GetStringLength, NewArray, NewGlobalRef, NewObjectArray, NewString, SetArrayRegion,
    SetObjectArrayElement,
};
use jr::{
    Env, Fault, Handle, NativeEnv, OverEnv, QueueEnd, Site, Steps, StepsIn, with_local_frame,
};

/// Loads all symbols, hands each on by a global reference, and answers how many units their names have.
pub(crate) fn run<Q: Site, S: StepsIn<Q>, N: NativeEnv<S> + OverEnv<Env<S>>>(
    env: &mut N,
    table: &SymbolTable,
    queue: &QueueEnd<'_, Symbol, Q>,
) -> Result<u32, Fault> {
    let units = load_all(env, queue);
    let freed = env.retry(FreeLocals, PATIENCE);
    table.leave();
    freed?;
    units
}

/// Loads all symbols, each in a frame of its own, and hands each on.
fn load_all<Q: Site, S: StepsIn<Q>, N: NativeEnv<S> + OverEnv<Env<S>>>(
    env: &mut N,
    queue: &QueueEnd<'_, Symbol, Q>,
) -> Result<u32, Fault> {
    let mut units = 0u32;
    for number in 0..SYMBOLS {
        let loaded = with_local_frame(env, 8, PATIENCE, |env| load(env, number)).map_err(
            |unscoped| unscoped.fault(),
        )?;
        let (shared, length) = loaded?;
        hand_on(env, queue, Symbol { number, shared })?;
        units = units.wrapping_add(length);
    }
    Ok(units)
}

/// Hands a symbol on, with a note of what was seen.
fn hand_on<Q: Site, S: StepsIn<Q>, N: NativeEnv<S> + OverEnv<Env<S>>>(
    env: &mut N,
    queue: &QueueEnd<'_, Symbol, Q>,
    symbol: Symbol,
) -> Result<(), Fault> {
    let handed = queue.retry_put(symbol, env.note(), PATIENCE);
    handed.map_err(|_| Fault::Turns)
}

/// Loads a symbol, and answers a global reference to it, and how many units its name has.
fn load<S: Steps, N: NativeEnv<S>>(env: &mut N, number: u32) -> Result<(Handle, u32), Fault> {
    let name = env.retry(NewString(&name_of(number)), PATIENCE)?;
    let numbers = env.retry(NewArray::<i32>::of(4), PATIENCE)?;
    let first = i32::try_from(number).unwrap_or(0);
    env.retry(SetArrayRegion(numbers, 0, &[first, 1, 2, 3]), PATIENCE)?;
    let entry = env.retry(NewObjectArray(2, name), PATIENCE)?;
    env.retry(SetObjectArrayElement(entry, 1, numbers), PATIENCE)?;
    let length = env.retry(GetStringLength(name), PATIENCE)?;
    let shared = env.retry(NewGlobalRef(entry), PATIENCE)?;
    Ok((Handle::or_null(shared), length))
}

/// The name of a symbol: `s` and two digits.
fn name_of(symbol: u32) -> [u16; 3] {
    [115, digit(symbol / 10), digit(symbol)]
}

/// The last digit of a number, as a unit of text.
fn digit(number: u32) -> u16 {
    u16::try_from(number % 10).unwrap_or(0).wrapping_add(48)
}
