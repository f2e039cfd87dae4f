//! The collector collects while the others work, and once more when they have left.

use crate::symbol_table::SymbolTable;
use crate::{PATIENCE, SYMBOLS};
use jr::calls::IsSameObject;
use jr::{Env, Fault, Handle, NativeEnv, OverEnv, Steps};
use std::alloc::Global;
use std::thread;

/// How often it collects at the most.
const ROUNDS: u32 = 1 << 22;

/// How often an announced collection tries to shut the gate.
const SHUTS: u32 = 1_000;

/// Collects until the others have left, and once more, and tells how many weak references of the cache are cleared then.
pub(crate) fn run<S: Steps, N: NativeEnv<S> + OverEnv<Env<S>>>(
    alloc: Global,
    env: &mut N,
    table: &SymbolTable,
) -> Result<u32, Fault> {
    let mut marker = env.marker(alloc)?;
    for _ in 0..ROUNDS {
        let is_last = table.have_left(3);
        env.collect_in_turn(&mut marker, SHUTS, PATIENCE)?;
        if is_last {
            return cleared(env, table);
        }
        thread::yield_now();
    }
    Err(Fault::Turns)
}

/// How many weak references of the cache are cleared.
fn cleared<S: Steps, N: NativeEnv<S>>(env: &mut N, table: &SymbolTable) -> Result<u32, Fault> {
    let mut cleared = 0u32;
    for symbol in 0..SYMBOLS {
        if env.retry(IsSameObject(table.kept(symbol), Handle::NULL), PATIENCE)? {
            cleared = cleared.wrapping_add(1);
        }
    }
    Ok(cleared)
}
