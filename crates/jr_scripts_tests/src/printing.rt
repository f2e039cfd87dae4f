//! What a script of one thread prints, run alone over plain words and as any other over a room.
//!
//! A refused growth ends a test with `Memory`, once it is checked that nothing was printed, or nothing but what stands before the
//! line of a copy that found no memory. Any other answer than the one that is wanted fails an assertion: so each growth may be
//! refused in turn, and the assertions stand.

use assertions::{Text, assert_same};
use jr_scripts::{NoHold, run_all, run_one};
use jr_syntax::parse;
use jr_word::Fault;
use std::alloc::Global;
use std::process::Abort;
use std::sync::Wait;
use std::test::Fail;
use std::thread::Threads;

/// What stands in the output before a run.
pub(crate) const BEFORE: &[u8] = b"before\n";

/// How often a call is made that is raced or barred.
pub(crate) const TURNS: u64 = 3;

/// Checks what a run left in the output.
pub(crate) fn leaves(
    rt: &impl Abort,
    answer: Result<(), Fault>,
    out: &[u8],
    wanted: &[u8],
) -> Result<(), Fail> {
    match answer {
        Ok(()) => {
            assert_same!(rt; Text(out), Text(wanted));
            Ok(())
        }
        Err(fault) => {
            assert_same!(rt; fault, Fault::Memory);
            assert_same!(rt; Text(out), Text(BEFORE));
            Err(fault)?
        }
    }
}

/// Whether a command was refused memory, behind lines that are wanted.
fn lacks_memory(out: &[u8], wanted: &[u8]) -> bool {
    let mut line = 0;
    for at in 0..out.len() {
        if out[at..].starts_with(b" ! E16\n") {
            return match out.get(..line) {
                Some(lines) => wanted.starts_with(lines),
                None => false,
            };
        }
        if out[at] == b'\n' {
            line = at + 1;
        }
    }
    false
}

/// Checks what a run left in the output; where a copy found no memory, which is printed, that is handed on.
fn copies_leave(
    rt: &impl Abort,
    answer: Result<(), Fault>,
    out: &[u8],
    wanted: &[u8],
) -> Result<(), Fail> {
    if answer.is_ok() && lacks_memory(out, wanted) {
        return Err(Fault::Memory)?;
    }
    leaves(rt, answer, out, wanted)
}

/// Checks what a script of one thread prints behind other output, run alone and as any other.
pub(crate) fn prints<R: Abort + Threads + Wait>(
    rt: &R,
    alloc: Global,
    script: &[u8],
    wanted: &[u8],
) -> Result<(), Fail> {
    let script = parse(alloc, script)?;
    let mut out = Vec::from_slice(alloc, BEFORE)?;
    let mut whole = Vec::from_slice(alloc, BEFORE)?;
    whole.extend_from_slice(wanted)?;
    let answer = run_one(alloc, &script, TURNS, &mut out);
    copies_leave(rt, answer, &out, &whole)?;
    let mut again = Vec::from_slice(alloc, BEFORE)?;
    let answer = run_all(rt, alloc, &script, &NoHold, TURNS, &mut again);
    copies_leave(rt, answer, &again, &whole)
}
