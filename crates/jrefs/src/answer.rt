//! What the program answers to the text of a script.

ghost use Rattle.std.specs.Prelude.{IfOk, IfErr};
ghost use Rattle.jrefs.specs.Answer.{IsAnswer, IsRefused};

use crate::script::script_of;
use crate::trouble::Trouble;
use jr_scripts::{NoHold, run_all};
use std::alloc::Global;
use std::sync::Wait;
use std::thread::Threads;

/// How often a call is made that is raced or barred.
const TURNS: u64 = 10_000_000;

/// Runs the script of a text, each of its threads in one of its own, and gives what it prints.
pub(crate) fn answer_of<T: Threads + Wait>(
    rt: &T,
    alloc: Global,
    text: &[u8],
) -> Result<Vec<u8>, Trouble>
    ensures answer { IfOk result (λ output. IsAnswer 10000000 4294967295 text.now output.items) }
    ensures refused { IfErr result (IsRefused text.now) }
{
    let script = script_of(alloc, text)?;
    let mut output = Vec::new(alloc);
    match run_all(rt, alloc, &script, &NoHold, TURNS, &mut output) {
        Ok(()) => Ok(output),
        Err(_) => Err(Trouble::Memory),
    }
}
