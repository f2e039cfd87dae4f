//! Reads a script.

ghost use Rattle.std.specs.Prelude.{◌≡◌, Some, IfOk, IfErr};
ghost use Rattle.jr_syntax.specs.Line.{words_of};
ghost use Rattle.jr_syntax.specs.Script.{IsScript, text_of, vm};
ghost use Rattle.jr_syntax.specs.Parse.{IsFaultOf, ReadsAs};
ghost use Rattle.jr_syntax.specs.Draft.{GaveSome, first_rows, fault_at};
ghost use Rattle.jr_syntax.specs.declared.script.Script.{Script};

use crate::argument::LineError;
use crate::draft::{Draft, LineFault};
use crate::fault::{Reason, ScriptFault};
use crate::line::{Lines, is_printable};
use crate::script::Script;
use crate::vm_line::config_of;
use crate::word::LineWords;
use jr_word::Config;
use std::alloc::Global;

/// How many bytes a script may have.
const MOST_BYTES: usize = 65_536;

/// The sizes that the first line says.
fn first_line(line: &[u8], finished: bool) -> Result<Config, Reason>
    ensures { GaveSome (first_rows (line.now, finished)) result (Some (vm.value (words_of line.now))) }
{
    if !finished {
        return Err(Reason::UnfinishedLine);
    }
    if !is_printable(line) {
        return Err(Reason::NotAscii);
    }
    match config_of(LineWords::new(line)) {
        Ok(config) => Ok(config),
        Err(LineError::Form) => Err(Reason::VmLineExpected),
        Err(LineError::Range) => Err(Reason::NumberOutOfRange),
    }
}

impl LineFault {
    /// The fault of the line with a number.
    fn at(self, number: usize) -> ScriptFault
        ensures { result ≡ fault_at number self }
    {
        match self {
            LineFault::Fault(reason) => ScriptFault::At(number, reason),
            LineFault::Memory => ScriptFault::Memory,
        }
    }
}

/// The script of a text.
///
/// # Errors
///
/// The first line with a fault and the first fault that fits it, or that memory was refused.
pub fn parse(alloc: Global, text: &[u8]) -> Result<Script, ScriptFault>
    // What is read is a script, and the text is its text.
    ensures read { IfOk result (λ s. IsScript s × (text.now ≡ text_of s)) }
    // The text of a script is read as this script, unless memory runs out.
    ensures only { (s : Script) → IsScript s → text.now ≡ text_of s → ReadsAs s result }
    // A fault is the first of the text.
    ensures fault { IfErr result (IsFaultOf text.now) }
{
    read(alloc, text)
}

/// Reads a script line by line.
fn read(alloc: Global, text: &[u8]) -> Result<Script, ScriptFault>
    ensures read { IfOk result (λ s. IsScript s × (text.now ≡ text_of s)) }
    ensures fault { IfErr result (IsFaultOf text.now) }
{
    if text.len() > MOST_BYTES {
        return Err(ScriptFault::At(1, Reason::TooLong));
    }
    let mut lines = Lines::new(text);
    let Some((line, finished)) = lines.next() else {
        return Err(ScriptFault::At(1, Reason::EmptyInput));
    };
    let config = match first_line(line, finished) {
        Ok(config) => config,
        Err(reason) => return Err(ScriptFault::At(1, reason)),
    };
    let mut draft = Draft::new(alloc, config);
    let mut number = 1;
    while let Some((line, finished)) = lines.next() {
        if let Err(fault) = draft.take(alloc, number + 1, line, finished) {
            return Err(fault.at(number + 1));
        }
        number += 1;
    }
    if !draft.is_full() {
        return Err(ScriptFault::At(number + 1, Reason::ThreadLineExpected));
    }
    match draft.into_script() {
        Ok(script) => Ok(script),
        Err(_) => Err(ScriptFault::Memory),
    }
}
