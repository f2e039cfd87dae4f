//! Laws of the grammar and its faults, and of reading what was printed.

ghost use Rattle.std.specs.Prelude.{◌≡◌, ℕ, List, None, IfOk, IfErr};
ghost use Rattle.jr_syntax.specs.declared.script.Script.{Script};
ghost use Rattle.jr_syntax.specs.Script.{IsScript, text_of};
ghost use Rattle.jr_syntax.specs.Faults.{first_fault};
ghost use Rattle.jr_syntax.specs.Parse.{IsFaultOf, ReadsAs};

use crate::fault::ScriptFault;
use crate::reader::parse;
use crate::script::Script;
use crate::writer::print;
use std::alloc::Global;

/// The text of a script has no fault.
pub fn a_script_has_no_fault()
    ensures { (s : Script) → IsScript s → first_fault (text_of s) ≡ None }
{}

/// A text without a fault is the text of a script: what the table of faults lets pass has a form of the grammar.
pub fn a_text_without_a_fault_is_a_script()
    ensures { (text : List ℕ) → first_fault text ≡ None → (s : Script) × IsScript s × (text ≡ text_of s) }
{}

/// No text is that of two scripts.
pub fn a_text_has_one_script()
    ensures { (s t : Script) → IsScript s → IsScript t → text_of s ≡ text_of t → s ≡ t }
{}

/// What is read of a text is printed as this text.
///
/// # Errors
///
/// The text is no script, or memory was refused.
pub fn a_text_read_is_printed_again(alloc: Global, text: &[u8]) -> Result<Vec<u8>, ScriptFault>
    ensures text { IfOk result (λ printed. printed.items ≡ text.now) }
    ensures fault { IfErr result (IsFaultOf text.now) }
{
    let script = match parse(alloc, text) {
        Ok(script) => script,
        Err(fault) => return Err(fault),
    };
    match print(alloc, &script) {
        Ok(printed) => Ok(printed),
        Err(_) => Err(ScriptFault::Memory),
    }
}

/// What is printed of a script is read as this script.
///
/// # Errors
///
/// What was given is no script, or memory was refused.
pub fn a_script_printed_is_read_again(alloc: Global, script: &Script) -> Result<Script, ScriptFault>
    ensures { IsScript script.now → ReadsAs script.now result }
{
    match print(alloc, script) {
        Ok(text) => parse(alloc, &text),
        Err(_) => Err(ScriptFault::Memory),
    }
}
