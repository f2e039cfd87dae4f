//! The script that is asked about.

ghost use Rattle.std.specs.Prelude.{◌≡◌, IfOk, IfErr};
ghost use Rattle.jr_syntax.specs.Script.{IsScript, text_of};
ghost use Rattle.jrefs.specs.Answer.{IsRefused};

use crate::trouble::Trouble;
use jr_scripts::{Script, parse};
use std::alloc::Global;

/// The script of a text.
pub(crate) fn script_of(alloc: Global, text: &[u8]) -> Result<Script, Trouble>
    ensures read { IfOk result (λ s. IsScript s × (text.now ≡ text_of s)) }
    ensures refused { IfErr result (IsRefused text.now) }
{
    let script = parse(alloc, text)?;
    Ok(script)
}
