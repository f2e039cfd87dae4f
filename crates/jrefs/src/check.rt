//! What the program says of a script that it only parses.

ghost use Rattle.std.specs.Prelude.{◌≡◌, ◌≤◌, IfOk, IfErr};
ghost use Rattle.jrefs.specs.Answer.{IsRefused};
ghost use Rattle.jrefs.specs.Check.{IsCheck, commands_in};

use crate::script::script_of;
use crate::trouble::Trouble;
use jr_syntax::ThreadPart;
use std::alloc::Global;

/// How many commands the threads have together.
fn commands_in(threads: &[ThreadPart]) -> usize
    requires { commands_in threads.now ≤ 4096 }
    ensures { result ≡ commands_in threads.now }
{
    let mut count = 0;
    for part in threads {
        count += part.commands.as_slice().len();
    }
    count
}

/// Parses a text, and gives the line of its script.
pub(crate) fn check_of(alloc: Global, text: &[u8]) -> Result<Vec<u8>, Trouble>
    ensures checked { IfOk result (λ output. IsCheck text.now output.items) }
    ensures refused { IfErr result (IsRefused text.now) }
{
    let script = script_of(alloc, text)?;
    let threads = script.threads.as_slice();
    let count = threads.len();
    let commands = commands_in(threads);
    match format!(in alloc; "ok threads {count} commands {commands}\n") {
        Ok(line) => Ok(line.into_bytes()),
        Err(_) => Err(Trouble::Memory),
    }
}
