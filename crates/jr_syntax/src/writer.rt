//! Writes a script.

ghost use Rattle.std.specs.Prelude.{◌≡◌, ◌∷◌, ◌++◌, [], IfOk, IfErr, OnOk};
ghost use Rattle.std.specs.List.{flat_map};
ghost use Rattle.jr_word.specs.declared.fault.Fault.TheVariants.{Memory};
ghost use Rattle.jr_syntax.specs.Line.{line};
ghost use Rattle.jr_syntax.specs.Command.{words_of_command};
ghost use Rattle.jr_syntax.specs.Script.{vm, part_lines, text_of};

use crate::argument::put_one;
use crate::command::Command;
use crate::script::Script;
use crate::thread::ThreadPart;
use jr_word::{Config, Fault};
use std::alloc::{AllocError, Global};

/// The first line, which says the sizes.
fn vm_line(alloc: Global, config: Config) -> Result<Vec<u8>, AllocError>
    ensures { IfOk result (λ text. text.items ≡ line (vm.spell config) ++ 10 ∷ []) }
{
    let Config {
        threads,
        slots,
        objects,
        words,
        locals,
    } = config;
    let text = format!(in alloc;
        "vm threads {threads} slots {slots} objects {objects} words {words} locals {locals}\n"
    )?;
    Ok(text.into_bytes())
}

/// Writes the lines of commands.
fn put_commands(out: &mut Vec<u8>, commands: &[Command]) -> Result<(), AllocError>
    ensures { OnOk result (out.new.items ≡ out.old.items ++ flat_map (λ c. line (words_of_command c) ++ 10 ∷ []) commands.now) }
{
    for command in commands {
        command.put(out)?;
        out.push(b'\n')?;
    }
    Ok(())
}

/// Writes the lines of a thread's part.
fn put_part(out: &mut Vec<u8>, part: &ThreadPart) -> Result<(), AllocError>
    ensures { OnOk result (out.new.items ≡ out.old.items ++ flat_map (λ l. l ++ 10 ∷ []) (part_lines part.now)) }
{
    put_one(out, b"thread", &part.name)?;
    out.push(b'\n')?;
    put_commands(out, part.commands.as_slice())?;
    Ok(())
}

/// The text of a script.
fn written(alloc: Global, script: &Script) -> Result<Vec<u8>, AllocError>
    ensures { IfOk result (λ text. text.items ≡ text_of script.now) }
{
    let mut out = vm_line(alloc, script.config)?;
    for part in script.threads.as_slice() {
        put_part(&mut out, part)?;
    }
    Ok(out)
}

/// The text of a script: of one that was read, the text that was read.
///
/// # Errors
///
/// E16 where memory was refused.
pub fn print(alloc: Global, script: &Script) -> Result<Vec<u8>, Fault>
    ensures text { IfOk result (λ text. text.items ≡ text_of script.now) }
    ensures memory { IfErr result (λ e. e ≡ Memory) }
{
    match written(alloc, script) {
        Ok(text) => Ok(text),
        Err(_) => Err(Fault::Memory),
    }
}
