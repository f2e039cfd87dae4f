//! What the words of the command line ask for.

ghost use Rattle.std.specs.Prelude.{◌≡◌, ◌≢◌, ◌⊎◌, map, Some, IfOk, IfErr, IsErrAnd, codes};
ghost use Rattle.clap.specs.Words.{app_of, kind_of, subcommand_rows_of, first_value, found_of};
ghost use Rattle.clap.specs.declared.error.ErrorKind.TheVariants.{OutOfMemory};
ghost use Rattle.jrefs.specs.Request.{command_line, IsHexCommand, hex_found, request_found, asked_for, Asks, AskNothing};
ghost use Rattle.jrefs.specs.declared.request.Request.{Request as AnyRequest};
ghost use Rattle.jrefs.specs.declared.trouble.Trouble.TheVariants.{Memory, Usage};

use crate::describe::word_of_hex;
use crate::trouble::Trouble;
use clap::error::ErrorKind;
use clap::{Arg, ArgMatches, Command, Error};
use std::alloc::{AllocError, Global};

/// What is asked for.
#[derive(Clone, Copy, Debug, PartialEq, Eq)]
pub enum Request {
    /// To run the script on standard input.
    Run,
    /// To parse the script on standard input, and no more.
    Check,
    /// To say what this word is as a handle.
    Word(u64),
    /// To say what this word of the earlier layout is today.
    Widen(u64),
}

/// A command of this name that takes a word in hexadecimal digits.
fn of_hex<'a>(alloc: Global, name: &'a str) -> Result<Command<'a>, AllocError>
    ensures { IfOk result (IsHexCommand name.now) }
{
    let hex = Arg::new(alloc, "hex").required(true);
    Command::new(alloc, name).arg(hex)
}

/// The program's command line.
fn command<'a>(alloc: Global) -> Result<Command<'a>, AllocError>
    ensures { IfOk result (λ c. app_of c ≡ command_line) }
{
    let word = of_hex(alloc, "word")?;
    let widen = of_hex(alloc, "widen")?;
    Command::new(alloc, "jrefs")
        .no_binary_name(true)
        .subcommand_required(true)
        .subcommand(Command::new(alloc, "run"))?
        .subcommand(Command::new(alloc, "check"))?
        .subcommand(word)?
        .subcommand(widen)
}

/// The word that a command was given in hexadecimal digits.
fn digits_of(inner: &ArgMatches<'_>) -> Option<u64>
    ensures { result ≡ hex_found (first_value (found_of inner.now) (codes "hex")) }
{
    word_of_hex(inner.get_str("hex")?)
}

/// The request that was found.
fn found(matches: &ArgMatches<'_>) -> Option<Request>
    ensures { result ≡ request_found (subcommand_rows_of matches.now) }
{
    let (name, inner) = matches.subcommand()?;
    match name {
        "run" => Some(Request::Run),
        "check" => Some(Request::Check),
        "word" => Some(Request::Word(digits_of(inner)?)),
        _ => Some(Request::Widen(digits_of(inner)?)),
    }
}

/// Why the words are refused.
fn refusal(error: &Error) -> Trouble
    ensures memory { kind_of error.now ≡ OutOfMemory → result ≡ Memory }
    ensures other { kind_of error.now ≢ OutOfMemory → result ≡ Usage }
{
    match error.kind() {
        ErrorKind::OutOfMemory => Trouble::Memory,
        _ => Trouble::Usage,
    }
}

/// The request that the words are, without the program's name.
pub(crate) fn request_of<'a>(alloc: Global, words: &'a [&'a str]) -> Result<Request, Trouble>
    ensures ok { IfOk result (λ r. asked_for (map (λ w. w.now) words.entry.now) ≡ Some r) }
    ensures err { IfErr result (λ t. (t ≡ Memory) ⊎ (t ≡ Usage)) }
    ensures refused { AskNothing (map (λ w. w.now) words.entry.now) → IsErrAnd result (λ t. (t ≡ Memory) ⊎ (t ≡ Usage)) }
    ensures nothing { IfErr result (λ t. t ≡ Usage → AskNothing (map (λ w. w.now) words.entry.now)) }
    // A request is taken, unless memory runs out.
    ensures taken { (r : AnyRequest) → Asks r (map (λ w. w.now) words.entry.now) → IfErr result (λ t. t ≡ Memory) }
{
    let Ok(command) = command(alloc) else {
        return Err(Trouble::Memory);
    };
    match command.try_get_matches_from(words) {
        Ok(matches) => found(&matches).ok_or(Trouble::Usage),
        Err(error) => Err(refusal(&error)),
    }
}
