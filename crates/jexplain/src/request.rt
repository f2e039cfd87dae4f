//! What the words of the command line ask for.

use crate::word::word_of;
use clap::error::ErrorKind;
use clap::{Arg, ArgAction, ArgMatches, Command, Error, value_parser};
use std::alloc::{AllocError, Global};

/// How often a call is made that is raced or barred, and how often a `wait` looks, where no option says so.
const TURNS: u64 = 10_000_000;

/// How answers are told.
#[derive(Clone, Copy)]
pub(crate) enum Style {
    /// To a person.
    Text,
    /// As JSON, an object a line.
    Json,
}

/// What is asked for.
#[derive(Clone, Copy)]
pub(crate) enum Task {
    /// To run the script on standard input, with so many turns.
    Run(u64),
    /// To read it, and no more.
    Check,
    /// To say what a word is.
    Word(u64),
}

/// What the words of the command line ask for.
#[derive(Clone, Copy)]
pub(crate) struct Request {
    pub(crate) task: Task,
    pub(crate) style: Style,
}

/// A command with its option for JSON.
fn with_json<'a>(alloc: Global, name: &'a str, about: &'a str) -> Result<Command<'a>, AllocError> {
    let json = Arg::new(alloc, "json")
        .long("json")
        .action(ArgAction::SetTrue)
        .help("Answers in JSON, an object a line");
    Command::new(alloc, name).about(about).arg(json)
}

/// The command that runs.
fn run_command<'a>(alloc: Global) -> Result<Command<'a>, AllocError> {
    let turns = Arg::new(alloc, "turns")
        .long("turns")
        .value_name("N")
        .value_parser(value_parser!(u64))
        .help("How often a wait looks, and a barred call is made [default: 10000000]");
    let run = with_json(
        alloc,
        "run",
        "Runs the script on standard input, and tells each line beside its answer",
    )?;
    run.arg(turns)
}

/// The command that describes a word.
fn word_command<'a>(alloc: Global) -> Result<Command<'a>, AllocError> {
    let word = Arg::new(alloc, "word")
        .value_name("WORD")
        .required(true)
        .help("Decimal digits, or 0x and hexadecimal digits");
    let command = with_json(alloc, "word", "Says what a word is as a handle")?;
    command.arg(word)
}

/// The program's command line.
fn command<'a>(alloc: Global) -> Result<Command<'a>, AllocError> {
    let check = with_json(
        alloc,
        "check",
        "Reads the script on standard input, and tells its first fault",
    )?;
    Command::new(alloc, "jexplain")
        .version("0.1.0")
        .about("Runs scripts of JNI calls, and explains faults, refusals and words")
        .bin_name("jexplain")?
        .no_binary_name(true)
        .subcommand_required(true)
        .subcommand(run_command(alloc)?)?
        .subcommand(check)?
        .subcommand(word_command(alloc)?)
}

/// What a command asks for, if its word is one.
fn task_of(name: &str, inner: &ArgMatches<'_>) -> Option<Task> {
    match name {
        "run" => Some(Task::Run(inner.get_one::<u64>("turns").unwrap_or(TURNS))),
        "check" => Some(Task::Check),
        _ => Some(Task::Word(word_of(inner.get_str("word")?)?)),
    }
}

/// The request that was found, if it is one.
fn found(matches: &ArgMatches<'_>) -> Option<Request> {
    let (name, inner) = matches.subcommand()?;
    let style = if inner.get_flag("json") {
        Style::Json
    } else {
        Style::Text
    };
    let task = task_of(name, inner)?;
    Some(Request { task, style })
}

/// The request that the words are, without the program's name.
///
/// # Errors
///
/// What is to be told in place of an answer: a mistake in the words, the help or the version.
pub(crate) fn request_of<'a>(alloc: Global, words: &'a [&'a str]) -> Result<Request, Error> {
    let matches = command(alloc)?.try_get_matches_from(words)?;
    match found(&matches) {
        Some(request) => Ok(request),
        None => {
            let message =
                "WORD is decimal digits, or 0x and hexadecimal digits, of at most 64 bits";
            let mut command = command(alloc)?;
            Err(command.error(ErrorKind::ValueValidation, message)?)
        }
    }
}
