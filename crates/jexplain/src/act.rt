//! What the program does, over any reader and writers.

ghost use Rattle.std.specs.Prelude.{[], IfOk};
ghost use Rattle.jr_scripts.specs.AllRuns.{RunsAll};

use crate::json::{mistake_as_json, run_as_json, script_as_json, word_as_json};
use crate::mistake::Mistake;
use crate::request::{Request, Style, Task, request_of};
use crate::rows::Run;
use crate::trouble::Trouble;
use crate::watch::Watch;
use crate::{tell, word};
use clap::Error;
use jr_scripts::{Hold, Script, ScriptFault, parse, run_all};
use jr_syntax::Reason;
use std::alloc::{AllocError, Global};
use std::io::{ErrorKind, Read, Write};
use std::rt::Clock;
use std::sync::Wait;
use std::thread::Threads;

/// How many bytes of the input are read at most: one more than a script may have.
const MOST_INPUT: u64 = 65_537;

/// What is written, and how the program ends.
#[derive(Drop)]
struct Reply {
    /// What goes to standard output.
    output: String,
    /// What goes to standard error.
    faults: String,
    status: u8,
}

impl Reply {
    /// An answer.
    fn answer(alloc: Global, output: String) -> Reply {
        Reply {
            output,
            faults: String::new(alloc),
            status: 0,
        }
    }
}

/// Does what the words ask for, and gives the exit status. Output is written only once all of it is there, and signs of commands that wait go to the host's standard error as they come.
pub(crate) fn act<
    'a,
    T: Threads + Wait,
    H: Eprint + Clock + Sync,
    R: Read + Drop,
    W: Write + Drop,
    F: Write + Drop,
>(
    rt: &T,
    host: &H,
    alloc: Global,
    words: &'a [&'a str],
    reader: &mut R,
    writer: &mut W,
    faults: &mut F,
) -> Result<u8, Trouble> {
    let reply = match request_of(alloc, words) {
        Ok(request) => reply_to(rt, host, alloc, request, reader)?,
        Err(error) => reply_to_no_request(alloc, &error)?,
    };
    write_out(writer, reply.output.as_bytes())?;
    write_out(faults, reply.faults.as_bytes())?;
    Ok(reply.status)
}

/// Writes bytes, and lets them go on.
fn write_out<W: Write + Drop>(writer: &mut W, bytes: &[u8]) -> Result<(), Trouble> {
    let (Ok(()), Ok(())) = (writer.write_all(bytes), writer.flush()) else {
        return Err(Trouble::Output);
    };
    Ok(())
}

/// The help, the version, or what is wrong with the words.
fn reply_to_no_request(alloc: Global, error: &Error) -> Result<Reply, Trouble> {
    let text = error.to_string(alloc)?;
    if !error.use_stderr() {
        return Ok(Reply::answer(alloc, text));
    }
    Ok(Reply {
        output: String::new(alloc),
        faults: text,
        status: 2,
    })
}

/// What a request is answered.
fn reply_to<T: Threads + Wait, H: Eprint + Clock + Sync, R: Read + Drop>(
    rt: &T,
    host: &H,
    alloc: Global,
    request: Request,
    reader: &mut R,
) -> Result<Reply, Trouble> {
    let Request { task, style } = request;
    if let Task::Word(word) = task {
        let text = match style {
            Style::Text => word::told(alloc, word)?,
            Style::Json => word_as_json(alloc, word)?,
        };
        return Ok(Reply::answer(alloc, text));
    }
    let input = input_of(alloc, reader)?;
    match parse(alloc, &input) {
        Ok(script) => reply_to_script(rt, host, alloc, request, &input, &script),
        Err(ScriptFault::At(line, reason)) => {
            Ok(reply_to_mistake(alloc, style, &input, line, reason)?)
        }
        Err(ScriptFault::Memory) => Err(Trouble::Memory),
    }
}

/// What a reader gives, as far as a script may go and one byte more.
fn input_of<R: Read + Drop>(alloc: Global, reader: &mut R) -> Result<Vec<u8>, Trouble> {
    let mut input = Vec::new(alloc);
    match reader.take(MOST_INPUT).read_to_end(&mut input) {
        Ok(_) => Ok(input),
        Err(error) if error.kind() == ErrorKind::OutOfMemory => Err(Trouble::Memory),
        Err(_) => Err(Trouble::Input),
    }
}

/// What the text of a script is answered, by running it or not.
fn reply_to_script<T: Threads + Wait, H: Eprint + Clock + Sync>(
    rt: &T,
    host: &H,
    alloc: Global,
    request: Request,
    text: &[u8],
    script: &Script,
) -> Result<Reply, Trouble> {
    let Task::Run(turns) = request.task else {
        return reply_to_check(alloc, request.style);
    };
    let watch = Watch::over(alloc, host, script)?;
    let printed = text_of_run(rt, alloc, script, &watch, turns)?;
    let run = Run::of(alloc, text, &watch, &printed)?;
    let output = match request.style {
        Style::Text => tell::told(alloc, &run)?,
        Style::Json => run_as_json(alloc, &run)?,
    };
    Ok(Reply::answer(alloc, output))
}

/// What the text of a script is answered that is only read.
fn reply_to_check(alloc: Global, style: Style) -> Result<Reply, Trouble> {
    let output = match style {
        Style::Text => String::from_str(alloc, "ok\n")?,
        Style::Json => script_as_json(alloc)?,
    };
    Ok(Reply::answer(alloc, output))
}

/// What a script prints, run by its threads.
fn text_of_run<T: Threads + Wait, H: Hold + Sync>(
    rt: &T,
    alloc: Global,
    script: &Script,
    hold: &H,
    turns: u64,
) -> Result<Vec<u8>, Trouble>
    ensures { IfOk result (λ text. RunsAll turns 4294967295 script.now [] text.items) }
{
    let mut text = Vec::new(alloc);
    match run_all(rt, alloc, script, hold, turns, &mut text) {
        Ok(()) => Ok(text),
        Err(_) => Err(Trouble::Memory),
    }
}

/// What a text is answered that is no script.
fn reply_to_mistake(
    alloc: Global,
    style: Style,
    text: &[u8],
    line: usize,
    reason: Reason,
) -> Result<Reply, AllocError> {
    let mistake = Mistake::of(alloc, text, line, reason)?;
    let none = String::new(alloc);
    let (output, faults) = match style {
        Style::Text => (none, mistake.to_string(alloc)?),
        Style::Json => (mistake_as_json(alloc, &mistake)?, none),
    };
    Ok(Reply {
        output,
        faults,
        status: 1,
    })
}
