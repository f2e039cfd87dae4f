//! What each command of a script is answered, as its threads run, and a sign where one waits.

use crate::mistake::Shown;
use jr_scripts::{Hold, Reply};
use jr_syntax::{Command, Make, Name, OnName, Script};
use jr_word::Fault;
use std::alloc::{AllocError, Global};
use std::rt::Clock;
use std::sync::OnceLock;
use std::thread;
use std::time::Duration;

/// How often it is looked whether a name was posted, before a sign is given.
const LOOKS: u32 = 100;

/// How many milliseconds lie between two such looks.
const PAUSE: u64 = 5;

/// What a command was answered.
#[derive(Clone, Copy)]
pub(crate) enum Answer {
    /// It was done, and prints nothing.
    Done,
    /// It was done, and prints a line.
    Said,
    /// It was refused.
    Refused(Fault),
}

impl Answer {
    /// What is kept of an answer.
    fn of(answer: &Result<Reply, Fault>) -> Answer {
        match answer {
            Ok(Reply::Done | Reply::Made(Some(_)) | Reply::Copied(_) | Reply::Level(_)) => {
                Answer::Done
            }
            Ok(_) => Answer::Said,
            Err(fault) => Answer::Refused(*fault),
        }
    }
}

/// A line of a script: its command, if it has one, and what that was answered.
#[derive(Drop)]
struct Line<'a> {
    command: Option<&'a Command>,
    answer: OnceLock<Answer>,
}

impl<'a> Line<'a> {
    /// A line that has no answer yet.
    fn new(command: Option<&'a Command>) -> Line<'a> {
        Line {
            command,
            answer: OnceLock::new(),
        }
    }

    /// The name that the line's command waits for, if it is a `wait`.
    fn awaited(&self) -> Option<&'a Name> {
        match self.command? {
            Command::Make {
                verb: Make::Wait,
                name,
            } => Some(name),
            _ => None,
        }
    }

    /// Whether the line's command posts a name.
    fn posts(&self, wanted: &Name) -> bool {
        match self.command {
            Some(
                Command::OnName {
                    verb: OnName::Post,
                    name,
                },
            ) => name == wanted,
            _ => false,
        }
    }
}

/// Keeps the answers of a script's commands, and gives a sign on the host's standard error where one waits for long.
#[derive(Drop)]
pub(crate) struct Watch<'a, H> {
    host: &'a H,
    /// The lines by their numbers; none has the number 0.
    lines: Vec<Line<'a>>,
}

impl<'a, H: Eprint + Clock> Watch<'a, H> {
    /// A watch over a script of which no command was answered yet.
    pub(crate) fn over(
        alloc: Global,
        host: &'a H,
        script: &'a Script,
    ) -> Result<Watch<'a, H>, AllocError> {
        let mut lines = Vec::new(alloc);
        lines.push(Line::new(None))?;
        lines.push(Line::new(None))?;
        for part in script.threads.as_slice() {
            lines.push(Line::new(None))?;
            for command in part.commands.as_slice() {
                lines.push(Line::new(Some(command)))?;
            }
        }
        Ok(Watch { host, lines })
    }

    /// What the command of a line was answered, if it was.
    pub(crate) fn answer(&self, line: usize) -> Option<Answer> {
        self.lines.get(line)?.answer.get().copied()
    }

    /// The line that posts a name, if one does.
    fn posting(&self, name: &Name) -> Option<usize> {
        for (number, line) in self.lines.iter().enumerate() {
            if line.posts(name) {
                return Some(number);
            }
        }
        None
    }

    /// Waits a little until the command of a line was answered, and gives whether it was.
    fn is_answered_soon(&self, line: usize) -> bool {
        for _ in 0..LOOKS {
            if self.answer(line).is_some() {
                return true;
            }
            thread::sleep(self.host, Duration::from_millis(PAUSE));
        }
        false
    }

    /// Gives a sign that a line waits for a name. Where it can't be written, none is given.
    fn sign(&self, line: usize, name: &Name, posting: Option<usize>) {
        let name = Shown(name.as_slice());
        let _ = match posting {
            Some(posting) => {
                eprintln!(self.host; "line {line} waits for {name}, which line {posting} posts")
            }
            None => eprintln!(self.host; "line {line} waits for {name}, which no line posts"),
        };
    }
}

impl<H: Eprint + Clock> Hold for Watch<'_, H> {
    fn before(&self, _thread: u8, line: usize) {
        let Some(name) = self.lines.get(line).and_then(Line::awaited) else {
            return;
        };
        let posting = self.posting(name);
        match posting {
            Some(posting) if self.is_answered_soon(posting) => {}
            _ => self.sign(line, name, posting),
        }
    }

    fn after(&self, _thread: u8, line: usize, answer: &Result<Reply, Fault>) {
        if let Some(it) = self.lines.get(line) {
            let _ = it.answer.try_set(Answer::of(answer));
        }
    }
}
