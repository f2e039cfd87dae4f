//! The lines of a script that was run, each beside what it was answered.

use crate::watch::{Answer, Watch};
use std::alloc::{AllocError, Global};
use std::rt::Clock;
use std::str;

/// What a line of a script is.
#[derive(Clone, Copy)]
pub(crate) enum Kind {
    /// The first line, which says the sizes.
    Sizes,
    /// The line before a thread's commands.
    Thread,
    /// A command, with its answer.
    Command(Answer),
}

/// A line of a script, with what `run_all` printed of it.
#[derive(Clone, Copy)]
pub(crate) struct Row<'a> {
    /// The line's number, counted from 1.
    pub(crate) number: usize,
    /// The line.
    pub(crate) text: &'a str,
    /// What it is.
    pub(crate) kind: Kind,
    /// What was printed of it, if anything was.
    pub(crate) printed: &'a str,
}

/// A run: its rows, and the last line that was printed.
#[derive(Drop)]
pub(crate) struct Run<'a> {
    pub(crate) rows: Vec<Row<'a>>,
    pub(crate) end: &'a str,
}

/// Bytes that are text.
fn text_of(bytes: &[u8]) -> &str {
    str::from_utf8(bytes).unwrap_or("")
}

/// What a line is, by the answer to it.
fn kind_of(number: usize, answer: Option<Answer>) -> Kind {
    match answer {
        Some(answer) => Kind::Command(answer),
        None if number == 1 => Kind::Sizes,
        None => Kind::Thread,
    }
}

impl Kind {
    /// Whether a line was printed of it.
    fn is_printed(self) -> bool {
        match self {
            Kind::Sizes | Kind::Command(Answer::Done) => false,
            Kind::Thread | Kind::Command(Answer::Said | Answer::Refused(_)) => true,
        }
    }
}

impl<'a> Run<'a> {
    /// The run of a script with this text, of which this was printed.
    pub(crate) fn of<H: Eprint + Clock>(
        alloc: Global,
        text: &'a [u8],
        watch: &Watch<'_, H>,
        printed: &'a [u8],
    ) -> Result<Run<'a>, AllocError> {
        let mut said = text_of(printed).lines();
        let mut rows = Vec::new(alloc);
        for (at, text) in text_of(text).lines().enumerate() {
            let number = at + 1;
            let kind = kind_of(number, watch.answer(number));
            let printed = if kind.is_printed() {
                said.next().unwrap_or("")
            } else {
                ""
            };
            rows.push(Row {
                number,
                text,
                kind,
                printed,
            })?;
        }
        let end = said.skip(1).next().unwrap_or("");
        Ok(Run { rows, end })
    }
}
