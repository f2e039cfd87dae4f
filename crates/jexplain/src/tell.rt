//! A run, and a mistake, told to a person.

use crate::rows::{Kind, Row, Run};
use crate::watch::Answer;
use std::alloc::{AllocError, Global};
use std::fmt;
use std::fmt::Write;

/// The row as a line: its number, its text, and its answer.
impl fmt::Display for Row<'_> {
    fn fmt<W: fmt::Write>(&self, f: &mut fmt::Formatter<W>) -> fmt::Result {
        let Row {
            number,
            text,
            kind,
            printed,
        } = *self;
        match kind {
            Kind::Sizes | Kind::Thread => write!(f, "{number:>4}  {text}"),
            Kind::Command(Answer::Done) => write!(f, "{number:>4}  {text:<24}  done"),
            Kind::Command(Answer::Said) => write!(f, "{number:>4}  {text:<24}  {printed}"),
            Kind::Command(Answer::Refused(fault)) => {
                write!(f, "{number:>4}  {text:<24}  refused, {}", fault.report())
            }
        }
    }
}

/// A run as text: a line for each of the script, and the last line of what was printed.
pub(crate) fn told(alloc: Global, run: &Run) -> Result<String, AllocError> {
    let mut text = String::new(alloc);
    for row in &run.rows {
        writeln!(text, "{row}")?;
    }
    writeln!(text, " end  {}", run.end)?;
    Ok(text)
}
