//! A run, a mistake and a word as JSON: an object a line.

use crate::mistake::Mistake;
use crate::rows::{Kind, Row, Run};
use crate::watch::Answer;
use jr_word::{Fault, Handle, HandleParts, RefKind};
use serde_json::{Map, Value, put};
use std::alloc::{AllocError, Global};

/// An object as it is made.
#[derive(Drop)]
struct Object {
    alloc: Global,
    members: Map<String, Value>,
}

impl Object {
    /// An object with no member.
    fn new(alloc: Global) -> Object {
        Object {
            alloc,
            members: Map::new(alloc),
        }
    }

    /// Adds a text.
    fn text(mut self, name: &str, text: &str) -> Result<Object, AllocError> {
        let value = Value::String(String::from_str(self.alloc, text)?);
        put(&mut self.members, self.alloc, name, value)?;
        Ok(self)
    }

    /// Adds a number.
    fn number(mut self, name: &str, number: u64) -> Result<Object, AllocError> {
        put(&mut self.members, self.alloc, name, Value::from(number))?;
        Ok(self)
    }

    /// Its line, with its members in the order of their names.
    fn line(self) -> Result<String, AllocError> {
        let Object { alloc, members } = self;
        let mut text = Value::Object(members).to_string(alloc)?;
        text.push('\n')?;
        Ok(text)
    }
}

/// The object of a row.
fn row_as_json(alloc: Global, row: &Row) -> Result<String, AllocError> {
    let object = Object::new(alloc).number("line", row.number as u64)?;
    match row.kind {
        Kind::Sizes => object.text("sizes", row.text)?.line(),
        Kind::Thread => object.text("thread", row.text)?.line(),
        Kind::Command(answer) => with_answer(object.text("command", row.text)?, answer, row),
    }
}

/// The object of a command's row, with its answer.
fn with_answer(object: Object, answer: Answer, row: &Row) -> Result<String, AllocError> {
    match answer {
        Answer::Done => object.text("answer", "done")?.line(),
        Answer::Said => object.text("answer", row.printed)?.line(),
        Answer::Refused(fault) => with_refusal(object, fault),
    }
}

/// The object of a refused command's row.
fn with_refusal(object: Object, fault: Fault) -> Result<String, AllocError> {
    let report = fault.report().to_string(object.alloc)?;
    let object = object.number("refusal", u64::from(fault.number()))?;
    object.text("report", report.as_str())?.line()
}

/// A run as JSON: an object for each line of the script, and one for its end.
pub(crate) fn run_as_json(alloc: Global, run: &Run) -> Result<String, AllocError> {
    let mut text = String::new(alloc);
    for row in &run.rows {
        let object = row_as_json(alloc, row)?;
        text.push_str(&object)?;
    }
    let end = Object::new(alloc).text("end", run.end)?.line()?;
    text.push_str(&end)?;
    Ok(text)
}

/// That a text is a script, as JSON: one object.
pub(crate) fn script_as_json(alloc: Global) -> Result<String, AllocError> {
    Object::new(alloc).text("check", "ok")?.line()
}

/// A mistake as JSON: one object.
pub(crate) fn mistake_as_json(alloc: Global, mistake: &Mistake) -> Result<String, AllocError> {
    let found = mistake.place.found.to_string(alloc)?;
    let wanted = mistake.place.wanted.to_string(alloc)?;
    Object::new(alloc)
        .number("line", mistake.line as u64)?
        .number("column", mistake.place.column as u64)?
        .text("fault", mistake.reason.text())?
        .text("found", found.as_str())?
        .text("expected", wanted.as_str())?
        .line()
}

/// What a word is as a handle, as JSON: one object.
pub(crate) fn word_as_json(alloc: Global, word: u64) -> Result<String, AllocError> {
    let object = Object::new(alloc).number("word", word)?;
    match Handle::parts(word) {
        Some(parts) => with_parts(object, parts),
        None if word == 0 => object.text("kind", "null")?.line(),
        None => object.text("kind", "invalid")?.line(),
    }
}

/// The object of a handle's parts.
fn with_parts(object: Object, parts: HandleParts) -> Result<String, AllocError> {
    let object = object.number("serial", u64::from(parts.serial))?;
    let index = u64::from(parts.index);
    match parts.kind {
        RefKind::Local => object
            .text("kind", "local")?
            .number("thread", u64::from(parts.owner))?
            .number("place", index)?
            .line(),
        RefKind::Global => object.text("kind", "global")?.number("slot", index)?.line(),
        RefKind::Weak => object.text("kind", "weak")?.number("slot", index)?.line(),
    }
}
