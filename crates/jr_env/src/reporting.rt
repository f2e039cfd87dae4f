//! A refused call as a line of a log.
use crate::checked::{Evidence, Examined, Missed, Refusal};
use crate::span::Span;
use crate::warned::{Scarce, Shortage};
use jr_frames::Explanation;
use jr_word::{Fault, Kind, RefKind};
use std::fmt;

/// A reference of the kind.
fn reference_of(kind: RefKind) -> &'static str {
    match kind {
        RefKind::Local => "local",
        RefKind::Global => "global",
        RefKind::Weak => "weak",
    }
}

/// What an object of the kind is called, as Java does.
fn object_of(kind: Kind) -> &'static str {
    match kind {
        Kind::Plain => "a plain object",
        Kind::Boolean => "a boolean[]",
        Kind::Byte => "a byte[]",
        Kind::Char => "a char[]",
        Kind::Short => "a short[]",
        Kind::Int => "an int[]",
        Kind::Long => "a long[]",
        Kind::Objects => "an Object[]",
        Kind::Text => "a String",
    }
}

/// What a word is that is no reference which stands.
fn no_reference(explanation: Explanation) -> &'static str {
    match explanation {
        Explanation::Null => "is NULL",
        Explanation::Malformed => "is no handle",
        Explanation::Outside => "lies outside the room",
        Explanation::Foreign => "is a local handle of another thread",
        Explanation::OtherKind => "has the serial of a reference of the other kind",
        Explanation::Gone => "has the serial of a reference that was deleted",
        Explanation::NotGiven => "was not given yet",
        Explanation::Standing { .. } => "is a reference",
    }
}

/// The word, and what it is.
impl fmt::Display for Examined {
    fn fmt<W: fmt::Write>(&self, f: &mut fmt::Formatter<W>) -> fmt::Result {
        let word = self.handle.0;
        match self.is {
            Ok(Explanation::Standing { kind, object }) => {
                let kind = reference_of(kind);
                match object {
                    Some(object) => {
                        let object = object_of(object);
                        write!(f, "{word:#x} is a {kind} reference to {object}")
                    }
                    None => write!(f, "{word:#x} is a {kind} reference that is cleared"),
                }
            }
            Ok(other) => {
                let told = no_reference(other);
                write!(f, "{word:#x} {told}")
            }
            Err(fault) => write!(f, "{word:#x} was not looked at ({fault})"),
        }
    }
}

/// An element by its index, and else how many elements from which index on.
impl fmt::Display for Span {
    fn fmt<W: fmt::Write>(&self, f: &mut fmt::Formatter<W>) -> fmt::Result {
        let Span { start, count } = *self;
        match count {
            1 => write!(f, "index {start}"),
            _ => write!(f, "{count} elements from index {start} on"),
        }
    }
}

/// Which elements were asked, and how many there are.
impl fmt::Display for Missed {
    fn fmt<W: fmt::Write>(&self, f: &mut fmt::Formatter<W>) -> fmt::Result {
        let Missed { span, length } = *self;
        match length {
            Ok(length) => write!(f, " (asked: {span}; length: {length})"),
            Err(fault) => write!(
                f,
                " (asked: {span}; the length was not looked at ({fault}))"
            ),
        }
    }
}

/// The counts that a refusal has, behind what it means.
fn write_counts<W: fmt::Write>(f: &mut fmt::Formatter<W>, fault: Fault) -> fmt::Result {
    match fault {
        Fault::SpaceFull(used) => write!(f, " (words in use: {used})"),
        Fault::Busy(count) | Fault::LeftInside(count) => {
            write!(
                f,
                " (threads inside, knocking, announcing or collecting: {count})"
            )
        }
        Fault::Raced(seen, found) => write!(f, " (words looked at: {seen}, found: {found})"),
        Fault::Moved(seen, found) => write!(f, " (threads looked at: {seen}, found: {found})"),
        _ => Ok(()),
    }
}

/// Whose call it was, why it was refused with the counts of it, and what the words were.
impl fmt::Display for Refusal {
    fn fmt<W: fmt::Write>(&self, f: &mut fmt::Formatter<W>) -> fmt::Result {
        let Refusal {
            caller,
            thread,
            call,
            evidence,
            fault,
            missed,
        } = *self;
        if let Some(caller) = caller {
            write!(f, "{caller}: ")?;
        }
        let meaning = fault.meaning();
        write!(f, "thread {thread}: {call}: {fault}, {meaning}")?;
        write_counts(f, fault)?;
        if let Some(missed) = missed {
            write!(f, "{missed}")?;
        }
        match evidence {
            Evidence::Nothing => Ok(()),
            Evidence::One(word) => write!(f, "; {word}"),
            Evidence::Both(first, second) => write!(f, "; {first}; {second}"),
        }
    }
}

/// Whose call it was, what runs short, and how much of it is left.
impl fmt::Display for Shortage {
    fn fmt<W: fmt::Write>(&self, f: &mut fmt::Formatter<W>) -> fmt::Result {
        let Shortage {
            thread,
            call,
            scarce,
            left,
        } = *self;
        let what = match scarce {
            Scarce::Words => "words of array space",
            Scarce::Locals => "places for local references",
        };
        write!(
            f,
            "thread {thread}: {call}: {what} run short (left: {left})"
        )
    }
}
