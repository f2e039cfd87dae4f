//! Where a text leaves the form of a script: the place, what stands there, and what is expected.

ghost use Rattle.std.specs.Prelude.{◌≡◌, IfOk};

use crate::forms::{Fit, Form, Part};
use jr_syntax::{Reason, VERBS, Verb};
use std::alloc::{AllocError, Global};
use std::{fmt, str};
use strsim::osa_distance;

/// The greatest distance of a word from a command's that is taken for a slip.
const SLIP: usize = 2;

/// Bytes as text: each that is not printable is shown as a question mark.
#[derive(Clone, Copy)]
pub(crate) struct Shown<'a>(pub(crate) &'a [u8]);

impl fmt::Display for Shown<'_> {
    fn fmt<W: fmt::Write>(&self, f: &mut fmt::Formatter<W>) -> fmt::Result {
        for byte in self.0 {
            let shown = if (32..=126).contains(byte) {
                *byte
            } else {
                b'?'
            };
            write!(f, "{}", char::from(shown))?;
        }
        Ok(())
    }
}

/// What stands at the place of a mistake.
#[derive(Clone, Copy)]
pub(crate) enum Found<'a> {
    /// A word.
    Word(&'a [u8]),
    /// A byte that is not printable.
    Byte(u8),
    /// A line without a byte.
    EmptyLine,
    /// Nothing more of the line.
    EndOfLine,
    /// Nothing more of the text.
    EndOfText,
    /// More of the text than a script may have.
    More,
}

impl fmt::Display for Found<'_> {
    fn fmt<W: fmt::Write>(&self, f: &mut fmt::Formatter<W>) -> fmt::Result {
        match *self {
            Found::Word([]) => f.write_str("a space too many"),
            Found::Word(word) => write!(f, "`{}`", Shown(word)),
            Found::Byte(b'\t') => f.write_str("a tab"),
            Found::Byte(b'\r') => f.write_str("a carriage return"),
            Found::Byte(0xef) => f.write_str("the byte 0xef, as of a byte order mark"),
            Found::Byte(byte) => write!(f, "the byte 0x{byte:02x}"),
            Found::EmptyLine => f.write_str("an empty line"),
            Found::EndOfLine => f.write_str("the end of the line"),
            Found::EndOfText => f.write_str("the end of the text"),
            Found::More => f.write_str("a longer text"),
        }
    }
}

/// What is expected at the place of a mistake.
#[derive(Clone, Copy)]
pub(crate) enum Wanted {
    /// This part of this form.
    Part(Form, Part),
    /// The end of a line of this form.
    End(Form),
    /// The word of a command, and perhaps one that is near.
    Command(Option<Verb>),
    /// A text that is not longer.
    Shorter,
    /// A line feed.
    LineFeed,
    /// A printable byte.
    Printable,
    /// No further thread.
    NoThread,
    /// Another name than one that an earlier line has.
    OtherName(usize),
}

/// Writes the words of all commands.
fn write_commands<W: fmt::Write>(f: &mut fmt::Formatter<W>) -> fmt::Result {
    for verb in &VERBS {
        write!(f, " {}", Shown(verb.word()))?;
    }
    Ok(())
}

impl fmt::Display for Wanted {
    fn fmt<W: fmt::Write>(&self, f: &mut fmt::Formatter<W>) -> fmt::Result {
        match *self {
            Wanted::Part(form, part) => write!(f, "`{form}`, where {part}"),
            Wanted::End(form) => write!(f, "`{form}`, and nothing more"),
            Wanted::Command(Some(near)) => {
                write!(f, "a command, perhaps `{}`", Form::Command(near))
            }
            Wanted::Command(None) => {
                f.write_str("a command, one of")?;
                write_commands(f)
            }
            Wanted::Shorter => f.write_str("at most 65536 bytes and 4096 lines"),
            Wanted::LineFeed => f.write_str("a line feed"),
            Wanted::Printable => f.write_str("ASCII: bytes 32 to 126, and a line feed at the end"),
            Wanted::NoThread => f.write_str("no thread past those that line 1 says"),
            Wanted::OtherName(line) => write!(f, "another name: line {line} has this one"),
        }
    }
}

/// The place of a mistake in its line.
#[derive(Clone, Copy)]
pub(crate) struct Place<'a> {
    /// The column, counted from 1.
    pub(crate) column: usize,
    /// What stands there.
    pub(crate) found: Found<'a>,
    /// What is expected there.
    pub(crate) wanted: Wanted,
}

/// A mistake of a text.
#[derive(Clone, Copy)]
pub(crate) struct Mistake<'a> {
    /// Its line, counted from 1.
    pub(crate) line: usize,
    /// The fault of the line.
    pub(crate) reason: Reason,
    /// The line's bytes.
    pub(crate) text: &'a [u8],
    /// The place in the line.
    pub(crate) place: Place<'a>,
}

/// Whether a byte ends a line.
fn ends_line(byte: &u8) -> bool {
    *byte == b'\n'
}

/// Whether a byte stands between two words.
fn is_space(byte: &u8) -> bool {
    *byte == b' '
}

/// The line with a number, and none past the last.
fn line_at(text: &[u8], number: usize) -> &[u8] {
    let lines = text.split(ends_line);
    lines.skip(number.saturating_sub(1)).next().unwrap_or(&[])
}

/// The number of the first line that is the same as one, or 0.
fn first_line(text: &[u8], line: &[u8]) -> usize {
    for (at, it) in text.split(ends_line).enumerate() {
        if it == line {
            return at + 1;
        }
    }
    0
}

/// The column at which a word of a line begins, counted from 0.
fn column_of(line: &[u8], word: usize) -> usize {
    let mut left = word;
    for (at, byte) in line.iter().enumerate() {
        if left == 0 {
            return at + 1;
        }
        if *byte == b' ' {
            left -= 1;
        }
    }
    line.len() + 1
}

impl<'a> Place<'a> {
    /// The place at the start of a line.
    fn at_start(found: Found<'a>, wanted: Wanted) -> Place<'a> {
        Place {
            column: 1,
            found,
            wanted,
        }
    }

    /// The place behind a line's last byte.
    fn behind(line: &[u8], found: Found<'a>, wanted: Wanted) -> Place<'a> {
        Place {
            column: line.len() + 1,
            found,
            wanted,
        }
    }

    /// The place of a word.
    fn of_word(line: &[u8], at: usize, word: &'a [u8], wanted: Wanted) -> Place<'a> {
        let found = if line.is_empty() {
            Found::EmptyLine
        } else {
            Found::Word(word)
        };
        Place {
            column: column_of(line, at),
            found,
            wanted,
        }
    }

    /// The place of the first byte that is not printable.
    fn of_byte(line: &'a [u8]) -> Place<'a> {
        for (at, byte) in line.iter().enumerate() {
            if !(32..=126).contains(byte) {
                return Place {
                    column: at + 1,
                    found: Found::Byte(*byte),
                    wanted: Wanted::Printable,
                };
            }
        }
        Place::behind(line, Found::EndOfLine, Wanted::Printable)
    }

    /// The first place at which a line leaves a form in this way, or has too few or too many words for it.
    fn in_form(line: &'a [u8], form: Form, fault: Fit) -> Place<'a> {
        for (at, word) in line.split(is_space).enumerate() {
            let Some(part) = form.part(at) else {
                return Place::of_word(line, at, word, Wanted::End(form));
            };
            if part.fit(word) == fault {
                return Place::of_word(line, at, word, Wanted::Part(form, part));
            }
        }
        let words = line.split(is_space).count();
        let wanted = match form.part(words) {
            Some(part) => Wanted::Part(form, part),
            None => Wanted::End(form),
        };
        Place::behind(line, Found::EndOfLine, wanted)
    }

    /// The place at which a line is none of a command.
    fn in_command(alloc: Global, line: &'a [u8], fault: Fit) -> Result<Place<'a>, AllocError> {
        let word = line.split(is_space).next().unwrap_or(&[]);
        if word == b"thread".as_slice() {
            return Ok(Place::in_form(line, Form::Thread, fault));
        }
        match Verb::of(word) {
            Some(verb) => Ok(Place::in_form(line, Form::Command(verb), fault)),
            None => {
                let wanted = Wanted::Command(nearest(alloc, word)?);
                Ok(Place::of_word(line, 0, word, wanted))
            }
        }
    }

    /// The place of a name that an earlier line has, which is the same line.
    fn of_name(text: &[u8], line: &'a [u8]) -> Place<'a> {
        let name = line.split(is_space).last().unwrap_or(&[]);
        let wanted = Wanted::OtherName(first_line(text, line));
        Place::of_word(line, 1, name, wanted)
    }

    /// The place of a number outside its bounds.
    fn of_number(alloc: Global, number: usize, line: &'a [u8]) -> Result<Place<'a>, AllocError> {
        if number == 1 {
            return Ok(Place::in_form(line, Form::Sizes, Fit::OutOfRange));
        }
        Place::in_command(alloc, line, Fit::OutOfRange)
    }

    /// The place at which a line of a text has a fault.
    fn of(
        alloc: Global,
        text: &[u8],
        number: usize,
        line: &'a [u8],
        reason: Reason,
    ) -> Result<Place<'a>, AllocError> {
        match reason {
            Reason::TooLong => Ok(Place::at_start(Found::More, Wanted::Shorter)),
            Reason::EmptyInput => Ok(Place::of_first()),
            Reason::UnfinishedLine => {
                Ok(Place::behind(line, Found::EndOfText, Wanted::LineFeed))
            }
            Reason::NotAscii => Ok(Place::of_byte(line)),
            Reason::VmLineExpected => Ok(Place::in_form(line, Form::Sizes, Fit::OtherForm)),
            Reason::ThreadLineExpected => Ok(Place::of_thread(text, number, line)),
            Reason::TooManyThreads => Ok(Place::at_start(Found::Word(line), Wanted::NoThread)),
            Reason::NameUsedTwice | Reason::PostedTwice => Ok(Place::of_name(text, line)),
            Reason::CommandExpected => Place::in_command(alloc, line, Fit::OtherForm),
            Reason::NumberOutOfRange => Place::of_number(alloc, number, line),
        }
    }

    /// The place where the first line is missing.
    fn of_first() -> Place<'a> {
        let wanted = Wanted::Part(Form::Sizes, Part::Word(b"vm"));
        Place::at_start(Found::EndOfText, wanted)
    }

    /// The place where a thread's line is missing.
    fn of_thread(text: &[u8], number: usize, line: &'a [u8]) -> Place<'a> {
        if text.split(ends_line).count() <= number {
            let wanted = Wanted::Part(Form::Thread, Part::Word(b"thread"));
            return Place::at_start(Found::EndOfText, wanted);
        }
        Place::in_form(line, Form::Thread, Fit::OtherForm)
    }
}

/// The command whose word is nearest to one, where one is near.
fn nearest(alloc: Global, word: &[u8]) -> Result<Option<Verb>, AllocError> {
    let word = str::from_utf8(word).unwrap_or("");
    let mut least = SLIP + 1;
    let mut found = None;
    for verb in &VERBS {
        let own = str::from_utf8(verb.word()).unwrap_or("");
        let distance = if word.eq_ignore_ascii_case(own) {
            0
        } else {
            osa_distance(alloc, word, own)?
        };
        if distance < least && distance < own.len() {
            least = distance;
            found = Some(*verb);
        }
    }
    Ok(found)
}

impl<'a> Mistake<'a> {
    /// The mistake of a text that has this fault at this line.
    pub(crate) fn of(
        alloc: Global,
        text: &'a [u8],
        number: usize,
        reason: Reason,
    ) -> Result<Mistake<'a>, AllocError>
        ensures { IfOk result (λ m. (m.line ≡ number) × (m.reason ≡ reason)) }
    {
        let line = line_at(text, number);
        let place = Place::of(alloc, text, number, line, reason)?;
        Ok(Mistake {
            line: number,
            reason,
            text: line,
            place,
        })
    }
}

/// The mistake in some lines, with the place marked under the line.
impl fmt::Display for Mistake<'_> {
    fn fmt<W: fmt::Write>(&self, f: &mut fmt::Formatter<W>) -> fmt::Result {
        let Place {
            column,
            found,
            wanted,
        } = self.place;
        let (line, reason) = (self.line, self.reason.text());
        writeln!(f, "script fault at line {line}, column {column}: {reason}")?;
        if !self.text.is_empty() {
            writeln!(f, "  {}\n  {:>column$}", Shown(self.text), "^")?;
        }
        writeln!(f, "found: {found}")?;
        writeln!(f, "expected: {wanted}")
    }
}
