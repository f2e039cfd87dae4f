//! The forms of a script's lines: which words each has, and what may stand at each place.

use jr_model::Mode;
use jr_syntax::{Argument, Name, Reference, Tries, Verb};
use jr_word::Config;
use std::{fmt, str};

/// The greatest number of words that a form names, of which the last may be any number of units.
const MOST_WORDS: usize = 11;

/// The first place of a unit in the line of a `string`, and the first behind its units.
const UNITS: (usize, usize) = (2, 66);

/// Whether a word is what is wanted at its place.
#[derive(Clone, Copy, PartialEq)]
pub(crate) enum Fit {
    /// It is.
    Fits,
    /// It is a number, and outside its bounds.
    OutOfRange,
    /// It has another form.
    OtherForm,
}

/// What may stand at a place of a line.
#[derive(Clone, Copy)]
pub(crate) enum Part {
    /// This word.
    Word(&'static [u8]),
    /// A size of the room, at least and at most.
    Size(u32, u32),
    /// A name.
    Name,
    /// A name, or `null`.
    Reference,
    /// A length, an index or a number of local references.
    Number,
    /// A number of tries.
    Tries,
    /// A unit of a string.
    Unit,
    /// An element.
    Value,
    /// A mode.
    Mode,
}

/// How the grammar reads a word as an argument.
fn fit_of<A: Argument>(word: &[u8]) -> Fit {
    if !A::has_form(word) {
        return Fit::OtherForm;
    }
    match A::read(word) {
        Some(_) => Fit::Fits,
        None => Fit::OutOfRange,
    }
}

/// Whether a word is this one.
fn fit_of_word(own: &[u8], word: &[u8]) -> Fit {
    if own == word {
        Fit::Fits
    } else {
        Fit::OtherForm
    }
}

/// Whether a word is a size within these bounds.
fn fit_of_size(word: &[u8], least: u32, most: u32) -> Fit {
    if !u32::has_form(word) {
        return Fit::OtherForm;
    }
    match u32::read(word) {
        Some(size) if least <= size && size <= most => Fit::Fits,
        _ => Fit::OutOfRange,
    }
}

impl Part {
    /// Whether a word is what is wanted here.
    pub(crate) fn fit(self, word: &[u8]) -> Fit {
        match self {
            Part::Word(own) => fit_of_word(own, word),
            Part::Size(least, most) => fit_of_size(word, least, most),
            Part::Name => fit_of::<Name>(word),
            Part::Reference => fit_of::<Reference>(word),
            Part::Number => fit_of::<u32>(word),
            Part::Tries => fit_of::<Tries>(word),
            Part::Unit => fit_of::<u16>(word),
            Part::Value => fit_of::<i64>(word),
            Part::Mode => fit_of::<Mode>(word),
        }
    }

    /// Its word in a form.
    fn name(self) -> &'static str {
        match self {
            Part::Word(word) => str::from_utf8(word).unwrap_or("WORD"),
            Part::Size(_, _) => "N",
            Part::Name => "NAME",
            Part::Reference => "REF",
            Part::Number => "NUMBER",
            Part::Tries => "TRIES",
            Part::Unit => "UNIT ..",
            Part::Value => "VALUE",
            Part::Mode => "MODE",
        }
    }
}

/// What the part is, in words.
impl fmt::Display for Part {
    fn fmt<W: fmt::Write>(&self, f: &mut fmt::Formatter<W>) -> fmt::Result {
        match *self {
            Part::Word(_) => write!(f, "the word here is `{}`", self.name()),
            Part::Size(least, most) => write!(f, "N here is a number from {least} to {most}"),
            Part::Name => f.write_str(
                "NAME is a letter a to z and at most 15 of a to z and 0 to 9 behind it, and not null",
            ),
            Part::Reference => f.write_str("REF is a NAME or null"),
            Part::Number => f.write_str("NUMBER is from 0 to 16777215, and has no zero before it"),
            Part::Tries => f.write_str("TRIES is a number from 1 to 16777215"),
            Part::Unit => f.write_str("UNIT is a number from 0 to 65535, and there are at most 64"),
            Part::Value => f.write_str(
                "VALUE is a number from -9223372036854775808 to 9223372036854775807",
            ),
            Part::Mode => f.write_str("MODE is copy, commit or abort"),
        }
    }
}

/// The form of a line.
#[derive(Clone, Copy)]
pub(crate) enum Form {
    /// The first line, which says the sizes.
    Sizes,
    /// The line before a thread's commands.
    Thread,
    /// The line of a command.
    Command(Verb),
}

/// What stands at a place of the first line.
fn part_of_sizes(at: usize) -> Option<Part> {
    match at {
        0 => Some(Part::Word(b"vm")),
        1 => Some(Part::Word(b"threads")),
        2 => Some(Part::Size(1, Config::MOST_THREADS)),
        3 => Some(Part::Word(b"slots")),
        4 => Some(Part::Size(1, Config::MOST_SLOTS)),
        5 => Some(Part::Word(b"objects")),
        6 => Some(Part::Size(1, Config::MOST_OBJECTS)),
        7 => Some(Part::Word(b"words")),
        8 => Some(Part::Size(0, Config::MOST_WORDS)),
        9 => Some(Part::Word(b"locals")),
        10 => Some(Part::Size(Config::LEAST_LOCALS, Config::MOST_LOCALS)),
        _ => None,
    }
}

/// The arguments behind a verb, by its shape.
fn arguments(verb: Verb) -> [Option<Part>; 3] {
    let (name, reference) = (Some(Part::Name), Some(Part::Reference));
    let (number, value, mode) = (Some(Part::Number), Some(Part::Value), Some(Part::Mode));
    match verb {
        Verb::Make(_) | Verb::OnName(_) => [name, None, None],
        Verb::MakeFrom(_) | Verb::OpenLevel(_) => [name, reference, None],
        Verb::On(_) => [reference, None, None],
        Verb::OnBoth(_) => [reference, reference, None],
        Verb::WithCount(_) => [number, None, None],
        Verb::MakeSized(_) | Verb::OnNameAt(_) => [name, number, None],
        Verb::MakeFilled(_) => [name, number, reference],
        Verb::MakeText(_) => [name, Some(Part::Unit), None],
        Verb::MakeAt(_) => [name, reference, number],
        Verb::OnAt(_) => [reference, number, None],
        Verb::SetAt(_) => [reference, number, reference],
        Verb::StoreAt(_) => [reference, number, value],
        Verb::PutAt(_) => [name, number, value],
        Verb::Release(_) => [name, reference, mode],
        Verb::CloseLevel(_) => [mode, None, None],
        Verb::OfRoom(_) => [None, None, None],
        Verb::WithTries(_) => [Some(Part::Tries), None, None],
    }
}

/// What stands at a place of a command's line.
fn part_of_command(verb: Verb, at: usize) -> Option<Part> {
    let [first, second, third] = arguments(verb);
    match (verb, at) {
        (_, 0) => Some(Part::Word(verb.word())),
        (_, 1) => first,
        (Verb::MakeText(_), _) if at < UNITS.1 => second,
        (_, 2) => second,
        (_, 3) => third,
        _ => None,
    }
}

impl Form {
    /// What may stand at a place, counted from 0, and none behind the last.
    pub(crate) fn part(self, at: usize) -> Option<Part> {
        match self {
            Form::Sizes => part_of_sizes(at),
            Form::Thread => match at {
                0 => Some(Part::Word(b"thread")),
                1 => Some(Part::Name),
                _ => None,
            },
            Form::Command(verb) => part_of_command(verb, at),
        }
    }
}

/// The words of the form.
impl fmt::Display for Form {
    fn fmt<W: fmt::Write>(&self, f: &mut fmt::Formatter<W>) -> fmt::Result {
        for at in 0..MOST_WORDS {
            let Some(part) = self.part(at) else {
                break;
            };
            if at > UNITS.0 && matches!(part, Part::Unit) {
                break;
            }
            if at > 0 {
                f.write_str(" ")?;
            }
            f.write_str(part.name())?;
        }
        Ok(())
    }
}
