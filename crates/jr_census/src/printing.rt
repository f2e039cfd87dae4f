//! A census as text, a line for each thing that it counts.
ghost use Rattle.std.specs.Prelude.{◌≡◌, Some};
ghost use Rattle.std.specs.Fmt.{WritesOnOk};
ghost use Rattle.jr_census.specs.Printed.{all_kinds, census_text, kind_name, kinds_text, locals_line, locals_text, objects_text, several, slots_text, weaks_text, words_text};

use crate::objects::{KindCounts, Objects};
use crate::slots::Slots;
use crate::taking::Census;
use crate::words::WordCounts;
use jr_word::Kind;
use std::fmt;

/// Each kind of objects.
const KINDS: [Kind; 9] = [
    Kind::Plain,
    Kind::Boolean,
    Kind::Byte,
    Kind::Char,
    Kind::Short,
    Kind::Int,
    Kind::Long,
    Kind::Objects,
    Kind::Text,
];

/// The name of a kind of objects, as a census prints it.
pub fn kind_name(kind: Kind) -> &'static str
    ensures { result.now ≡ kind_name kind }
{
    match kind {
        Kind::Plain => "plain",
        Kind::Boolean => "boolean[]",
        Kind::Byte => "byte[]",
        Kind::Char => "char[]",
        Kind::Short => "short[]",
        Kind::Int => "int[]",
        Kind::Long => "long[]",
        Kind::Objects => "Object[]",
        Kind::Text => "String",
    }
}

/// Writes how many there are of a kind, behind a comma, and nothing where there is none.
fn write_several<W: fmt::Write>(f: &mut fmt::Formatter<W>, kind: Kind, count: u32) -> fmt::Result
    ensures { WritesOnOk W.write_str_gives f.old result (several kind count) f.new }
{
    if count == 0 {
        return Ok(());
    }
    write!(f, ", {count} {}", kind_name(kind))
}

/// The kinds of which there are some.
impl fmt::Display for KindCounts {
    ghost output = { λ x. Some (kinds_text x all_kinds) };

    fn fmt<W: fmt::Write>(&self, f: &mut fmt::Formatter<W>) -> fmt::Result {
        for kind in KINDS {
            write_several(f, kind, self.of(kind))?;
        }
        Ok(())
    }
}

/// How many there are, their words, and how many of each kind.
impl fmt::Display for Objects {
    ghost output = { λ x. Some (objects_text x) };

    fn fmt<W: fmt::Write>(&self, f: &mut fmt::Formatter<W>) -> fmt::Result {
        let Objects { kinds, live, words } = *self;
        write!(f, "{live} ({words} words){kinds}")
    }
}

/// How many are used, and what for.
impl fmt::Display for WordCounts {
    ghost output = { λ x. Some (words_text x) };

    fn fmt<W: fmt::Write>(&self, f: &mut fmt::Formatter<W>) -> fmt::Result {
        let WordCounts {
            used,
            lost,
            reached,
            freed,
        } = *self;
        write!(
            f,
            "{used} ({reached} reached, {lost} lost, {freed} freed by a collection)"
        )
    }
}

/// Writes how many weak references there are, and how many of them are cleared.
fn write_weaks<W: fmt::Write>(f: &mut fmt::Formatter<W>, weaks: u32, cleared: u32) -> fmt::Result
    ensures { WritesOnOk W.write_str_gives f.old result (weaks_text weaks cleared) f.new }
{
    write!(f, "weak references: {weaks} ({cleared} cleared)")
}

/// Writes the lines of what slots have.
fn write_slots<W: fmt::Write>(f: &mut fmt::Formatter<W>, slots: Slots) -> fmt::Result
    ensures { WritesOnOk W.write_str_gives f.old result (slots_text slots) f.new }
{
    let Slots {
        globals,
        weaks,
        cleared,
        retired,
    } = slots;
    writeln!(f, "global references: {globals}")?;
    write_weaks(f, weaks, cleared)?;
    f.write_str("\n")?;
    writeln!(f, "retired slots: {retired}")
}

/// Writes the line of a thread with so many local references, and nothing where it has none.
fn write_locals_of<W: fmt::Write>(
    f: &mut fmt::Formatter<W>,
    thread: usize,
    count: u32,
) -> fmt::Result
    ensures { WritesOnOk W.write_str_gives f.old result (locals_line thread count) f.new }
{
    if count == 0 {
        return Ok(());
    }
    writeln!(f, "local references of thread {thread}: {count}")
}

/// Writes a line for each thread that has local references.
fn write_locals<W: fmt::Write>(f: &mut fmt::Formatter<W>, counts: &[u32; 64]) -> fmt::Result
    ensures { WritesOnOk W.write_str_gives f.old result (locals_text counts.now 64) f.new }
{
    for (thread, count) in counts.iter().enumerate() {
        write_locals_of(f, thread, *count)?;
    }
    Ok(())
}

/// Six lines, and one for each thread that has local references; the last ends without a line feed.
impl fmt::Display for Census {
    ghost output = { λ x. Some (census_text x) };

    fn fmt<W: fmt::Write>(&self, f: &mut fmt::Formatter<W>) -> fmt::Result {
        write_slots(f, self.slots)?;
        write_locals(f, &self.locals)?;
        writeln!(f, "objects: {}", self.objects)?;
        writeln!(f, "unreached: {}", self.unreached)?;
        write!(f, "words used: {}", self.words)
    }
}
