//! A level of a critical region, and how its object is found.
ghost use Rattle.std.specs.Prelude.{◌≡◌, ◌+◌, ◌<◌, nat_lt, IfOk};
ghost use Rattle.jr_model.specs.declared.event.Role.TheVariants.{Within};
ghost use Rattle.jr_model.specs.declared.frames.TheConstants.{LEVELS as MOST};
ghost use Rattle.jr_model.specs.Checks.{is_read_as as is_read_as_of};
ghost use Rattle.jr_model.specs.Tests.{refused_by};
ghost use Rattle.jr_gate.specs.Stays.{IsOwnStay};
ghost use Rattle.jr_frames.specs.Reading.{word_of, OwnerFits};
ghost use Rattle.jr_frames.specs.Ready.{StandsReady};
ghost use Rattle.jr_critical.specs.Finding.{kind_answer, FindsLevel};
ghost use Rattle.jr_critical.specs.LevelParts.{get_part_tests, set_part_tests};

use jr_frames::{Frames, Reference, find};
use jr_gate::Inside;
use jr_heap::is_text;
use jr_model::LEVELS;
use jr_steps::Steps;
use jr_word::{Fault, HeaderParts, Kind};

/// An array or string of a region, with its header, which was read in the region's stay.
#[derive(Clone, Copy)]
pub(crate) struct Level {
    /// The number of the object.
    pub(crate) object: u16,
    /// Its header.
    pub(crate) header: HeaderParts,
}

impl Default for Level {
    fn default() -> Self {
        Level {
            object: 0,
            header: HeaderParts {
                kind: Kind::Plain,
                length: 0,
                place: 0,
            },
        }
    }
}

/// What a new level is asked to have.
#[derive(Clone, Copy)]
pub(crate) enum Wanted {
    /// An array whose elements are no objects.
    Array,
    /// A string.
    Text,
}

impl Wanted {
    /// Whether an object of the kind is such.
    ///
    /// # Errors
    ///
    /// E5 where an array is wanted and it is none, E6 where it is one of objects; E4 where a string is wanted and it is none.
    fn accepts(self, kind: Kind) -> Result<(), Fault>
        ensures { result ≡ kind_answer self kind }
    {
        match self {
            Wanted::Array => match kind {
                Kind::Plain | Kind::Text => Err(Fault::NotArray),
                Kind::Objects => Err(Fault::WrongElement),
                _ => Ok(()),
            },
            Wanted::Text => match kind {
                Kind::Text => Ok(()),
                _ => Err(Fault::WrongKind),
            },
        }
    }
}

/// The object that a reference names, with its header, as a new level where so many stand.
///
/// # Errors
///
/// E1, E2 and E3 where it names no object here, E4, E5 and E6 where that is not what is wanted, E17 where there is no room for a level.
#[inline(always)]
pub(crate) fn find_level<S: Steps>(
    steps: &mut S,
    inside: &Inside,
    frames: &Frames,
    target: Reference,
    wanted: Wanted,
    count: usize,
) -> Result<Level, Fault>
    requires stay { IsOwnStay inside.now (S.facts steps.old).stands }
    requires ready { StandsReady S.facts Within steps.old frames.now }
    requires fits { OwnerFits target }
    ensures call { FindsLevel S.facts steps.old steps.new frames.now.frames wanted count (word_of target) result }
    ensures room { IfOk result (λ _. count < MOST) }
{
    let (object, header) = find(steps, inside, frames, target)?;
    wanted.accepts(header.kind)?;
    if LEVELS <= count {
        return Err(Fault::Size);
    }
    Ok(Level { object, header })
}

/// Whether the elements of an object of a kind are read and written as those of an array of another kind: of its own, or a string's units as chars.
pub(crate) fn is_read_as(wanted: Kind, kind: Kind) -> bool
    ensures { result ≡ is_read_as_of wanted kind }
{
    match kind {
        Kind::Plain | Kind::Objects => false,
        Kind::Text => matches!(wanted, Kind::Char),
        _ => wanted == kind,
    }
}

/// Whether so many elements from an index on, read as those of a kind, lie in an object with this header.
///
/// # Errors
///
/// E6 where its elements are of another kind, E7 where they don't all lie in it.
#[inline(always)]
pub(crate) fn has_part(
    header: HeaderParts,
    kind: Kind,
    start: u32,
    count: usize,
) -> Result<(), Fault>
    ensures { refused_by (get_part_tests kind start count header.kind header.length) ≡ result }
{
    if !is_read_as(kind, header.kind) {
        return Err(Fault::WrongElement);
    }
    if lies_past(header.length, start, count) {
        return Err(Fault::Range);
    }
    Ok(())
}

/// The same of elements that are to be written.
///
/// # Errors
///
/// E5 where it is a string, and then those of `has_part`.
#[inline(always)]
pub(crate) fn has_part_to_write(
    header: HeaderParts,
    kind: Kind,
    start: u32,
    count: usize,
) -> Result<(), Fault>
    ensures { refused_by (set_part_tests kind start count header.kind header.length) ≡ result }
{
    if is_text(header.kind) {
        return Err(Fault::NotArray);
    }
    has_part(header, kind, start, count)
}

/// Whether so many elements from an index on don't all lie in an object of this length.
#[inline(always)]
fn lies_past(length: u32, start: u32, count: usize) -> bool
    ensures { result ≡ nat_lt length (start + count) }
{
    start > length || count > (length - start) as usize
}
