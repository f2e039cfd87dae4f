//! What is done in a critical region that is kept from one function to the next.
ghost use Rattle.std.specs.Prelude.{◌≡◌, ◌<◌, IfErr, IfOk, IfNone, IfSome, length, map};
ghost use Rattle.jr_critical.specs.Levels.{in_words, objects_of, GivesUpLastOver, LeavesBefore, NestsOver, ReadsAt, StandOver, WasAdded, WritesAt};
ghost use Rattle.jr_critical.specs.LevelParts.{part_read, ReadsPartAt, WritesPartAt};
ghost use Rattle.jr_env.specs.Envs.{IsOutside};
ghost use Rattle.jr_env.specs.Retried.{first_call, first_word, TriesToOpen};
ghost use Rattle.jr_env.specs.StandingRegions.{EndsUndisturbed, StandsOn};
ghost use Rattle.luthrady.specs.KeptRegions.{adding_first, EntersRegion, ReadsLevelElement, ReadsLevelPart, TellsLevelLength};
ghost use Rattle.luthrady.specs.KeptRegions.{WritesLevelElement, WritesLevelPart};

use crate::held::{InRegion, Native, Presence};
use jr_critical::Levels;
use jr_env::levels_beside;
use jr_env::levels_beside::First;
use jr_model::Mode;
use jr_word::{Elem, Fault};

/// Enters a region by a thread's env.
///
/// # Errors
///
/// Those of `Env::get_array_critical`, and of `Env::get_string_critical`.
fn open_by(native: &mut Native, first: First) -> Result<Levels, Fault>
    ensures tried { TriesToOpen first native.old.env result native.new.env }
    ensures stand { IfOk result (λ v. StandOver v native.new.env.held) }
    ensures marker { native.new.marker ≡ native.old.marker }
{
    match first {
        First::Array(array) => levels_beside::open_array(&mut native.env, array),
        First::Text(string) => levels_beside::open_string(&mut native.env, string),
    }
}

/// Enters a region with a thread's env: its level has the number 0. Where it is refused the env is ready for calls.
///
/// # Errors
///
/// Those of `open_by`.
pub(crate) fn entered(mut native: Box<Native>, first: First) -> (Presence, Result<usize, Fault>)
    ensures { EntersRegion (first_call first) (first_word first) native.value result.0 result.1 }
{
    match open_by(&mut *native, first) {
        Ok(levels) => (Presence::Critical(InRegion { native, levels }), Ok(0)),
        Err(fault) => (Presence::Ready(native), Err(fault)),
    }
}

/// Adds a level to those that stand over a thread's env, and answers its number.
///
/// # Errors
///
/// Those of `Region::nest_array`, and of `Region::nest_string`.
pub(crate) fn nest_by(
    native: &mut Native,
    levels: &mut Levels,
    first: First,
) -> Result<usize, Fault>
    requires { StandOver levels.old native.old.env.held }
    ensures call { NestsOver native.old.env.held native.new.env.held (first_word first) (adding_first first) levels.old levels.new result }
    ensures region { StandsOn native.old.env.held native.new.env.held levels.old levels.new }
    ensures frames { native.new.env.held.frames ≡ native.old.env.held.frames }
    ensures stand { StandOver levels.new native.new.env.held }
    ensures added { IfOk result (λ n. WasAdded levels.old levels.new n) }
    ensures err { IfErr result (λ _. levels.new ≡ levels.old) }
    ensures marker { native.new.marker ≡ native.old.marker }
{
    match first {
        First::Array(array) => levels_beside::nest_array(&mut native.env, levels, array),
        First::Text(string) => levels_beside::nest_string(&mut native.env, levels, string),
    }
}

/// Gives up the last of the levels that stand over a thread's env.
pub(crate) fn close_by(native: &mut Native, levels: Levels) -> Option<Levels>
    requires { StandOver levels native.old.env.held }
    ensures call { GivesUpLastOver native.old.env.held native.new.env.held levels result }
    ensures region { IfSome result (λ v. StandsOn native.old.env.held native.new.env.held levels v) }
    ensures undisturbed { IfNone result (EndsUndisturbed native.old.env.held native.new.env.held levels) }
    ensures levels { LeavesBefore levels result }
    ensures frames { native.new.env.held.frames ≡ native.old.env.held.frames }
    ensures stand { IfSome result (λ v. StandOver v native.new.env.held) }
    ensures outside { IfNone result (IsOutside native.new.env) }
    ensures marker { native.new.marker ≡ native.old.marker }
{
    levels_beside::close(&mut native.env, levels, Mode::Copy)
}

/// Copies a part of a level out, by a thread's env that its levels stand over.
///
/// # Errors
///
/// Those of `levels_beside::get_part`.
fn get_part_by<E: Elem>(
    native: &mut Native,
    levels: &Levels,
    level: usize,
    start: u32,
    elements: &mut [E],
) -> Result<(), Fault>
    requires stand { StandOver levels.now native.old.env.held }
    requires level { level < length (objects_of levels.now) }
    ensures size { length elements.new ≡ length elements.old }
    ensures call { ReadsPartAt native.old.env.held native.new.env.held levels.now level E.KIND start (length elements.old) (part_read result (map E.word_of elements.new)) }
    ensures region { StandsOn native.old.env.held native.new.env.held levels.now levels.now }
    ensures frames { native.new.env.held.frames ≡ native.old.env.held.frames }
    ensures stand { StandOver levels.now native.new.env.held }
    ensures err { IfErr result (λ _. elements.new ≡ elements.old) }
    ensures marker { native.new.marker ≡ native.old.marker }
{
    levels_beside::get_part(&mut native.env, levels, level, start, elements)
}

/// Copies elements into a part of a level, by a thread's env that its levels stand over.
///
/// # Errors
///
/// Those of `levels_beside::set_part`.
fn set_part_by<E: Elem>(
    native: &mut Native,
    levels: &Levels,
    level: usize,
    start: u32,
    elements: &[E],
) -> Result<(), Fault>
    requires stand { StandOver levels.now native.old.env.held }
    requires level { level < length (objects_of levels.now) }
    ensures call { WritesPartAt native.old.env.held native.new.env.held levels.now level E.KIND start (map E.word_of elements.now) result }
    ensures region { StandsOn native.old.env.held native.new.env.held levels.now levels.now }
    ensures frames { native.new.env.held.frames ≡ native.old.env.held.frames }
    ensures stand { StandOver levels.now native.new.env.held }
    ensures marker { native.new.marker ≡ native.old.marker }
{
    levels_beside::set_part(&mut native.env, levels, level, start, elements)
}

/// An element of a level, by a thread's env that its levels stand over.
///
/// # Errors
///
/// Those of `levels_beside::get`.
fn get_by<E: Elem>(
    native: &mut Native,
    levels: &Levels,
    level: usize,
    index: u32,
) -> Result<E, Fault>
    requires stand { StandOver levels.now native.old.env.held }
    requires level { level < length (objects_of levels.now) }
    ensures call { ReadsAt native.old.env.held native.new.env.held levels.now level E.KIND index (in_words E.word_of result) }
    ensures region { StandsOn native.old.env.held native.new.env.held levels.now levels.now }
    ensures frames { native.new.env.held.frames ≡ native.old.env.held.frames }
    ensures stand { StandOver levels.now native.new.env.held }
    ensures marker { native.new.marker ≡ native.old.marker }
{
    levels_beside::get(&mut native.env, levels, level, index)
}

/// Writes an element of a level, by a thread's env that its levels stand over.
///
/// # Errors
///
/// Those of `levels_beside::set`.
fn set_by<E: Elem>(
    native: &mut Native,
    levels: &Levels,
    level: usize,
    index: u32,
    value: E,
) -> Result<(), Fault>
    requires stand { StandOver levels.now native.old.env.held }
    requires level { level < length (objects_of levels.now) }
    ensures call { WritesAt native.old.env.held native.new.env.held levels.now level E.KIND index (E.word_of value) result }
    ensures region { StandsOn native.old.env.held native.new.env.held levels.now levels.now }
    ensures frames { native.new.env.held.frames ≡ native.old.env.held.frames }
    ensures stand { StandOver levels.now native.new.env.held }
    ensures marker { native.new.marker ≡ native.old.marker }
{
    levels_beside::set(&mut native.env, levels, level, index, value)
}

impl InRegion {
    /// Copies a part of a level out.
    ///
    /// # Errors
    ///
    /// E2 where no level of the number stands; else those of `levels_beside::get_part`.
    pub(crate) fn get_part<E: Elem>(
        &mut self,
        level: usize,
        start: u32,
        elements: &mut [E],
    ) -> Result<(), Fault>
        ensures call { ReadsLevelPart level E.KIND start (length elements.old) self.old self.new (part_read result (map E.word_of elements.new)) }
        ensures size { length elements.new ≡ length elements.old }
        ensures err { IfErr result (λ _. elements.new ≡ elements.old) }
    {
        if self.levels.depth() <= level {
            return Err(Fault::Stale);
        }
        get_part_by(&mut *self.native, &self.levels, level, start, elements)
    }

    /// Copies elements into a part of a level.
    ///
    /// # Errors
    ///
    /// E2 where no level of the number stands; else those of `levels_beside::set_part`.
    pub(crate) fn set_part<E: Elem>(
        &mut self,
        level: usize,
        start: u32,
        elements: &[E],
    ) -> Result<(), Fault>
        ensures { WritesLevelPart level E.KIND start (map E.word_of elements.now) self.old self.new result }
    {
        if self.levels.depth() <= level {
            return Err(Fault::Stale);
        }
        set_part_by(&mut *self.native, &self.levels, level, start, elements)
    }

    /// An element of a level.
    ///
    /// # Errors
    ///
    /// E2 where no level of the number stands; else those of `levels_beside::get`.
    pub(crate) fn get<E: Elem>(&mut self, level: usize, index: u32) -> Result<E, Fault>
        ensures { ReadsLevelElement level E.KIND index self.old self.new (in_words E.word_of result) }
    {
        if self.levels.depth() <= level {
            return Err(Fault::Stale);
        }
        get_by(&mut *self.native, &self.levels, level, index)
    }

    /// Writes an element of a level.
    ///
    /// # Errors
    ///
    /// E2 where no level of the number stands; else those of `levels_beside::set`.
    pub(crate) fn set<E: Elem>(&mut self, level: usize, index: u32, value: E) -> Result<(), Fault>
        ensures { WritesLevelElement level E.KIND index (E.word_of value) self.old self.new result }
    {
        if self.levels.depth() <= level {
            return Err(Fault::Stale);
        }
        set_by(&mut *self.native, &self.levels, level, index, value)
    }

    /// How many elements or units a level has.
    ///
    /// # Errors
    ///
    /// E2 where no level of the number stands.
    pub(crate) fn length(&self, level: usize) -> Result<u32, Fault>
        ensures { TellsLevelLength self.now.levels level result }
    {
        if self.levels.depth() <= level {
            return Err(Fault::Stale);
        }
        Ok(self.levels.length(level))
    }
}
