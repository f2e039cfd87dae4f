//! The levels of a critical region.
ghost use Rattle.std.specs.Prelude.{◌≡◌, ◌<◌, ◌∷◌, [], IfOk, IfErr, length};
ghost use Rattle.jr_model.specs.Calls.{opened};
ghost use Rattle.jr_gate.specs.Stays.{IsOwnStay};
ghost use Rattle.jr_critical.specs.Finding.{level_work};
ghost use Rattle.jr_critical.specs.Levels.{objects_of, without_stay, OpensOver, OpensWithinOver, StandOver, StandsOutside, StandsWithin};

use crate::level::{Level, Wanted, find_level, has_part, has_part_to_write, is_read_as};
use arrayvec::ArrayVec;
use jr_frames::{Held, Reference};
use jr_gate::{Inside, enter};
use jr_heap::{is_text, read_part, write_part};
use jr_model::{LEVELS, Mode};
use jr_steps::Steps;
use jr_word::{Elem, Fault, Handle, Kind};

/// The levels of a critical region, in one stay of a thread, the first first. They have to be spent: the stay ends when the first level is given up.
/// (The JNI Specification, chapter 4, Get/ReleasePrimitiveArrayCritical and Get/ReleaseStringCritical.)
pub struct Levels {
    inside: Inside,
    levels: ArrayVec<Level, LEVELS>,
}

/// One level in the stay.
#[inline(always)]
fn first(inside: Inside, level: Level) -> Levels
    ensures inside { result.inside ≡ inside }
    ensures levels { result.levels.items ≡ level ∷ [] }
{
    let mut levels = ArrayVec::new();
    levels.push(level);
    Levels { inside, levels }
}

/// Enters the gate, and opens the first level over what a reference names.
#[inline(always)]
fn open<S: Steps>(held: &mut Held<S>, handle: Handle, wanted: Wanted) -> Result<Levels, Fault>
    requires { StandsOutside held.old }
    ensures call { OpensOver held.old held.new handle.0 (λ c last t s a. opened (level_work wanted c last t s 0 a)) result }
    ensures frames { held.new.frames ≡ held.old.frames }
    ensures ok { IfOk result (λ v. StandOver v held.new × (length (objects_of v) ≡ 1)) }
    ensures err { IfErr result (λ _. StandsOutside held.new) }
{
    let target = Reference::of(handle);
    let inside = enter(&mut held.steps)?;
    match find_level(&mut held.steps, &inside, &held.frames, target, wanted, 0) {
        Ok(level) => Ok(first(inside, level)),
        Err(fault) => {
            inside.leave(&mut held.steps);
            Err(fault)
        }
    }
}

/// Opens the first level over what a reference names, in a stay, which goes on.
#[inline(always)]
fn open_within<S: Steps>(
    inside: Inside,
    held: &mut Held<S>,
    handle: Handle,
    wanted: Wanted,
) -> Result<Levels, (Inside, Fault)>
    requires stay { IsOwnStay inside (S.facts held.old.steps).stands }
    requires ready { StandsWithin held.old }
    ensures call { OpensWithinOver held.old held.new handle.0 (λ c last t s a. level_work wanted c last t s 0 a) (without_stay result) }
    ensures frames { held.new.frames ≡ held.old.frames }
    ensures ok { IfOk result (λ v. StandOver v held.new × (length (objects_of v) ≡ 1)) }
    ensures err { IfErr result (λ e. IsOwnStay e.0 (S.facts held.new.steps).stands × StandsWithin held.new) }
{
    let target = Reference::of(handle);
    match find_level(&mut held.steps, &inside, &held.frames, target, wanted, 0) {
        Ok(level) => Ok(first(inside, level)),
        Err(fault) => Err((inside, fault)),
    }
}

impl Levels {
    ghost use Rattle.std.specs.Prelude.{◌≡◌, ◌<◌, ◌≤◌, IfOk, IfErr, IfSome, IfNone, length, map};
    ghost use Rattle.jr_model.specs.declared.frames.TheConstants.{LEVELS};
    ghost use Rattle.jr_model.specs.CallPrograms.{get_array_critical, get_string_critical};
    ghost use Rattle.jr_gate.specs.Stays.{IsOwnStay};
    ghost use Rattle.jr_critical.specs.Finding.{level_nesting};
    ghost use Rattle.jr_critical.specs.LevelParts.{part_read, ReadsPartAt, WritesPartAt};
    ghost use Rattle.jr_critical.specs.Levels.{objects_of, level_object, level_at, in_words, nested_by, opened_by, opened_within, stay_of, without_stay, OpensOver, OpensWithinOver, NestsOver};
    ghost use Rattle.jr_critical.specs.Levels.{ReadsAt, WritesAt, GivesUpAllOver, GivesUpLastOver, LeavesBefore, StandOver, StandsOutside, StandsWithin, TellsKind, TellsLength, WasAdded};

    /// Enters the gate, and opens the first level over an array whose elements are no objects. The thread has to stand outside. (JNI Specification, chapter 4, "GetPrimitiveArrayCritical")
    ///
    /// # Errors
    ///
    /// That of the gate; those of a handle to an object; E5 where it is to a plain object or a string; E6 where it is to an array of objects.
    ///
    /// Nothing has changed then, and the thread is outside and ready for its next call.
    ///
    /// # Operations
    ///
    /// At most 3: the entry, a look at the slot of a global or weak handle, and one at the array's header. Where it is refused, the exit too.
    #[inline(always)]
    pub fn open_array<S: Steps>(held: &mut Held<S>, handle: Handle) -> Result<Levels, Fault>
        requires { StandsOutside held.old }
        ensures call { OpensOver held.old held.new handle.0 (opened_by (get_array_critical 0)) result }
        ensures frames { held.new.frames ≡ held.old.frames }
        ensures ok { IfOk result (λ v. StandOver v held.new × (length (objects_of v) ≡ 1)) }
        ensures err { IfErr result (λ _. StandsOutside held.new) }
    {
        open(held, handle, Wanted::Array)
    }

    /// Enters the gate, and opens the first level over a string. The thread has to stand outside. (JNI Specification, chapter 4, "GetStringCritical")
    ///
    /// # Errors
    ///
    /// That of the gate; those of a handle to an object; E4 where it is to no string.
    ///
    /// Nothing has changed then, and the thread is outside and ready for its next call.
    ///
    /// # Operations
    ///
    /// At most 3: the entry, a look at the slot of a global or weak handle, and one at the string's header. Where it is refused, the exit too.
    #[inline(always)]
    pub fn open_string<S: Steps>(held: &mut Held<S>, handle: Handle) -> Result<Levels, Fault>
        requires { StandsOutside held.old }
        ensures call { OpensOver held.old held.new handle.0 (opened_by (get_string_critical 0)) result }
        ensures frames { held.new.frames ≡ held.old.frames }
        ensures ok { IfOk result (λ v. StandOver v held.new × (length (objects_of v) ≡ 1)) }
        ensures err { IfErr result (λ _. StandsOutside held.new) }
    {
        open(held, handle, Wanted::Text)
    }

    /// Opens the first level over an array whose elements are no objects, in a stay of the thread, which goes on: the levels have its end from then on.
    /// (JNI Specification, chapter 4, "GetPrimitiveArrayCritical")
    ///
    /// # Errors
    ///
    /// Those of a handle to an object; E5 where it is to a plain object or a string; E6 where it is to an array of objects.
    ///
    /// The stay is handed back, and goes on.
    ///
    /// # Operations
    ///
    /// At most 2: a look at the slot of a global or weak handle, and one at the array's header. It takes none at the gate.
    #[inline(always)]
    pub fn open_array_within<S: Steps>(
        inside: Inside,
        held: &mut Held<S>,
        handle: Handle,
    ) -> Result<Levels, (Inside, Fault)>
        requires stay { IsOwnStay inside (S.facts held.old.steps).stands }
        requires ready { StandsWithin held.old }
        ensures call { OpensWithinOver held.old held.new handle.0 (opened_within (get_array_critical 0)) (without_stay result) }
        ensures frames { held.new.frames ≡ held.old.frames }
        ensures ok { IfOk result (λ v. StandOver v held.new × (length (objects_of v) ≡ 1)) }
        ensures err { IfErr result (λ e. IsOwnStay e.0 (S.facts held.new.steps).stands × StandsWithin held.new) }
    {
        open_within(inside, held, handle, Wanted::Array)
    }

    /// Opens the first level over a string, in a stay of the thread, which goes on: the levels have its end from then on. (JNI Specification, chapter 4, "GetStringCritical")
    ///
    /// # Errors
    ///
    /// Those of a handle to an object; E4 where it is to no string.
    ///
    /// The stay is handed back, and goes on.
    ///
    /// # Operations
    ///
    /// At most 2: a look at the slot of a global or weak handle, and one at the string's header. It takes none at the gate.
    #[inline(always)]
    pub fn open_string_within<S: Steps>(
        inside: Inside,
        held: &mut Held<S>,
        handle: Handle,
    ) -> Result<Levels, (Inside, Fault)>
        requires stay { IsOwnStay inside (S.facts held.old.steps).stands }
        requires ready { StandsWithin held.old }
        ensures call { OpensWithinOver held.old held.new handle.0 (opened_within (get_string_critical 0)) (without_stay result) }
        ensures frames { held.new.frames ≡ held.old.frames }
        ensures ok { IfOk result (λ v. StandOver v held.new × (length (objects_of v) ≡ 1)) }
        ensures err { IfErr result (λ e. IsOwnStay e.0 (S.facts held.new.steps).stands × StandsWithin held.new) }
    {
        open_within(inside, held, handle, Wanted::Text)
    }

    /// Gives up all levels at once, and hands back the stay that they stand in, which goes on.
    ///
    /// # Operations
    ///
    /// None.
    #[inline(always)]
    pub fn into_stay(self) -> Inside
        ensures { result ≡ stay_of self }
    {
        let Levels { levels: _, inside } = self;
        inside
    }

    /// Adds a level over what a reference names: its number. It takes no step at the gate.
    fn nest<S: Steps>(
        &mut self,
        held: &mut Held<S>,
        handle: Handle,
        wanted: Wanted,
    ) -> Result<usize, Fault>
        requires { StandOver self.old held.old }
        ensures call { NestsOver held.old held.new handle.0 (level_nesting wanted) self.old self.new result }
        ensures frames { held.new.frames ≡ held.old.frames }
        ensures stand { StandOver self.new held.new }
        ensures added { IfOk result (λ n. WasAdded self.old self.new n) }
        ensures err { IfErr result (λ _. self.new ≡ self.old) }
    {
        let target = Reference::of(handle);
        let count = self.levels.len();
        let level = find_level(
            &mut held.steps,
            &self.inside,
            &held.frames,
            target,
            wanted,
            count,
        )?;
        self.levels.push(level);
        Ok(count)
    }

    /// Adds a level over an array whose elements are no objects, and answers its number. An array may stand at several levels. The levels have to stand over the steps and the frames.
    ///
    /// # Errors
    ///
    /// Those of a handle to an object; E5 where it is to a plain object or a string; E6 where it is to an array of objects; E17 where sixteen levels stand.
    ///
    /// The levels are as they were, and stand.
    ///
    /// # Operations
    ///
    /// At most 2: a look at the slot of a global or weak handle, and one at the array's header. It takes none at the gate.
    pub fn nest_array<S: Steps>(
        &mut self,
        held: &mut Held<S>,
        handle: Handle,
    ) -> Result<usize, Fault>
        requires { StandOver self.old held.old }
        ensures call { NestsOver held.old held.new handle.0 (nested_by get_array_critical) self.old self.new result }
        ensures frames { held.new.frames ≡ held.old.frames }
        ensures stand { StandOver self.new held.new }
        ensures added { IfOk result (λ n. WasAdded self.old self.new n) }
        ensures err { IfErr result (λ _. self.new ≡ self.old) }
    {
        self.nest(held, handle, Wanted::Array)
    }

    /// Adds a level over a string, and answers its number. A string may stand at several levels. The levels have to stand over the steps and the frames.
    ///
    /// # Errors
    ///
    /// Those of a handle to an object; E4 where it is to no string; E17 where sixteen levels stand.
    ///
    /// The levels are as they were, and stand.
    ///
    /// # Operations
    ///
    /// At most 2: a look at the slot of a global or weak handle, and one at the string's header. It takes none at the gate.
    pub fn nest_string<S: Steps>(
        &mut self,
        held: &mut Held<S>,
        handle: Handle,
    ) -> Result<usize, Fault>
        requires { StandOver self.old held.old }
        ensures call { NestsOver held.old held.new handle.0 (nested_by get_string_critical) self.old self.new result }
        ensures frames { held.new.frames ≡ held.old.frames }
        ensures stand { StandOver self.new held.new }
        ensures added { IfOk result (λ n. WasAdded self.old self.new n) }
        ensures err { IfErr result (λ _. self.new ≡ self.old) }
    {
        self.nest(held, handle, Wanted::Text)
    }

    /// The level of a number.
    fn level(&self, number: usize) -> Level
        requires { number < length (objects_of self.now) }
        ensures { result ≡ level_at self.now number }
    {
        self.levels[number]
    }

    /// An element of a level's array, or a unit of its string as a char. The levels have to stand over the steps and the frames, and the level has to be one of them.
    ///
    /// # Errors
    ///
    /// E6 where its elements are of another kind; E7 where the index is not below the length.
    ///
    /// Nothing is read then, and the levels stand.
    ///
    /// # Operations
    ///
    /// One load, and none where it is refused.
    pub fn get<S: Steps, E: Elem>(
        &self,
        held: &mut Held<S>,
        level: usize,
        index: u32,
    ) -> Result<E, Fault>
        requires stand { StandOver self.now held.old }
        requires level { level < length (objects_of self.now) }
        ensures call { ReadsAt held.old held.new self.now level E.KIND index (in_words E.word_of result) }
        ensures frames { held.new.frames ≡ held.old.frames }
        ensures stand { StandOver self.now held.new }
    {
        let Level { object, header } = self.level(level);
        if !is_read_as(E::KIND, header.kind) {
            return Err(Fault::WrongElement);
        }
        if header.length <= index {
            return Err(Fault::Range);
        }
        let word = held.steps.see_element(object, header, index);
        Ok(E::from_word(word).unwrap())
    }

    /// Writes an element of a level's array. The levels have to stand over the steps and the frames, and the level has to be one of them.
    ///
    /// # Errors
    ///
    /// E5 at a string; E6 where its elements are of another kind; E7 where the index is not below the length.
    ///
    /// Nothing is written then, and the levels stand.
    ///
    /// # Operations
    ///
    /// One store, and none where it is refused.
    pub fn set<S: Steps, E: Elem>(
        &self,
        held: &mut Held<S>,
        level: usize,
        index: u32,
        value: E,
    ) -> Result<(), Fault>
        requires stand { StandOver self.now held.old }
        requires level { level < length (objects_of self.now) }
        ensures call { WritesAt held.old held.new self.now level E.KIND index (E.word_of value) result }
        ensures frames { held.new.frames ≡ held.old.frames }
        ensures stand { StandOver self.now held.new }
    {
        let Level { object, header } = self.level(level);
        if is_text(header.kind) {
            return Err(Fault::NotArray);
        }
        if !is_read_as(E::KIND, header.kind) {
            return Err(Fault::WrongElement);
        }
        if header.length <= index {
            return Err(Fault::Range);
        }
        let word = value.to_word();
        held.steps.put_element(object, header, index, word);
        Ok(())
    }

    /// Copies a part of the elements at a level out, from an index on: as many as the slice has room for, one after the other, rising. The units of a string are read as chars.
    /// The levels have to stand over the steps and the frames, and the level has to be one of them.
    ///
    /// # Errors
    ///
    /// E6 where the level's elements are of another kind; E7 where the part does not lie in its array or string.
    ///
    /// Nothing is read then, the slice is as it was, and the levels stand.
    ///
    /// # Operations
    ///
    /// A load for each element, and none where it is refused.
    #[inline(always)]
    pub fn get_part<S: Steps, E: Elem>(
        &self,
        held: &mut Held<S>,
        level: usize,
        start: u32,
        elements: &mut [E],
    ) -> Result<(), Fault>
        requires stand { StandOver self.now held.old }
        requires level { level < length (objects_of self.now) }
        ensures size { length elements.new ≡ length elements.old }
        ensures call { ReadsPartAt held.old held.new self.now level E.KIND start (length elements.old) (part_read result (map E.word_of elements.new)) }
        ensures frames { held.new.frames ≡ held.old.frames }
        ensures stand { StandOver self.now held.new }
        ensures err { IfErr result (λ _. elements.new ≡ elements.old) }
    {
        let Level { object, header } = self.level(level);
        has_part(header, E::KIND, start, elements.len())?;
        read_part(&mut held.steps, object, header, start, elements);
        Ok(())
    }

    /// Copies elements into a part of a level's array, from an index on, one after the other, rising. The levels have to stand over the steps and the frames, and the level has to be one of them.
    ///
    /// # Errors
    ///
    /// E5 at a string; E6 where the level's elements are of another kind; E7 where the part does not lie in its array.
    ///
    /// Nothing is written then, and the levels stand.
    ///
    /// # Operations
    ///
    /// A store for each element, and none where it is refused.
    #[inline(always)]
    pub fn set_part<S: Steps, E: Elem>(
        &self,
        held: &mut Held<S>,
        level: usize,
        start: u32,
        elements: &[E],
    ) -> Result<(), Fault>
        requires stand { StandOver self.now held.old }
        requires level { level < length (objects_of self.now) }
        ensures call { WritesPartAt held.old held.new self.now level E.KIND start (map E.word_of elements.now) result }
        ensures frames { held.new.frames ≡ held.old.frames }
        ensures stand { StandOver self.now held.new }
    {
        let Level { object, header } = self.level(level);
        has_part_to_write(header, E::KIND, start, elements.len())?;
        write_part(&mut held.steps, object, header, start, elements);
        Ok(())
    }

    /// The length of a level's array or string, in elements or units. The level has to be one that stands.
    pub fn length(&self, level: usize) -> u32
        requires { level < length (objects_of self.now) }
        ensures { TellsLength self.now level result }
    {
        self.level(level).header.length
    }

    /// The kind of a level's object. The level has to be one that stands.
    pub fn kind(&self, level: usize) -> Kind
        requires { level < length (objects_of self.now) }
        ensures { TellsKind self.now level result }
    {
        self.level(level).header.kind
    }

    /// The number of a level's object. The level has to be one that stands.
    pub fn object(&self, level: usize) -> u16
        requires { level < length (objects_of self.now) }
        ensures { result ≡ level_object self.now level }
    {
        self.level(level).object
    }

    /// How many levels stand.
    pub fn depth(&self) -> usize
        ensures count { result ≡ length (objects_of self.now) }
        ensures fits { result ≤ LEVELS }
    {
        self.levels.len()
    }

    /// Gives up the last level. With the first one the stay ends, and the answer is none; else it is the levels before it. A region is no copy, so that every mode does the same.
    /// (JNI Specification, chapter 4, "ReleasePrimitiveArrayCritical", "ReleaseStringCritical")
    ///
    /// # Operations
    ///
    /// One with the first level, the exit, and else none.
    #[inline(always)]
    pub fn close<S: Steps>(self, held: &mut Held<S>, _mode: Mode) -> Option<Levels>
        requires { StandOver self held.old }
        ensures call { GivesUpLastOver held.old held.new self result }
        ensures levels { LeavesBefore self result }
        ensures frames { held.new.frames ≡ held.old.frames }
        ensures stand { IfSome result (λ v. StandOver v held.new) }
        ensures ready { IfNone result (StandsOutside held.new) }
    {
        let Levels { inside, mut levels } = self;
        levels.pop();
        if levels.is_empty() {
            inside.leave(&mut held.steps);
            return None;
        }
        Some(Levels { inside, levels })
    }

    /// Gives up all levels at once: the stay ends.
    ///
    /// # Operations
    ///
    /// One, the exit.
    pub fn close_all<S: Steps>(self, held: &mut Held<S>)
        requires { StandOver self held.old }
        ensures call { GivesUpAllOver held.old held.new self }
        ensures frames { held.new.frames ≡ held.old.frames }
        ensures ready { StandsOutside held.new }
    {
        let Levels { inside, levels: _ } = self;
        inside.leave(&mut held.steps);
    }
}
