//! A critical region of an env, as a value that borrows the env.
ghost use Rattle.jr_critical.specs.Levels.{StandOver};

use crate::env::Env;
use crate::levels_beside;
use crate::stay::Stay;
use jr_critical::Levels;
use jr_model::Mode;
use jr_steps::Steps;
use jr_word::{Elem, Fault, Handle, Kind};

/// A critical region: the elements of the arrays and strings at its levels are read and written in place, and no collection comes before its first level is given up.
/// While it stands no other call on its env compiles, and it has to be released. (JNI Specification, chapter 4, "GetPrimitiveArrayCritical")
pub struct Region<'e, S: Steps> {
    env: &'e mut Env<S>,
    levels: Levels,
    ghost stand: { StandOver levels env.now.held },
}

impl<'e, S: Steps> Region<'e, S> {
    ghost use Rattle.std.specs.Prelude.{◌≡◌, ◌<◌, ◌≤◌, ◌+◌, IfErr, IfOk, IfSome, Some, false, length, map};
    ghost use Rattle.std.specs.Borrow.{sem};
    ghost use Rattle.jr_word.specs.declared.fault.Fault.TheVariants.{Stale};
    ghost use Rattle.jr_model.specs.CallPrograms.{get_array_critical, get_string_critical};
    ghost use Rattle.jr_critical.specs.Levels.{objects_of, in_words, nested_by, GivesUpAllOver, GivesUpLastOver, LeavesBefore, NestsOver, ReadsAt, TellsKind, TellsLength, WasAdded, WritesAt};
    ghost use Rattle.jr_critical.specs.LevelParts.{part_read, ReadsPartAt, WritesPartAt};
    ghost use Rattle.jr_env.specs.Envs.{IsOutside};
    ghost use Rattle.jr_env.specs.StandingRegions.{EndsUndisturbed, StandsOn};
    ghost use Rattle.jr_env.specs.Criticals.{env_of, levels_of, held_of, frames_of, rests_in_left, AtLevel};
    ghost use Rattle.jr_env.specs.LentStays.{env_in, held_in};
    ghost use Rattle.jr_env.specs.StayLevels.{StaysWithout};

    /// The region of an env whose levels stand.
    #[inline(always)]
    pub(crate) fn over(env: &'e mut Env<S>, levels: Levels) -> Self
        requires { StandOver levels env.old.held }
        ensures same_reference { (env_of result).ghost_name ≡ env.entry.ghost_name }
        ensures env { (env_of result).now ≡ env.old }
        ensures levels { levels_of result ≡ levels }
    {
        Region { env, levels }
    }

    /// Adds a level over an array whose elements are no objects, and answers its number. An array may stand at several levels. (JNI Specification, chapter 4, "GetPrimitiveArrayCritical")
    ///
    /// # Errors
    ///
    /// Those of a handle to an object; E5 where it is to a plain object or a string; E6 where it is to an array of objects; E17 where sixteen levels stand.
    ///
    /// The levels are as they were, and stand.
    ///
    /// # Operations
    ///
    /// At most 2: a look at the slot of a global or weak handle, and one at the array's header. It takes none at the gate.
    pub fn nest_array(&mut self, array: Handle) -> Result<usize, Fault>
        ensures same_reference { (env_of self.new).ghost_name ≡ (env_of self.old).ghost_name }
        ensures call { NestsOver (held_of self.old) (held_of self.new) array.0 (nested_by get_array_critical) (levels_of self.old) (levels_of self.new) result }
        ensures region { StandsOn (held_of self.old) (held_of self.new) (levels_of self.old) (levels_of self.new) }
        ensures frames { frames_of self.new ≡ frames_of self.old }
        ensures added { IfOk result (λ n. WasAdded (levels_of self.old) (levels_of self.new) n) }
        ensures err { IfErr result (λ _. levels_of self.new ≡ levels_of self.old) }
    {
        levels_beside::nest_array(self.env, &mut self.levels, array)
    }

    /// Adds a level over a string, and answers its number. A string may stand at several levels. (JNI Specification, chapter 4, "GetStringCritical")
    ///
    /// # Errors
    ///
    /// Those of a handle to an object; E4 where it is to no string; E17 where sixteen levels stand.
    ///
    /// The levels are as they were, and stand.
    ///
    /// # Operations
    ///
    /// At most 2: a look at the slot of a global or weak handle, and one at the string's header. It takes none at the gate.
    pub fn nest_string(&mut self, string: Handle) -> Result<usize, Fault>
        ensures same_reference { (env_of self.new).ghost_name ≡ (env_of self.old).ghost_name }
        ensures call { NestsOver (held_of self.old) (held_of self.new) string.0 (nested_by get_string_critical) (levels_of self.old) (levels_of self.new) result }
        ensures region { StandsOn (held_of self.old) (held_of self.new) (levels_of self.old) (levels_of self.new) }
        ensures frames { frames_of self.new ≡ frames_of self.old }
        ensures added { IfOk result (λ n. WasAdded (levels_of self.old) (levels_of self.new) n) }
        ensures err { IfErr result (λ _. levels_of self.new ≡ levels_of self.old) }
    {
        levels_beside::nest_string(self.env, &mut self.levels, string)
    }

    /// An element of a level's array, or a unit of its string as a char.
    ///
    /// # Errors
    ///
    /// E2 where no level of the number stands; E6 where its elements are of another kind; E7 where the index is not below the length.
    ///
    /// Nothing is read then, and the levels stand.
    ///
    /// # Operations
    ///
    /// One load, and none where it is refused.
    pub fn get<E: Elem>(&mut self, level: usize, index: u32) -> Result<E, Fault>
        ensures same_reference { (env_of self.new).ghost_name ≡ (env_of self.old).ghost_name }
        ensures call { AtLevel self.old self.new level result (ReadsAt (held_of self.old) (held_of self.new) (levels_of self.old) level E.KIND index (in_words E.word_of result)) }
        ensures region { StandsOn (held_of self.old) (held_of self.new) (levels_of self.old) (levels_of self.new) }
        ensures frames { frames_of self.new ≡ frames_of self.old }
        ensures levels { levels_of self.new ≡ levels_of self.old }
    {
        if self.levels.depth() <= level {
            return Err(Fault::Stale);
        }
        levels_beside::get(self.env, &self.levels, level, index)
    }

    /// Writes an element of a level's array.
    ///
    /// # Errors
    ///
    /// E2 where no level of the number stands; E5 at a string; E6 where its elements are of another kind; E7 where the index is not below the length.
    ///
    /// Nothing is written then, and the levels stand.
    ///
    /// # Operations
    ///
    /// One store, and none where it is refused.
    pub fn set<E: Elem>(&mut self, level: usize, index: u32, value: E) -> Result<(), Fault>
        ensures same_reference { (env_of self.new).ghost_name ≡ (env_of self.old).ghost_name }
        ensures call { AtLevel self.old self.new level result (WritesAt (held_of self.old) (held_of self.new) (levels_of self.old) level E.KIND index (E.word_of value) result) }
        ensures region { StandsOn (held_of self.old) (held_of self.new) (levels_of self.old) (levels_of self.new) }
        ensures frames { frames_of self.new ≡ frames_of self.old }
        ensures levels { levels_of self.new ≡ levels_of self.old }
    {
        if self.levels.depth() <= level {
            return Err(Fault::Stale);
        }
        levels_beside::set(self.env, &self.levels, level, index, value)
    }

    /// Copies a part of the elements at a level out, from an index on: as many as the slice has room for, one after the other, rising. The units of a string are read as chars.
    /// It is `get_array_region` without an entry, an exit and a look at a reference. Others may write between two of its loads.
    ///
    /// # Errors
    ///
    /// E2 where no level of the number stands; E6 where its elements are of another kind; E7 where the part does not lie in its array or string.
    ///
    /// Nothing is read then, the slice is as it was, and the levels stand.
    ///
    /// # Operations
    ///
    /// A load for each element, and none where it is refused.
    #[inline(always)]
    pub fn get_part<E: Elem>(
        &mut self,
        level: usize,
        start: u32,
        elements: &mut [E],
    ) -> Result<(), Fault>
        ensures same_reference { (env_of self.new).ghost_name ≡ (env_of self.old).ghost_name }
        ensures size { length elements.new ≡ length elements.old }
        ensures call { AtLevel self.old self.new level (part_read result (map E.word_of elements.new))
            (ReadsPartAt (held_of self.old) (held_of self.new) (levels_of self.old) level E.KIND start (length elements.old) (part_read result (map E.word_of elements.new))) }
        ensures region { StandsOn (held_of self.old) (held_of self.new) (levels_of self.old) (levels_of self.new) }
        ensures frames { frames_of self.new ≡ frames_of self.old }
        ensures levels { levels_of self.new ≡ levels_of self.old }
        ensures err { IfErr result (λ _. elements.new ≡ elements.old) }
    {
        if self.levels.depth() <= level {
            return Err(Fault::Stale);
        }
        levels_beside::get_part(self.env, &self.levels, level, start, elements)
    }

    /// Copies elements into a part of a level's array, from an index on, one after the other, rising. It is `set_array_region` without an entry, an exit and a look at a reference.
    /// Others may read between two of its stores.
    ///
    /// # Errors
    ///
    /// E2 where no level of the number stands; E5 at a string; E6 where its elements are of another kind; E7 where the part does not lie in its array.
    ///
    /// Nothing is written then, and the levels stand.
    ///
    /// # Operations
    ///
    /// A store for each element, and none where it is refused.
    #[inline(always)]
    pub fn set_part<E: Elem>(
        &mut self,
        level: usize,
        start: u32,
        elements: &[E],
    ) -> Result<(), Fault>
        ensures same_reference { (env_of self.new).ghost_name ≡ (env_of self.old).ghost_name }
        ensures call { AtLevel self.old self.new level result (WritesPartAt (held_of self.old) (held_of self.new) (levels_of self.old) level E.KIND start (map E.word_of elements.now) result) }
        ensures region { StandsOn (held_of self.old) (held_of self.new) (levels_of self.old) (levels_of self.new) }
        ensures frames { frames_of self.new ≡ frames_of self.old }
        ensures levels { levels_of self.new ≡ levels_of self.old }
    {
        if self.levels.depth() <= level {
            return Err(Fault::Stale);
        }
        levels_beside::set_part(self.env, &self.levels, level, start, elements)
    }

    /// How many elements or units a level's array or string has.
    ///
    /// # Errors
    ///
    /// E2 where no level of the number stands.
    pub fn length(&self, level: usize) -> Result<u32, Fault>
        ensures tells { IfOk result (λ n. level < length (objects_of (levels_of self.now)) × TellsLength (levels_of self.now) level n) }
        ensures missing { IfErr result (λ e. (length (objects_of (levels_of self.now)) ≤ level) × (e ≡ Stale)) }
    {
        if self.levels.depth() <= level {
            return Err(Fault::Stale);
        }
        Ok(self.levels.length(level))
    }

    /// The kind of a level's array or string.
    ///
    /// # Errors
    ///
    /// E2 where no level of the number stands.
    pub fn kind(&self, level: usize) -> Result<Kind, Fault>
        ensures tells { IfOk result (λ kind. level < length (objects_of (levels_of self.now)) × TellsKind (levels_of self.now) level kind) }
        ensures missing { IfErr result (λ e. (length (objects_of (levels_of self.now)) ≤ level) × (e ≡ Stale)) }
    {
        if self.levels.depth() <= level {
            return Err(Fault::Stale);
        }
        Ok(self.levels.kind(level))
    }

    /// How many levels stand, at least one.
    pub fn depth(&self) -> usize
        ensures count { result ≡ length (objects_of (levels_of self.now)) }
        ensures some { 0 < result }
    {
        self.levels.depth()
    }

    /// Whether the elements are a copy: never, in a region.
    pub fn is_copy(&self) -> bool
        ensures { result ≡ false }
    {
        false
    }

    /// Gives up the last level. With the first one the thread leaves the gate, and the env can be called again: none is left. Every mode does the same, since a region is no copy:
    /// none undoes a write, and none keeps the elements. (JNI Specification, chapter 4, "ReleasePrimitiveArrayCritical", "ReleaseStringCritical")
    ///
    /// # Operations
    ///
    /// One with the first level, the exit, and else none.
    #[inline(always)]
    pub fn release(self, mode: Mode) -> Option<Region<'e, S>>
        ensures* rests { sem 𝓛 (rests_in_left S.row S.Steps self.entry result) }
        ensures same_reference { IfSome result (λ r. (env_of r).ghost_name ≡ (env_of self.entry).ghost_name) }
        ensures call { IfSome result (λ r. GivesUpLastOver (held_of self.entry) (held_of r) (levels_of self.entry) (Some (levels_of r))) }
        ensures region { IfSome result (λ r. StandsOn (held_of self.entry) (held_of r) (levels_of self.entry) (levels_of r)) }
        ensures frames { IfSome result (λ r. frames_of r ≡ frames_of self.entry) }
        ensures levels { IfSome result (λ r. LeavesBefore (levels_of self.entry) (Some (levels_of r))) }
        ensures fewer { IfSome result (λ r. length (objects_of (levels_of self.entry)) ≡ length (objects_of (levels_of r)) + 1) }
        ensures some { IfSome result (λ r. 0 < length (objects_of (levels_of r))) }
    {
        let Region { env, levels } = self;
        match levels_beside::close(env, levels, mode) {
            Some(levels) => Some(Region { env, levels }),
            None => None,
        }
    }

    /// Gives up all levels at once, whatever they are, and hands the env back: the thread has left the gate. It needs no mode, since a region is no copy.
    ///
    /// # Operations
    ///
    /// One, the exit.
    pub fn release_all(self) -> &'e mut Env<S>
        ensures same_reference { result.ghost_name ≡ (env_of self.entry).ghost_name }
        ensures call { GivesUpAllOver (held_of self.entry) result.now.held (levels_of self.entry) }
        ensures undisturbed { EndsUndisturbed (held_of self.entry) result.now.held (levels_of self.entry) }
        ensures frames { result.now.held.frames ≡ frames_of self.entry }
        ensures outside { IsOutside result.now }
    {
        let Region { env, levels } = self;
        levels_beside::close_all(env, levels);
        env
    }

    /// Gives up all levels at once without leaving the gate: the stay that they stood in goes on, and its calls can be made. It needs no mode, since a region is no copy.
    ///
    /// # Operations
    ///
    /// None.
    #[inline(always)]
    pub fn into_stay(self) -> Stay<'e, S>
        ensures same_reference { (env_in result).ghost_name ≡ (env_of self.entry).ghost_name }
        ensures env { (env_in result).now ≡ (env_of self.entry).now }
        ensures on { StaysWithout (held_of self.entry) (held_in result) (levels_of self.entry) }
    {
        let Region { env, levels } = self;
        Stay::over(env, levels.into_stay())
    }
}
