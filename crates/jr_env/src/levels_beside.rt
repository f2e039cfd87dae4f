//! The calls of a critical region by its levels, which stand beside their env and don't borrow it.
//! They are for who keeps levels and env from one command to the next, as an interpreter of commands does, and can't hold a borrow of the env meanwhile;
//! [`Region`](crate::Region) is the way for everybody else, and asks for nothing.
//!
//! The levels have to be closed on the env that opened them, the last first. Each other call of the env ends the stay that they stand in.
ghost use Rattle.std.specs.Prelude.{◌≡◌, ◌<◌, IfErr, IfOk, length, map, IfNone, IfSome};
ghost use Rattle.jr_model.specs.CallPrograms.{get_array_critical, get_string_critical};
ghost use Rattle.jr_critical.specs.Levels.{objects_of, in_words, nested_by, opened_by, GivesUpAllOver, GivesUpLastOver, LeavesBefore, NestsOver, ReadsAt, StandOver, WasAdded, WritesAt};
ghost use Rattle.jr_critical.specs.LevelParts.{part_read, ReadsPartAt, WritesPartAt};
ghost use Rattle.jr_env.specs.Envs.{IsOutside};
ghost use Rattle.jr_env.specs.StandingRegions.{EndsUndisturbed, StandsOn, StandsSince};
ghost use Rattle.jr_env.specs.Criticals.{HasEntered, WasRefused};
ghost use Rattle.jr_env.specs.Retried.{TriesAgainToOpen, TriesToOpen};

use crate::env::Env;
use crate::native_call::Handed;
use crate::patience::{Patience, with_patience};
use crate::work::outside;
use jr_critical::Levels;
use jr_model::Mode;
use jr_steps::Steps;
use jr_word::{Elem, Fault, Handle};

/// Opens a critical region, with the array at its first level. The thread is within until that level is given up. (JNI Specification, chapter 4, "GetPrimitiveArrayCritical")
///
/// # Errors
///
/// That of the gate; those of a handle to an object; E5 where it is to a plain object or a string; E6 where it is to an array of objects.
///
/// Nothing has changed then, and the thread stands outside.
///
/// # Operations
///
/// At most 3: the entry, a look at the slot of a global or weak handle, and one at the array's header. Where it is refused, the exit too.
#[inline(always)]
pub fn open_array<S: Steps>(env: &mut Env<S>, array: Handle) -> Result<Levels, Fault>
    ensures entered { IfOk result (λ v. HasEntered env.old env.new v array.0 (opened_by (get_array_critical 0))) }
    ensures region { IfOk result (λ v. IsOutside env.old → StandsSince env.old.held env.new.held v) }
    ensures refused { IfErr result (λ e. WasRefused env.old env.new array.0 (opened_by (get_array_critical 0)) e) }
{
    outside(&mut env.held);
    Levels::open_array(&mut env.held, array)
}

/// Opens a critical region, with the string at its first level. The thread is within until that level is given up. (JNI Specification, chapter 4, "GetStringCritical")
///
/// # Errors
///
/// That of the gate; those of a handle to an object; E4 where it is to no string.
///
/// Nothing has changed then, and the thread stands outside.
///
/// # Operations
///
/// At most 3: the entry, a look at the slot of a global or weak handle, and one at the string's header. Where it is refused, the exit too.
#[inline(always)]
pub fn open_string<S: Steps>(env: &mut Env<S>, string: Handle) -> Result<Levels, Fault>
    ensures entered { IfOk result (λ v. HasEntered env.old env.new v string.0 (opened_by (get_string_critical 0))) }
    ensures region { IfOk result (λ v. IsOutside env.old → StandsSince env.old.held env.new.held v) }
    ensures refused { IfErr result (λ e. WasRefused env.old env.new string.0 (opened_by (get_string_critical 0)) e) }
{
    outside(&mut env.held);
    Levels::open_string(&mut env.held, string)
}

/// What the first level of a region is over.
#[derive(Clone, Copy)]
pub enum First {
    /// An array whose elements are no objects.
    Array(Handle),
    /// A string.
    Text(Handle),
}

impl First {
    ghost use Rattle.std.specs.Prelude.{◌≡◌, [], ◌∷◌, None};
    ghost use Rattle.jr_env.specs.Requests.{handed_words};
    ghost use Rattle.jr_env.specs.Spans.{handed_span};
    ghost use Rattle.jr_env.specs.TellingRegions.{opening_name};
    ghost use Rattle.jr_env.specs.Retried.{first_word};

    /// What the call is named that opens it.
    pub(crate) fn call(self) -> &'static str
        ensures { result.now ≡ opening_name self }
    {
        match self {
            First::Array(_) => "GetPrimitiveArrayCritical",
            First::Text(_) => "GetStringCritical",
        }
    }

    /// What that call is handed.
    pub(crate) fn handed(self) -> Handed
        ensures words { handed_words result ≡ first_word self ∷ [] }
        ensures span { handed_span result ≡ None }
    {
        let (First::Array(word) | First::Text(word)) = self;
        Handed::One(word)
    }
}

/// Opens a critical region, by the call for what its first level is over.
fn open<S: Steps>(env: &mut Env<S>, first: First) -> Result<Levels, Fault>
    ensures tried { TriesToOpen first env.old result env.new }
    ensures stand { IfOk result (λ v. StandOver v env.new.held) }
{
    match first {
        First::Array(array) => open_array(env, array),
        First::Text(string) => open_string(env, string),
    }
}

/// Opens a critical region as `open_array` and `open_string` do, and again as long as it is refused by E13, but no more than so many times more.
///
/// # Errors
///
/// Those of `open_array`, and of `open_string`, at the last try.
///
/// Nothing has changed then, and the thread stands outside.
///
/// # Operations
///
/// Those of each try.
pub fn retry_open<S: Steps>(
    env: &mut Env<S>,
    first: First,
    patience: Patience,
) -> Result<Levels, Fault>
    ensures tried { TriesAgainToOpen patience first env.old result env.new }
    ensures stand { IfOk result (λ v. StandOver v env.new.held) }
{
    with_patience(env, patience, |env| open(env, first))
}

/// Adds a level over an array whose elements are no objects, and answers its number. An array may stand at several levels. The levels have to stand over the env.
/// (JNI Specification, chapter 4, "GetPrimitiveArrayCritical")
///
/// # Errors
///
/// Those of a handle to an object; E5 where it is to a plain object or a string; E6 where it is to an array of objects; E17 where sixteen levels stand.
///
/// The levels are as they were, and stand.
///
/// # Operations
///
/// At most 2: a look at the slot of a global or weak handle, and one at the array's header. It takes none at the gate.
pub fn nest_array<S: Steps>(
    env: &mut Env<S>,
    levels: &mut Levels,
    array: Handle,
) -> Result<usize, Fault>
    requires { StandOver levels.old env.old.held }
    ensures call { NestsOver env.old.held env.new.held array.0 (nested_by get_array_critical) levels.old levels.new result }
    ensures region { StandsOn env.old.held env.new.held levels.old levels.new }
    ensures frames { env.new.held.frames ≡ env.old.held.frames }
    ensures stand { StandOver levels.new env.new.held }
    ensures added { IfOk result (λ n. WasAdded levels.old levels.new n) }
    ensures err { IfErr result (λ _. levels.new ≡ levels.old) }
{
    levels.nest_array(&mut env.held, array)
}

/// Adds a level over a string, and answers its number. A string may stand at several levels. The levels have to stand over the env. (JNI Specification, chapter 4, "GetStringCritical")
///
/// # Errors
///
/// Those of a handle to an object; E4 where it is to no string; E17 where sixteen levels stand.
///
/// The levels are as they were, and stand.
///
/// # Operations
///
/// At most 2: a look at the slot of a global or weak handle, and one at the string's header. It takes none at the gate.
pub fn nest_string<S: Steps>(
    env: &mut Env<S>,
    levels: &mut Levels,
    string: Handle,
) -> Result<usize, Fault>
    requires { StandOver levels.old env.old.held }
    ensures call { NestsOver env.old.held env.new.held string.0 (nested_by get_string_critical) levels.old levels.new result }
    ensures region { StandsOn env.old.held env.new.held levels.old levels.new }
    ensures frames { env.new.held.frames ≡ env.old.held.frames }
    ensures stand { StandOver levels.new env.new.held }
    ensures added { IfOk result (λ n. WasAdded levels.old levels.new n) }
    ensures err { IfErr result (λ _. levels.new ≡ levels.old) }
{
    levels.nest_string(&mut env.held, string)
}

/// An element of a level's array, or a unit of its string as a char. The levels have to stand over the env, and the level has to be one of them.
///
/// # Errors
///
/// E6 where its elements are of another kind; E7 where the index is not below the length.
///
/// Nothing is read then, and the levels stand.
///
/// # Operations
///
/// One load, and none where it is refused.
pub fn get<S: Steps, E: Elem>(
    env: &mut Env<S>,
    levels: &Levels,
    level: usize,
    index: u32,
) -> Result<E, Fault>
    requires stand { StandOver levels.now env.old.held }
    requires level { level < length (objects_of levels.now) }
    ensures call { ReadsAt env.old.held env.new.held levels.now level E.KIND index (in_words E.word_of result) }
    ensures region { StandsOn env.old.held env.new.held levels.now levels.now }
    ensures frames { env.new.held.frames ≡ env.old.held.frames }
    ensures stand { StandOver levels.now env.new.held }
{
    levels.get(&mut env.held, level, index)
}

/// Writes an element of a level's array. The levels have to stand over the env, and the level has to be one of them.
///
/// # Errors
///
/// E5 at a string; E6 where its elements are of another kind; E7 where the index is not below the length.
///
/// Nothing is written then, and the levels stand.
///
/// # Operations
///
/// One store, and none where it is refused.
pub fn set<S: Steps, E: Elem>(
    env: &mut Env<S>,
    levels: &Levels,
    level: usize,
    index: u32,
    value: E,
) -> Result<(), Fault>
    requires stand { StandOver levels.now env.old.held }
    requires level { level < length (objects_of levels.now) }
    ensures call { WritesAt env.old.held env.new.held levels.now level E.KIND index (E.word_of value) result }
    ensures region { StandsOn env.old.held env.new.held levels.now levels.now }
    ensures frames { env.new.held.frames ≡ env.old.held.frames }
    ensures stand { StandOver levels.now env.new.held }
{
    levels.set(&mut env.held, level, index, value)
}

/// Copies a part of the elements at a level out, from an index on: as many as the slice has room for. The units of a string are read as chars.
/// The levels have to stand over the env, and the level has to be one of them.
///
/// # Errors
///
/// E6 where the level's elements are of another kind; E7 where the part does not lie in its array or string.
///
/// Nothing is read then, the slice is as it was, and the levels stand.
///
/// # Operations
///
/// A load for each element, and none where it is refused.
#[inline(always)]
pub fn get_part<S: Steps, E: Elem>(
    env: &mut Env<S>,
    levels: &Levels,
    level: usize,
    start: u32,
    elements: &mut [E],
) -> Result<(), Fault>
    requires stand { StandOver levels.now env.old.held }
    requires level { level < length (objects_of levels.now) }
    ensures size { length elements.new ≡ length elements.old }
    ensures call { ReadsPartAt env.old.held env.new.held levels.now level E.KIND start (length elements.old) (part_read result (map E.word_of elements.new)) }
    ensures region { StandsOn env.old.held env.new.held levels.now levels.now }
    ensures frames { env.new.held.frames ≡ env.old.held.frames }
    ensures stand { StandOver levels.now env.new.held }
    ensures err { IfErr result (λ _. elements.new ≡ elements.old) }
{
    levels.get_part(&mut env.held, level, start, elements)
}

/// Copies elements into a part of a level's array, from an index on. The levels have to stand over the env, and the level has to be one of them.
///
/// # Errors
///
/// E5 at a string; E6 where the level's elements are of another kind; E7 where the part does not lie in its array.
///
/// Nothing is written then, and the levels stand.
///
/// # Operations
///
/// A store for each element, and none where it is refused.
#[inline(always)]
pub fn set_part<S: Steps, E: Elem>(
    env: &mut Env<S>,
    levels: &Levels,
    level: usize,
    start: u32,
    elements: &[E],
) -> Result<(), Fault>
    requires stand { StandOver levels.now env.old.held }
    requires level { level < length (objects_of levels.now) }
    ensures call { WritesPartAt env.old.held env.new.held levels.now level E.KIND start (map E.word_of elements.now) result }
    ensures region { StandsOn env.old.held env.new.held levels.now levels.now }
    ensures frames { env.new.held.frames ≡ env.old.held.frames }
    ensures stand { StandOver levels.now env.new.held }
{
    levels.set_part(&mut env.held, level, start, elements)
}

/// Gives up the last level, and answers those before it. With the first one the thread leaves the gate, and none is left. Every mode does the same, since a region is no copy.
/// The levels have to stand over the env. (JNI Specification, chapter 4, "ReleasePrimitiveArrayCritical", "ReleaseStringCritical")
///
/// # Operations
///
/// One with the first level, the exit, and else none.
#[inline(always)]
pub fn close<S: Steps>(env: &mut Env<S>, levels: Levels, mode: Mode) -> Option<Levels>
    requires { StandOver levels env.old.held }
    ensures call { GivesUpLastOver env.old.held env.new.held levels result }
    ensures region { IfSome result (λ v. StandsOn env.old.held env.new.held levels v) }
    ensures undisturbed { IfNone result (EndsUndisturbed env.old.held env.new.held levels) }
    ensures levels { LeavesBefore levels result }
    ensures frames { env.new.held.frames ≡ env.old.held.frames }
    ensures stand { IfSome result (λ v. StandOver v env.new.held) }
    ensures outside { IfNone result (IsOutside env.new) }
{
    levels.close(&mut env.held, mode)
}

/// Gives up all levels at once, as where a native method ends within its region: the thread leaves the gate. The levels have to stand over the env.
///
/// # Operations
///
/// One, the exit.
pub fn close_all<S: Steps>(env: &mut Env<S>, levels: Levels)
    requires { StandOver levels env.old.held }
    ensures call { GivesUpAllOver env.old.held env.new.held levels }
    ensures undisturbed { EndsUndisturbed env.old.held env.new.held levels }
    ensures frames { env.new.held.frames ≡ env.old.held.frames }
    ensures outside { IsOutside env.new }
{
    levels.close_all(&mut env.held);
}
