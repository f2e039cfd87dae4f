//! What the commands of a critical region do at its levels.

ghost use Rattle.std.specs.Prelude.{◌≡◌, ◌<◌, IfErr, IfOk, Ok, Err, Some, None, [], length};
ghost use Rattle.jr_word.specs.declared.fault.Fault.TheVariants.{InCritical};
ghost use Rattle.jr_syntax.specs.declared.command.Command.TheVariants as commands;
ghost use Rattle.jr_syntax.specs.declared.verb.PutAt.TheVariants as put_verbs;
ghost use Rattle.jr_critical.specs.Levels.{level_object, level_nested, objects_of, StandOver, WasAdded};
ghost use Rattle.jr_env.specs.Envs.{IsOutside};
ghost use Rattle.jr_scripts.specs.Advancing.{level_names, objects_in, opened_over, place_with, DidWith, DidWithin, DidOpen, StandsIn, StandsWith};
ghost use Rattle.jr_scripts.specs.Commands.{deed, opening_by, opening_levels, tried};
ghost use Rattle.jr_scripts.specs.Places.{levels_after, objects_after};
ghost use Rattle.jr_world.specs.World.{all_but_last};
ghost use Rattle.jr_scripts.specs.RegionCommands.{deed_within, giving_up, giving_up_all, nesting, read_kind as kind_read, level_reading, reading_as, reading_at, reading_by, level_writing, writing_as};
ghost use Rattle.jr_scripts.specs.RegionCommands.{writing_at, writing_by};

use crate::ask::{no_more, patience_for};
use crate::names::Names;
use crate::number::{Number, NumberKind};
use crate::outcome::{Outcome, in_none, still};
use crate::region::{NamedLevels, first};
use crate::reply::Reply;
use jr_critical::Levels;
use jr_env::levels_beside::{First, retry_open};
use jr_env::{Env, levels_beside};
use jr_model::Mode;
use jr_steps::Steps;
use jr_syntax::{Name, OnNameAt, OpenLevel, PutAt, Reference as Target};
use jr_word::{Fault, Handle, Kind};

/// What a verb opens a region over, by the handle of it.
fn first_of(verb: OpenLevel, handle: Handle) -> First
    ensures { result ≡ opened_over verb handle }
{
    match verb {
        OpenLevel::Array => First::Array(handle),
        OpenLevel::Text => First::Text(handle),
    }
}

/// Opens a region over what a handle names, and again as long as the call is barred: E20 once it was made so many times.
fn open<S: Steps>(
    env: &mut Env<S>,
    turns: u64,
    verb: OpenLevel,
    handle: Handle,
) -> Result<Levels, Fault>
    requires { IsOutside env.old }
    ensures does { DidOpen env.old env.new (tried turns (opening_by verb handle.0)) result }
    ensures stand { IfOk result (λ v. StandOver v env.new.held) }
    ensures one { IfOk result (λ v. length (objects_of v) ≡ 1) }
    ensures outside { IfErr result (λ _. IsOutside env.new) }
{
    let patience = patience_for(turns)?;
    retry_open(env, first_of(verb, handle), patience).map_err(no_more)
}

/// Opens a region over what a reference names.
fn open_levels<S: Steps>(
    env: &mut Env<S>,
    names: &Names,
    turns: u64,
    verb: OpenLevel,
    target: &Target,
) -> Result<Levels, Fault>
    requires { IsOutside env.old }
    ensures does { DidOpen env.old env.new (opening_levels turns names.now verb target.now) result }
    ensures stand { IfOk result (λ v. StandOver v env.new.held) }
    ensures one { IfOk result (λ v. length (objects_of v) ≡ 1) }
    ensures outside { IfErr result (λ _. IsOutside env.new) }
{
    let handle = names.wanted(target)?;
    open(env, turns, verb, handle)
}

/// Opens a region, whose first level has a name.
pub(crate) fn open_region<S: Steps>(
    env: &mut Env<S>,
    names: &Names,
    turns: u64,
    verb: OpenLevel,
    name: &Name,
    target: &Target,
) -> Outcome
    requires { IsOutside env.old }
    ensures does { DidWith env.old env.new None result.region (deed turns names.now (commands.OpenLevel verb name.now target.now)) result.answer }
    ensures stand { StandsWith result.region env.new }
    ensures levels { level_names result.region ≡ levels_after (commands.OpenLevel verb name.now target.now) result.answer [] }
    ensures objects { objects_in result.region ≡ objects_after (commands.OpenLevel verb name.now target.now) result.answer [] }
{
    match open_levels(env, names, turns, verb, target) {
        Ok(levels) => {
            let object = levels.object(0);
            still(first(levels, name), Ok(Reply::Level(object)))
        }
        Err(fault) => in_none(Err(fault)),
    }
}

/// Adds a level over what a handle names: its number.
fn add<S: Steps>(
    env: &mut Env<S>,
    levels: &mut Levels,
    verb: OpenLevel,
    handle: Handle,
) -> Result<usize, Fault>
    requires { StandOver levels.old env.old.held }
    ensures does { DidWithin env.old env.new levels.old levels.new (nesting verb (objects_of levels.old) handle.0) (level_nested result levels.new) }
    ensures stand { StandOver levels.new env.new.held }
    ensures added { IfOk result (λ n. WasAdded levels.old levels.new n) }
    ensures err { IfErr result (λ _. levels.new ≡ levels.old) }
{
    match verb {
        OpenLevel::Array => levels_beside::nest_array(env, levels, handle),
        OpenLevel::Text => levels_beside::nest_string(env, levels, handle),
    }
}

/// Adds a level of a name over what a reference names. The room of the names is that of the levels.
pub(crate) fn nest<S: Steps>(
    env: &mut Env<S>,
    names: &Names,
    region: &mut NamedLevels,
    verb: OpenLevel,
    name: &Name,
    target: &Target,
) -> Result<Reply, Fault>
    requires { StandsIn region.old env.old }
    ensures does { DidWith env.old env.new (Some region.old) (Some region.new) (deed_within (place_with names.now (Some region.old)) (commands.OpenLevel verb name.now target.now)) result }
    ensures stand { StandsIn region.new env.new }
    ensures levels { level_names (Some region.new) ≡ levels_after (commands.OpenLevel verb name.now target.now) result (level_names (Some region.old)) }
    ensures objects { objects_in (Some region.new) ≡ objects_after (commands.OpenLevel verb name.now target.now) result (objects_in (Some region.old)) }
{
    let handle = names.wanted(target)?;
    let number = add(env, &mut region.levels, verb, handle)?;
    let _ = region.names.try_push(name.copy());
    Ok(Reply::Level(region.levels.object(number)))
}

/// The number at an index of a level whose elements are read as of a type.
fn read_as<S: Steps, E: Number>(
    env: &mut Env<S>,
    levels: &Levels,
    level: usize,
    index: u32,
) -> Result<Reply, Fault>
    requires stand { StandOver levels.now env.old.held }
    requires level { level < length (objects_of levels.now) }
    ensures does { DidWithin env.old env.new levels.now levels.now (reading_as (level_object levels.now level) index E.KIND) result }
    ensures stand { StandOver levels.now env.new.held }
{
    let element = levels_beside::get::<S, E>(env, levels, level, index)?;
    Ok(Reply::Value(element.to_number()))
}

/// The kind of which elements are read: the units of a string are chars.
fn read_kind(kind: Kind) -> Kind
    ensures { result ≡ kind_read kind }
{
    match kind {
        Kind::Text => Kind::Char,
        _ => kind,
    }
}

/// The number at an index of a level.
fn read_at<S: Steps>(
    env: &mut Env<S>,
    levels: &Levels,
    level: usize,
    index: u32,
) -> Result<Reply, Fault>
    requires stand { StandOver levels.now env.old.held }
    requires level { level < length (objects_of levels.now) }
    ensures does { DidWithin env.old env.new levels.now levels.now (level_reading (level_object levels.now level) index) result }
    ensures stand { StandOver levels.now env.new.held }
{
    match NumberKind::of(read_kind(levels.kind(level)))? {
        NumberKind::Boolean => read_as::<S, bool>(env, levels, level, index),
        NumberKind::Byte => read_as::<S, i8>(env, levels, level, index),
        NumberKind::Char => read_as::<S, u16>(env, levels, level, index),
        NumberKind::Short => read_as::<S, i16>(env, levels, level, index),
        NumberKind::Int => read_as::<S, i32>(env, levels, level, index),
        NumberKind::Long => read_as::<S, i64>(env, levels, level, index),
    }
}

/// The number at an index of the level that a name means.
fn read<S: Steps>(
    env: &mut Env<S>,
    region: &NamedLevels,
    name: &Name,
    index: u32,
) -> Result<Reply, Fault>
    requires { StandsIn region.now env.old }
    ensures does { DidWith env.old env.new (Some region.now) (Some region.now) (reading_at region.now.names.items (objects_of region.now.levels) name.now index) result }
    ensures stand { StandsIn region.now env.new }
{
    let level = region.level(name)?;
    read_at(env, &region.levels, level, index)
}

/// The number at an index of the level that a name means, where that is what the verb asks for: E19 where it asks for another.
pub(crate) fn read_by<S: Steps>(
    env: &mut Env<S>,
    region: &NamedLevels,
    verb: OnNameAt,
    name: &Name,
    index: u32,
) -> Result<Reply, Fault>
    requires { StandsIn region.now env.old }
    ensures does { DidWith env.old env.new (Some region.now) (Some region.now) (reading_by verb region.now.names.items (objects_of region.now.levels) name.now index) result }
    ensures stand { StandsIn region.now env.new }
{
    match verb {
        OnNameAt::GetInLevel => read(env, region, name, index),
        OnNameAt::Get => Err(Fault::InCritical),
    }
}

/// Stores a number at an index of a level whose elements are of a type.
fn write_as<S: Steps, E: Number>(
    env: &mut Env<S>,
    levels: &Levels,
    level: usize,
    index: u32,
    number: i64,
) -> Result<Reply, Fault>
    requires stand { StandOver levels.now env.old.held }
    requires level { level < length (objects_of levels.now) }
    ensures does { DidWithin env.old env.new levels.now levels.now (writing_as (level_object levels.now level) index number E.KIND) result }
    ensures stand { StandOver levels.now env.new.held }
{
    let element = E::from_number(number)?;
    levels_beside::set(env, levels, level, index, element)?;
    Ok(Reply::Done)
}

/// Stores a number at an index of a level: E5 at a string, and then E18 where no element is that number.
fn write_at<S: Steps>(
    env: &mut Env<S>,
    levels: &Levels,
    level: usize,
    index: u32,
    number: i64,
) -> Result<Reply, Fault>
    requires stand { StandOver levels.now env.old.held }
    requires level { level < length (objects_of levels.now) }
    ensures does { DidWithin env.old env.new levels.now levels.now (level_writing (level_object levels.now level) index number) result }
    ensures stand { StandOver levels.now env.new.held }
{
    match NumberKind::of(levels.kind(level))? {
        NumberKind::Boolean => write_as::<S, bool>(env, levels, level, index, number),
        NumberKind::Byte => write_as::<S, i8>(env, levels, level, index, number),
        NumberKind::Char => write_as::<S, u16>(env, levels, level, index, number),
        NumberKind::Short => write_as::<S, i16>(env, levels, level, index, number),
        NumberKind::Int => write_as::<S, i32>(env, levels, level, index, number),
        NumberKind::Long => write_as::<S, i64>(env, levels, level, index, number),
    }
}

/// Stores a number at an index of the level that a name means.
fn write<S: Steps>(
    env: &mut Env<S>,
    region: &NamedLevels,
    name: &Name,
    index: u32,
    number: i64,
) -> Result<Reply, Fault>
    requires { StandsIn region.now env.old }
    ensures does { DidWith env.old env.new (Some region.now) (Some region.now) (writing_at region.now.names.items (objects_of region.now.levels) name.now index number) result }
    ensures stand { StandsIn region.now env.new }
{
    let level = region.level(name)?;
    write_at(env, &region.levels, level, index, number)
}

/// Stores a number at an index of the level that a name means, where that is what the verb asks for: E19 where it asks for another.
pub(crate) fn write_by<S: Steps>(
    env: &mut Env<S>,
    region: &NamedLevels,
    verb: PutAt,
    name: &Name,
    index: u32,
    number: i64,
) -> Result<Reply, Fault>
    requires { StandsIn region.now env.old }
    ensures does { DidWith env.old env.new (Some region.now) (Some region.now) (writing_by verb region.now.names.items (objects_of region.now.levels) name.now index number) result }
    ensures other { verb ≡ put_verbs.Put → result ≡ Err InCritical }
    ensures stand { StandsIn region.now env.new }
{
    match verb {
        PutAt::PutInLevel => write(env, region, name, index, number),
        PutAt::Put => Err(Fault::InCritical),
    }
}

/// Gives up the last level of a region: none is left of its first one.
pub(crate) fn close<S: Steps>(
    env: &mut Env<S>,
    region: NamedLevels,
    mode: Mode,
) -> Option<NamedLevels>
    requires { StandsIn region env.old }
    ensures does { DidWith env.old env.new (Some region) result (giving_up (length (objects_of region.levels))) (Ok tt) }
    ensures stand { StandsWith result env.new }
    ensures names { level_names result ≡ all_but_last region.names.items }
    ensures objects { objects_in result ≡ all_but_last (objects_of region.levels) }
{
    let NamedLevels { levels, mut names } = region;
    names.pop();
    let levels = levels_beside::close(env, levels, mode)?;
    Some(NamedLevels { levels, names })
}

/// Gives up all levels of a region, if one stands.
pub(crate) fn end<S: Steps>(env: &mut Env<S>, region: Option<NamedLevels>)
    requires { StandsWith region env.old }
    ensures does { DidWith env.old env.new region None (giving_up_all (objects_in region)) (Ok tt) }
    ensures outside { IsOutside env.new }
{
    if let Some(NamedLevels { levels, names: _ }) = region {
        levels_beside::close_all(env, levels);
    }
}
