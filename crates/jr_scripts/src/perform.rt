//! The calls that a command makes.

ghost use Rattle.jr_syntax.specs.declared.command.Command.TheVariants as commands;
ghost use Rattle.jr_syntax.specs.declared.verb.OnBoth.TheVariants.{Same};
ghost use Rattle.jr_syntax.specs.declared.verb.SetAt.TheVariants.{Set};
ghost use Rattle.jr_scripts.specs.declared.reply.Reply.TheVariants as replies;
ghost use Rattle.jr_env.specs.Deeds.{answered_by, new_array};
ghost use Rattle.jr_env.specs.Collections.{FitsRoom};
ghost use Rattle.jr_env.specs.Envs.{WasDone, IsOutside};
ghost use Rattle.std.specs.Prelude.{◌≡◌, None, false};
ghost use Rattle.jr_weak.specs.Markers.{room_of};
ghost use Rattle.jr_scripts.specs.Advancing.{answer_without_call, is_opening, DidCommand};
ghost use Rattle.jr_scripts.specs.Text.{buffers_after};
ghost use Rattle.jr_scripts.specs.Commands.{deletion, type_of as type_deed, kind_made, made_of, makes_new, making_room, filling, referring_to, deed};

use crate::ask::{ask, in_turns};
use crate::board::Board;
use crate::commands::collections::{collect, collect_announced};
use crate::commands::copies::{copy, copy_units, get_by, put_by, release};
use crate::commands::elements::{load, store};
use crate::commands::posting::{post, wait};
use crate::ledger::Ledger;
use crate::names::Names;
use crate::reply::{IntoReply, Reply};
use jr_env::Env;
use jr_env::calls::{
    DeleteGlobalRef, DeleteLocalRef, DeleteWeakGlobalRef, GetArrayLength, GetObjectArrayElement,
    GetObjectRefType, GetStringLength, IsSameObject, NewArray, NewGlobalRef, NewLocalRef,
    NewObjectArray, NewPlain, NewString, NewWeakGlobalRef, PopLocalFrame, SetObjectArrayElement,
};
use jr_frames::Reference;
use jr_steps::Steps;
use jr_syntax::Command::{CloseLevel, OnNameAt, PutAt};
use jr_syntax::{Command, Make, MakeFrom, MakeSized, On, Reference as Target, WithCount};
use jr_weak::Marker;
use jr_word::{Fault, Handle, RefKind};
use std::alloc::Global;

/// Deletes a reference by the call of its kind.
fn delete<S: Steps>(env: &mut Env<S>, turns: u64, handle: Handle) -> Result<Reply, Fault>
    requires { IsOutside env.old }
    ensures { WasDone env.old env.new (answered_by (λ _. replies.Done) (deletion turns handle.0)) result }
{
    match Reference::of(handle) {
        Reference::Null => ask(env, turns, DeleteLocalRef(handle)),
        Reference::Malformed => Err(Fault::Stale),
        Reference::Parts(parts) => match parts.kind {
            RefKind::Local => ask(env, turns, DeleteLocalRef(handle)),
            RefKind::Global => ask(env, turns, DeleteGlobalRef(handle)),
            RefKind::Weak => ask(env, turns, DeleteWeakGlobalRef(handle)),
        },
    }
}

/// The type of a reference: 0 where there is none.
fn type_of<S: Steps>(env: &mut Env<S>, turns: u64, referent: Option<Handle>) -> Result<Reply, Fault>
    requires { IsOutside env.old }
    ensures { WasDone env.old env.new (answered_by (λ t. replies.Type t) (type_deed turns referent)) result }
{
    match referent {
        Some(handle) => ask(env, turns, GetObjectRefType(handle)),
        None => Ok(Reply::Type(0)),
    }
}

/// Makes the call of a command about so many local references.
fn with_count<S: Steps>(
    env: &mut Env<S>,
    turns: u64,
    verb: WithCount,
    count: u32,
) -> Result<Reply, Fault>
    requires { IsOutside env.old }
    ensures { WasDone env.old env.new (making_room turns verb count) result }
{
    match verb {
        WithCount::Push => {
            let pushed = in_turns(env, turns, |env| env.push_local_frame(count))?;
            Ok(pushed.into_reply())
        }
        WithCount::Ensure => {
            let ensured = in_turns(env, turns, |env| env.ensure_local_capacity(count))?;
            Ok(ensured.into_reply())
        }
    }
}

/// Makes an array of the kind of a verb, of so many elements, each zero.
fn make_sized<S: Steps>(
    env: &mut Env<S>,
    turns: u64,
    verb: MakeSized,
    length: u32,
) -> Result<Reply, Fault>
    requires { IsOutside env.old }
    ensures { WasDone env.old env.new (makes_new turns (new_array (kind_made verb) length)) result }
{
    match verb {
        MakeSized::Boolean => ask(env, turns, NewArray::<bool>::of(length)),
        MakeSized::Byte => ask(env, turns, NewArray::<i8>::of(length)),
        MakeSized::Char => ask(env, turns, NewArray::<u16>::of(length)),
        MakeSized::Short => ask(env, turns, NewArray::<i16>::of(length)),
        MakeSized::Int => ask(env, turns, NewArray::<i32>::of(length)),
        MakeSized::Long => ask(env, turns, NewArray::<i64>::of(length)),
    }
}

/// Makes an array of objects, each element what a reference names.
fn fill<S: Steps>(
    env: &mut Env<S>,
    names: &Names,
    turns: u64,
    length: u32,
    target: &Target,
) -> Result<Reply, Fault>
    requires { IsOutside env.old }
    ensures { WasDone env.old env.new (filling turns names.now length target.now) result }
{
    let initial = names.wanted(target)?;
    ask(env, turns, NewObjectArray(length, initial))
}

/// Makes a reference to an element of an array of objects.
fn get_at<S: Steps>(
    env: &mut Env<S>,
    names: &Names,
    turns: u64,
    target: &Target,
    index: u32,
) -> Result<Reply, Fault>
    requires { IsOutside env.old }
    ensures { WasDone env.old env.new (referring_to turns names.now target.now index) result }
{
    let array = names.wanted(target)?;
    ask(env, turns, GetObjectArrayElement(array, index))
}

/// Makes something of what a reference names.
fn make_of<S: Steps>(
    alloc: Global,
    env: &mut Env<S>,
    names: &Names,
    turns: u64,
    verb: MakeFrom,
    target: &Target,
) -> Result<Reply, Fault>
    requires { IsOutside env.old }
    ensures { WasDone env.old env.new (made_of turns names.now verb target.now) result }
{
    let handle = names.wanted(target)?;
    match verb {
        MakeFrom::Global => ask(env, turns, NewGlobalRef(handle)),
        MakeFrom::Weak => ask(env, turns, NewWeakGlobalRef(handle)),
        MakeFrom::Local => ask(env, turns, NewLocalRef(handle)),
        MakeFrom::Pop => ask(env, turns, PopLocalFrame(handle)),
        MakeFrom::Elements => copy(alloc, env, turns, handle),
    }
}

/// Makes the calls of a command on a reference.
fn on<S: Steps>(
    alloc: Global,
    env: &mut Env<S>,
    names: &Names,
    turns: u64,
    verb: On,
    target: &Target,
) -> Result<Reply, Fault>
    requires { IsOutside env.old }
    ensures { WasDone env.old env.new (deed turns names.now (commands.On verb target.now)) result }
{
    match verb {
        On::Drop => delete(env, turns, names.wanted(target)?),
        On::Type => type_of(env, turns, names.referent(target)?),
        On::Len => ask(env, turns, GetArrayLength(names.wanted(target)?)),
        On::TextLength => ask(env, turns, GetStringLength(names.wanted(target)?)),
        On::Chars => copy_units(alloc, env, turns, names.wanted(target)?),
    }
}

/// Sets an element of an object array.
fn set_at<S: Steps>(
    env: &mut Env<S>,
    names: &Names,
    turns: u64,
    target: &Target,
    index: u32,
    value: &Target,
) -> Result<Reply, Fault>
    requires { IsOutside env.old }
    ensures { WasDone env.old env.new (deed turns names.now (commands.SetAt Set target.now index value.now)) result }
{
    let array = names.wanted(target)?;
    let value = names.wanted(value)?;
    ask(env, turns, SetObjectArrayElement(array, index, value))
}

/// Whether two references are to one object.
fn same<S: Steps>(
    env: &mut Env<S>,
    names: &Names,
    turns: u64,
    left: &Target,
    right: &Target,
) -> Result<Reply, Fault>
    requires { IsOutside env.old }
    ensures { WasDone env.old env.new (deed turns names.now (commands.OnBoth Same left.now right.now)) result }
{
    let left = names.wanted(left)?;
    let right = names.wanted(right)?;
    ask(env, turns, IsSameObject(left, right))
}

/// What a command does, where no region stands, that makes no call: one about an element of what a name stands for. E19 for any other.
fn without_call(names: &mut Names, command: &Command) -> Result<Reply, Fault>
    ensures answer { result ≡ answer_without_call names.old command.now }
    ensures names { names.new ≡ buffers_after command.now result names.old }
{
    match command {
        Command::OnNameAt { verb, name, index } => get_by(names, *verb, name, *index),
        Command::PutAt {
            verb,
            name,
            index,
            value,
        } => put_by(names, *verb, name, *index, *value),
        _ => Err(Fault::InCritical),
    }
}

/// What a command that opens no region does where none stands: it makes its calls, or hands over a word.
pub(crate) fn perform<S: Steps, B: Board<S>>(
    env: &mut Env<S>,
    ledger: &mut Ledger,
    marker: &mut Marker,
    board: &mut B,
    turns: u64,
    command: &Command,
) -> Result<Reply, Fault>
    requires outside { IsOutside env.old }
    requires opens_none { is_opening command.now ≡ false }
    requires room { FitsRoom marker.old env.old }
    requires there { (B.tells board.old).serves (S.facts env.old.held.steps).stands.room }
    requires follows { B.follows board.old ledger.old.words.items }
    ensures did { DidCommand B.layout B.tells B.looked B.follows turns command.now ledger.old.words.items
        env.old env.new ledger.old.names ledger.new.names None None board.old board.new result }
    ensures words { ledger.new.words.items ≡ ledger.old.words.items }
    ensures room { room_of marker.new ≡ room_of marker.old }
{
    let alloc = ledger.alloc;
    let names = &mut ledger.names;
    match command {
        Command::Make { verb, name } => match verb {
            Make::Plain => ask(env, turns, NewPlain),
            Make::Wait => wait(board, env, ledger.words.as_slice(), name, turns),
        },
        Command::MakeFrom { verb, target, .. } => make_of(alloc, env, names, turns, *verb, target),
        Command::On { verb, target } => on(alloc, env, names, turns, *verb, target),
        Command::OnBoth { left, right, .. } => same(env, names, turns, left, right),
        Command::OnName { name, .. } => post(board, env, name, names.word(name)),
        Command::WithCount { verb, count } => with_count(env, turns, *verb, *count),
        Command::MakeSized { verb, length, .. } => make_sized(env, turns, *verb, *length),
        Command::MakeText { units, .. } => ask(env, turns, NewString(units.as_slice())),
        Command::MakeFilled { length, target, .. } => fill(env, names, turns, *length, target),
        Command::MakeAt { target, index, .. } => get_at(env, names, turns, target, *index),
        Command::OnAt { target, index, .. } => load(env, turns, names.wanted(target)?, *index),
        Command::SetAt {
            target,
            index,
            value,
            ..
        } => set_at(env, names, turns, target, *index, value),
        Command::StoreAt {
            target,
            index,
            value,
            ..
        } => store(env, turns, names.wanted(target)?, *index, *value),
        Command::Release {
            name,
            target,
            mode,
            ..
        } => release(env, names, turns, name, target, *mode),
        Command::OpenLevel { .. } => unreachable!(),
        Command::OfRoom { .. } => collect(env, marker),
        Command::WithTries { tries, .. } => collect_announced(env, marker, turns, *tries),
        OnNameAt { .. } | PutAt { .. } | CloseLevel { .. } => without_call(names, command),
    }
}
