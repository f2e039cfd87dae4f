//! Commands about copied elements.

ghost use Rattle.std.specs.Prelude.{◌≡◌, map};
ghost use Rattle.jr_elements.specs.Copies.{answer_in};
ghost use Rattle.jr_env.specs.Deeds.{answered_by, get_array_elements, get_string_chars, release_array_elements};
ghost use Rattle.jr_env.specs.Envs.{WasDone, IsOutside};
ghost use Rattle.jr_syntax.specs.declared.command.Command.TheVariants as commands;
ghost use Rattle.jr_syntax.specs.declared.verb.Release.TheVariants as release_verbs;
ghost use Rattle.jr_scripts.specs.declared.reply.Reply.TheVariants as replies;
ghost use Rattle.jr_scripts.specs.declared.binding.Binding.TheVariants.{Buffer as Holds};
ghost use Rattle.jr_scripts.specs.Names.{getting, names_put, putting, binding as binding_at, binding_left};
ghost use Rattle.jr_scripts.specs.Commands.{copying, copying_as, deed, tried};
ghost use Rattle.jr_scripts.specs.Buffers.{copied_in};
ghost use Rattle.jr_scripts.specs.Numbers.{kind_numbered};
ghost use Rattle.jr_scripts.specs.Text.{buffers_after, elements_left, left_by};
ghost use Rattle.jr_scripts.specs.Advancing.{got_by, put_by as put_by_verb};

use crate::ask::{ask, no_more, patience_for, retry};
use crate::binding::Binding;
use crate::buffer::{Buffer, CopiedElements};
use crate::names::Names;
use crate::number::NumberKind;
use crate::reply::Reply;
use jr_elements::Elements;
use jr_env::Env;
use jr_env::calls::{GetArrayElements, GetStringChars, KindOf};
use jr_model::Mode;
use jr_steps::Steps;
use jr_syntax::{Name, OnNameAt, PutAt, Reference as Target};
use jr_word::{Elem, Fault, Handle};
use std::alloc::Global;

/// Copies the elements of an array: E5 and E6 where they are no numbers.
pub(crate) fn copy<S: Steps>(
    alloc: Global,
    env: &mut Env<S>,
    turns: u64,
    array: Handle,
) -> Result<Reply, Fault>
    requires { IsOutside env.old }
    ensures { WasDone env.old env.new (copying turns array.0) result }
{
    let kind = retry(env, turns, KindOf(array))?;
    let numbered = NumberKind::of(kind)?;
    copy_as(alloc, env, turns, numbered, array)
}

/// Copies the elements of an array of a kind.
fn copy_as<S: Steps>(
    alloc: Global,
    env: &mut Env<S>,
    turns: u64,
    kind: NumberKind,
    array: Handle,
) -> Result<Reply, Fault>
    requires { IsOutside env.old }
    ensures { WasDone env.old env.new (copying_as turns array.0 (kind_numbered kind)) result }
{
    match kind {
        NumberKind::Boolean => {
            copied(copy_elements(alloc, env, turns, array).map(CopiedElements::Boolean))
        }
        NumberKind::Byte => {
            copied(copy_elements(alloc, env, turns, array).map(CopiedElements::Byte))
        }
        NumberKind::Char => {
            copied(copy_elements(alloc, env, turns, array).map(CopiedElements::Char))
        }
        NumberKind::Short => {
            copied(copy_elements(alloc, env, turns, array).map(CopiedElements::Short))
        }
        NumberKind::Int => {
            copied(copy_elements(alloc, env, turns, array).map(CopiedElements::Int))
        }
        NumberKind::Long => {
            copied(copy_elements(alloc, env, turns, array).map(CopiedElements::Long))
        }
    }
}

/// The reply of copied elements.
fn copied(answer: Result<CopiedElements, Fault>) -> Result<Reply, Fault>
    ensures { result ≡ answer_in (λ x. replies.Copied (copied_in x)) answer }
{
    match answer {
        Ok(elements) => Ok(Reply::Copied(Buffer { elements })),
        Err(fault) => Err(fault),
    }
}

/// Copies the elements of an array of this type.
fn copy_elements<S: Steps, E: Elem>(
    alloc: Global,
    env: &mut Env<S>,
    turns: u64,
    array: Handle,
) -> Result<Elements<E>, Fault>
    requires { IsOutside env.old }
    ensures { WasDone env.old env.new (tried turns (get_array_elements E.KIND array.0)) (answer_in (map E.word_of) result) }
{
    retry(env, turns, GetArrayElements::<E>::of(alloc, array))
}

/// Copies the units of a string.
pub(crate) fn copy_units<S: Steps>(
    alloc: Global,
    env: &mut Env<S>,
    turns: u64,
    string: Handle,
) -> Result<Reply, Fault>
    requires { IsOutside env.old }
    ensures { WasDone env.old env.new (answered_by (λ units. replies.Units units) (tried turns (get_string_chars string.0))) result }
{
    ask(env, turns, GetStringChars { alloc, string })
}

/// The number at an index of the buffer that a name stands for.
fn get(names: &Names, name: &Name, index: u32) -> Result<Reply, Fault>
    ensures { result ≡ answer_in (λ x. replies.Value x) (getting index (binding_at names.now name.now)) }
{
    Ok(Reply::Value(names.get(name, index)?))
}

/// The number at an index of the buffer that a name stands for, where that is what the verb asks for: E19 where it asks for a level's.
pub(crate) fn get_by(names: &Names, verb: OnNameAt, name: &Name, index: u32) -> Result<Reply, Fault>
    ensures { result ≡ got_by verb (answer_in (λ x. replies.Value x) (getting index (binding_at names.now name.now))) }
{
    match verb {
        OnNameAt::Get => get(names, name, index),
        OnNameAt::GetInLevel => Err(Fault::InCritical),
    }
}

/// Makes a number the element at an index of the buffer that a name stands for.
fn put(names: &mut Names, name: &Name, index: u32, number: i64) -> Result<Reply, Fault>
    ensures answer { result ≡ answer_in (λ _. replies.Done) (putting index number (binding_at names.old name.now)) }
    ensures names { names.new ≡ names_put names.old name.now (putting index number (binding_at names.old name.now)) }
{
    names.put(name, index, number)?;
    Ok(Reply::Done)
}

/// Makes a number the element at an index of the buffer that a name stands for, where that is what the verb asks for: E19 where it asks for a level's.
pub(crate) fn put_by(
    names: &mut Names,
    verb: PutAt,
    name: &Name,
    index: u32,
    number: i64,
) -> Result<Reply, Fault>
    ensures answer { result ≡ put_by_verb verb (answer_in (λ _. replies.Done) (putting index number (binding_at names.old name.now))) }
    ensures names { names.new ≡ buffers_after (commands.PutAt verb name.now index number) result names.old }
{
    match verb {
        PutAt::Put => put(names, name, index, number),
        PutAt::PutInLevel => Err(Fault::InCritical),
    }
}

/// What a release leaves, and its reply.
#[derive(Drop)]
struct Released {
    /// What the name stands for afterwards.
    left: Binding,
    /// The reply, or the refusal.
    answer: Result<Reply, Fault>,
}

/// Releases copied elements of one type, and again as long as the call is barred: E20 once it was made so many times. Those that are left come first.
fn release_elements<S: Steps, E: Elem>(
    env: &mut Env<S>,
    turns: u64,
    array: Handle,
    elements: Elements<E>,
    mode: Mode,
) -> (Option<Elements<E>>, Result<Reply, Fault>)
    requires { IsOutside env.old }
    ensures call { WasDone env.old env.new (answered_by (λ _. replies.Done) (tried turns (release_array_elements E.KIND array.0 (map E.word_of elements) mode))) result.1 }
    ensures left { result.0 ≡ elements_left mode result.1 elements }
{
    let patience = match patience_for(turns) {
        Ok(patience) => patience,
        Err(fault) => return (Some(elements), Err(fault)),
    };
    match env.retry_release(array, elements, mode, patience) {
        Ok(left) => (left, Ok(Reply::Done)),
        Err((elements, fault)) => (Some(elements), Err(no_more(fault))),
    }
}

/// A reply, and the copied elements that are left, if they are.
fn with_left(left: Option<CopiedElements>, answer: Result<Reply, Fault>) -> Released
    ensures answer { result.answer ≡ answer }
    ensures left { result.left ≡ binding_left left }
{
    let left = match left {
        Some(elements) => Binding::Buffer(Buffer { elements }),
        None => Binding::Nothing,
    };
    Released { left, answer }
}

/// Releases a buffer, by the call of its kind.
fn release_buffer<S: Steps>(
    env: &mut Env<S>,
    turns: u64,
    array: Handle,
    buffer: Buffer,
    mode: Mode,
) -> Released
    requires { IsOutside env.old }
    ensures call { WasDone env.old env.new (answered_by (λ _. replies.Done) (tried turns (release_array_elements buffer.kind array.0 buffer.words mode))) result.answer }
    ensures left { result.left ≡ left_by mode result.answer (Holds buffer) }
{
    match buffer.into_elements() {
        CopiedElements::Boolean(elements) => {
            let (left, answer) = release_elements(env, turns, array, elements, mode);
            with_left(left.map(CopiedElements::Boolean), answer)
        }
        CopiedElements::Byte(elements) => {
            let (left, answer) = release_elements(env, turns, array, elements, mode);
            with_left(left.map(CopiedElements::Byte), answer)
        }
        CopiedElements::Char(elements) => {
            let (left, answer) = release_elements(env, turns, array, elements, mode);
            with_left(left.map(CopiedElements::Char), answer)
        }
        CopiedElements::Short(elements) => {
            let (left, answer) = release_elements(env, turns, array, elements, mode);
            with_left(left.map(CopiedElements::Short), answer)
        }
        CopiedElements::Int(elements) => {
            let (left, answer) = release_elements(env, turns, array, elements, mode);
            with_left(left.map(CopiedElements::Int), answer)
        }
        CopiedElements::Long(elements) => {
            let (left, answer) = release_elements(env, turns, array, elements, mode);
            with_left(left.map(CopiedElements::Long), answer)
        }
    }
}

/// Releases the buffer that a name stands for. What is left of it is put back where it was taken out, which takes no memory.
pub(crate) fn release<S: Steps>(
    env: &mut Env<S>,
    names: &mut Names,
    turns: u64,
    name: &Name,
    target: &Target,
    mode: Mode,
) -> Result<Reply, Fault>
    requires { IsOutside env.old }
    ensures does { WasDone env.old env.new (deed turns names.old (commands.Release release_verbs.Elements name.now target.now mode)) result }
    ensures names { names.new ≡ buffers_after (commands.Release release_verbs.Elements name.now target.now mode) result names.old }
{
    names.buffer(name)?;
    let array = names.wanted(target)?;
    let Binding::Buffer(buffer) = names.take(name) else {
        unreachable!();
    };
    let released = release_buffer(env, turns, array, buffer, mode);
    let _ = names.set(name, released.left);
    released.answer
}
