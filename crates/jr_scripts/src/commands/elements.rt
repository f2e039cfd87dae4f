//! Commands about one element, which make two calls: for the kind of the array, and for the element.

ghost use Rattle.std.specs.Prelude.{◌≡◌, ◌∷◌, [], length};
ghost use Rattle.jr_env.specs.Deeds.{answered_by, set_array_region};
ghost use Rattle.jr_env.specs.Envs.{Does, WasDone, IsOutside};
ghost use Rattle.jr_scripts.specs.declared.reply.Reply.TheVariants as replies;
ghost use Rattle.jr_scripts.specs.Commands.{ReadsNumber, loading, loading_as, loading_once, storing, tried};
ghost use Rattle.jr_scripts.specs.Numbers.{kind_numbered, kind_of_element, word_of_element};

use crate::ask::{ask, in_turns, retry};
use crate::number::{Element, Number, NumberKind};
use crate::reply::Reply;
use jr_env::calls::{KindOf, SetArrayRegion};
use jr_env::{Env, NativeInterface};
use jr_steps::Steps;
use jr_word::{Fault, Handle};

/// The number at an index of an array: E5 and E6 where its elements are no numbers.
pub(crate) fn load<S: Steps>(
    env: &mut Env<S>,
    turns: u64,
    array: Handle,
    index: u32,
) -> Result<Reply, Fault>
    requires { IsOutside env.old }
    ensures { WasDone env.old env.new (loading turns array.0 index) result }
{
    let kind = retry(env, turns, KindOf(array))?;
    let numbered = NumberKind::of(kind)?;
    let at = ElementAt {
        kind: numbered,
        array,
        index,
    };
    load_as(env, turns, at)
}

/// An index of an array of a kind.
#[derive(Clone, Copy)]
struct ElementAt {
    /// The kind.
    kind: NumberKind,
    /// The array.
    array: Handle,
    /// The index.
    index: u32,
}

/// The number at an index of an array of a kind.
fn load_as<S: Steps>(env: &mut Env<S>, turns: u64, at: ElementAt) -> Result<Reply, Fault>
    requires { IsOutside env.old }
    ensures { WasDone env.old env.new (loading_as turns at.array.0 at.index (kind_numbered at.kind)) result }
{
    in_turns(env, turns, |env| load_once(env, at))
}

/// The number at an index of an array of a kind, by a call.
fn load_once<S: Steps>(env: &mut Env<S>, at: ElementAt) -> Result<Reply, Fault>
    ensures { ReadsNumber at env.old env.new result }
{
    match at.kind {
        NumberKind::Boolean => read_number(env, at.array, at.index, &mut [false]),
        NumberKind::Byte => read_number(env, at.array, at.index, &mut [0_i8]),
        NumberKind::Char => read_number(env, at.array, at.index, &mut [0_u16]),
        NumberKind::Short => read_number(env, at.array, at.index, &mut [0_i16]),
        NumberKind::Int => read_number(env, at.array, at.index, &mut [0_i32]),
        NumberKind::Long => read_number(env, at.array, at.index, &mut [0_i64]),
    }
}

/// The number at an index of an array of this type, by a buffer of one element.
fn read_number<S: Steps, E: Number>(
    env: &mut Env<S>,
    array: Handle,
    index: u32,
    elements: &mut [E],
) -> Result<Reply, Fault>
    requires { length elements.old ≡ 1 }
    ensures { Does env.old env.new (loading_once array.0 index E.KIND) result }
{
    env.get_array_region(array, index, &mut *elements)?;
    Ok(Reply::Value(elements[0].to_number()))
}

/// Stores a number at an index of an array: E5 and E6 where its elements are no numbers, and then E18 where none is that number.
pub(crate) fn store<S: Steps>(
    env: &mut Env<S>,
    turns: u64,
    array: Handle,
    index: u32,
    number: i64,
) -> Result<Reply, Fault>
    requires { IsOutside env.old }
    ensures { WasDone env.old env.new (storing turns array.0 index number) result }
{
    let kind = retry(env, turns, KindOf(array))?;
    let numbered = NumberKind::of(kind)?;
    let element = Element::of(numbered, number)?;
    store_as(env, turns, array, index, element)
}

/// Stores an element at an index of an array of its kind.
fn store_as<S: Steps>(
    env: &mut Env<S>,
    turns: u64,
    array: Handle,
    index: u32,
    element: Element,
) -> Result<Reply, Fault>
    requires { IsOutside env.old }
    ensures { WasDone env.old env.new (answered_by (λ _. replies.Done) (tried turns (set_array_region (kind_of_element element) array.0 index (word_of_element element ∷ [])))) result }
{
    match element {
        Element::Boolean(element) => ask(env, turns, SetArrayRegion(array, index, &[element])),
        Element::Byte(element) => ask(env, turns, SetArrayRegion(array, index, &[element])),
        Element::Char(element) => ask(env, turns, SetArrayRegion(array, index, &[element])),
        Element::Short(element) => ask(env, turns, SetArrayRegion(array, index, &[element])),
        Element::Int(element) => ask(env, turns, SetArrayRegion(array, index, &[element])),
        Element::Long(element) => ask(env, turns, SetArrayRegion(array, index, &[element])),
    }
}
