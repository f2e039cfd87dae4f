//! Elements of objects, over any steps.
ghost use Rattle.std.specs.Prelude.{◌≡◌, ◌+◌, ◌||◌, true, IfOk};
ghost use Rattle.jr_model.specs.declared.event.Role.TheVariants.{Within};
ghost use Rattle.jr_model.specs.Parts.{read_element as reading, write_element as writing};
ghost use Rattle.jr_model.specs.Checks.{is_plain as is_plain_of, is_text as is_text_of, is_value as is_value_of};
ghost use Rattle.jr_steps.specs.Knowing.{state_of, HasObject, MayKnow};
ghost use Rattle.jr_heap.specs.Heap.{
  Called,
  HoldsHeader,
  LeavesObject,
  Relearns,
  MayBeNamed,
  MayBeNamedIn,
  ReadsOfKind,
  ShowsElementOf,
  by_steps,
  element_steps,
};

use crate::kinds::is_plain;
use crate::object::header;
use jr_steps::Steps;
use jr_word::{Fault, HeaderParts, Kind};

/// The element at an index of a present object. It is a word of the object's kind.
///
/// # Errors
///
/// E5 of a plain object; E7 where the index is not below the length.
///
/// Nothing has changed then.
///
/// # Operations
///
/// Two loads, the header and the element. One where it is refused.
pub fn read<S: Steps>(steps: &mut S, object: u16, index: u32) -> Result<u64, Fault>
    requires role { (S.facts steps.old).stands.role ≡ Within }
    requires object { MayKnow S.facts steps.old (HasObject object) }
    ensures stands { (S.facts steps.new).stands ≡ (S.facts steps.old).stands }
    ensures call { Called S.facts steps.old steps.new (HasObject object) (λ j k. reading (state_of k) object index) result (by_steps (1 + element_steps result) (λ j k. Relearns object j k
        × ShowsElementOf object result k)) }
    ensures object { MayKnow S.facts steps.new (HasObject object) }
{
    let header = header(steps, object);
    read_element(steps, object, header, index)
}

/// The element at an index of an object whose header was read in this stay. It is a word of the object's kind.
///
/// # Errors
///
/// E5 of a plain object; E7 where the index is not below the length.
///
/// Nothing has changed then.
///
/// # Operations
///
/// One load, and none where it is refused.
pub fn read_element<S: Steps>(
    steps: &mut S,
    object: u16,
    header: HeaderParts,
    index: u32,
) -> Result<u64, Fault>
    requires role { (S.facts steps.old).stands.role ≡ Within }
    requires known { MayKnow S.facts steps.old (HoldsHeader object header) }
    ensures stands { (S.facts steps.new).stands ≡ (S.facts steps.old).stands }
    ensures call { Called S.facts steps.old steps.new (HoldsHeader object header) (λ j k. reading (state_of k) object index) result
        (by_steps (element_steps result) (λ j k. LeavesObject object header j k × ReadsOfKind header.kind result k)) }
    ensures value { IfOk result (λ v. is_value_of header.kind v ≡ true) }
    ensures known { MayKnow S.facts steps.new (HoldsHeader object header) }
{
    if is_plain(header.kind) {
        return Err(Fault::NotArray);
    }
    if index >= header.length {
        return Err(Fault::Range);
    }
    Ok(steps.see_element(object, header, index))
}

/// Writes the element at an index of a present object. A word of an object array has to be 0 or a present object's number.
///
/// # Errors
///
/// E5 of a plain object or a string; E7 where the index is not below the length; E18 where the word is not of the object's kind.
///
/// Nothing is written then.
///
/// # Operations
///
/// Two, the load of the header and the store. One where it is refused.
pub fn write<S: Steps>(steps: &mut S, object: u16, index: u32, word: u64) -> Result<(), Fault>
    requires role { (S.facts steps.old).stands.role ≡ Within }
    requires object { MayKnow S.facts steps.old (λ k. HasObject object k × MayBeNamedIn object word k) }
    ensures stands { (S.facts steps.new).stands ≡ (S.facts steps.old).stands }
    ensures call { Called S.facts steps.old steps.new (λ k. HasObject object k
        × MayBeNamedIn object word k) (λ j k. writing (state_of k) object index word) result (by_steps (1 + element_steps result) (Relearns object)) }
    ensures object { MayKnow S.facts steps.new (HasObject object) }
{
    let header = header(steps, object);
    write_element(steps, object, header, index, word)
}

/// Writes the element at an index of an object whose header was read in this stay. A word of an object array has to be 0 or a present object's number.
///
/// # Errors
///
/// E5 of a plain object or a string; E7 where the index is not below the length; E18 where the word is not of the object's kind.
///
/// Nothing is written then.
///
/// # Operations
///
/// One store, and none where it is refused.
pub fn write_element<S: Steps>(
    steps: &mut S,
    object: u16,
    header: HeaderParts,
    index: u32,
    word: u64,
) -> Result<(), Fault>
    requires role { (S.facts steps.old).stands.role ≡ Within }
    requires known { MayKnow S.facts steps.old (λ k. HoldsHeader object header k × MayBeNamed header.kind word k) }
    ensures stands { (S.facts steps.new).stands ≡ (S.facts steps.old).stands }
    ensures call { Called S.facts steps.old steps.new (λ k. HoldsHeader object header k
        × MayBeNamed header.kind word k) (λ j k. writing (state_of k) object index word) result (by_steps (element_steps result) (LeavesObject object header)) }
    ensures known { MayKnow S.facts steps.new (HoldsHeader object header) }
{
    if is_constant(header.kind) {
        return Err(Fault::NotArray);
    }
    if header.length <= index {
        return Err(Fault::Range);
    }
    if !is_value(header.kind, word) {
        return Err(Fault::Value);
    }
    steps.put_element(object, header, index, word);
    Ok(())
}

/// Whether no element of an object of the kind is ever written: it has none, or it is a string.
fn is_constant(kind: Kind) -> bool
    ensures { result ≡ (is_plain_of kind || is_text_of kind) }
{
    matches!(kind, Kind::Plain | Kind::Text)
}

/// Whether a word may be an element of the kind, but for the object that it names.
fn is_value(kind: Kind, word: u64) -> bool
    ensures { result ≡ is_value_of kind word }
{
    match kind {
        Kind::Plain => false,
        Kind::Boolean => word < 2,
        Kind::Byte => word < 0x100,
        Kind::Char | Kind::Short | Kind::Text => word < 0x1_0000,
        Kind::Int => word < 0x1_0000_0000,
        Kind::Long | Kind::Objects => true,
    }
}
