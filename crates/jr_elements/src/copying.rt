//! All elements of an object, over any steps.

ghost use Rattle.std.specs.Prelude.{◌≡◌, true, length, map, IfOk, IsOk, Ok};
ghost use Rattle.jr_model.specs.declared.event.Role.TheVariants.{Within};
ghost use Rattle.jr_model.specs.Calls.{unless_memory_for};
ghost use Rattle.jr_model.specs.Checks.{is_read_as, same_element};
ghost use Rattle.jr_model.specs.Parts.{read as reading, write as writing};
ghost use Rattle.jr_steps.specs.Knowing.{MayKnow};
ghost use Rattle.jr_heap.specs.Heap.{Called, HoldsHeader, LeavesObject, by_steps};
ghost use Rattle.jr_elements.specs.Copies.{answer_in, copy_steps};

use crate::elements::Elements;
use jr_heap::{read_part, write_part};
use jr_steps::Steps;
use jr_word::{Elem, Fault, HeaderParts};
use std::alloc::{AllocError, Global};

/// So many elements, each the one whose word is 0, in memory for no more. For none no memory is taken.
fn zeros<E: Elem>(alloc: Global, count: u32) -> Result<Vec<E>, AllocError>
    ensures size { IfOk result (λ items. length items.items ≡ count) }
    ensures none { count ≡ 0 → IsOk result }
{
    let mut items = Vec::with_capacity(alloc, count as usize)?;
    for _ in 0..count {
        items.push_reserved(E::of_word(0));
    }
    Ok(items)
}

/// Copies all elements of an object whose header was read in this stay, one after the other, rising. The units of a string are read as chars.
/// Memory for all of them is taken first, and none for no elements.
///
/// # Errors
///
/// E16 where that memory was refused.
///
/// No element is read then.
///
/// # Operations
///
/// A load for each element, and none where it is refused.
pub fn read_all<S: Steps, E: Elem>(
    alloc: Global,
    steps: &mut S,
    object: u16,
    header: HeaderParts,
) -> Result<Vec<E>, Fault>
    requires role { (S.facts steps.old).stands.role ≡ Within }
    requires known { MayKnow S.facts steps.old (HoldsHeader object header) }
    requires kind { is_read_as E.KIND header.kind ≡ true }
    ensures stands { (S.facts steps.new).stands ≡ (S.facts steps.old).stands }
    ensures size { IfOk result (λ items. length items.items ≡ header.length) }
    ensures none { header.length ≡ 0 → IsOk result }
    ensures call { Called S.facts steps.old steps.new (HoldsHeader object header) (λ j k. unless_memory_for header.length (reading object 0 header.length))
        (answer_in (λ items. map E.word_of items.items) result) (by_steps (copy_steps header.length result) (LeavesObject object header)) }
    ensures known { MayKnow S.facts steps.new (HoldsHeader object header) }
{
    let Ok(mut items) = zeros(alloc, header.length) else {
        return Err(Fault::Memory);
    };
    read_part(steps, object, header, 0, items.as_mut_slice());
    Ok(items)
}

/// Writes elements to the whole array that they are a copy of, whose header was read in this stay, one after the other, rising. They have to be as many.
///
/// # Operations
///
/// A store for each element.
pub fn put_back<S: Steps, E: Elem>(
    steps: &mut S,
    object: u16,
    header: HeaderParts,
    elements: &Elements<E>,
)
    requires role { (S.facts steps.old).stands.role ≡ Within }
    requires known { MayKnow S.facts steps.old (HoldsHeader object header) }
    requires kind { same_element E.KIND header.kind ≡ true }
    requires size { length elements.now ≡ header.length }
    ensures stands { (S.facts steps.new).stands ≡ (S.facts steps.old).stands }
    ensures call { Called S.facts steps.old steps.new (HoldsHeader object header) (λ j k. writing object 0 (map E.word_of elements.now)) (Ok tt)
        (by_steps (length elements.now) (LeavesObject object header)) }
    ensures known { MayKnow S.facts steps.new (HoldsHeader object header) }
{
    write_part(steps, object, header, 0, elements.as_slice());
}
