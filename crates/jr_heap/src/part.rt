//! Parts of arrays, over any steps.
ghost use Rattle.std.specs.Prelude.{◌≡◌, ◌+◌, ◌≤◌, true, length, map, Ok};
ghost use Rattle.jr_model.specs.declared.event.Role.TheVariants.{Within};
ghost use Rattle.jr_model.specs.Parts.{read as reading, write as writing};
ghost use Rattle.jr_model.specs.Checks.{is_read_as, same_element};
ghost use Rattle.jr_steps.specs.Knowing.{MayKnow};
ghost use Rattle.jr_heap.specs.Heap.{Called, HoldsHeader, LeavesObject, by_steps};

use jr_steps::Steps;
use jr_word::{Elem, HeaderParts};

/// Reads elements of an array whose header was read in this stay, from an index on: as many as the slice has room for, one after the other, rising. They have to lie in the array.
/// The units of a string are read as chars.
///
/// # Operations
///
/// A load for each element.
#[inline(always)]
pub fn read_part<S: Steps, E: Elem>(
    steps: &mut S,
    object: u16,
    header: HeaderParts,
    start: u32,
    elements: &mut [E],
)
    requires role { (S.facts steps.old).stands.role ≡ Within }
    requires known { MayKnow S.facts steps.old (HoldsHeader object header) }
    requires kind { is_read_as E.KIND header.kind ≡ true }
    requires part { start + length elements.old ≤ header.length }
    ensures stands { (S.facts steps.new).stands ≡ (S.facts steps.old).stands }
    ensures size { length elements.new ≡ length elements.old }
    ensures call { Called S.facts steps.old steps.new (HoldsHeader object header) (λ j k. reading object start (length elements.old)) (Ok (map E.word_of elements.new))
        (by_steps (length elements.old) (LeavesObject object header)) }
    ensures known { MayKnow S.facts steps.new (HoldsHeader object header) }
{
    steps.see_part(object, header, start, elements);
}

/// Writes elements of an array whose header was read in this stay, from an index on, one after the other, rising. They have to lie in the array.
///
/// # Operations
///
/// A store for each element.
pub fn write_part<S: Steps, E: Elem>(
    steps: &mut S,
    object: u16,
    header: HeaderParts,
    start: u32,
    elements: &[E],
)
    requires role { (S.facts steps.old).stands.role ≡ Within }
    requires known { MayKnow S.facts steps.old (HoldsHeader object header) }
    requires kind { same_element E.KIND header.kind ≡ true }
    requires part { start + length elements.now ≤ header.length }
    ensures stands { (S.facts steps.new).stands ≡ (S.facts steps.old).stands }
    ensures call { Called S.facts steps.old steps.new (HoldsHeader object header) (λ j k. writing object start (map E.word_of elements.now)) (Ok tt)
        (by_steps (length elements.now) (LeavesObject object header)) }
    ensures known { MayKnow S.facts steps.new (HoldsHeader object header) }
{
    let mut index = start;
    for element in elements {
        steps.put_element(object, header, index, element.to_word());
        index += 1;
    }
}
