//! Objects: their numbers and headers, over any steps.
ghost use Rattle.std.specs.Prelude.{◌≡◌, ◌<◌, ◌≤◌, IfOk, Ok};
ghost use Rattle.jr_word.specs.declared.config.TheConstants.Config.{MOST_OBJECTS};
ghost use Rattle.jr_word.specs.declared.kind.Kind.TheVariants.{Plain};
ghost use Rattle.jr_model.specs.declared.event.Role.TheVariants.{Within};
ghost use Rattle.jr_model.specs.Parts.{publish as publication, header as header_call};
ghost use Rattle.jr_steps.specs.Knowing.{state_of, HasObject, MayKnow};
ghost use Rattle.jr_heap.specs.Heap.{Called, header_of, number_at_turn, own_words, IsReady, Publishes, HoldsHeader, Learns, by_between, by_steps, publish_steps};
ghost use Rattle.jr_heap.specs.Ranges.{place_of, size_of};

use crate::range::Range;
use jr_steps::Steps;
use jr_word::{Fault, HeaderParts, Kind};

/// Where a pass begins to look for an object number. It is the pass's own business: which number an object has says nothing.
#[derive(Debug, PartialEq, Eq, Drop)]
pub struct Numbers {
    next: u32,
    ghost fits: { next ≤ MOST_OBJECTS },
}

impl Numbers {
    /// At the first number.
    pub fn new() -> Self {
        Numbers { next: 0 }
    }

    /// How many of so many numbers stand before the one at which a look begins.
    fn first(&self, objects: u32) -> u32
        ensures { 1 ≤ objects → result < objects }
    {
        if self.next < objects { self.next } else { 0 }
    }
}

/// The number of the turn of a look that began behind so many, and goes round once.
fn number(first: u32, turn: u32, objects: u32) -> u16
    requires first { first < objects }
    requires turn { turn < objects }
    requires few { objects ≤ MOST_OBJECTS }
    ensures number { result ≡ number_at_turn first turn objects }
    ensures range { (1 ≤ result) × (result ≤ objects) }
{
    let next = first + turn;
    if next < objects {
        return (next + 1) as u16;
    }
    (next - objects + 1) as u16
}

/// A new object, whose elements are the words of a range of the pass's own, which it gives away; its header holds until the pass leaves. The words have to be of the kind. A plain object has none.
///
/// # Errors
///
/// E11 where every number was present at one moment of the call.
///
/// The words of the range stay reserved until the next collection.
///
/// # Operations
///
/// An exchange for each number that it comes to, at least one, and each at the most once. Where it is refused, one for each object number of the room.
pub fn publish<S: Steps>(
    steps: &mut S,
    numbers: &mut Numbers,
    kind: Kind,
    range: Range,
) -> Result<u16, Fault>
    requires role { (S.facts steps.old).stands.role ≡ Within }
    requires plain { kind ≡ Plain → size_of range ≡ 0 }
    requires ready { MayKnow S.facts steps.old (IsReady kind (place_of range) (size_of range)) }
    ensures stands { (S.facts steps.new).stands ≡ (S.facts steps.old).stands }
    ensures call { Called S.facts steps.old steps.new (IsReady kind (place_of range) (size_of range)) (λ j k. publication kind (own_words (place_of range) (size_of range) j)) result
        (by_between (publish_steps (S.facts steps.old).stands.config.objects result) (S.facts steps.old).stands.config.objects (Publishes kind (place_of range) (size_of range) result)) }
    ensures object { IfOk result (λ o. MayKnow S.facts steps.new (HasObject o)) }
    ensures known { IfOk result (λ o. MayKnow S.facts steps.new (HoldsHeader o (header_of kind (place_of range) (size_of range)))) }
{
    let header = range.header(kind);
    let objects = steps.config().objects;
    let first = numbers.first(objects);
    for turn in 0..objects {
        let number = number(first, turn, objects);
        if steps.claim_header(number, header) {
            numbers.next = u32::from(number);
            return Ok(number);
        }
    }
    Err(Fault::ObjectsFull)
}

/// The header of a present object. It holds until the pass leaves.
///
/// # Operations
///
/// One load.
#[inline(always)]
pub fn header<S: Steps>(steps: &mut S, object: u16) -> HeaderParts
    requires role { (S.facts steps.old).stands.role ≡ Within }
    requires object { MayKnow S.facts steps.old (HasObject object) }
    ensures stands { (S.facts steps.new).stands ≡ (S.facts steps.old).stands }
    ensures call { Called S.facts steps.old steps.new (HasObject object) (λ j k. header_call (state_of k) object) (Ok (result.kind, result.length)) (by_steps 1 (Learns object result)) }
    ensures known { MayKnow S.facts steps.new (HoldsHeader object result) }
{
    steps.see_header(object).unwrap()
}
