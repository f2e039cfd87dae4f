//! All arrays move together, down to the first word.
ghost use Rattle.std.specs.Prelude.{◌≡◌, ◌≤◌, ◌+◌, ℕ, [], ◌∷◌, take, length};
ghost use Rattle.std.specs.List.Sorted.{IsNonDecreasingBy};
ghost use Rattle.jr_word.specs.Header.{IsHeader};
ghost use Rattle.jr_model.specs.declared.event.Act.TheVariants.{Settle};
ghost use Rattle.jr_model.specs.declared.event.Role.TheVariants.{Collecting};
ghost use Rattle.jr_steps.specs.Collecting.{placed, CanSettle};
ghost use Rattle.jr_steps.specs.Knowing.{MayKnow};
ghost use Rattle.jr_gate.specs.Acting.{ActedTo};
ghost use Rattle.jr_compact.specs.Compacting.{CanCompact, AreCompacted};
ghost use Rattle.jr_compact.specs.Counting.{SawWithin, TakesWithin};
ghost use Rattle.jr_compact.specs.Noting.{AreNoted, StandsAt};
ghost use Rattle.jr_compact.specs.Sliding.{CanSlide};

use crate::placed::PlacedObject;
use crate::sliding::slide;
use jr_steps::Steps;
use jr_word::HeaderParts;

/// Moves all arrays together: each, in the order in which they stand, to the end of the one before, the first to the first word, and sets how many words are used, which it answers.
/// `present` has each object that is present, once; `noted` is room for as many. Its one event is the last, and it takes no memory.
///
/// # Operations
///
/// A look at the header of each present object, at the most three for each word that is used then, and one at the top:
/// a load and a store for each element that moves, and a store for the header of each array that moves.
pub fn compact<S: Steps>(steps: &mut S, present: &[u16], noted: &mut [PlacedObject]) -> u32
    requires role { (S.facts steps.old).stands.role ≡ Collecting }
    requires room { length present.now ≤ length noted.old }
    requires can { MayKnow S.facts steps.old (CanCompact present.now) }
    ensures size { length noted.new ≡ length noted.old }
    ensures acts { ActedTo S.facts steps.old steps.new (Settle result ∷ []) (CanCompact present.now) (λ j k. AreCompacted result j k
        × TakesWithin (length present.now + (result + result + result) + 1) j k) }
{
    let count = note(steps, present, noted);
    let entries = &mut noted[..count];
    entries.sort_unstable_by_key(|entry| entry.header.place);
    let used = bring_together(steps, entries);
    steps.set_top(used);
    used
}

/// Notes each object of the list that has elements, with its header, and tells how many they are.
fn note<S: Steps>(steps: &mut S, present: &[u16], noted: &mut [PlacedObject]) -> usize
    requires role { (S.facts steps.old).stands.role ≡ Collecting }
    requires room { length present.now ≤ length noted.old }
    requires can { MayKnow S.facts steps.old (CanCompact present.now) }
    ensures size { length noted.new ≡ length noted.old }
    ensures count { result ≤ length noted.old }
    ensures noted { SawWithin S.facts (λ j. length present.now) steps.old steps.new (CanCompact present.now) (λ j k. AreNoted (take result noted.new) k) }
{
    let mut count = 0;
    for &object in present {
        let header = steps.scan_header(object);
        if let Some(entry) = PlacedObject::of(object, header) {
            noted[count] = entry;
            count += 1;
        }
    }
    count
}

/// Brings each object to the end of the one before, in the order of their places, and tells where the last one ends.
fn bring_together<S: Steps>(steps: &mut S, entries: &[PlacedObject]) -> u32
    requires role { (S.facts steps.old).stands.role ≡ Collecting }
    requires sorted { IsNonDecreasingBy (λ (e : PlacedObject). e.header.place) entries.now }
    requires noted { MayKnow S.facts steps.old (AreNoted entries.now) }
    ensures { SawWithin S.facts (λ j. result + result + result) steps.old steps.new (AreNoted entries.now) (λ j k. CanSettle result k) }
{
    let mut next = 0;
    for entry in entries {
        bring_down(steps, entry.object, entry.header, next);
        next += entry.header.length;
    }
    next
}

/// Moves an object down to a place, unless it stands there.
fn bring_down<S: Steps>(steps: &mut S, object: u16, header: HeaderParts, place: u32)
    requires role { (S.facts steps.old).stands.role ≡ Collecting }
    requires number { (1 ≤ object) × (object ≤ (S.facts steps.old).stands.config.objects) }
    requires header { IsHeader (placed header place) }
    requires can { MayKnow S.facts steps.old (CanSlide object header place) }
    ensures { SawWithin S.facts (λ j. header.length + header.length + 1) steps.old steps.new (CanSlide object header place) (StandsAt object header place) }
{
    if header.place != place {
        slide(steps, object, header, place);
    }
}
