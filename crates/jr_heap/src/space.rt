//! Array space: reserved, and filled before it is published, over any steps.
ghost use Rattle.std.specs.Prelude.{◌≡◌, IfOk, IfErr, Ok, Err, None, length};
ghost use Rattle.jr_word.specs.declared.kind.Kind.TheVariants.{Text};
ghost use Rattle.jr_model.specs.declared.event.Role.TheVariants.{Within};
ghost use Rattle.jr_model.specs.Parts.{reserve as reservation};
ghost use Rattle.jr_steps.specs.Knowing.{anything, keeps, IsWordNow, MayKnow};
ghost use Rattle.jr_heap.specs.Heap.{Called, header_of, IsOwn, IsReady, Gains, Fills, FillsWith, IsNotRaced, no_act, by_steps, reserve_steps, refused_steps};
ghost use Rattle.jr_heap.specs.Ranges.{place_of, size_of};

use crate::range::Range;
use jr_steps::{Steps, TopLoad};
use jr_word::{Fault, HeaderParts, Kind};

impl Range {
    /// No words at all, by no step.
    pub fn empty() -> Self
        ensures place { place_of result ≡ 0 }
        ensures size { size_of result ≡ 0 }
    {
        Range {
            place: 0,
            length: 0,
        }
    }

    /// How many words it has.
    pub fn length(&self) -> u32
        ensures { result ≡ size_of self.now }
    {
        self.length
    }

    /// The header of an object of the kind whose elements are its words.
    pub fn header(&self, kind: Kind) -> HeaderParts
        ensures { result ≡ header_of kind (place_of self.now) (size_of self.now) }
    {
        HeaderParts {
            kind,
            length: self.length,
            place: self.place,
        }
    }
}

/// Reserves so many words. None are reserved by no step.
///
/// # Errors
///
/// E10 with how many words are reserved, where so many more don't fit;
/// E12 with how many were looked at and how many were found, where another thread reserved words in between, and so never over plain words.
///
/// What the pass holds is as it was.
///
/// # Operations
///
/// Two, a look at the top and an exchange. One where the words don't fit, and none for no words.
pub fn reserve<S: Steps>(steps: &mut S, words: u64) -> Result<Range, Fault>
    requires role { (S.facts steps.old).stands.role ≡ Within }
    ensures stands { (S.facts steps.new).stands ≡ (S.facts steps.old).stands }
    ensures ok { IfOk result (λ r. (size_of r ≡ words) × Called S.facts steps.old steps.new anything (λ j k. reservation words) (Ok tt) (by_steps (reserve_steps words) (Gains words (place_of r)))) }
    ensures own { IfOk result (λ r. MayKnow S.facts steps.new (IsOwn (place_of r) (size_of r))) }
    ensures err { IfErr result (λ e. Called S.facts steps.old steps.new anything (λ j k. reservation words) (Err e) (by_steps (refused_steps e) keeps)) }
    ensures alone { (S.facts steps.old).stands.room ≡ None → IfErr result IsNotRaced }
{
    if words == 0 {
        return Ok(Range::empty());
    }
    let space = steps.config().words;
    let used = steps.see_top(TopLoad::Full { words });
    if words > u64::from(space.saturating_sub(used)) {
        return Err(Fault::SpaceFull(used));
    }
    let length = words as u32;
    match steps.claim_top(used, length) {
        Ok(()) => Ok(Range {
            place: used,
            length,
        }),
        Err(found) => Err(Fault::Raced(used, found)),
    }
}

/// Fills a range of the pass's own with a word.
///
/// # Operations
///
/// A store for each word.
pub fn fill<S: Steps>(steps: &mut S, range: &Range, word: u64)
    requires role { (S.facts steps.old).stands.role ≡ Within }
    requires own { MayKnow S.facts steps.old (IsOwn (place_of range.now) (size_of range.now)) }
    ensures stands { (S.facts steps.new).stands ≡ (S.facts steps.old).stands }
    ensures call { Called S.facts steps.old steps.new (IsOwn (place_of range.now) (size_of range.now)) (λ j k. no_act) (Ok tt)
        (by_steps (size_of range.now) (Fills (place_of range.now) (size_of range.now) word)) }
    ensures own { MayKnow S.facts steps.new (IsOwn (place_of range.now) (size_of range.now)) }
    ensures ready { (kind : Kind) → MayKnow S.facts steps.old (λ k. IsOwn (place_of range.now) (size_of range.now) k × IsWordNow kind word k)
        → MayKnow S.facts steps.new (IsReady kind (place_of range.now) (size_of range.now)) }
{
    for index in 0..range.length {
        steps.put_reserved(range.place, index, word);
    }
}

/// Fills a range of the pass's own with the units of a string, of which there have to be as many.
///
/// # Operations
///
/// A store for each unit.
pub fn fill_from<S: Steps>(steps: &mut S, range: &Range, units: &[u16])
    requires role { (S.facts steps.old).stands.role ≡ Within }
    requires own { MayKnow S.facts steps.old (IsOwn (place_of range.now) (size_of range.now)) }
    requires long { length units.now ≡ size_of range.now }
    ensures stands { (S.facts steps.new).stands ≡ (S.facts steps.old).stands }
    ensures call { Called S.facts steps.old steps.new (IsOwn (place_of range.now) (size_of range.now)) (λ j k. no_act) (Ok tt)
        (by_steps (size_of range.now) (FillsWith (place_of range.now) units.now)) }
    ensures own { MayKnow S.facts steps.new (IsOwn (place_of range.now) (size_of range.now)) }
    ensures ready { MayKnow S.facts steps.new (IsReady Text (place_of range.now) (size_of range.now)) }
{
    for index in 0..range.length {
        steps.put_reserved(range.place, index, u64::from(units[index as usize]));
    }
}
