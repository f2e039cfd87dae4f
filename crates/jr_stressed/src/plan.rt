//! What a stress does, and which refusal a number chooses.

ghost use Rattle.std.specs.Prelude.{◌≡◌};
ghost use Rattle.jr_env.specs.declared.demand.Demand.TheVariants.{Object};
ghost use Rattle.jr_stressed.specs.Refusals.{IsWant, MachineLists, chosen, lacking, raced_at, space_full_at};

use jr_env::Demand;
use jr_word::{Config, Fault};

/// What a stress does, how often, and by which refusals.
#[derive(Clone, Copy, Debug, PartialEq, Eq)]
pub struct Stress {
    /// The seed of its draws. By the same seed the same calls are refused, and collected before.
    pub seed: u64,
    /// It collects before each call whose number this divides, and before none where it is 0.
    pub collects_each: u32,
    /// Of so many calls it refuses one, by its draws, and none where it is 0.
    pub refuses_each: u32,
    /// Whether it refuses for want of a slot (E8).
    pub row_full: bool,
    /// Whether it refuses for want of words (E10).
    pub space_full: bool,
    /// Whether it refuses for want of object numbers (E11).
    pub objects_full: bool,
    /// Whether it refuses as if another thread had reserved words (E12).
    pub raced: bool,
    /// Whether it refuses at the entry (E13).
    pub barred: bool,
}

impl Stress {
    ghost use Rattle.std.specs.Prelude.{◌≡◌, IfSome};
    ghost use Rattle.jr_stressed.specs.Refusals.{MachineLists, collects_at, has_refusal, refusal_drawn, usual};

    /// A collection before each fifth call, and one call of four refused, by all five refusals.
    pub const fn of(seed: u64) -> Stress
        ensures { result ≡ usual seed }
    {
        Stress {
            seed,
            collects_each: 5,
            refuses_each: 4,
            row_full: true,
            space_full: true,
            objects_full: true,
            raced: true,
            barred: true,
        }
    }

    /// Whether the call of this number is one to collect before.
    pub(crate) fn collects_at(&self, call: u64) -> bool
        ensures { result ≡ collects_at self.now.collects_each call }
    {
        self.collects_each != 0 && call % u64::from(self.collects_each) == 0
    }

    /// Whether this refusal is one that it makes.
    fn has_refusal(&self, fault: Fault) -> bool
        ensures { result ≡ has_refusal self.now fault }
    {
        match fault {
            Fault::RowFull => self.row_full,
            Fault::SpaceFull(_) => self.space_full,
            Fault::ObjectsFull => self.objects_full,
            Fault::Raced(_, _) => self.raced,
            Fault::Barred => self.barred,
            _ => false,
        }
    }

    /// The refusal of a call that asks for this in a room of these sizes, by the word that was drawn for it; none where it isn't refused.
    pub(crate) fn refusal_drawn(&self, sizes: Config, demand: Demand, word: u32) -> Option<Fault>
        ensures drawn { result ≡ refusal_drawn self.now sizes demand word }
        ensures listed { IfSome result (MachineLists sizes demand) }
    {
        if self.refuses_each == 0 || word % self.refuses_each != 0 {
            return None;
        }
        let fault = chosen(sizes, demand, word / self.refuses_each);
        if self.has_refusal(fault) {
            Some(fault)
        } else {
            None
        }
    }
}

/// The refusal that a number chooses for a call that asks for this: one half of the numbers choose E13, and the others what it may be refused for.
fn chosen(sizes: Config, demand: Demand, number: u32) -> Fault
    ensures chosen { result ≡ chosen sizes demand number }
    ensures listed { MachineLists sizes demand result }
{
    if number % 2 == 0 {
        return Fault::Barred;
    }
    match demand {
        Demand::Nothing => Fault::Barred,
        Demand::Slot => Fault::RowFull,
        Demand::Object(words) => lacking(sizes, words, number / 2),
    }
}

/// The refusal that a number chooses for a call that makes an object of so many words.
fn lacking(sizes: Config, words: u64, number: u32) -> Fault
    ensures chosen { result ≡ lacking sizes words number }
    ensures listed { IsWant sizes (Object words) result }
{
    if number % 3 == 0 {
        Fault::ObjectsFull
    } else if number % 3 == 1 {
        raced(sizes, words)
    } else {
        space_full(sizes, words)
    }
}

/// E12: all words are used, where the look had found just so many free. E11 where so many never are.
fn raced(sizes: Config, words: u64) -> Fault
    ensures chosen { result ≡ raced_at sizes words }
    ensures listed { IsWant sizes (Object words) result }
{
    if words == 0 || u64::from(sizes.words) < words {
        return Fault::ObjectsFull;
    }
    Fault::Raced(sizes.words - words as u32, sizes.words)
}

/// E10: all words are used. E11 where none is asked for.
fn space_full(sizes: Config, words: u64) -> Fault
    ensures chosen { result ≡ space_full_at sizes words }
    ensures listed { IsWant sizes (Object words) result }
{
    if words == 0 {
        Fault::ObjectsFull
    } else {
        Fault::SpaceFull(sizes.words)
    }
}
