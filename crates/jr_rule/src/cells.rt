//! The five operations on a word, whoever keeps the words: a row that threads share, or a plain vector. Steps are written over them once.
ghost use Rattle.std.specs.Prelude.{◌≡◌, ◌+◌, ◌-◌, ◌%◌, ◌^◌, ◌==◌, ◌≤◌, ◌<◌};
ghost use prog.Atomic.{either};
ghost use Rattle.jr_rule.specs.Cells.{IsOwed, HasStepped, WentBy};
ghost use Rattle.jr_rule.specs.Image.{header_at as place_of_header, element_at as place_of_element};

use jr_word::Config;
use std::marker::Brand;

/// What a kind of step asks of what is known; and what it tells of that, the number that it found, its acts, and what is known then.
pub trait StepKind {
    ghost use Rattle.std.specs.Prelude.{ℕ, List};
    ghost use Rattle.jr_model.specs.declared.event.Act.{Act};
    ghost use Rattle.jr_steps.specs.declared.known.Known.{Known};

    ghost met: { Known → Type 0 };

    ghost told: { Known → ℕ → List Act → Known → Type 0 };
}

/// The call that steps picks both.
impl StepKind for Brand {
    ghost met = { λ k. Unit {0} };

    ghost told = { λ k n acts k'. Unit {0} };
}

/// Who steps on the words of a row: each operation is one on one word, and one step. `P` is where the words are.
pub trait Cells<P: Copy> {
    ghost use Rattle.std.specs.Prelude.{ℕ, List};
    ghost use Rattle.jr_model.specs.declared.event.Act.{Act};
    ghost use Rattle.jr_rule.specs.Cells.{Sight, AreSoundWords};

    /// What is known of the words.
    ghost sight: { Self → Sight };

    /// A step with these acts was taken: what it made of the one history that the thread knows, in a room. Over plain words, which may have several, this says nothing.
    ghost goes: { Self → Self → List Act → Type 0 };

    /// The count of joins and partings of seats that is theirs. Each is an operation beside the five, and none of these makes one.
    ghost joints: { Self → ℕ };

    /// They are there.
    ghost are_at: { Self → P → Type 0 };

    /// Which is one fact.
    ghost one: { (s : Self) (place : P) → IsProp (are_at s place) };

    /// The sizes of the room.
    fn config(&self, place: P) -> Config
        requires { are_at self.now place }
        ensures { result ≡ (sight self.now).first.config };

    /// The last serial.
    fn last(&self, place: P) -> u32
        requires { are_at self.now place }
        ensures { result ≡ (sight self.now).first.last };

    /// The thread that steps.
    fn thread(&self, place: P) -> u8
        requires { are_at self.now place }
        ensures { result ≡ (sight self.now).first.thread };

    /// Where the header of object 1 is in the row.
    fn headers(&self, place: P) -> usize
        requires { are_at self.now place }
        ensures { result ≡ place_of_header (sight self.now).first.config 1 };

    /// Where the first word of array space is in the row.
    fn elements(&self, place: P) -> usize
        requires { are_at self.now place }
        ensures { result ≡ place_of_element (sight self.now).first.config 0 };

    /// Loads a word.
    fn load<T: StepKind>(&mut self, place: P, at: usize) -> u64
        requires there { are_at self.old place }
        requires owed { IsOwed (sight self.old) T.met at (λ n. n) T.told }
        ensures there { are_at self.new place }
        ensures step { HasStepped (sight self.old) (sight self.new) T.met T.told result }
        ensures seen { WentBy (goes self.old self.new) (sight self.old) T.met T.told result }
        ensures counted { joints self.new ≡ joints self.old };

    /// Stores a word.
    fn store<T: StepKind>(&mut self, place: P, at: usize, new: u64)
        requires there { are_at self.old place }
        requires owed { IsOwed (sight self.old) T.met at (λ n. new) (λ k n. T.told k new) }
        ensures there { are_at self.new place }
        ensures step { HasStepped (sight self.old) (sight self.new) T.met T.told new }
        ensures seen { WentBy (goes self.old self.new) (sight self.old) T.met T.told new }
        ensures counted { joints self.new ≡ joints self.old };

    /// Adds to a word. The number that was found.
    fn add<T: StepKind>(&mut self, place: P, at: usize, more: u64) -> u64
        requires there { are_at self.old place }
        requires owed { IsOwed (sight self.old) T.met at (λ n. (n + more) % 2 ^ 64) T.told }
        ensures there { are_at self.new place }
        ensures step { HasStepped (sight self.old) (sight self.new) T.met T.told result }
        ensures seen { WentBy (goes self.old self.new) (sight self.old) T.met T.told result }
        ensures counted { joints self.new ≡ joints self.old };

    /// Takes away from a word. The number that was found.
    fn take<T: StepKind>(&mut self, place: P, at: usize, less: u64) -> u64
        requires there { are_at self.old place }
        requires owed { IsOwed (sight self.old) T.met at (λ n. (n + (2 ^ 64 - less)) % 2 ^ 64) T.told }
        ensures there { are_at self.new place }
        ensures step { HasStepped (sight self.old) (sight self.new) T.met T.told result }
        ensures seen { WentBy (goes self.old self.new) (sight self.old) T.met T.told result }
        ensures counted { joints self.new ≡ joints self.old };

    /// Exchanges a word for a new one where it is `old`. The number that was found.
    fn exchange<T: StepKind>(&mut self, place: P, at: usize, old: u64, new: u64) -> u64
        requires there { are_at self.old place }
        requires owed { IsOwed (sight self.old) T.met at (λ n. either (n == old) new n) T.told }
        ensures there { are_at self.new place }
        ensures step { HasStepped (sight self.old) (sight self.new) T.met T.told result }
        ensures seen { WentBy (goes self.old self.new) (sight self.old) T.met T.told result }
        ensures counted { joints self.new ≡ joints self.old };

    /// What always holds of the words.
    ghost sound: { (s : Self) (place : P) → are_at s place → AreSoundWords (sight s) };
}

/// The same, about what the step is about: a call can pick what a step tells at a function, and not at a method of a bound.
#[inline(always)]
pub(crate) fn load<C: Cells<P>, P: Copy, T: StepKind, A: Copy>(
    cells: &mut C,
    place: P,
    at: usize,
    _about: A,
) -> u64
    requires there { C.are_at cells.old place }
    requires owed { IsOwed (C.sight cells.old) T.met at (λ n. n) T.told }
    ensures there { C.are_at cells.new place }
    ensures step { HasStepped (C.sight cells.old) (C.sight cells.new) T.met T.told result }
    ensures seen { WentBy (C.goes cells.old cells.new) (C.sight cells.old) T.met T.told result }
    ensures counted { C.joints cells.new ≡ C.joints cells.old }
{
    cells.load::<T>(place, at)
}

/// The same, about what the step is about: a call can pick what a step tells at a function, and not at a method of a bound.
#[inline(always)]
pub(crate) fn store<C: Cells<P>, P: Copy, T: StepKind, A: Copy>(
    cells: &mut C,
    place: P,
    at: usize,
    new: u64,
    _about: A,
)
    requires there { C.are_at cells.old place }
    requires owed { IsOwed (C.sight cells.old) T.met at (λ n. new) (λ k n. T.told k new) }
    ensures there { C.are_at cells.new place }
    ensures step { HasStepped (C.sight cells.old) (C.sight cells.new) T.met T.told new }
    ensures seen { WentBy (C.goes cells.old cells.new) (C.sight cells.old) T.met T.told new }
    ensures counted { C.joints cells.new ≡ C.joints cells.old }
{
    cells.store::<T>(place, at, new);
}

/// The same, about what the step is about: a call can pick what a step tells at a function, and not at a method of a bound.
#[inline(always)]
pub(crate) fn add<C: Cells<P>, P: Copy, T: StepKind, A: Copy>(
    cells: &mut C,
    place: P,
    at: usize,
    more: u64,
    _about: A,
) -> u64
    requires there { C.are_at cells.old place }
    requires owed { IsOwed (C.sight cells.old) T.met at (λ n. (n + more) % 2 ^ 64) T.told }
    ensures there { C.are_at cells.new place }
    ensures step { HasStepped (C.sight cells.old) (C.sight cells.new) T.met T.told result }
    ensures seen { WentBy (C.goes cells.old cells.new) (C.sight cells.old) T.met T.told result }
    ensures counted { C.joints cells.new ≡ C.joints cells.old }
{
    cells.add::<T>(place, at, more)
}

/// The same, about what the step is about: a call can pick what a step tells at a function, and not at a method of a bound.
#[inline(always)]
pub(crate) fn take<C: Cells<P>, P: Copy, T: StepKind, A: Copy>(
    cells: &mut C,
    place: P,
    at: usize,
    less: u64,
    _about: A,
) -> u64
    requires there { C.are_at cells.old place }
    requires owed { IsOwed (C.sight cells.old) T.met at (λ n. (n + (2 ^ 64 - less)) % 2 ^ 64) T.told }
    ensures there { C.are_at cells.new place }
    ensures step { HasStepped (C.sight cells.old) (C.sight cells.new) T.met T.told result }
    ensures seen { WentBy (C.goes cells.old cells.new) (C.sight cells.old) T.met T.told result }
    ensures counted { C.joints cells.new ≡ C.joints cells.old }
{
    cells.take::<T>(place, at, less)
}

/// The same, about what the step is about: a call can pick what a step tells at a function, and not at a method of a bound.
#[inline(always)]
pub(crate) fn exchange<C: Cells<P>, P: Copy, T: StepKind, A: Copy>(
    cells: &mut C,
    place: P,
    at: usize,
    old: u64,
    new: u64,
    _about: A,
) -> u64
    requires there { C.are_at cells.old place }
    requires owed { IsOwed (C.sight cells.old) T.met at (λ n. either (n == old) new n) T.told }
    ensures there { C.are_at cells.new place }
    ensures step { HasStepped (C.sight cells.old) (C.sight cells.new) T.met T.told result }
    ensures seen { WentBy (C.goes cells.old cells.new) (C.sight cells.old) T.met T.told result }
    ensures counted { C.joints cells.new ≡ C.joints cells.old }
{
    cells.exchange::<T>(place, at, old, new)
}

/// The place of an object's header in the row.
#[inline(always)]
pub(crate) fn header_at<C: Cells<P>, P: Copy>(cells: &C, place: P, object: u32) -> usize
    requires there { C.are_at cells.now place }
    requires object { (1 ≤ object) × (object ≤ (C.sight cells.now).first.config.objects) }
    ensures { result ≡ place_of_header (C.sight cells.now).first.config object }
{
    cells.headers(place) + (object as usize - 1)
}

/// The place of a word of array space in the row, so many behind a first one.
#[inline(always)]
pub(crate) fn element_at<C: Cells<P>, P: Copy>(cells: &C, place: P, first: u32, index: u32) -> usize
    requires there { C.are_at cells.now place }
    requires index { first + index < (C.sight cells.now).first.config.words }
    ensures { result ≡ place_of_element (C.sight cells.now).first.config (first + index) }
{
    cells.elements(place) + first as usize + index as usize
}
