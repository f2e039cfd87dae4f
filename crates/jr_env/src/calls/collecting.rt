//! A collection as a call of an env: one that is made at once, one that is announced, and one that gets its turn.
use crate::env::Env;
use crate::patience::Patience;
use crate::work::outside;
use jr_steps::Steps;
use jr_weak::{Collected, Marker, collect_announced_listing, collect_listing};
use jr_word::{Fault, Handle};
use std::alloc::Global;

impl<S: Steps> Env<S> {
    ghost use Rattle.std.specs.Prelude.{◌≡◌, ◌↔◌, ◌≤◌, ◌+◌, ℕ, Err, IsOk, IfOk, IfErr, OnErr, IsTrue};
    ghost use Rattle.jr_word.specs.declared.fault.Fault.TheVariants.{Busy, Memory, Size};
    ghost use Rattle.jr_weak.specs.Counting.{sweeping_steps};
    ghost use Rattle.jr_weak.specs.Marks.{IsMarked};
    ghost use Rattle.jr_weak.specs.Markers.{marks_of, room_of};
    ghost use Rattle.jr_env.specs.Collections.{CallShutsActByAct, FitsRoom, IsNoTurn, announced_collection, collection};
    ghost use Rattle.jr_env.specs.Envs.{Does};
    ghost use Rattle.jr_env.specs.Listings.{listed_announced, listed_collection, listed_in_turn};
    ghost use Rattle.jr_env.specs.Remedies.{collection_in_turn};
    ghost use Rattle.jr_weak.specs.Listing.{ListsTell};

    /// A marker for the collections of the env's room, in which nothing is marked. It takes all the memory that they need, and fits each env of a room with as many objects.
    ///
    /// # Errors
    ///
    /// E16 where the memory was refused.
    pub fn marker(&self, alloc: Global) -> Result<Marker, Fault>
        ensures memory { IfErr result (λ e. e ≡ Memory) }
        ensures room { IfOk result (λ m. FitsRoom m self.now) }
        ensures none { IfOk result (λ m. (o : ℕ) → ¬ (IsMarked (marks_of m) o)) }
    {
        Marker::new(alloc, self.held.steps.config()).map_err(|_| Fault::Memory)
    }

    /// Whether the marker was made for as many objects as the room has.
    pub(crate) fn has_marker(&self, marker: &Marker) -> bool
        ensures { IsTrue result ↔ FitsRoom marker.now self.now }
    {
        marker.fits(self.held.steps.config().objects)
    }

    /// Collects: clears each weak reference to an object that is not reached, drops each such object, moves all arrays together, and tells how many it cleared and dropped,
    /// and how many words are used then. What is reached keeps its kind and elements, and every handle stands for what it stood for. No thread comes in meanwhile. It takes no memory and never waits.
    /// The marker is one that was made for a room of so many objects, as `marker` makes it, and serves again.
    ///
    /// # Errors
    ///
    /// E17 exactly where the marker was made for another number of objects; E14 with how many threads were inside, knocking, announcing or collecting at its one step, at least 1.
    ///
    /// Nothing has changed then, and the marker is as it was. At E14 the thread stands outside, and at E17 it has taken no step. Over one thread a marker that fits is never refused.
    ///
    /// # Operations
    ///
    /// None at E17, and one at E14. A collection that is made takes two looks at each slot, one at each local place of every thread, one or two at each object number's header,
    /// a load for each element of an object array that is reached, a load and a store for each element that moves, one for each reference that is cleared,
    /// each object that is dropped and each array that moves, and three at the gate and the top: at the most three for each slot, one for each local place of every thread,
    /// four for each object and each word of the room, and three.
    pub fn collect(&mut self, marker: &mut Marker) -> Result<Collected, Fault>
        ensures call { FitsRoom marker.old self.old → Does self.old self.new collection result }
        ensures size { (result ≡ Err Size) ↔ ¬ (FitsRoom marker.old self.old) }
        ensures same { ¬ (FitsRoom marker.old self.old) → self.new ≡ self.old }
        ensures room { room_of marker.new ≡ room_of marker.old }
        ensures busy { FitsRoom marker.old self.old → IfErr result (λ e. (n : ℕ) × (e ≡ Busy n) × (1 ≤ n)) }
        ensures kept { OnErr result (marker.new ≡ marker.old) }
        ensures alone { FitsRoom marker.old self.old → (S.facts self.old.held.steps).stands.config.threads ≡ 1 → IsOk result }
    {
        self.collect_listing(marker, &mut [], &mut [])
    }

    /// Collects as `collect` does, and lists what went, at the front of two buffers, in the order in which it went and as much as there is room for:
    /// the handles of the weak references that it cleared, as native code holds them, and the numbers of the objects that it dropped. What lies behind stays.
    /// `Collected` has how many there were, which may be more than the buffers have room for. The marker has what the collection marked:
    /// `found` lists the objects that were reached, which are those that it kept. An empty buffer takes no memory, and will do.
    ///
    /// # Errors
    ///
    /// E17 exactly where the marker was made for another number of objects; E14 with how many threads were inside, knocking, announcing or collecting at its one step, at least 1.
    ///
    /// Nothing has changed then, and the marker and the buffers are as they were. At E14 the thread stands outside, and at E17 it has taken no step.
    /// Over one thread a marker that fits is never refused.
    ///
    /// # Operations
    ///
    /// Those of `collect`.
    pub fn collect_listing(
        &mut self,
        marker: &mut Marker,
        handles: &mut [Handle],
        numbers: &mut [u16],
    ) -> Result<Collected, Fault>
        ensures call { FitsRoom marker.old self.old → Does self.old self.new (listed_collection (marks_of marker.new) (ListsTell handles.old numbers.old handles.new numbers.new)) result }
        ensures size { (result ≡ Err Size) ↔ ¬ (FitsRoom marker.old self.old) }
        ensures same { ¬ (FitsRoom marker.old self.old) → self.new ≡ self.old }
        ensures room { room_of marker.new ≡ room_of marker.old }
        ensures busy { FitsRoom marker.old self.old → IfErr result (λ e. (n : ℕ) × (e ≡ Busy n) × (1 ≤ n)) }
        ensures kept { OnErr result (marker.new ≡ marker.old) }
        ensures unlisted { OnErr result ((handles.new ≡ handles.old) × (numbers.new ≡ numbers.old)) }
        ensures alone { FitsRoom marker.old self.old → (S.facts self.old.held.steps).stands.config.threads ≡ 1 → IsOk result }
    {
        if !self.has_marker(marker) {
            return Err(Fault::Size);
        }
        let held = &mut self.held;
        outside(held);
        collect_listing(&mut held.steps, marker, handles, numbers)
    }

    /// Collects as `collect` does, but announces it first: from then on no call goes in, until the gate is opened again, so that a room whose threads call without a break can be collected, too.
    /// Those that are in may go on, nest levels of their critical regions, and leave.
    /// It tries so many times to shut the gate, which is refused while another thread is in or knocks, and takes the announcement back where the last try is refused, too.
    /// It takes no memory and never waits. The marker is one that was made for a room of so many objects, as `marker` makes it, and serves again.
    ///
    /// # Errors
    ///
    /// E17 exactly where the marker was made for another number of objects; E14 with how many threads were inside, knocking, announcing or collecting, at least 1,
    /// where another thread kept the gate closed already; E23 with two counts of the open gate, where another thread went in or out between the look at it and the announcement;
    /// E14 with how many other threads were inside or knocking at the last try, at least 1.
    ///
    /// Nothing has changed then, and the marker is as it was. At E14 and E23 the thread stands outside, and at E17 it has taken no step. Over one thread a marker that fits is never refused.
    ///
    /// # Operations
    ///
    /// None at E17. One or two where it is not announced; a look, the announcement and one for each try up to the shut of the gate, with none between two tries;
    /// and one more where the announcement is taken back. From then on those of `collect`.
    pub fn collect_announced(&mut self, marker: &mut Marker, tries: u32) -> Result<Collected, Fault>
        requires { 1 ≤ tries }
        ensures call { FitsRoom marker.old self.old → Does self.old self.new (announced_collection tries) result }
        ensures counted { IfOk result (λ _. CallShutsActByAct self.old self.new tries (λ c. sweeping_steps c + 1)) }
        ensures size { (result ≡ Err Size) ↔ ¬ (FitsRoom marker.old self.old) }
        ensures same { ¬ (FitsRoom marker.old self.old) → self.new ≡ self.old }
        ensures room { room_of marker.new ≡ room_of marker.old }
        ensures refused { FitsRoom marker.old self.old → IfErr result IsNoTurn }
        ensures kept { OnErr result (marker.new ≡ marker.old) }
        ensures alone { FitsRoom marker.old self.old → (S.facts self.old.held.steps).stands.config.threads ≡ 1 → IsOk result }
    {
        self.collect_announced_listing(marker, tries, &mut [], &mut [])
    }

    /// Collects as `collect_announced` does, and lists what went as `collect_listing` does.
    ///
    /// # Errors
    ///
    /// E17 exactly where the marker was made for another number of objects; E14 with how many threads were inside, knocking, announcing or collecting, at least 1,
    /// where another thread kept the gate closed already; E23 with two counts of the open gate, where another thread went in or out between the look at it and the announcement;
    /// E14 with how many other threads were inside or knocking at the last try, at least 1.
    ///
    /// Nothing has changed then, and the marker and the buffers are as they were. At E14 and E23 the thread stands outside, and at E17 it has taken no step.
    /// Over one thread a marker that fits is never refused.
    ///
    /// # Operations
    ///
    /// Those of `collect_announced`.
    pub fn collect_announced_listing(
        &mut self,
        marker: &mut Marker,
        tries: u32,
        handles: &mut [Handle],
        numbers: &mut [u16],
    ) -> Result<Collected, Fault>
        requires { 1 ≤ tries }
        ensures call { FitsRoom marker.old self.old → Does self.old self.new (listed_announced tries (marks_of marker.new) (ListsTell handles.old numbers.old handles.new numbers.new)) result }
        ensures counted { IfOk result (λ _. CallShutsActByAct self.old self.new tries (λ c. sweeping_steps c + 1)) }
        ensures size { (result ≡ Err Size) ↔ ¬ (FitsRoom marker.old self.old) }
        ensures same { ¬ (FitsRoom marker.old self.old) → self.new ≡ self.old }
        ensures room { room_of marker.new ≡ room_of marker.old }
        ensures refused { FitsRoom marker.old self.old → IfErr result IsNoTurn }
        ensures kept { OnErr result (marker.new ≡ marker.old) }
        ensures unlisted { OnErr result ((handles.new ≡ handles.old) × (numbers.new ≡ numbers.old)) }
        ensures alone { FitsRoom marker.old self.old → (S.facts self.old.held.steps).stands.config.threads ≡ 1 → IsOk result }
    {
        if !self.has_marker(marker) {
            return Err(Fault::Size);
        }
        let held = &mut self.held;
        outside(held);
        collect_announced_listing(&mut held.steps, marker, tries, handles, numbers)
    }

    /// Collects as `collect_announced` does, and announces it anew as long as it gets no turn (E14, E23), but no more than so many times more.
    /// Between two announcements none stands, so that others go in; and the thread yields, where the patience does. Whether the patience waits for room makes no difference.
    /// The last answer is the answer.
    ///
    /// # Errors
    ///
    /// E17 exactly where the marker was made for another number of objects; E14 with how many threads were inside, knocking, announcing or collecting, at least 1,
    /// where another thread kept the gate closed at the last announcement; E23 with two counts of the open gate, where another thread went in or out between its look at the gate and that
    /// announcement; E14 with how many other threads were inside or knocking at its last try, at least 1.
    ///
    /// Nothing has changed then, and the marker is as it was. At E14 and E23 the thread stands outside, and at E17 it has taken no step. Over one thread a marker that fits is never refused.
    ///
    /// # Operations
    ///
    /// None at E17, and else those of each announcement.
    pub fn collect_in_turn(
        &mut self,
        marker: &mut Marker,
        tries: u32,
        patience: Patience,
    ) -> Result<Collected, Fault>
        requires { 1 ≤ tries }
        ensures call { FitsRoom marker.old self.old → Does self.old self.new (collection_in_turn tries patience.more) result }
        ensures size { (result ≡ Err Size) ↔ ¬ (FitsRoom marker.old self.old) }
        ensures same { ¬ (FitsRoom marker.old self.old) → self.new ≡ self.old }
        ensures room { room_of marker.new ≡ room_of marker.old }
        ensures refused { FitsRoom marker.old self.old → IfErr result IsNoTurn }
        ensures kept { OnErr result (marker.new ≡ marker.old) }
        ensures alone { FitsRoom marker.old self.old → (S.facts self.old.held.steps).stands.config.threads ≡ 1 → IsOk result }
    {
        self.collect_in_turn_listing(marker, tries, patience, &mut [], &mut [])
    }

    /// Collects as `collect_in_turn` does, and lists what went as `collect_listing` does.
    ///
    /// # Errors
    ///
    /// E17 exactly where the marker was made for another number of objects; E14 with how many threads were inside, knocking, announcing or collecting, at least 1,
    /// where another thread kept the gate closed at the last announcement; E23 with two counts of the open gate, where another thread went in or out between its look at the gate and that
    /// announcement; E14 with how many other threads were inside or knocking at its last try, at least 1.
    ///
    /// Nothing has changed then, and the marker and the buffers are as they were. At E14 and E23 the thread stands outside, and at E17 it has taken no step.
    /// Over one thread a marker that fits is never refused.
    ///
    /// # Operations
    ///
    /// Those of `collect_in_turn`.
    pub fn collect_in_turn_listing(
        &mut self,
        marker: &mut Marker,
        tries: u32,
        patience: Patience,
        handles: &mut [Handle],
        numbers: &mut [u16],
    ) -> Result<Collected, Fault>
        requires { 1 ≤ tries }
        ensures call { FitsRoom marker.old self.old → Does self.old self.new
            (listed_in_turn tries patience.more (marks_of marker.new) (ListsTell handles.old numbers.old handles.new numbers.new)) result }
        ensures size { (result ≡ Err Size) ↔ ¬ (FitsRoom marker.old self.old) }
        ensures same { ¬ (FitsRoom marker.old self.old) → self.new ≡ self.old }
        ensures room { room_of marker.new ≡ room_of marker.old }
        ensures refused { FitsRoom marker.old self.old → IfErr result IsNoTurn }
        ensures kept { OnErr result (marker.new ≡ marker.old) }
        ensures unlisted { OnErr result ((handles.new ≡ handles.old) × (numbers.new ≡ numbers.old)) }
        ensures alone { FitsRoom marker.old self.old → (S.facts self.old.held.steps).stands.config.threads ≡ 1 → IsOk result }
    {
        if !self.has_marker(marker) {
            return Err(Fault::Size);
        }
        for _ in 0..patience.more {
            match self.collect_announced_listing(marker, tries, handles, numbers) {
                Ok(collected) => return Ok(collected),
                Err(_) => patience.pause(),
            }
        }
        self.collect_announced_listing(marker, tries, handles, numbers)
    }
}
