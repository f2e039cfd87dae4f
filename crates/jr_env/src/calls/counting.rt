//! A census and a dump as calls of an env.
use crate::env::Env;
use crate::work::outside;
use jr_census::{Census, take_census, take_census_announced, take_dump, take_dump_announced};
use jr_steps::Steps;
use jr_weak::Marker;
use jr_word::{Fault, HeaderParts, LocalParts, SlotParts};

impl<S: Steps> Env<S> {
    ghost use Rattle.std.specs.Prelude.{◌≡◌, ◌↔◌, ◌≤◌, ◌+◌, ◌*◌, ℕ, length, Err, IsOk, IfOk, IfErr, OnErr};
    ghost use Rattle.jr_word.specs.declared.fault.Fault.TheVariants.{Busy, Size};
    ghost use Rattle.jr_weak.specs.Markers.{room_of};
    ghost use Rattle.jr_census.specs.Taking.{counting_steps, noting_steps};
    ghost use Rattle.jr_env.specs.Collections.{CallShutsActByAct, FitsRoom, IsNoTurn};
    ghost use Rattle.jr_env.specs.Censuses.{announced_census, announced_dump, census, dump};
    ghost use Rattle.jr_env.specs.Envs.{Does};

    /// Tells what stands in the room: references by kind and local ones by thread, cleared weak ones, slots that are used no more, objects by kind with their words,
    /// those of them that nothing reaches, which a collection would drop, and the words that are used, of which it would free so many.
    /// All of it is so at one step, which shuts the gate; no thread comes in until it is opened again. It changes nothing, takes no memory and never waits.
    /// The marker is one that was made for a room of so many objects, as `marker` makes it, and serves again.
    ///
    /// # Errors
    ///
    /// E17 exactly where the marker was made for another number of objects; E14 with how many threads were inside, knocking, announcing or collecting at its one step, at least 1.
    ///
    /// Nothing has changed then, and the marker is as it was. At E14 the thread stands outside, and at E17 it has taken no step. Over one thread a marker that fits is never refused.
    ///
    /// # Operations
    ///
    /// None at E17, and one at E14. A census that is taken takes two looks at each slot and at each local place of every thread, one or two at each object number's header,
    /// a load for each element of an object array that is reached, one of the top, and two at the gate.
    pub fn census(&mut self, marker: &mut Marker) -> Result<Census, Fault>
        ensures call { FitsRoom marker.old self.old → Does self.old self.new census result }
        ensures size { (result ≡ Err Size) ↔ ¬ (FitsRoom marker.old self.old) }
        ensures same { ¬ (FitsRoom marker.old self.old) → self.new ≡ self.old }
        ensures room { room_of marker.new ≡ room_of marker.old }
        ensures busy { FitsRoom marker.old self.old → IfErr result (λ e. (n : ℕ) × (e ≡ Busy n) × (1 ≤ n)) }
        ensures kept { OnErr result (marker.new ≡ marker.old) }
        ensures alone { FitsRoom marker.old self.old → (S.facts self.old.held.steps).stands.config.threads ≡ 1 → IsOk result }
    {
        if !self.has_marker(marker) {
            return Err(Fault::Size);
        }
        let held = &mut self.held;
        outside(held);
        take_census(&mut held.steps, marker)
    }

    /// Takes a census as `census` does, but announces it first: from then on no call goes in, until the gate is opened again, so that a room whose threads call without a break can be counted, too.
    /// Those that are in may go on, nest levels of their critical regions, and leave.
    /// It tries so many times to shut the gate, which is refused while another thread is in or knocks, and takes the announcement back where the last try is refused, too.
    /// It changes nothing, takes no memory and never waits. The marker is one that was made for a room of so many objects, as `marker` makes it, and serves again.
    ///
    /// # Errors
    ///
    /// E17 exactly where the marker was made for another number of objects; E14 with how many threads were inside, knocking, announcing or collecting, at least 1,
    /// where another thread kept the gate closed already; E23 with two counts of the open gate, where another thread went in or out between the look at it and the announcement;
    /// E14 with how many other threads were inside or knocking at the last try, at least 1.
    ///
    /// Nothing has changed then, and the marker is as it was. At E14 and E23 the thread stands outside, and at E17 it has taken no step. Over one thread a marker that fits is never refused.
    ///
    /// # Operations
    ///
    /// None at E17. One or two where it is not announced; a look, the announcement and one for each try up to the shut of the gate, with none between two tries;
    /// and one more where the announcement is taken back. From then on those of `census`.
    pub fn census_announced(&mut self, marker: &mut Marker, tries: u32) -> Result<Census, Fault>
        requires { 1 ≤ tries }
        ensures call { FitsRoom marker.old self.old → Does self.old self.new (announced_census tries) result }
        ensures counted { IfOk result (λ _. CallShutsActByAct self.old self.new tries (λ c. counting_steps c + 1)) }
        ensures size { (result ≡ Err Size) ↔ ¬ (FitsRoom marker.old self.old) }
        ensures same { ¬ (FitsRoom marker.old self.old) → self.new ≡ self.old }
        ensures room { room_of marker.new ≡ room_of marker.old }
        ensures refused { FitsRoom marker.old self.old → IfErr result IsNoTurn }
        ensures kept { OnErr result (marker.new ≡ marker.old) }
        ensures alone { FitsRoom marker.old self.old → (S.facts self.old.held.steps).stands.config.threads ≡ 1 → IsOk result }
    {
        if !self.has_marker(marker) {
            return Err(Fault::Size);
        }
        let held = &mut self.held;
        outside(held);
        take_census_announced(&mut held.steps, marker, tries)
    }

    /// Notes what each slot, each local place and each object has: references with their objects, and objects with their kind, length and elements.
    /// All of it is so at one step, which shuts the gate; no thread comes in until it is opened again. It is handed room for it:
    /// a place for each slot of the room, one for each local place of each thread, one for each object number, and one for each word of array space.
    /// A slot's is the one of its index, those of a thread's local places stand in their order behind those of the threads before it, and an object's header that of its number less one,
    /// none where no object has it; the place that the header says is that of the first element among the words. It changes nothing in the room, takes no memory and never waits.
    ///
    /// # Errors
    ///
    /// E14 with how many threads were inside, knocking, announcing or collecting at its one step, at least 1.
    ///
    /// Nothing has changed then, the notes are as they were, and the thread stands outside. Over one thread it is never refused.
    ///
    /// # Operations
    ///
    /// One where it is refused. Else a look at each slot, at each local place of every thread and at each object number's header, a load for each element, and two at the gate.
    pub fn dump(
        &mut self,
        slots: &mut [SlotParts],
        locals: &mut [LocalParts],
        headers: &mut [Option<HeaderParts>],
        words: &mut [u64],
    ) -> Result<(), Fault>
        requires slots { length slots.old ≡ (S.facts self.old.held.steps).stands.config.slots }
        requires locals { length locals.old ≡ (S.facts self.old.held.steps).stands.config.threads * (S.facts self.old.held.steps).stands.config.locals }
        requires headers { length headers.old ≡ (S.facts self.old.held.steps).stands.config.objects }
        requires words { length words.old ≡ (S.facts self.old.held.steps).stands.config.words }
        ensures call { Does self.old self.new (dump slots.new locals.new headers.new words.new) result }
        ensures slots { length slots.new ≡ length slots.old }
        ensures locals { length locals.new ≡ length locals.old }
        ensures headers { length headers.new ≡ length headers.old }
        ensures words { length words.new ≡ length words.old }
        ensures busy { IfErr result (λ e. (n : ℕ) × (e ≡ Busy n) × (1 ≤ n)) }
        ensures kept_slots { OnErr result (slots.new ≡ slots.old) }
        ensures kept_locals { OnErr result (locals.new ≡ locals.old) }
        ensures kept_headers { OnErr result (headers.new ≡ headers.old) }
        ensures kept_words { OnErr result (words.new ≡ words.old) }
        ensures alone { (S.facts self.old.held.steps).stands.config.threads ≡ 1 → IsOk result }
    {
        let held = &mut self.held;
        outside(held);
        take_dump(&mut held.steps, slots, locals, headers, words)
    }

    /// Takes a dump as `dump` does, but announces it first, as `census_announced` does: from then on no call goes in, until the gate is opened again.
    /// It tries so many times to shut the gate, which is refused while another thread is in or knocks, and takes the announcement back where the last try is refused, too.
    /// It is handed room as `dump` is, changes nothing in the room, takes no memory and never waits.
    ///
    /// # Errors
    ///
    /// E14 with how many threads were inside, knocking, announcing or collecting, at least 1, where another thread kept the gate closed already;
    /// E23 with two counts of the open gate, where another thread went in or out between the look at it and the announcement;
    /// E14 with how many other threads were inside or knocking at the last try, at least 1.
    ///
    /// Nothing has changed then, the notes are as they were, and the thread stands outside. Over one thread it is never refused.
    ///
    /// # Operations
    ///
    /// One or two where it is not announced; a look, the announcement and one for each try up to the shut of the gate, with none between two tries; and one more where the announcement is taken back.
    /// From then on those of `dump`.
    pub fn dump_announced(
        &mut self,
        tries: u32,
        slots: &mut [SlotParts],
        locals: &mut [LocalParts],
        headers: &mut [Option<HeaderParts>],
        words: &mut [u64],
    ) -> Result<(), Fault>
        requires tries { 1 ≤ tries }
        requires slots { length slots.old ≡ (S.facts self.old.held.steps).stands.config.slots }
        requires locals { length locals.old ≡ (S.facts self.old.held.steps).stands.config.threads * (S.facts self.old.held.steps).stands.config.locals }
        requires headers { length headers.old ≡ (S.facts self.old.held.steps).stands.config.objects }
        requires words { length words.old ≡ (S.facts self.old.held.steps).stands.config.words }
        ensures call { Does self.old self.new (announced_dump tries slots.new locals.new headers.new words.new) result }
        ensures counted { IfOk result (λ _. CallShutsActByAct self.old self.new tries (λ c. noting_steps c + 1)) }
        ensures slots { length slots.new ≡ length slots.old }
        ensures locals { length locals.new ≡ length locals.old }
        ensures headers { length headers.new ≡ length headers.old }
        ensures words { length words.new ≡ length words.old }
        ensures refused { IfErr result IsNoTurn }
        ensures kept_slots { OnErr result (slots.new ≡ slots.old) }
        ensures kept_locals { OnErr result (locals.new ≡ locals.old) }
        ensures kept_headers { OnErr result (headers.new ≡ headers.old) }
        ensures kept_words { OnErr result (words.new ≡ words.old) }
        ensures alone { (S.facts self.old.held.steps).stands.config.threads ≡ 1 → IsOk result }
    {
        let held = &mut self.held;
        outside(held);
        take_dump_announced(&mut held.steps, tries, slots, locals, headers, words)
    }
}
