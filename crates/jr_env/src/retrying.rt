//! Calls that are made again, each by a patience, and those that are made again behind a collection.

ghost use Rattle.std.specs.Prelude.{◌≡◌, Result};
ghost use Rattle.jr_env.specs.Tries.{is_tried_again, lacks_room};

use crate::calls::CopyBack;
use crate::critical_region::Region;
use crate::env::Env;
use crate::levels_beside;
use crate::levels_beside::First;
use crate::native_call::{NativeCall, NativeCaller};
use crate::patience::{Patience, with_patience};
use crate::stay::Stay;
use crate::work::outside;
use jr_elements::Elements;
use jr_gate::Inside;
use jr_model::Mode;
use jr_steps::Steps;
use jr_weak::Marker;
use jr_word::{Elem, Fault, Handle};

/// Whether a call with this answer is worth making again at once: E12, E13 and E23.
pub fn is_made_again<A>(answer: &Result<A, Fault>) -> bool
    ensures { result ≡ is_tried_again answer.now }
{
    matches!(
        answer,
        Err(Fault::Raced(..) | Fault::Barred | Fault::Moved(..))
    )
}

/// Whether a call with this answer is worth making again behind a collection: E10 and E11.
pub fn is_short_of_room<A>(answer: &Result<A, Fault>) -> bool
    ensures { result ≡ lacks_room answer.now }
{
    matches!(answer, Err(Fault::SpaceFull(_) | Fault::ObjectsFull))
}

impl<S: Steps> Env<S> {
    ghost use Rattle.std.specs.Prelude.{◌≡◌, ◌≤◌, Ok, Err, IfOk, IfErr, map};
    ghost use Rattle.std.specs.Borrow.{sem};
    ghost use Rattle.jr_word.specs.declared.fault.Fault.TheVariants.{Size};
    ghost use Rattle.jr_elements.specs.Copies.{answer_in, kept};
    ghost use Rattle.jr_weak.specs.Markers.{room_of};
    ghost use Rattle.jr_gate.specs.Stays.{IsOwnStay};
    ghost use Rattle.jr_env.specs.declared.levels_beside.First.TheVariants.{Array, Text};
    ghost use Rattle.jr_env.specs.Collections.{FitsRoom};
    ghost use Rattle.jr_env.specs.Criticals.{env_of, levels_of};
    ghost use Rattle.jr_env.specs.Deeds.{release_answer, whole};
    ghost use Rattle.jr_env.specs.Envs.{Does};
    ghost use Rattle.jr_env.specs.LentStays.{env_in};
    ghost use Rattle.jr_env.specs.Remedies.{made_collecting_in_turn};
    ghost use Rattle.jr_env.specs.Retried.{releasing_again, rests_opening, rests_trying, TriesAgainToOpen, TriesAgainToStay};
    ghost use Rattle.jr_env.specs.Tries.{made_again, made_collecting};

    /// Makes a call, and again as long as it is refused by E12, E13 or E23, but no more than so many times more. Where the patience waits for room E10 and E11 are for another try too.
    /// The last answer is the answer. Between two tries it does nothing but yield, where the patience does.
    ///
    /// # Errors
    ///
    /// Those of the call at its last try.
    ///
    /// What stands then is what the call leaves, and the thread stands outside.
    ///
    /// # Operations
    ///
    /// Those of each try.
    pub fn retry<C: NativeCall<S> + Copy>(
        &mut self,
        call: C,
        patience: Patience,
    ) -> Result<C::Answer, Fault>
        ensures { Does self.old self.new (made_again patience.waits_for_room patience.more (whole (C.request call))) result }
    {
        with_patience(self, patience, |env| env.make(call))
    }

    /// Makes a call as `retry` does, and where it is refused for want of words or of object numbers (E10, E11), collects once, and makes it as `retry` does once more.
    ///
    /// # Errors
    ///
    /// E17 where the marker was made for another number of objects than the room has: then no try is made, and nothing has changed. E14 where the collection was kept out;
    /// else those of the call at its last try.
    ///
    /// What stands then is what the last of these leaves, and the thread stands outside.
    ///
    /// # Operations
    ///
    /// Those of each try, and of the collection.
    pub fn retry_collecting<C: NativeCall<S> + Copy>(
        &mut self,
        marker: &mut Marker,
        call: C,
        patience: Patience,
    ) -> Result<C::Answer, Fault>
        ensures call { FitsRoom marker.old self.old → Does self.old self.new (made_collecting patience.waits_for_room patience.more (whole (C.request call))) result }
        ensures size { ¬ (FitsRoom marker.old self.old) → (result ≡ Err Size) × (self.new ≡ self.old) × (marker.new ≡ marker.old) }
        ensures room { room_of marker.new ≡ room_of marker.old }
    {
        if !self.has_marker(marker) {
            return Err(Fault::Size);
        }
        let fault = match self.retry(call, patience) {
            Ok(made) => return Ok(made),
            Err(fault) => fault,
        };
        if !is_short_of_room::<()>(&Err(fault)) {
            return Err(fault);
        }
        match Env::collect(self, marker) {
            Ok(_) => self.retry(call, patience),
            Err(fault) => Err(fault),
        }
    }

    /// Makes a call as `retry` does, and where it is refused for want of words or of object numbers (E10, E11), collects as `collect_in_turn` does, and makes it as `retry` does once more.
    /// It is for a room whose other threads call meanwhile.
    ///
    /// # Errors
    ///
    /// E17 where the marker was made for another number of objects than the room has: then no try is made, and nothing has changed. E14 or E23 where the collection got no turn;
    /// else those of the call at its last try.
    ///
    /// What stands then is what the last of these leaves, and the thread stands outside.
    ///
    /// # Operations
    ///
    /// Those of each try, and of each announcement.
    pub fn retry_collecting_in_turn<C: NativeCall<S> + Copy>(
        &mut self,
        marker: &mut Marker,
        tries: u32,
        call: C,
        patience: Patience,
    ) -> Result<C::Answer, Fault>
        requires { 1 ≤ tries }
        ensures call { FitsRoom marker.old self.old → Does self.old self.new (made_collecting_in_turn tries patience.waits_for_room patience.more (whole (C.request call))) result }
        ensures size { ¬ (FitsRoom marker.old self.old) → (result ≡ Err Size) × (self.new ≡ self.old) × (marker.new ≡ marker.old) }
        ensures room { room_of marker.new ≡ room_of marker.old }
    {
        if !self.has_marker(marker) {
            return Err(Fault::Size);
        }
        let refused = match self.retry(call, patience) {
            Ok(made) => return Ok(made),
            Err(refused) => refused,
        };
        if !is_short_of_room::<()>(&Err(refused)) {
            return Err(refused);
        }
        match self.collect_in_turn(marker, tries, patience) {
            Ok(_) => self.retry(call, patience),
            Err(fault) => Err(fault),
        }
    }

    /// Enters a stay as `stay` does, and again as long as it is refused, but no more than so many times more.
    ///
    /// # Errors
    ///
    /// That of `stay` at the last try.
    ///
    /// Nothing has changed then, and the thread stands outside.
    ///
    /// # Operations
    ///
    /// Those of `stay` at each try.
    pub fn retry_stay(&mut self, patience: Patience) -> Result<Stay<'_, S>, Fault>
        ensures* rests { sem 𝓛 (rests_trying S.row S.Steps patience self.entry result) }
        ensures same_reference { IfOk result (λ r. (env_in r).ghost_name ≡ self.entry.ghost_name) }
        ensures entered { IfOk result (λ r. TriesAgainToStay patience self.old (Ok tt) (env_in r).now) }
    {
        let inside = self.retry_enter_stay(patience)?;
        Ok(Stay::over(self, inside))
    }

    /// Enters the gate for a stay, and again as long as the entry is refused.
    fn retry_enter_stay(&mut self, patience: Patience) -> Result<Inside, Fault>
        ensures tried { TriesAgainToStay patience self.old (answer_in (λ i. tt) result) self.new }
        ensures own { IfOk result (λ i. IsOwnStay i (S.facts self.new.held.steps).stands) }
    {
        with_patience(self, patience, |env| env.enter_stay())
    }

    /// Opens a critical region as `get_array_critical` does, and again as long as it is refused by E13, but no more than so many times more.
    ///
    /// # Errors
    ///
    /// Those of `get_array_critical` at the last try.
    ///
    /// Nothing has changed then, and the thread stands outside.
    ///
    /// # Operations
    ///
    /// Those of each try.
    pub fn retry_array_critical(
        &mut self,
        array: Handle,
        patience: Patience,
    ) -> Result<Region<'_, S>, Fault>
        ensures* rests { sem 𝓛 (rests_opening S.row S.Steps patience (Array array) self.entry result) }
        ensures same_reference { IfOk result (λ r. (env_of r).ghost_name ≡ self.entry.ghost_name) }
        ensures opened { IfOk result (λ r. TriesAgainToOpen patience (Array array) self.old (Ok (levels_of r)) (env_of r).now) }
    {
        let levels = levels_beside::retry_open(self, First::Array(array), patience)?;
        Ok(Region::over(self, levels))
    }

    /// Opens a critical region as `get_string_critical` does, and again as long as it is refused by E13, but no more than so many times more.
    ///
    /// # Errors
    ///
    /// Those of `get_string_critical` at the last try.
    ///
    /// Nothing has changed then, and the thread stands outside.
    ///
    /// # Operations
    ///
    /// Those of each try.
    pub fn retry_string_critical(
        &mut self,
        string: Handle,
        patience: Patience,
    ) -> Result<Region<'_, S>, Fault>
        ensures* rests { sem 𝓛 (rests_opening S.row S.Steps patience (Text string) self.entry result) }
        ensures same_reference { IfOk result (λ r. (env_of r).ghost_name ≡ self.entry.ghost_name) }
        ensures opened { IfOk result (λ r. TriesAgainToOpen patience (Text string) self.old (Ok (levels_of r)) (env_of r).now) }
    {
        let levels = levels_beside::retry_open(self, First::Text(string), patience)?;
        Ok(Region::over(self, levels))
    }

    /// Releases copied elements as `release_array_elements` does, and again as long as it is refused by E13, but no more than so many times more.
    ///
    /// # Errors
    ///
    /// Those of `release_array_elements` at the last try.
    ///
    /// The elements are handed back as they were, nothing is written, and the thread stands outside.
    ///
    /// # Operations
    ///
    /// Those of each try. To abort takes none.
    pub fn retry_release<E: Elem>(
        &mut self,
        array: Handle,
        elements: Elements<E>,
        mode: Mode,
        patience: Patience,
    ) -> Result<Option<Elements<E>>, (Elements<E>, Fault)>
        ensures call { Does self.old self.new (releasing_again patience E.KIND array.0 (map E.word_of elements) mode) (release_answer (map E.word_of) result) }
        ensures ok { IfOk result (λ left. left ≡ kept mode elements) }
        ensures err { IfErr result (λ refused. refused.0 ≡ elements) }
    {
        if !mode.copies_back() {
            outside(&mut self.held);
            elements.discard();
            return Ok(None);
        }
        let call = CopyBack {
            array,
            elements: &elements,
        };
        match self.retry(call, patience) {
            Ok(()) => Ok(elements.kept(mode)),
            Err(fault) => Err((elements, fault)),
        }
    }
}
