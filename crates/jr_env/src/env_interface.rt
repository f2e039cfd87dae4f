//! The calls of an env by their names, over whoever stands over one: an env, and one that is checked, stressed or warned. The calls of native code that enter the gate are in `native_interface`.
ghost use Rattle.std.specs.Prelude.{IfOk};
ghost use Rattle.jr_critical.specs.Levels.{StandOver};
ghost use Rattle.jr_env.specs.TellingRegions.{OpensBeneath, OpensTold};

use crate::calls::{CopyBack, DeleteWeakGlobalRef, IsSameObject};
use crate::critical_region::Region;
use crate::env::Env;
use crate::levels_beside;
use crate::levels_beside::First;
use crate::native_call::{Handed, NativeCall};
use crate::native_env::{OverEnv, TriesCalls};
use crate::patience::Patience;
use crate::retrying_over::{try_again, try_collecting};
use crate::telling::tell_refusal;
use jr_critical::Levels;
use jr_elements::Elements;
use jr_frames::{Explanation, LocalCounts};
use jr_model::Mode;
use jr_rule::{NoteOf, PinnedNoteOf, Site, StepsIn};
use jr_steps::Steps;
use jr_weak::{Collected, Marker};
use jr_word::{Elem, Fault, Handle};
use std::alloc::Global;

/// No further try.
const ONCE: Patience = Patience {
    more: 0,
    yields: false,
    waits_for_room: false,
};

/// Opens a region: what comes before it, and the call of the env beneath.
fn open_beneath<S: Steps, N: TriesCalls<S> + OverEnv<Env<S>>>(
    caller: &mut N,
    first: First,
    patience: Patience,
) -> Result<Levels, Fault>
    ensures tried { OpensBeneath N.approached N.env_in N.with_env patience first caller.old result caller.new }
    ensures stand { IfOk result (λ levels. StandOver levels (N.env_in caller.new).held) }
{
    caller.approach();
    levels_beside::retry_open(caller.env(), first, patience)
}

/// Opens a region, and again as long as there is patience. The last refusal is told.
fn open_told<S: Steps, N: TriesCalls<S> + OverEnv<Env<S>>>(
    caller: &mut N,
    first: First,
    patience: Patience,
) -> Result<Levels, Fault>
    ensures opens { OpensTold N.told N.approached N.env_in N.with_env patience first caller.old caller.new result }
    ensures stand { IfOk result (λ levels. StandOver levels (N.env_in caller.new).held) }
{
    let answer = open_beneath(caller, first, patience);
    tell_refusal(caller, first.call(), first.handed(), &answer);
    answer
}

/// Calls of an env beside those of `NativeInterface`, over whoever stands over an env.
/// Native code that is generic over it, and over `OverEnv<Env<S>>`, runs over an env, and over one that is checked, stressed or warned. Each call is the one of `Env` of its name;
/// where it is refused, that is told. `call_beneath` makes each other call of `Env`, but one that enters a stay.
pub trait NativeEnv<S: Steps>: TriesCalls<S> {
    ghost use Rattle.std.specs.Prelude.{◌≡◌, ◌≢◌, ◌≤◌, ◌+◌, [], ◌∷◌, true, false, ℕ, codes, map, None, Some, Err, IsOk, IfOk, IfErr, OnErr};
    ghost use Rattle.jr_word.specs.declared.fault.Fault.TheVariants.{Busy, Memory};
    ghost use Rattle.jr_steps.specs.Knowing.{Took, anything, keeps};
    ghost use Rattle.jr_rule.specs.Notes.{HasSeen, HasSeenJust, IsUnchanged};
    ghost use Rattle.jr_rule.specs.Rooms.{joints_of_note, joints_of_pinned, seen_by_note, seen_by_pinned};
    ghost use Rattle.jr_weak.specs.Counting.{sweeping_steps};
    ghost use Rattle.jr_weak.specs.Marks.{IsMarked};
    ghost use Rattle.jr_weak.specs.Markers.{marks_of, room_of};
    ghost use Rattle.jr_env.specs.Collections.{CallShutsActByAct, FitsRoom, IsNoTurn, announced_collection, collection};
    ghost use Rattle.jr_elements.specs.Copies.{kept};
    ghost use Rattle.jr_frames.specs.Counted.{AreCounted};
    ghost use Rattle.jr_model.specs.declared.frames.Mode.TheVariants.{Abort};
    ghost use Rattle.jr_env.specs.Deeds.{ensure_local_capacity, push_local_frame, release_answer};
    ghost use Rattle.jr_env.specs.Envs.{Does};
    ghost use Rattle.jr_env.specs.Remedies.{collection_in_turn};
    ghost use Rattle.jr_env.specs.TellingCalls.{DidBeneath, DoesIfFits, LeavesEnv, TriedAgain};
    ghost use Rattle.jr_env.specs.TellingRemedies.{CollectsBeneath, DeletesCleared, TriedCollecting, written_answer};
    ghost use Rattle.jr_env.specs.TellingRegions.{OpensRegion, once};
    ghost use Rattle.jr_env.specs.Requests.{for_copy_back};
    ghost use Rattle.jr_env.specs.Retried.{releasing_again};
    ghost use Rattle.jr_env.specs.UsedWords.{words_used};
    ghost use Rattle.jr_env.specs.Words.{explain as explanation};
    ghost use Rattle.jr_env.specs.declared.levels_beside.First.TheVariants.{Array, Text};

    /// Makes a call as `Env::retry` does. The last refusal alone is told.
    ///
    /// # Errors
    ///
    /// Those of the call at its last try.
    ///
    /// What stands then is what the call leaves, and what was told of it.
    ///
    /// # Operations
    ///
    /// Those of each try, and of `tell` where the last is refused.
    fn retry<C: NativeCall<S> + Copy>(
        &mut self,
        call: C,
        patience: Patience,
    ) -> Result<C::Answer, Fault>
        ensures { TriedAgain Self.told Self.tried patience self.old self.new (C.request call) result };

    /// Makes a call as `Env::retry_collecting` does: each try is made as `retry` makes it, and the collection is the env's. The last refusal alone is told, by the call's name.
    ///
    /// # Errors
    ///
    /// E17 where the marker was made for another number of objects than the room has: then no try is made. E14 where the collection was kept out;
    /// else those of the call at its last try.
    ///
    /// What stands then is what the last of these leaves, and what was told of it.
    ///
    /// # Operations
    ///
    /// Those of each try, of the collection, and of `tell` where it is refused.
    fn retry_collecting<C: NativeCall<S> + Copy>(
        &mut self,
        marker: &mut Marker,
        call: C,
        patience: Patience,
    ) -> Result<C::Answer, Fault>
    where
        Self: OverEnv<Env<S>>,
        ensures call { TriedCollecting Self.told Self.tried (CollectsBeneath Self.OverEnv.env_in Self.OverEnv.with_env marker.old None patience.more)
            (FitsRoom marker.old (Self.OverEnv.env_in self.old)) patience self.old self.new (C.request call) result }
        ensures room { room_of marker.new ≡ room_of marker.old };

    /// Makes a call as `Env::retry_collecting_in_turn` does: each try is made as `retry` makes it, and the collections are the env's. The last refusal alone is told, by the call's name.
    ///
    /// # Errors
    ///
    /// E17 where the marker was made for another number of objects than the room has: then no try is made. E14 or E23 where the collection got no turn;
    /// else those of the call at its last try.
    ///
    /// What stands then is what the last of these leaves, and what was told of it.
    ///
    /// # Operations
    ///
    /// Those of each try, of each announcement, and of `tell` where it is refused.
    fn retry_collecting_in_turn<C: NativeCall<S> + Copy>(
        &mut self,
        marker: &mut Marker,
        tries: u32,
        call: C,
        patience: Patience,
    ) -> Result<C::Answer, Fault>
    where
        Self: OverEnv<Env<S>>,
        requires { 1 ≤ tries }
        ensures call { TriedCollecting Self.told Self.tried (CollectsBeneath Self.OverEnv.env_in Self.OverEnv.with_env marker.old (Some tries) patience.more)
            (FitsRoom marker.old (Self.OverEnv.env_in self.old)) patience self.old self.new (C.request call) result }
        ensures room { room_of marker.new ≡ room_of marker.old };

    /// Deletes a weak global reference where it is cleared, as `Env::delete_cleared` does, by `retry` of both calls.
    ///
    /// # Errors
    ///
    /// Those of `is_same_object` with NULL at its last try, and where the reference is cleared those of `delete_weak_global_ref` at its last try.
    /// Each is told by the name of the call that was refused.
    ///
    /// What stands then is what was told, and else nothing has changed.
    ///
    /// # Operations
    ///
    /// Those of each try of the two calls, and of `tell` where one is refused.
    fn delete_cleared(&mut self, weak: Handle, patience: Patience) -> Result<bool, Fault>
        ensures { DeletesCleared Self.told Self.tried Self.tried patience weak.0 self.old self.new result };

    /// A marker for the collections of the room, as `Env::marker`.
    ///
    /// # Errors
    ///
    /// E16 where the memory was refused, of which nobody is told.
    ///
    /// Nothing has changed then.
    ///
    /// # Operations
    ///
    /// None.
    fn marker(&mut self, alloc: Global) -> Result<Marker, Fault>
    where
        Self: OverEnv<Env<S>>,
        ensures memory { IfErr result (λ e. e ≡ Memory) }
        ensures room { IfOk result (λ m. FitsRoom m (Self.OverEnv.env_in self.old)) }
        ensures none { IfOk result (λ m. (o : ℕ) → ¬ (IsMarked (marks_of m) o)) }
        ensures same { self.new ≡ self.old };

    /// Collects as `Env::collect` does.
    ///
    /// # Errors
    ///
    /// E17 where the marker was made for another number of objects; E14 with how many threads were inside, knocking, announcing or collecting at its one step, at least 1.
    ///
    /// What stands then is what was told, and else nothing has changed.
    ///
    /// # Operations
    ///
    /// Those of `Env::collect`, and of `tell` where it is refused.
    fn collect(&mut self, marker: &mut Marker) -> Result<Collected, Fault>
    where
        Self: OverEnv<Env<S>>,
        ensures call { DidBeneath Self.told Self.OverEnv.env_in Self.OverEnv.with_env (λ before behind. DoesIfFits marker.old before behind collection result) self.old self.new
            (codes "Collect") [] None result }
        ensures room { room_of marker.new ≡ room_of marker.old }
        ensures kept { OnErr result (marker.new ≡ marker.old) }
        ensures busy { FitsRoom marker.old (Self.OverEnv.env_in self.old) → IfErr result (λ e. (n : ℕ) × (e ≡ Busy n) × (1 ≤ n)) }
        ensures alone { FitsRoom marker.old (Self.OverEnv.env_in self.old) → (S.facts (Self.OverEnv.env_in self.old).held.steps).stands.config.threads ≡ 1 → IsOk result };

    /// Collects as `Env::collect_announced` does.
    ///
    /// # Errors
    ///
    /// E17 where the marker was made for another number of objects; E14 with how many threads were inside, knocking, announcing or collecting, at least 1,
    /// where another thread kept the gate closed already; E23 with two counts of the open gate, where another thread went in or out between the look at it and the announcement;
    /// E14 with how many other threads were inside or knocking at the last try, at least 1.
    ///
    /// What stands then is what was told, and else nothing has changed.
    ///
    /// # Operations
    ///
    /// Those of `Env::collect_announced`, and of `tell` where it is refused.
    fn collect_announced(&mut self, marker: &mut Marker, tries: u32) -> Result<Collected, Fault>
    where
        Self: OverEnv<Env<S>>,
        requires { 1 ≤ tries }
        ensures call { DidBeneath Self.told Self.OverEnv.env_in Self.OverEnv.with_env (λ before behind. DoesIfFits marker.old before behind (announced_collection tries) result
            × IfOk result (λ _. CallShutsActByAct before behind tries (λ c. sweeping_steps c + 1))) self.old self.new (codes "CollectAnnounced") [] None result }
        ensures room { room_of marker.new ≡ room_of marker.old }
        ensures kept { OnErr result (marker.new ≡ marker.old) }
        ensures refused { FitsRoom marker.old (Self.OverEnv.env_in self.old) → IfErr result IsNoTurn }
        ensures alone { FitsRoom marker.old (Self.OverEnv.env_in self.old) → (S.facts (Self.OverEnv.env_in self.old).held.steps).stands.config.threads ≡ 1 → IsOk result };

    /// Collects as `Env::collect_in_turn` does.
    ///
    /// # Errors
    ///
    /// E17 where the marker was made for another number of objects; E14 with how many threads were inside, knocking, announcing or collecting, at least 1,
    /// where another thread kept the gate closed already; E23 with two counts of the open gate, where another thread went in or out between the look at it and the announcement;
    /// E14 with how many other threads were inside or knocking at the last try, at least 1.
    ///
    /// What stands then is what was told, and else nothing has changed.
    ///
    /// # Operations
    ///
    /// Those of `Env::collect_in_turn`, and of `tell` where it is refused.
    fn collect_in_turn(
        &mut self,
        marker: &mut Marker,
        tries: u32,
        patience: Patience,
    ) -> Result<Collected, Fault>
    where
        Self: OverEnv<Env<S>>,
        requires { 1 ≤ tries }
        ensures call { DidBeneath Self.told Self.OverEnv.env_in Self.OverEnv.with_env
            (λ before behind. DoesIfFits marker.old before behind (collection_in_turn tries patience.more) result) self.old self.new (codes "CollectInTurn") [] None result }
        ensures room { room_of marker.new ≡ room_of marker.old }
        ensures kept { OnErr result (marker.new ≡ marker.old) }
        ensures refused { FitsRoom marker.old (Self.OverEnv.env_in self.old) → IfErr result IsNoTurn }
        ensures alone { FitsRoom marker.old (Self.OverEnv.env_in self.old) → (S.facts (Self.OverEnv.env_in self.old).held.steps).stands.config.threads ≡ 1 → IsOk result };

    /// Tells whether so many more local references can be made, as `Env::ensure_local_capacity`. (JNI Specification, chapter 4, "EnsureLocalCapacity")
    ///
    /// # Errors
    ///
    /// E9 where fewer places are free.
    ///
    /// What stands then is what was told, and else nothing has changed.
    ///
    /// # Operations
    ///
    /// None, but those of `tell` where it is refused.
    fn ensure_local_capacity(&mut self, capacity: u32) -> Result<(), Fault>
    where
        Self: OverEnv<Env<S>>,
        ensures { DidBeneath Self.told Self.OverEnv.env_in Self.OverEnv.with_env (λ before behind. Does before behind (ensure_local_capacity capacity) result) self.old self.new
            (codes "EnsureLocalCapacity") [] None result };

    /// Opens a frame, as `Env::push_local_frame`. (JNI Specification, chapter 4, "PushLocalFrame")
    ///
    /// # Errors
    ///
    /// E9 where 256 frames are open, or fewer places are free.
    ///
    /// What stands then is what was told, and else nothing has changed.
    ///
    /// # Operations
    ///
    /// None, but those of `tell` where it is refused.
    fn push_local_frame(&mut self, capacity: u32) -> Result<(), Fault>
    where
        Self: OverEnv<Env<S>>,
        ensures { DidBeneath Self.told Self.OverEnv.env_in Self.OverEnv.with_env (λ before behind. Does before behind (push_local_frame capacity) result) self.old self.new
            (codes "PushLocalFrame") [] None result };

    /// What a word is, as `Env::explain` tells.
    ///
    /// # Errors
    ///
    /// That of the gate.
    ///
    /// What stands then is what was told, and else nothing has changed.
    ///
    /// # Operations
    ///
    /// Those of `Env::explain`, and of `tell` where it is refused.
    fn explain(&mut self, handle: Handle) -> Result<Explanation, Fault>
    where
        Self: OverEnv<Env<S>>,
        ensures { DidBeneath Self.told Self.OverEnv.env_in Self.OverEnv.with_env (λ before behind. Does before behind (explanation handle.0) result) self.old self.new (codes "Explain")
            (handle.0 ∷ []) None result };

    /// How many words of array space are used, as `Env::words_used`.
    ///
    /// # Errors
    ///
    /// That of the gate.
    ///
    /// What stands then is what was told, and else nothing has changed.
    ///
    /// # Operations
    ///
    /// Those of `Env::words_used`, and of `tell` where it is refused.
    fn words_used(&mut self) -> Result<u32, Fault>
    where
        Self: OverEnv<Env<S>>,
        ensures { DidBeneath Self.told Self.OverEnv.env_in Self.OverEnv.with_env (λ before behind. Does before behind words_used result) self.old self.new (codes "WordsUsed") [] None result };

    /// How many local references the thread has, as `Env::local_counts`.
    ///
    /// # Operations
    ///
    /// None.
    fn local_counts(&mut self) -> LocalCounts
    where
        Self: OverEnv<Env<S>>,
        ensures counted { AreCounted (Self.OverEnv.env_in self.old).held.frames result }
        ensures same { self.new ≡ self.old };

    /// Releases copied elements as `Env::retry_release` does: a write is tried as `retry` makes it. Before the refusals that are told it has E13,
    /// where at its last try a thread was collecting at the entry, or had announced that it will. (JNI Specification, chapter 4, "Release<PrimitiveType>ArrayElements Routines")
    ///
    /// # Errors
    ///
    /// Those of a handle to an object; E5 where it is to a plain object or a string; E6 where it is to an array of other elements; E7 where the array has another number of elements.
    /// The last alone is told.
    ///
    /// The elements are handed back as they were, nothing is written, and what stands is what was told.
    ///
    /// # Operations
    ///
    /// Those of each try, and of `tell` where the last is refused. To abort takes none.
    fn retry_release<E: Elem>(
        &mut self,
        array: Handle,
        elements: Elements<E>,
        mode: Mode,
        patience: Patience,
    ) -> Result<Option<Elements<E>>, (Elements<E>, Fault)>
    where
        Self: OverEnv<Env<S>>,
        ensures writes { mode ≢ Abort → TriedAgain Self.told Self.tried patience self.old self.new (for_copy_back E.KIND array.0 (map E.word_of elements)) (written_answer result) }
        ensures aborts { mode ≡ Abort → LeavesEnv Self.OverEnv.env_in Self.OverEnv.with_env
            (λ before behind. Does before behind (releasing_again patience E.KIND array.0 (map E.word_of elements) mode) (release_answer (map E.word_of) result)) self.old self.new }
        ensures ok { IfOk result (λ left. left ≡ kept mode elements) }
        ensures err { IfErr result (λ refused. refused.0 ≡ elements) };

    /// A note of all that the thread has seen until now, as `Env::note`.
    ///
    /// # Operations
    ///
    /// Those of `Env::note`.
    fn note<Q: Site>(&mut self) -> NoteOf<Q>
    where
        S: StepsIn<Q>,
        Self: OverEnv<Env<S>>,
        ensures same { LeavesEnv Self.OverEnv.env_in Self.OverEnv.with_env (λ before behind. IsUnchanged S.facts before.held.steps behind.held.steps × (behind.held.frames ≡ before.held.frames)
            × (behind.numbers ≡ before.numbers) × (S.joints behind.held.steps ≡ S.joints before.held.steps + 1) × (joints_of_note result.note ≡ 0)) self.old self.new }
        ensures note { HasSeenJust S.facts (Self.OverEnv.env_in self.old).held.steps (seen_by_note result.note) };

    /// Learns all that a note of the room says, as `Env::learn`.
    ///
    /// # Operations
    ///
    /// Those of `Env::learn`.
    fn learn<Q: Site>(&mut self, note: NoteOf<Q>)
    where
        S: StepsIn<Q>,
        Self: OverEnv<Env<S>>,
        ensures { LeavesEnv Self.OverEnv.env_in Self.OverEnv.with_env (λ before behind. Took S.facts before.held.steps behind.held.steps [] anything keeps
            × HasSeen S.facts behind.held.steps (seen_by_note note.note) × (S.joints behind.held.steps ≡ S.joints before.held.steps + joints_of_note note.note + 1)
            × (behind.held.frames ≡ before.held.frames) × (behind.numbers ≡ before.numbers)) self.old self.new };

    /// A pinned note of all that the thread has seen until now, as `Env::pin`.
    ///
    /// # Operations
    ///
    /// Those of `Env::pin`.
    fn pin<Q: Site>(&mut self) -> PinnedNoteOf<Q>
    where
        S: StepsIn<Q>,
        Self: OverEnv<Env<S>>,
        ensures same { LeavesEnv Self.OverEnv.env_in Self.OverEnv.with_env (λ before behind. IsUnchanged S.facts before.held.steps behind.held.steps × (behind.held.frames ≡ before.held.frames)
            × (behind.numbers ≡ before.numbers) × (S.joints behind.held.steps ≡ S.joints before.held.steps + 1) × (joints_of_pinned result.pinned ≡ 0)) self.old self.new }
        ensures note { HasSeenJust S.facts (Self.OverEnv.env_in self.old).held.steps (seen_by_pinned result.pinned) };

    /// Learns all that a pinned note of the room says, as `Env::learn_pinned`; or answers false, where another thread was just learning it.
    ///
    /// # Operations
    ///
    /// Those of `Env::learn_pinned`.
    fn learn_pinned<Q: Site>(&mut self, pinned: &PinnedNoteOf<Q>) -> bool
    where
        S: StepsIn<Q>,
        Self: OverEnv<Env<S>>,
        ensures { LeavesEnv Self.OverEnv.env_in Self.OverEnv.with_env (λ before behind. (result ≡ true → Took S.facts before.held.steps behind.held.steps [] anything keeps
            × HasSeen S.facts behind.held.steps (seen_by_pinned pinned.now.pinned)
            × (S.joints behind.held.steps ≡ S.joints before.held.steps + joints_of_pinned pinned.now.pinned + 2))
            × (result ≡ false → IsUnchanged S.facts before.held.steps behind.held.steps × (S.joints behind.held.steps ≡ S.joints before.held.steps))
            × (behind.held.frames ≡ before.held.frames) × (behind.numbers ≡ before.numbers)) self.old self.new };

    /// Opens a critical region as `Env::get_array_critical` does. (JNI Specification, chapter 4, "GetPrimitiveArrayCritical")
    ///
    /// # Errors
    ///
    /// Those of `Env::get_array_critical`.
    ///
    /// Before that was told the thread stood outside, with its local references as they were. No clause says what the caller is behind it: for that, open the region by `env`.
    ///
    /// # Operations
    ///
    /// Those of `approach`; those of `Env::get_array_critical`, and of `tell` where it is refused.
    fn get_array_critical(&mut self, array: Handle) -> Result<Region<'_, S>, Fault>
    where
        Self: OverEnv<Env<S>>,
        ensures { OpensRegion Self.told Self.approached Self.OverEnv.env_in Self.OverEnv.with_env once (Array array) self.old result };

    /// Opens a critical region as `Env::retry_array_critical` does. The last refusal alone is told.
    ///
    /// # Errors
    ///
    /// Those of `Env::retry_array_critical`.
    ///
    /// Before that was told the thread stood outside, with its local references as they were. No clause says what the caller is behind it: for that, open the region by `env`.
    ///
    /// # Operations
    ///
    /// Those of `approach`; those of each try, and of `tell` where the last is refused.
    fn retry_array_critical(
        &mut self,
        array: Handle,
        patience: Patience,
    ) -> Result<Region<'_, S>, Fault>
    where
        Self: OverEnv<Env<S>>,
        ensures { OpensRegion Self.told Self.approached Self.OverEnv.env_in Self.OverEnv.with_env patience (Array array) self.old result };

    /// Opens a critical region as `Env::get_string_critical` does. (JNI Specification, chapter 4, "GetStringCritical")
    ///
    /// # Errors
    ///
    /// Those of `Env::get_string_critical`.
    ///
    /// Before that was told the thread stood outside, with its local references as they were. No clause says what the caller is behind it: for that, open the region by `env`.
    ///
    /// # Operations
    ///
    /// Those of `approach`; those of `Env::get_string_critical`, and of `tell` where it is refused.
    fn get_string_critical(&mut self, string: Handle) -> Result<Region<'_, S>, Fault>
    where
        Self: OverEnv<Env<S>>,
        ensures { OpensRegion Self.told Self.approached Self.OverEnv.env_in Self.OverEnv.with_env once (Text string) self.old result };

    /// Opens a critical region as `Env::retry_string_critical` does. The last refusal alone is told.
    ///
    /// # Errors
    ///
    /// Those of `Env::retry_string_critical`.
    ///
    /// Before that was told the thread stood outside, with its local references as they were. No clause says what the caller is behind it: for that, open the region by `env`.
    ///
    /// # Operations
    ///
    /// Those of `approach`; those of each try, and of `tell` where the last is refused.
    fn retry_string_critical(
        &mut self,
        string: Handle,
        patience: Patience,
    ) -> Result<Region<'_, S>, Fault>
    where
        Self: OverEnv<Env<S>>,
        ensures { OpensRegion Self.told Self.approached Self.OverEnv.env_in Self.OverEnv.with_env patience (Text string) self.old result };
}

impl<S: Steps, N: TriesCalls<S>> NativeEnv<S> for N {
    fn retry<C: NativeCall<S> + Copy>(
        &mut self,
        call: C,
        patience: Patience,
    ) -> Result<C::Answer, Fault> {
        let answer = try_again(self, call, patience);
        tell_refusal(self, call.name(), call.handed(), &answer);
        answer
    }

    fn retry_collecting<C: NativeCall<S> + Copy>(
        &mut self,
        marker: &mut Marker,
        call: C,
        patience: Patience,
    ) -> Result<C::Answer, Fault>
    where
        Self: OverEnv<Env<S>>,
    {
        let answer = try_collecting(self, marker, None, call, patience);
        tell_refusal(self, call.name(), call.handed(), &answer);
        answer
    }

    fn retry_collecting_in_turn<C: NativeCall<S> + Copy>(
        &mut self,
        marker: &mut Marker,
        tries: u32,
        call: C,
        patience: Patience,
    ) -> Result<C::Answer, Fault>
    where
        Self: OverEnv<Env<S>>,
    {
        let answer = try_collecting(self, marker, Some(tries), call, patience);
        tell_refusal(self, call.name(), call.handed(), &answer);
        answer
    }

    fn delete_cleared(&mut self, weak: Handle, patience: Patience) -> Result<bool, Fault> {
        if self.retry(IsSameObject(weak, Handle::NULL), patience)? {
            self.retry(DeleteWeakGlobalRef(weak), patience)?;
            return Ok(true);
        }
        Ok(false)
    }

    fn marker(&mut self, alloc: Global) -> Result<Marker, Fault>
    where
        Self: OverEnv<Env<S>>,
    {
        Env::marker(self.env(), alloc)
    }

    fn collect(&mut self, marker: &mut Marker) -> Result<Collected, Fault>
    where
        Self: OverEnv<Env<S>>,
    {
        let answer = Env::collect(self.env(), marker);
        tell_refusal(self, "Collect", Handed::Nothing, &answer);
        answer
    }

    fn collect_announced(&mut self, marker: &mut Marker, tries: u32) -> Result<Collected, Fault>
    where
        Self: OverEnv<Env<S>>,
    {
        let answer = Env::collect_announced(self.env(), marker, tries);
        tell_refusal(self, "CollectAnnounced", Handed::Nothing, &answer);
        answer
    }

    fn collect_in_turn(
        &mut self,
        marker: &mut Marker,
        tries: u32,
        patience: Patience,
    ) -> Result<Collected, Fault>
    where
        Self: OverEnv<Env<S>>,
    {
        let answer = Env::collect_in_turn(self.env(), marker, tries, patience);
        tell_refusal(self, "CollectInTurn", Handed::Nothing, &answer);
        answer
    }

    fn ensure_local_capacity(&mut self, capacity: u32) -> Result<(), Fault>
    where
        Self: OverEnv<Env<S>>,
    {
        let answer = Env::ensure_local_capacity(self.env(), capacity);
        tell_refusal(self, "EnsureLocalCapacity", Handed::Nothing, &answer);
        answer
    }

    fn push_local_frame(&mut self, capacity: u32) -> Result<(), Fault>
    where
        Self: OverEnv<Env<S>>,
    {
        let answer = Env::push_local_frame(self.env(), capacity);
        tell_refusal(self, "PushLocalFrame", Handed::Nothing, &answer);
        answer
    }

    fn explain(&mut self, handle: Handle) -> Result<Explanation, Fault>
    where
        Self: OverEnv<Env<S>>,
    {
        let answer = Env::explain(self.env(), handle);
        tell_refusal(self, "Explain", Handed::One(handle), &answer);
        answer
    }

    fn words_used(&mut self) -> Result<u32, Fault>
    where
        Self: OverEnv<Env<S>>,
    {
        let answer = Env::words_used(self.env());
        tell_refusal(self, "WordsUsed", Handed::Nothing, &answer);
        answer
    }

    fn local_counts(&mut self) -> LocalCounts
    where
        Self: OverEnv<Env<S>>,
    {
        Env::local_counts(self.env())
    }

    fn retry_release<E: Elem>(
        &mut self,
        array: Handle,
        elements: Elements<E>,
        mode: Mode,
        patience: Patience,
    ) -> Result<Option<Elements<E>>, (Elements<E>, Fault)>
    where
        Self: OverEnv<Env<S>>,
    {
        if !mode.copies_back() {
            return Env::retry_release(self.env(), array, elements, mode, patience);
        }
        let call = CopyBack {
            array,
            elements: &elements,
        };
        match self.retry(call, patience) {
            Ok(()) => Ok(elements.kept(mode)),
            Err(fault) => Err((elements, fault)),
        }
    }

    fn note<Q: Site>(&mut self) -> NoteOf<Q>
    where
        S: StepsIn<Q>,
        Self: OverEnv<Env<S>>,
    {
        Env::note(self.env())
    }

    fn learn<Q: Site>(&mut self, note: NoteOf<Q>)
    where
        S: StepsIn<Q>,
        Self: OverEnv<Env<S>>,
    {
        Env::learn(self.env(), note);
    }

    fn pin<Q: Site>(&mut self) -> PinnedNoteOf<Q>
    where
        S: StepsIn<Q>,
        Self: OverEnv<Env<S>>,
    {
        Env::pin(self.env())
    }

    fn learn_pinned<Q: Site>(&mut self, pinned: &PinnedNoteOf<Q>) -> bool
    where
        S: StepsIn<Q>,
        Self: OverEnv<Env<S>>,
    {
        Env::learn_pinned(self.env(), pinned)
    }

    fn get_array_critical(&mut self, array: Handle) -> Result<Region<'_, S>, Fault>
    where
        Self: OverEnv<Env<S>>,
    {
        self.retry_array_critical(array, ONCE)
    }

    fn retry_array_critical(
        &mut self,
        array: Handle,
        patience: Patience,
    ) -> Result<Region<'_, S>, Fault>
    where
        Self: OverEnv<Env<S>>,
    {
        let levels = open_told(self, First::Array(array), patience)?;
        Ok(Region::over(self.env(), levels))
    }

    fn get_string_critical(&mut self, string: Handle) -> Result<Region<'_, S>, Fault>
    where
        Self: OverEnv<Env<S>>,
    {
        self.retry_string_critical(string, ONCE)
    }

    fn retry_string_critical(
        &mut self,
        string: Handle,
        patience: Patience,
    ) -> Result<Region<'_, S>, Fault>
    where
        Self: OverEnv<Env<S>>,
    {
        let levels = open_told(self, First::Text(string), patience)?;
        Ok(Region::over(self.env(), levels))
    }
}
