//! The kinds of atomic step, over any row of words.
ghost use Rattle.std.specs.Prelude.{◌≡◌, ◌≢◌, ◌⊎◌, ◌<◌, ◌≤◌, ◌+◌, [], ◌∷◌, true, None, length};
ghost use Rattle.jr_word.specs.Config.{in_limits};
ghost use Rattle.jr_word.specs.declared.handle.RefKind.TheVariants.{Local, Weak};
ghost use Rattle.jr_word.specs.declared.kind.Kind.TheVariants.{Text};
ghost use Rattle.jr_word.specs.Header.{IsHeader};
ghost use Rattle.jr_model.specs.declared.event.Act.TheVariants.{Gate, Read, Write, Clear, Drop, Settle};
ghost use Rattle.jr_model.specs.declared.event.GateAct.TheVariants.{Cancel, Reopen};
ghost use Rattle.jr_steps.specs.Collecting.{ShowsLocal, ShowsElement, IsThere, CanWipe, CanDrop, ShowsDropped, CanMove, ShowsMoved, placed, CanPlace, ShowsPlaced, CanSettle};
ghost use Rattle.jr_model.specs.declared.event.Role.TheVariants.{Outside, Within, Knocking, Announcing, Collecting};
ghost use Rattle.jr_steps.specs.Acts.{act_of_entry, act_of_exit, act_of_bar, act_of_announcement, act_of_gate_load, GateLoadFits, act_of_slot_load, SlotLoadFits, act_of_claim, act_of_free};
ghost use Rattle.jr_steps.specs.Acts.{act_of_put, acts_of_publication, acts_of_top_load, act_of_reservation, found_of, handle_of};
ghost use Rattle.jr_steps.specs.Knowing.{anything, DidAll, KnowsHeader, HasWord, IsWordNow, IsFilled, words_for, ShowsHeader, ShowsPublished, ShowsUsed, WasUsed, ShowsRange, ShowsWord, TookWith};
ghost use Rattle.jr_steps.specs.Knowing.{HasObject, HasOptional, HasLooked, CanReopen, ShowsAnnounced, ShowsBarred, IsFreeSlot, ShowsGate, ShowsSlot, LostClaim, MayKnow, SawPart, Took, Spent, Hinted};
ghost use Rattle.jr_steps.specs.Knowing.{keeps, lets_go};

use crate::loads::{GateLoad, SlotLoad, TopLoad};
use jr_model::Role;
use jr_word::{Config, Elem, GateParts, HandleParts, HeaderParts, LocalParts, RefKind, SlotParts};

/// The steps of one thread: each from `go_in` to `set_top` is one atomic operation on one word of the row, but for `see_part`, which is one for each element.
/// The others tell what the pass is, or spend it, and touch no word.
pub trait Steps {
    ghost use Rattle.jr_steps.specs.Knowing.{Facts, IsOf};
    ghost use Rattle.jr_steps.specs.declared.known.Known.{Known};
    ghost use Rattle.jr_steps.specs.Holdings.{InSpace};

    /// What the pass is, its room, thread and role, and whether it is fresh; what may be known of it; and where its next search for a free slot begins.
    ghost facts: { Self → Facts };

    /// The sizes of the room.
    fn config(&self) -> Config
        ensures { result ≡ (facts self.now).stands.config };

    /// The number of the thread.
    fn thread(&self) -> u8
        ensures { result ≡ (facts self.now).stands.thread };

    /// The last serial of a slot or a local place.
    fn last(&self) -> u32
        ensures { result ≡ (facts self.now).stands.last };

    /// Where the thread stands towards the gate.
    fn role(&self) -> Role
        ensures { result ≡ (facts self.now).stands.role };

    /// Whether the pass is as it was opened: not spent, and with no store to a local word.
    fn fresh(&self) -> bool
        ensures { result ≡ (facts self.now).stands.fresh };

    /// Makes the pass one that is not fresh. It is no step.
    fn spend(&mut self)
        ensures { Spent facts self.old self.new };

    /// Where the pass's next search for a free slot begins: at slot 0 once it is opened. No other pass knows it.
    fn hint(&self) -> u16
        ensures { result ≡ (facts self.now).hint };

    /// Sets where the pass's next search for a free slot begins. It is no step.
    fn keep_hint(&mut self, index: u16)
        requires { index < (facts self.old).stands.config.slots }
        ensures { Hinted facts self.old self.new index };

    /// Enters the gate: true where it was open, neither shut nor announced to be.
    fn go_in(&mut self) -> bool
        requires { (facts self.old).stands.role ≡ Outside }
        ensures { Took facts self.old self.new (act_of_entry result ∷ []) anything keeps };

    /// Leaves the gate.
    fn go_out(&mut self)
        requires { ((facts self.old).stands.role ≡ Within) ⊎ ((facts self.old).stands.role ≡ Knocking) }
        ensures { Took facts self.old self.new (act_of_exit (facts self.old).stands.role ∷ []) anything lets_go };

    /// Shuts the gate for a collection where no thread is inside, knocking, announcing or collecting. Else how many are.
    fn bar(&mut self) -> Result<(), u32>
        requires { (facts self.old).stands.role ≡ Outside }
        ensures { Took facts self.old self.new (act_of_bar result ∷ []) anything (ShowsBarred result) };

    /// Announces that the gate will be shut, where it is open and counts as many as were looked at: entries are barred from then on. Else what was found.
    fn announce(&mut self, looked: u16) -> Result<(), GateParts>
        requires { (facts self.old).stands.role ≡ Outside }
        ensures { Took facts self.old self.new (act_of_announcement result ∷ []) anything (ShowsAnnounced looked result) };

    /// Takes the announcement back.
    fn cancel(&mut self)
        requires { (facts self.old).stands.role ≡ Announcing }
        ensures { Took facts self.old self.new (Gate Cancel ∷ []) anything lets_go };

    /// Shuts the gate for a collection, as announced, where no other thread is inside or knocking. Else how many are.
    fn bar_announced(&mut self) -> Result<(), u32>
        requires { (facts self.old).stands.role ≡ Announcing }
        ensures { Took facts self.old self.new (act_of_bar result ∷ []) anything (ShowsBarred result) };

    /// Opens the gate after a collection. No move may be unfinished.
    fn unbar(&mut self)
        requires role { (facts self.old).stands.role ≡ Collecting }
        requires closed { MayKnow facts self.old CanReopen }
        ensures { Took facts self.old self.new (Gate Reopen ∷ []) CanReopen lets_go };

    /// Loads the gate, which counts as what it is named.
    fn see_gate(&mut self, name: GateLoad) -> GateParts
        requires { GateLoadFits (facts self.old).stands.role name }
        ensures { Took facts self.old self.new (act_of_gate_load name result ∷ []) anything (λ j k. ShowsGate result k × keeps j k) };

    /// Loads a slot, which counts as what it is named.
    fn see_slot(&mut self, index: u16, name: SlotLoad) -> SlotParts
        requires role { (facts self.old).stands.role ≡ Within }
        requires row { index < (facts self.old).stands.config.slots }
        requires fits { SlotLoadFits index name }
        ensures { Took facts self.old self.new (act_of_slot_load index name result ∷ []) anything (λ j k. ShowsSlot index result k × keeps j k) };

    /// Exchanges the free word of a slot for a new reference's, or gives what was found in its place.
    fn claim(
        &mut self,
        index: u16,
        serial: u32,
        kind: RefKind,
        object: u16,
    ) -> Result<(), SlotParts>
        requires role { (facts self.old).stands.role ≡ Within }
        requires row { index < (facts self.old).stands.config.slots }
        requires kind { kind ≢ Local }
        requires looked { MayKnow facts self.old (λ k. HasObject object k × IsFreeSlot index serial k) }
        ensures { Took facts self.old self.new (act_of_claim index serial kind object result ∷ []) (λ k. HasObject object k × IsFreeSlot index serial k) (λ j k. LostClaim index result j k
            × keeps j k) };

    /// Exchanges the word of a reference that was looked at for a free one: true where it still stood.
    fn free(&mut self, handle: HandleParts, object: Option<u16>) -> bool
        requires role { (facts self.old).stands.role ≡ Within }
        requires row { handle.index < (facts self.old).stands.config.slots }
        requires looked { MayKnow facts self.old (HasLooked handle (found_of object)) }
        ensures { Took facts self.old self.new (act_of_free handle result ∷ []) (HasLooked handle (found_of object)) keeps };

    /// Stores an object, or none, in a local word of the thread's own.
    fn put_local(&mut self, place: u16, object: Option<u16>)
        requires role { (facts self.old).stands.role ≡ Within }
        requires place { place < (facts self.old).stands.config.locals }
        requires object { MayKnow facts self.old (HasOptional object) }
        ensures { Took facts self.old self.new (act_of_put place object ∷ []) (HasOptional object) keeps };

    /// Loads the header of an object, which the pass knows from then on: none where it is not present.
    fn see_header(&mut self, object: u16) -> Option<HeaderParts>
        requires role { (facts self.old).stands.role ≡ Within }
        requires number { (1 ≤ object) × (object ≤ (facts self.old).stands.config.objects) }
        ensures { Took facts self.old self.new [] anything (ShowsHeader object result) };

    /// Gives an object its header, unless one with this number is present: true where it is new. Its elements are those of a range of the pass's own, which it gives away.
    fn claim_header(&mut self, object: u16, header: HeaderParts) -> bool
        requires role { (facts self.old).stands.role ≡ Within }
        requires number { (1 ≤ object) × (object ≤ (facts self.old).stands.config.objects) }
        requires header { IsHeader header }
        requires filled { MayKnow facts self.old (IsFilled header) }
        ensures { TookWith facts self.old self.new (λ k. acts_of_publication object header.kind (words_for header k) result) (facts self.old).stands (IsFilled header)
            (ShowsPublished object header result) };

    /// Loads the top, which counts as what it is named: how many words are reserved.
    fn see_top(&mut self, name: TopLoad) -> u32
        requires { (facts self.old).stands.role ≡ Within }
        ensures { Took facts self.old self.new (acts_of_top_load (facts self.old).stands.config.words name result) anything (λ j k. ShowsUsed result k × keeps j k) };

    /// Reserves words beside a number of words that was used at a moment of this stay, as a look at the top shows one, where that number is used still: right behind it the two together are.
    /// Or tells how many are used.
    fn claim_top(&mut self, looked: u32, more: u32) -> Result<(), u32>
        requires role { (facts self.old).stands.role ≡ Within }
        requires room { looked + more ≤ (facts self.old).stands.config.words }
        requires looked { MayKnow facts self.old (WasUsed looked) }
        ensures { Took facts self.old self.new (act_of_reservation looked more result ∷ []) (WasUsed looked) (ShowsRange looked more result) };

    /// Loads an element of an object whose header the pass knows.
    fn see_element(&mut self, object: u16, header: HeaderParts, index: u32) -> u64
        requires role { (facts self.old).stands.role ≡ Within }
        requires index { index < header.length }
        requires known { MayKnow facts self.old (KnowsHeader object header) }
        ensures { Took facts self.old self.new (Read object index result ∷ []) (KnowsHeader object header) keeps };

    /// Loads elements of an object whose header the pass knows, from an index on: as many as the slice has room for, in rising order, and each by one atomic operation.
    fn see_part<E: Elem>(
        &mut self,
        object: u16,
        header: HeaderParts,
        start: u32,
        elements: &mut [E],
    )
        requires role { (facts self.old).stands.role ≡ Within }
        requires part { start + length elements.old ≤ header.length }
        requires known { MayKnow facts self.old (KnowsHeader object header) }
        ensures size { length elements.new ≡ length elements.old }
        ensures steps { SawPart facts self.old self.new object header start E.element_of elements.new };

    /// Stores an element of an object whose header the pass knows. It is no string.
    fn put_element(&mut self, object: u16, header: HeaderParts, index: u32, word: u64)
        requires role { (facts self.old).stands.role ≡ Within }
        requires index { index < header.length }
        requires kind { header.kind ≢ Text }
        requires known { MayKnow facts self.old (λ k. KnowsHeader object header k × IsWordNow header.kind word k) }
        ensures { Took facts self.old self.new (Write object index word ∷ []) (λ k. KnowsHeader object header k × IsWordNow header.kind word k) keeps };

    /// Stores a word of a range of the pass's own.
    fn put_reserved(&mut self, place: u32, index: u32, word: u64)
        requires role { (facts self.old).stands.role ≡ Within }
        requires own { MayKnow facts self.old (HasWord place index) }
        ensures { Took facts self.old self.new [] (HasWord place index) (ShowsWord place index word) };

    /// Loads a slot during a collection.
    fn scan_slot(&mut self, index: u16) -> SlotParts
        requires role { (facts self.old).stands.role ≡ Collecting }
        requires row { index < (facts self.old).stands.config.slots }
        ensures { Took facts self.old self.new [] anything (λ j k. ShowsSlot index result k × keeps j k) };

    /// Loads a local word of any thread during a collection.
    fn scan_local(&mut self, thread: u8, place: u16) -> LocalParts
        requires role { (facts self.old).stands.role ≡ Collecting }
        requires thread { thread < (facts self.old).stands.config.threads }
        requires place { place < (facts self.old).stands.config.locals }
        ensures { Took facts self.old self.new [] anything (λ j k. ShowsLocal thread place result k × keeps j k) };

    /// Loads the header of an object during a collection. The pass knows it from then on.
    fn scan_header(&mut self, object: u16) -> Option<HeaderParts>
        requires role { (facts self.old).stands.role ≡ Collecting }
        requires number { (1 ≤ object) × (object ≤ (facts self.old).stands.config.objects) }
        ensures { Took facts self.old self.new [] anything (ShowsHeader object result) };

    /// Loads an element of an object whose header the pass knows, during a collection.
    fn scan_element(&mut self, object: u16, header: HeaderParts, index: u32) -> u64
        requires role { (facts self.old).stands.role ≡ Collecting }
        requires index { index < header.length }
        requires there { MayKnow facts self.old (IsThere object header index) }
        ensures { Took facts self.old self.new [] (IsThere object header index) (λ j k. ShowsElement object index result k × keeps j k) };

    /// Loads the top during a collection: how many words are reserved.
    fn scan_top(&mut self) -> u32
        requires { (facts self.old).stands.role ≡ Collecting }
        ensures { Took facts self.old self.new [] anything (λ j k. ShowsUsed result k × keeps j k) };

    /// Takes its object from a weak reference, which stays.
    fn wipe(&mut self, index: u16, serial: u32, object: u16)
        requires role { (facts self.old).stands.role ≡ Collecting }
        requires row { index < (facts self.old).stands.config.slots }
        requires can { MayKnow facts self.old (CanWipe index serial object) }
        ensures { Took facts self.old self.new (Clear (handle_of Weak serial index) ∷ []) (CanWipe index serial object) keeps };

    /// Takes an object away that nothing reaches and no weak reference names.
    fn drop_header(&mut self, object: u16)
        requires role { (facts self.old).stands.role ≡ Collecting }
        requires number { (1 ≤ object) × (object ≤ (facts self.old).stands.config.objects) }
        requires can { MayKnow facts self.old (CanDrop object) }
        ensures { Took facts self.old self.new (Drop object ∷ []) (CanDrop object) (ShowsDropped object) };

    /// Stores the next element of an object that moves down to a new place.
    fn move_element(&mut self, object: u16, header: HeaderParts, place: u32, index: u32, word: u64)
        requires role { (facts self.old).stands.role ≡ Collecting }
        requires index { index < header.length }
        requires can { MayKnow facts self.old (CanMove object header place index word) }
        ensures { Took facts self.old self.new [] (CanMove object header place index word) (ShowsMoved object place index) };

    /// Gives an object the header of its new place, once all its elements are there.
    fn set_header(&mut self, object: u16, header: HeaderParts, place: u32)
        requires role { (facts self.old).stands.role ≡ Collecting }
        requires number { (1 ≤ object) × (object ≤ (facts self.old).stands.config.objects) }
        requires header { IsHeader (placed header place) }
        requires can { MayKnow facts self.old (CanPlace object header place) }
        ensures { Took facts self.old self.new [] (CanPlace object header place) (ShowsPlaced object header place) };

    /// Sets how many words are used.
    fn set_top(&mut self, used: u32)
        requires role { (facts self.old).stands.role ≡ Collecting }
        requires room { used ≤ (facts self.old).stands.config.words }
        requires can { MayKnow facts self.old (CanSettle used) }
        ensures { Took facts self.old self.new (Settle used ∷ []) (CanSettle used) keeps };

    /// What is known is legal, of this thread, and of a fresh pass that it has stored no local reference.
    ghost fits: { (s : Self) (k : Known) → (facts s).knows k → IsOf (facts s).stands k };

    /// Over plain words the thread itself did all that it has seen: nobody else does anything there, whatever steps and calls it makes.
    ghost lone: { (s : Self) (k : Known) → (facts s).stands.room ≡ None → (facts s).knows k → DidAll k };

    ghost some_known: { (s : Self) → MayKnow facts s anything };

    /// What the pass holds lies in the space.
    ghost in_space: { (s : Self) (k : Known) → (facts s).knows k → InSpace k.config k.holdings };

    /// The sizes are within the limits of a room.
    ghost limits: { (s : Self) → in_limits (facts s).stands.config ≡ true };

    /// The thread is one of the room's.
    ghost row: { (s : Self) → (facts s).stands.thread < (facts s).stands.config.threads };

    /// A search can begin at the hint.
    ghost below: { (s : Self) → (facts s).hint < (facts s).stands.config.slots };
}
