//! The steps of one thread, over any words: each is one operation on one word.
ghost use Rattle.std.specs.Prelude.{◌≡◌};
ghost use Rattle.jr_rule.specs.Cells.{IsStanding};

use crate::cells::{Cells, add, element_at, exchange, header_at, load, store, take};
use crate::parts::Parts;
use crate::words::{
    GATE, TOP, all_counted, freed_slot, is_closed, local_at, local_parts, reference, slot_at,
    top_word,
};
use jr_model::Role;
use jr_steps::{GateLoad, SlotLoad, Steps, TopLoad};
use jr_word::{
    Config, Elem, GateParts, GateState, GateWord, HandleParts, Header, HeaderParts, LocalParts,
    LocalWord, RefKind, SlotParts, SlotWord, TopWord,
};
use std::marker::Brand;

/// The steps of one thread over words.
#[derive(Drop)]
pub struct StepsOver<C: Cells<P>, P: Copy> {
    /// Who steps on the words.
    pub cells: C,
    /// Where the thread stands towards the gate.
    pub role: Role,
    /// Whether no local word was stored and the pass was not spent.
    pub fresh: bool,
    /// Where the next search for a free slot begins.
    pub hint: u16,
    /// Where the words are.
    pub place: P,
    ghost at: { C.are_at cells place } by { C.one cells place },
    ghost stands: { IsStanding (C.sight cells) role fresh hint },
}

impl<C: Cells<P>, P: Copy> StepsOver<C, P> {
    ghost use Rattle.std.specs.Prelude.{◌⊎◌, ◌≤◌, [], ◌∷◌};
    ghost use Rattle.jr_model.specs.declared.event.Role.TheVariants.{Within, Collecting};
    ghost use Rattle.jr_steps.specs.Acts.{act_of_gate_load, GateLoadFits};
    ghost use Rattle.jr_steps.specs.Knowing.{anything, ShowsGate, ShowsHeader, Took, keeps};
    ghost use Rattle.jr_rule.specs.Over.{facts_over, LooksSo};

    /// Loads the gate, which counts as what it is named.
    pub(crate) fn look(&mut self, name: GateLoad) -> GateParts
        requires { GateLoadFits self.old.role name }
        ensures step { Took facts_over self.old self.new (act_of_gate_load name result ∷ []) anything (λ j k. ShowsGate result k × keeps j k) }
        ensures seen { LooksSo (C.sight self.old.cells) (C.sight self.new.cells) self.old.role name result }
        ensures counted { C.joints self.new.cells ≡ C.joints self.old.cells }
    {
        let about = (name, self.role);
        let found = load::<C, P, Brand, (GateLoad, Role)>(&mut self.cells, self.place, GATE, about);
        GateWord::parts(found).unwrap()
    }

    /// Loads the header of an object, within or during a collection.
    #[inline(always)]
    fn header_of(&mut self, object: u16) -> Option<HeaderParts>
        requires role { (self.old.role ≡ Within) ⊎ (self.old.role ≡ Collecting) }
        requires number { (1 ≤ object) × (object ≤ (C.sight self.old.cells).first.config.objects) }
        ensures { Took facts_over self.old self.new [] anything (ShowsHeader object result) }
    {
        let at = header_at::<C, P>(&self.cells, self.place, u32::from(object));
        let about = (object, self.role);
        let found = load::<C, P, Brand, (u16, Role)>(&mut self.cells, self.place, at, about);
        Header::of_word(found)
    }
}

impl<C: Parts<P>, P: Copy> Steps for StepsOver<C, P> {
    ghost use Rattle.std.specs.Prelude.{◌≢◌, ◌⊎◌, ◌<◌, [], ◌∷◌};
    ghost use Rattle.jr_word.specs.declared.handle.RefKind.TheVariants.{Local, Weak};
    ghost use Rattle.jr_model.specs.declared.event.Act.TheVariants.{Gate, Clear};
    ghost use Rattle.jr_model.specs.declared.event.GateAct.TheVariants.{Cancel, Reopen};
    ghost use Rattle.jr_model.specs.declared.event.Role.TheVariants.{Outside, Within, Knocking, Announcing, Collecting};
    ghost use Rattle.jr_steps.specs.Acts.{act_of_entry, act_of_exit, act_of_bar, act_of_announcement, act_of_slot_load, SlotLoadFits, act_of_claim, act_of_free, found_of, handle_of};
    ghost use Rattle.jr_steps.specs.Collecting.{CanWipe};
    ghost use Rattle.jr_steps.specs.Knowing.{anything, HasObject, HasLooked, CanReopen, ShowsAnnounced, ShowsBarred, IsFreeSlot, ShowsSlot, LostClaim, MayKnow, Took, keeps, lets_go};
    ghost use Rattle.jr_rule.specs.Cells.{facts_at};
    ghost use Rattle.jr_rule.specs.CellLaws.{some_of, among_of};
    ghost use Rattle.jr_rule.specs.Over.{facts_over};

    ghost facts = { λ s. facts_at (C.sight s.cells) s.role s.fresh s.hint };

    fn config(&self) -> Config {
        self.cells.config(self.place)
    }

    fn thread(&self) -> u8 {
        self.cells.thread(self.place)
    }

    fn last(&self) -> u32 {
        self.cells.last(self.place)
    }

    fn role(&self) -> Role {
        self.role
    }

    fn fresh(&self) -> bool {
        self.fresh
    }

    fn spend(&mut self) {
        self.fresh = false;
    }

    fn hint(&self) -> u16 {
        self.hint
    }

    fn keep_hint(&mut self, index: u16) {
        self.hint = index;
    }

    fn go_in(&mut self) -> bool
        requires { self.old.role ≡ Outside }
        ensures step { Took facts_over self.old self.new (act_of_entry result ∷ []) anything keeps }
        ensures seen { C.goes self.old.cells self.new.cells (act_of_entry result ∷ []) }
    {
        // (the role that it mostly is, stored before the addition: the exit's subtraction waits for every store
        // before it, and would wait for one that depends on what the entry found)
        self.role = Role::Within;
        let found = add::<C, P, Brand, ()>(&mut self.cells, self.place, GATE, 1, ());
        if is_closed(found) {
            self.role = Role::Knocking;
            return false;
        }
        true
    }

    fn go_out(&mut self)
        requires { (self.old.role ≡ Within) ⊎ (self.old.role ≡ Knocking) }
        ensures step { Took facts_over self.old self.new (act_of_exit self.old.role ∷ []) anything lets_go }
        ensures seen { C.goes self.old.cells self.new.cells (act_of_exit self.old.role ∷ []) }
    {
        take::<C, P, Brand, Role>(&mut self.cells, self.place, GATE, 1, self.role);
        self.role = Role::Outside;
    }

    fn bar(&mut self) -> Result<(), u32>
        requires { self.old.role ≡ Outside }
        ensures step { Took facts_over self.old self.new (act_of_bar result ∷ []) anything (ShowsBarred result) }
        ensures seen { C.goes self.old.cells self.new.cells (act_of_bar result ∷ []) }
    {
        let (open, shut) = (0, GateWord::SHUT);
        let found = exchange::<C, P, Brand, ()>(&mut self.cells, self.place, GATE, open, shut, ());
        if found != 0 {
            return Err(all_counted(GateWord::parts(found).unwrap()));
        }
        self.role = Role::Collecting;
        Ok(())
    }

    fn announce(&mut self, looked: u16) -> Result<(), GateParts>
        requires { self.old.role ≡ Outside }
        ensures step { Took facts_over self.old self.new (act_of_announcement result ∷ []) anything (ShowsAnnounced looked result) }
        ensures seen { C.goes self.old.cells self.new.cells (act_of_announcement result ∷ []) }
    {
        let open = GateWord::pack(GateParts {
            count: looked,
            state: GateState::Open,
        });
        let announced = GateWord::pack(GateParts {
            count: looked,
            state: GateState::Announced,
        });
        let found = exchange::<C, P, Brand, u16>(
            &mut self.cells,
            self.place,
            GATE,
            open.0,
            announced.0,
            looked,
        );
        if found != open.0 {
            return Err(GateWord::parts(found).unwrap());
        }
        self.role = Role::Announcing;
        Ok(())
    }

    fn cancel(&mut self)
        requires { self.old.role ≡ Announcing }
        ensures step { Took facts_over self.old self.new (Gate Cancel ∷ []) anything lets_go }
        ensures seen { C.goes self.old.cells self.new.cells (Gate Cancel ∷ []) }
    {
        take::<C, P, Brand, ()>(&mut self.cells, self.place, GATE, GateWord::ANNOUNCED, ());
        self.role = Role::Outside;
    }

    fn bar_announced(&mut self) -> Result<(), u32>
        requires { self.old.role ≡ Announcing }
        ensures step { Took facts_over self.old self.new (act_of_bar result ∷ []) anything (ShowsBarred result) }
        ensures seen { C.goes self.old.cells self.new.cells (act_of_bar result ∷ []) }
    {
        let (announced, shut) = (GateWord::ANNOUNCED, GateWord::SHUT);
        let found = exchange::<C, P, Brand, ()>(
            &mut self.cells,
            self.place,
            GATE,
            announced,
            shut,
            (),
        );
        if found != GateWord::ANNOUNCED {
            return Err(u32::from(GateWord::parts(found).unwrap().count));
        }
        self.role = Role::Collecting;
        Ok(())
    }

    fn unbar(&mut self)
        requires role { self.old.role ≡ Collecting }
        requires closed { MayKnow facts_over self.old CanReopen }
        ensures step { Took facts_over self.old self.new (Gate Reopen ∷ []) CanReopen lets_go }
        ensures seen { C.goes self.old.cells self.new.cells (Gate Reopen ∷ []) }
    {
        take::<C, P, Brand, ()>(&mut self.cells, self.place, GATE, GateWord::SHUT, ());
        self.role = Role::Outside;
    }

    fn see_gate(&mut self, name: GateLoad) -> GateParts {
        self.look(name)
    }

    #[inline(always)]
    fn see_slot(&mut self, index: u16, name: SlotLoad) -> SlotParts
        requires role { self.old.role ≡ Within }
        requires row { index < (C.sight self.old.cells).first.config.slots }
        requires fits { SlotLoadFits index name }
        ensures step { Took facts_over self.old self.new (act_of_slot_load index name result ∷ []) anything (λ j k. ShowsSlot index result k × keeps j k) }
        ensures seen { C.goes self.old.cells self.new.cells (act_of_slot_load index name result ∷ []) }
    {
        let at = slot_at(index);
        let about = (index, name);
        let found = load::<C, P, Brand, (u16, SlotLoad)>(&mut self.cells, self.place, at, about);
        SlotWord::of_word(found)
    }

    fn claim(
        &mut self,
        index: u16,
        serial: u32,
        kind: RefKind,
        object: u16,
    ) -> Result<(), SlotParts>
        requires role { self.old.role ≡ Within }
        requires row { index < (C.sight self.old.cells).first.config.slots }
        requires kind { kind ≢ Local }
        requires looked { MayKnow facts_over self.old (λ k. HasObject object k × IsFreeSlot index serial k) }
        ensures step { Took facts_over self.old self.new (act_of_claim index serial kind object result ∷ []) (λ k. HasObject object k × IsFreeSlot index serial k) (λ j k. LostClaim index result j k
            × keeps j k) }
        ensures seen { C.goes self.old.cells self.new.cells (act_of_claim index serial kind object result ∷ []) }
    {
        let at = slot_at(index);
        let looked = SlotWord::pack(SlotParts::Free { serial });
        let made = SlotWord::pack(reference(kind, serial, Some(object)));
        let about = (index, serial, kind, object);
        let found = exchange::<C, P, Brand, (u16, u32, RefKind, u16)>(
            &mut self.cells,
            self.place,
            at,
            looked.0,
            made.0,
            about,
        );
        if found != looked.0 {
            return Err(SlotWord::of_word(found));
        }
        Ok(())
    }

    #[inline(always)]
    fn free(&mut self, handle: HandleParts, object: Option<u16>) -> bool
        requires role { self.old.role ≡ Within }
        requires row { handle.index < (C.sight self.old.cells).first.config.slots }
        requires looked { MayKnow facts_over self.old (HasLooked handle (found_of object)) }
        ensures step { Took facts_over self.old self.new (act_of_free handle result ∷ []) (HasLooked handle (found_of object)) keeps }
        ensures seen { C.goes self.old.cells self.new.cells (act_of_free handle result ∷ []) }
    {
        let at = slot_at(handle.index);
        let looked = SlotWord::pack(reference(handle.kind, handle.serial, object));
        let freed = SlotWord::pack(freed_slot(handle.serial, self.cells.last(self.place)));
        let about = (handle, object);
        let found = exchange::<C, P, Brand, (HandleParts, Option<u16>)>(
            &mut self.cells,
            self.place,
            at,
            looked.0,
            freed.0,
            about,
        );
        found == looked.0
    }

    fn put_local(&mut self, place: u16, object: Option<u16>) {
        let config = self.cells.config(self.place);
        let own = self.cells.thread(self.place);
        let at = local_at(&config, own, place);
        let new = LocalWord::pack(local_parts(object));
        let about = (place, object);
        store::<C, P, Brand, (u16, Option<u16>)>(&mut self.cells, self.place, at, new.0, about);
        self.fresh = false;
    }

    fn see_header(&mut self, object: u16) -> Option<HeaderParts> {
        self.header_of(object)
    }

    fn claim_header(&mut self, object: u16, header: HeaderParts) -> bool {
        let at = header_at::<C, P>(&self.cells, self.place, u32::from(object));
        let new = Header::pack(header);
        let about = (object, header);
        let found = exchange::<C, P, Brand, (u16, HeaderParts)>(
            &mut self.cells,
            self.place,
            at,
            0,
            new.0,
            about,
        );
        found == 0
    }

    fn see_top(&mut self, name: TopLoad) -> u32 {
        let found = load::<C, P, Brand, TopLoad>(&mut self.cells, self.place, TOP, name);
        TopWord::parts(found).unwrap().used
    }

    fn claim_top(&mut self, looked: u32, more: u32) -> Result<(), u32> {
        let old = top_word(looked);
        let new = top_word(looked + more);
        let about = (looked, more);
        let found = exchange::<C, P, Brand, (u32, u32)>(
            &mut self.cells,
            self.place,
            TOP,
            old,
            new,
            about,
        );
        if found != old {
            return Err(TopWord::parts(found).unwrap().used);
        }
        Ok(())
    }

    fn see_element(&mut self, object: u16, header: HeaderParts, index: u32) -> u64 {
        let at = element_at::<C, P>(&self.cells, self.place, header.place, index);
        let about = (object, header, index);
        load::<C, P, Brand, (u16, HeaderParts, u32)>(&mut self.cells, self.place, at, about)
    }

    #[inline(always)]
    fn see_part<E: Elem>(
        &mut self,
        object: u16,
        header: HeaderParts,
        start: u32,
        elements: &mut [E],
    ) {
        self.cells
            .load_part(self.place, object, header, start, elements);
    }

    fn put_element(&mut self, object: u16, header: HeaderParts, index: u32, word: u64) {
        let at = element_at::<C, P>(&self.cells, self.place, header.place, index);
        let about = (object, header, index);
        store::<C, P, Brand, (u16, HeaderParts, u32)>(&mut self.cells, self.place, at, word, about);
    }

    fn put_reserved(&mut self, place: u32, index: u32, word: u64) {
        let at = element_at::<C, P>(&self.cells, self.place, place, index);
        store::<C, P, Brand, (u32, u32)>(&mut self.cells, self.place, at, word, (place, index));
    }

    fn scan_slot(&mut self, index: u16) -> SlotParts {
        let at = slot_at(index);
        let found = load::<C, P, Brand, u16>(&mut self.cells, self.place, at, index);
        SlotWord::of_word(found)
    }

    fn scan_local(&mut self, thread: u8, place: u16) -> LocalParts {
        let config = self.cells.config(self.place);
        let at = local_at(&config, thread, place);
        let found = load::<C, P, Brand, (u8, u16)>(
            &mut self.cells,
            self.place,
            at,
            (thread, place),
        );
        LocalWord::parts(found).unwrap()
    }

    fn scan_header(&mut self, object: u16) -> Option<HeaderParts> {
        self.header_of(object)
    }

    fn scan_element(&mut self, object: u16, header: HeaderParts, index: u32) -> u64 {
        let at = element_at::<C, P>(&self.cells, self.place, header.place, index);
        let about = (object, header, index);
        load::<C, P, Brand, (u16, HeaderParts, u32)>(&mut self.cells, self.place, at, about)
    }

    fn scan_top(&mut self) -> u32 {
        let found = load::<C, P, Brand, ()>(&mut self.cells, self.place, TOP, ());
        TopWord::parts(found).unwrap().used
    }

    fn wipe(&mut self, index: u16, serial: u32, object: u16)
        requires role { self.old.role ≡ Collecting }
        requires row { index < (C.sight self.old.cells).first.config.slots }
        requires can { MayKnow facts_over self.old (CanWipe index serial object) }
        ensures step { Took facts_over self.old self.new (Clear (handle_of Weak serial index) ∷ []) (CanWipe index serial object) keeps }
        ensures seen { C.goes self.old.cells self.new.cells (Clear (handle_of Weak serial index) ∷ []) }
    {
        let at = slot_at(index);
        let looked = SlotWord::pack(SlotParts::Weak {
            serial,
            object: Some(object),
        });
        let cleared = SlotWord::pack(SlotParts::Weak {
            serial,
            object: None,
        });
        let about = (index, serial, object);
        exchange::<C, P, Brand, (u16, u32, u16)>(
            &mut self.cells,
            self.place,
            at,
            looked.0,
            cleared.0,
            about,
        );
    }

    fn drop_header(&mut self, object: u16) {
        let at = header_at::<C, P>(&self.cells, self.place, u32::from(object));
        store::<C, P, Brand, u16>(&mut self.cells, self.place, at, 0, object);
    }

    fn move_element(
        &mut self,
        object: u16,
        header: HeaderParts,
        place: u32,
        index: u32,
        word: u64,
    ) {
        let at = element_at::<C, P>(&self.cells, self.place, place, index);
        let about = (object, header, place, index);
        store::<C, P, Brand, (u16, HeaderParts, u32, u32)>(
            &mut self.cells,
            self.place,
            at,
            word,
            about,
        );
    }

    fn set_header(&mut self, object: u16, header: HeaderParts, place: u32) {
        let at = header_at::<C, P>(&self.cells, self.place, u32::from(object));
        let new = Header::pack(HeaderParts { place, ..header });
        let about = (object, header, place);
        store::<C, P, Brand, (u16, HeaderParts, u32)>(
            &mut self.cells,
            self.place,
            at,
            new.0,
            about,
        );
    }

    fn set_top(&mut self, used: u32) {
        let new = top_word(used);
        store::<C, P, Brand, u32>(&mut self.cells, self.place, TOP, new, used);
    }

    ghost fits = { λ s k h. h.1 };

    ghost lone = { λ s k none h. (C.sound s.cells s.place s.at).lone none k (among_of (C.sight s.cells) s.role s.fresh k h) };

    ghost some_known = { λ s. some_of (C.sight s.cells) s.role s.fresh s.hint s.stands };

    ghost in_space = { λ s k h. (C.sound s.cells s.place s.at).space k (among_of (C.sight s.cells) s.role s.fresh k h) };

    ghost limits = { λ s. (C.sound s.cells s.place s.at).sized.limits };

    ghost row = { λ s. (C.sound s.cells s.place s.at).row };

    ghost below = { λ s. s.stands.below };
}
