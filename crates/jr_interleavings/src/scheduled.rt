//! Steps that wait for their turn, and that the machine takes too.

use crate::run::Baton;
use crate::step::Step;
use jr_steps::{GateLoad, Role, SlotLoad, Steps, TopLoad};
use jr_word::{Config, Elem, GateParts, HandleParts, HeaderParts, LocalParts, RefKind, SlotParts};
use std::sync::Wait;

/// The steps of a thread. Before each step it waits for its turn, but for looks of a collection:
/// between its shut of the gate and its reopening nobody else is inside, and who knocks looks at the gate alone and changes it alone,
/// so that such a look commutes with each step that another thread can take then.
#[derive(Drop)]
pub(crate) struct Scheduled<'r, 'a, R: Wait, S: Steps> {
    pub(crate) steps: S,
    pub(crate) baton: Baton<'r, 'a, R>,
}

impl<'r, 'a, R: Wait, S: Steps> Steps for Scheduled<'r, 'a, R, S> {
    ghost facts = { λ s. S.facts s.steps };

    fn config(&self) -> Config {
        self.steps.config()
    }

    fn thread(&self) -> u8 {
        self.steps.thread()
    }

    fn last(&self) -> u32 {
        self.steps.last()
    }

    fn role(&self) -> Role {
        self.steps.role()
    }

    fn fresh(&self) -> bool {
        self.steps.fresh()
    }

    fn spend(&mut self) {
        self.steps.spend();
    }

    fn hint(&self) -> u16 {
        self.steps.hint()
    }

    fn keep_hint(&mut self, index: u16) {
        self.steps.keep_hint(index);
    }

    fn go_in(&mut self) -> bool {
        self.baton.before();
        let reply = self.steps.go_in();
        self.baton.after(Step::Enter(reply));
        reply
    }

    fn go_out(&mut self) {
        self.baton.before();
        self.steps.go_out();
        self.baton.after(Step::Leave);
    }

    fn bar(&mut self) -> Result<(), u32> {
        self.baton.before();
        let reply = self.steps.bar();
        self.baton.after(Step::Shut(reply));
        reply
    }

    fn announce(&mut self, looked: u16) -> Result<(), GateParts> {
        self.baton.before();
        let reply = self.steps.announce(looked);
        self.baton.after(Step::Announce(looked, reply));
        reply
    }

    fn cancel(&mut self) {
        self.baton.before();
        self.steps.cancel();
        self.baton.after(Step::Cancel);
    }

    fn bar_announced(&mut self) -> Result<(), u32> {
        self.baton.before();
        let reply = self.steps.bar_announced();
        self.baton.after(Step::ShutAnnounced(reply));
        reply
    }

    fn unbar(&mut self) {
        self.baton.before();
        self.steps.unbar();
        self.baton.after(Step::Reopen);
    }

    fn see_gate(&mut self, name: GateLoad) -> GateParts {
        self.baton.before();
        let reply = self.steps.see_gate(name);
        self.baton.after(Step::SeeGate(reply));
        reply
    }

    fn see_slot(&mut self, index: u16, name: SlotLoad) -> SlotParts {
        self.baton.before();
        let reply = self.steps.see_slot(index, name);
        self.baton.after(Step::SeeSlot(index, name, reply));
        reply
    }

    fn claim(
        &mut self,
        index: u16,
        serial: u32,
        kind: RefKind,
        object: u16,
    ) -> Result<(), SlotParts> {
        self.baton.before();
        let reply = self.steps.claim(index, serial, kind, object);
        let handle = HandleParts {
            kind,
            serial,
            index,
            owner: 0,
        };
        self.baton.after(Step::Claim(handle, object, reply));
        reply
    }

    fn free(&mut self, handle: HandleParts, object: Option<u16>) -> bool {
        self.baton.before();
        let reply = self.steps.free(handle, object);
        self.baton.after(Step::Free(handle, reply));
        reply
    }

    fn put_local(&mut self, place: u16, object: Option<u16>) {
        self.baton.before();
        self.steps.put_local(place, object);
        self.baton.after(Step::PutLocal(place, object));
    }

    fn see_header(&mut self, object: u16) -> Option<HeaderParts> {
        self.baton.before();
        let reply = self.steps.see_header(object);
        self.baton.after(Step::SeeHeader(object, reply));
        reply
    }

    fn claim_header(&mut self, object: u16, header: HeaderParts) -> bool {
        self.baton.before();
        let reply = self.steps.claim_header(object, header);
        self.baton.after(Step::ClaimHeader(object, header, reply));
        reply
    }

    fn see_top(&mut self, name: TopLoad) -> u32 {
        self.baton.before();
        let reply = self.steps.see_top(name);
        let words = match name {
            TopLoad::Full { words } => Some(words),
            TopLoad::Look => None,
        };
        self.baton.after(Step::SeeTop(words, reply));
        reply
    }

    fn claim_top(&mut self, looked: u32, more: u32) -> Result<(), u32> {
        self.baton.before();
        let reply = self.steps.claim_top(looked, more);
        self.baton.after(Step::ClaimTop(looked, more, reply));
        reply
    }

    fn see_element(&mut self, object: u16, header: HeaderParts, index: u32) -> u64 {
        self.baton.before();
        let reply = self.steps.see_element(object, header, index);
        self.baton.after(Step::SeeElement(object, index, reply));
        reply
    }

    fn see_part<E: Elem>(
        &mut self,
        object: u16,
        header: HeaderParts,
        start: u32,
        elements: &mut [E],
    ) {
        self.baton.before();
        self.steps.see_part(object, header, start, elements);
        self.baton.after(Step::Unforeseen);
    }

    fn put_element(&mut self, object: u16, header: HeaderParts, index: u32, word: u64) {
        self.baton.before();
        self.steps.put_element(object, header, index, word);
        self.baton.after(Step::PutElement(object, index, word));
    }

    fn put_reserved(&mut self, place: u32, index: u32, word: u64) {
        self.baton.before();
        self.steps.put_reserved(place, index, word);
        self.baton.after(Step::PutReserved(place, index, word));
    }

    fn scan_slot(&mut self, index: u16) -> SlotParts {
        let reply = self.steps.scan_slot(index);
        self.baton.after(Step::ScanSlot(index, reply));
        reply
    }

    fn scan_local(&mut self, thread: u8, place: u16) -> LocalParts {
        let reply = self.steps.scan_local(thread, place);
        self.baton.after(Step::ScanLocal(thread, place, reply));
        reply
    }

    fn scan_header(&mut self, object: u16) -> Option<HeaderParts> {
        let reply = self.steps.scan_header(object);
        self.baton.after(Step::ScanHeader(object, reply));
        reply
    }

    fn scan_element(&mut self, object: u16, header: HeaderParts, index: u32) -> u64 {
        let reply = self.steps.scan_element(object, header, index);
        self.baton.after(Step::ScanElement(object, index, reply));
        reply
    }

    fn scan_top(&mut self) -> u32 {
        let reply = self.steps.scan_top();
        self.baton.after(Step::ScanTop(reply));
        reply
    }

    fn wipe(&mut self, index: u16, serial: u32, object: u16) {
        self.baton.before();
        self.steps.wipe(index, serial, object);
        self.baton.after(Step::Wipe(index, serial, object));
    }

    fn drop_header(&mut self, object: u16) {
        self.baton.before();
        self.steps.drop_header(object);
        self.baton.after(Step::DropHeader(object));
    }

    fn move_element(
        &mut self,
        object: u16,
        header: HeaderParts,
        place: u32,
        index: u32,
        word: u64,
    ) {
        self.baton.before();
        self.steps.move_element(object, header, place, index, word);
        self.baton.after(Step::MoveElement(object, index, word));
    }

    fn set_header(&mut self, object: u16, header: HeaderParts, place: u32) {
        self.baton.before();
        self.steps.set_header(object, header, place);
        self.baton.after(Step::SetHeader(object, header, place));
    }

    fn set_top(&mut self, used: u32) {
        self.baton.before();
        self.steps.set_top(used);
        self.baton.after(Step::SetTop(used));
    }

    ghost fits = { λ s k h. S.fits s.steps k h };

    ghost lone = { λ s k none h. S.lone s.steps k none h };

    ghost some_known = { λ s. S.some_known s.steps };

    ghost in_space = { λ s k h. S.in_space s.steps k h };

    ghost limits = { λ s. S.limits s.steps };

    ghost row = { λ s. S.Steps.row s.steps };

    ghost below = { λ s. S.below s.steps };
}
