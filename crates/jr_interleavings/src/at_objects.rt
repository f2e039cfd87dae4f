//! The machine's steps at objects and local places, of threads that are within and of one that collects.

use crate::at_slots::handle_of;
use crate::machine::{LONGEST, Machine, Verdict, at, at_or, must, put_at};
use crate::seen::Did;
use crate::step::Step;
use jr_model::Found;
use jr_word::{Fault, HeaderParts, Kind, LocalParts, RefKind};

impl Machine {
    /// A step of a thread that is within, at the top, an object or a local place.
    pub(crate) fn fill(&mut self, thread: u8, step: Step) -> Verdict {
        match step {
            Step::PutLocal(place, object) => self.put_local(thread, place, object),
            Step::SeeHeader(number, header) => self.is_header(number, header),
            Step::ClaimHeader(number, header, new) => self.publish(thread, number, header, new),
            Step::SeeTop(words, used) => self.see_top(thread, words, used),
            Step::ClaimTop(looked, more, reply) => self.reserve(thread, looked, more, reply),
            Step::SeeElement(number, index, word) => {
                self.is_element(number, index, word)?;
                self.did(thread, Did::Read(word));
                Ok(())
            }
            Step::PutElement(number, index, word) => {
                let place = place_in(self.header(number), usize::from(number), index)?;
                put_at(&mut self.elements, place, word);
                self.did(thread, Did::Wrote(word));
                Ok(())
            }
            Step::PutReserved(place, index, word) => self.put_reserved(thread, place, index, word),
            _ => Err("a step that no case is made of"),
        }
    }

    /// A step of a thread that collects.
    pub(crate) fn collect(&mut self, thread: u8, step: Step) -> Verdict {
        match step {
            Step::ScanSlot(index, parts) => self.is_slot(index, parts),
            Step::ScanLocal(owner, place, parts) => {
                let right = match parts {
                    LocalParts::Free => self.local(owner, place).is_none(),
                    LocalParts::Object(object) => self.local(owner, place) == Some(object),
                };
                must(right, "a local place said what was not so")
            }
            Step::ScanHeader(number, header) => self.is_header(number, header),
            Step::ScanElement(number, index, word) | Step::MoveElement(number, index, word) => {
                self.is_element(number, index, word)
            }
            Step::ScanTop(used) => must(used == self.used, "the top said what was not so"),
            Step::Wipe(index, serial, object) => self.clear(thread, index, serial, object),
            Step::DropHeader(number) => self.drop_object(thread, number),
            Step::SetHeader(number, header, place) => {
                self.is_header(number, Some(header))?;
                let mut moved = header;
                moved.place = place;
                self.set_header(number, Some(moved));
                Ok(())
            }
            Step::SetTop(used) => self.settle(thread, used),
            _ => Err("no step of a collection"),
        }
    }

    /// An object has this header, or is absent.
    fn is_header(&self, number: u16, header: Option<HeaderParts>) -> Verdict {
        let right = match (self.header(number), header) {
            (Some(header), Some(said)) => header == said,
            (None, None) => true,
            (_, _) => false,
        };
        must(right, "a header said what was not so")
    }

    /// An element of a present object is this word.
    fn is_element(&self, number: u16, index: u32, word: u64) -> Verdict {
        let place = place_in(self.header(number), usize::from(number), index)?;
        let right = match at(&self.elements, place) {
            Some(element) => element == word,
            None => false,
        };
        must(right, "an element was read that was not written")
    }

    /// The object that a local place refers to.
    pub(crate) fn local(&self, thread: u8, place: u16) -> Option<u16> {
        match at_or(&self.locals, self.place_of(thread, place), 0) {
            0 => None,
            object => Some(object),
        }
    }

    /// Where a local place is in the list of all.
    fn place_of(&self, thread: u8, place: u16) -> usize {
        let before = usize::from(thread).saturating_mul(self.config.locals as usize);
        before.saturating_add(usize::from(place))
    }

    /// A local place refers to this from now on.
    fn put_local(&mut self, thread: u8, place: u16, object: Option<u16>) -> Verdict {
        must(
            u32::from(place) < self.config.locals,
            "a local place that no thread has",
        )?;
        let at = self.place_of(thread, place);
        let Some(number) = object else {
            put_at(&mut self.locals, at, 0);
            return Ok(());
        };
        must(
            self.header(number).is_some(),
            "a local reference to an absent object",
        )?;
        let mut seen = self.seen(thread);
        seen.placed = Some(place);
        self.set_seen(thread, seen);
        put_at(&mut self.locals, at, number);
        Ok(())
    }

    /// An object is published under a number that is free, with the words that its thread reserved.
    fn publish(&mut self, thread: u8, number: u16, header: HeaderParts, new: bool) -> Verdict {
        let free = self.header(number).is_none();
        must(free || !new, "an object took the number of another")?;
        must(!free || new, "a free number was not given")?;
        if !new {
            return Ok(());
        }
        self.is_filled(thread, header)?;
        self.copy_filled(thread, number);
        self.set_reserved(thread, None);
        self.set_header(number, Some(header));
        must(
            self.present_words() <= self.used,
            "more words are present than are reserved",
        )?;
        self.did(thread, Did::Published(number));
        Ok(())
    }

    /// A thread has reserved the words of an array with this header.
    fn is_filled(&self, thread: u8, header: HeaderParts) -> Verdict {
        if header.length == 0 {
            return Ok(());
        }
        let Some(reserved) = self.reserved(thread) else {
            return Err("an array of words that were not reserved");
        };
        must(
            reserved.length == header.length && reserved.place == header.place,
            "an array of other words than were reserved",
        )
    }

    /// The elements of an object are those that the thread wrote to what it reserved.
    fn copy_filled(&mut self, thread: u8, number: u16) {
        for index in 0..LONGEST as u32 {
            if let Some(word) = at(&self.filled, place_at(usize::from(thread), index)) {
                put_at(
                    &mut self.elements,
                    place_at(usize::from(number), index),
                    word,
                );
            }
        }
    }

    /// No element is written yet of what the thread reserved.
    fn clear_filled(&mut self, thread: u8) {
        for index in 0..LONGEST as u32 {
            put_at(&mut self.filled, place_at(usize::from(thread), index), 0);
        }
    }

    /// What a thread has reserved.
    fn reserved(&self, thread: u8) -> Option<HeaderParts> {
        at_or(&self.reserved, usize::from(thread), None)
    }

    /// A thread has reserved this.
    pub(crate) fn set_reserved(&mut self, thread: u8, reserved: Option<HeaderParts>) {
        put_at(&mut self.reserved, usize::from(thread), reserved);
    }

    /// A look at the top, which refuses words that don't fit.
    fn see_top(&mut self, thread: u8, words: Option<u64>, used: u32) -> Verdict {
        must(used == self.used, "the top said what was not so")?;
        if let Some(words) = words {
            if words.saturating_add(u64::from(used)) > u64::from(self.config.words) {
                self.refuse(thread, Some(Fault::SpaceFull(used)));
            }
        }
        Ok(())
    }

    /// Words are reserved where as many are used as were looked at.
    fn reserve(&mut self, thread: u8, looked: u32, more: u32, reply: Result<(), u32>) -> Verdict {
        match reply {
            Ok(()) => {
                must(
                    self.used == looked,
                    "words were reserved beside others than were looked at",
                )?;
                self.used = looked.saturating_add(more);
                must(
                    self.used <= self.config.words,
                    "more words were reserved than there are",
                )?;
                let header = HeaderParts {
                    kind: Kind::Plain,
                    length: more,
                    place: looked,
                };
                self.clear_filled(thread);
                self.set_reserved(thread, Some(header));
                Ok(())
            }
            Err(found) => {
                let right = found == self.used && found != looked;
                must(right, "words were not reserved, for what was not so")?;
                self.refuse(thread, Some(Fault::Raced(looked, found)));
                Ok(())
            }
        }
    }

    /// A word of what a thread has reserved is written.
    fn put_reserved(&mut self, thread: u8, place: u32, index: u32, word: u64) -> Verdict {
        let reserved = self.reserved(thread);
        let right = match reserved {
            Some(header) => header.place == place,
            None => false,
        };
        must(right, "a write to words that were not reserved")?;
        let at = place_in(reserved, usize::from(thread), index)?;
        put_at(&mut self.filled, at, word);
        Ok(())
    }

    /// A weak reference is cleared of an object that is not reached.
    fn clear(&mut self, thread: u8, index: u16, serial: u32, object: u16) -> Verdict {
        let handle = handle_of(RefKind::Weak, serial, index);
        must(
            self.find(handle) == Found::Object(object),
            "what was cleared was no weak reference to the object",
        )?;
        must(
            !self.is_reached(object),
            "a weak reference to an object that is reached was cleared",
        )?;
        self.set(handle, Found::Cleared);
        let mut seen = self.seen(thread);
        seen.cleared = seen.cleared.saturating_add(1);
        self.set_seen(thread, seen);
        Ok(())
    }

    /// An object is dropped that nothing names.
    fn drop_object(&mut self, thread: u8, number: u16) -> Verdict {
        must(
            self.header(number).is_some(),
            "an absent object was dropped",
        )?;
        must(
            !self.is_reached(number),
            "an object that is reached was dropped",
        )?;
        must(
            !self.is_named(number, false),
            "an object was dropped before a weak reference to it was cleared",
        )?;
        self.set_header(number, None);
        let mut seen = self.seen(thread);
        seen.dropped = seen.dropped.saturating_add(1);
        self.set_seen(thread, seen);
        Ok(())
    }

    /// As many words are used as the present objects have.
    fn settle(&mut self, thread: u8, used: u32) -> Verdict {
        must(
            used == self.present_words(),
            "other words are used than those of the present objects",
        )?;
        self.used = used;
        self.did(thread, Did::Settled(used));
        Ok(())
    }
}

/// Where an element is in a list that has so many places for each: wrong where it is none of an array with this header.
fn place_in(header: Option<HeaderParts>, number: usize, index: u32) -> Result<usize, &'static str> {
    match header {
        None => Err("an element of an absent object"),
        Some(header) if index < header.length => Ok(place_at(number, index)),
        Some(_) => Err("an element behind the last"),
    }
}

/// Where the element with an index is in a list that has so many places for each.
fn place_at(number: usize, index: u32) -> usize {
    number
        .saturating_mul(LONGEST)
        .saturating_add(index as usize)
}
