//! The sequential machine, once more: what each step needs, what it answers and what it changes, as docs/DEFINITIONS.md has it.
//! It knows nothing of words: its references are handles with what each stands for.

use crate::seen::{Did, Seen};
use crate::step::Step;
use jr_model::{Found, Role, Summary};
use jr_word::{Config, Fault, Handle, HandleParts, HeaderParts, RefKind};
use std::alloc::Global;

/// Nothing, or a sentence that says what is wrong.
pub(crate) type Verdict = Result<(), &'static str>;

/// What is told where memory is refused.
pub(crate) const NO_MEMORY: &str = "memory was refused";

/// The most elements of an array.
pub(crate) const LONGEST: usize = 4;

/// The state of the machine.
#[derive(Drop)]
pub(crate) struct Machine {
    pub(crate) config: Config,
    /// The last serial of a slot.
    pub(crate) last: u32,
    /// Where each thread stands towards the gate.
    pub(crate) roles: Vec<Role>,
    /// What the call of each thread has seen.
    pub(crate) seen: Vec<Seen>,
    /// The references that were made, deleted ones too.
    pub(crate) made: Vec<HandleParts>,
    /// What each of them stands for.
    pub(crate) found: Vec<Found>,
    /// The handles of references that calls answered.
    pub(crate) handles: Vec<Handle>,
    /// The objects that the local places refer to, those of one thread behind those of the other: 0 where none stands.
    pub(crate) locals: Vec<u16>,
    /// The headers of the objects that are present, by their numbers; none has number 0.
    pub(crate) headers: Vec<Option<HeaderParts>>,
    /// Their elements, so many places for each.
    pub(crate) elements: Vec<u64>,
    /// What each thread has reserved in this stay, and not yet published: an array without a kind.
    pub(crate) reserved: Vec<Option<HeaderParts>>,
    /// Its elements, so many places for each.
    pub(crate) filled: Vec<u64>,
    pub(crate) used: u32,
}

/// The verdict that something holds, or is wrong so.
pub(crate) fn must(holds: bool, wrong: &'static str) -> Verdict {
    if holds { Ok(()) } else { Err(wrong) }
}

/// What a list has at a place.
pub(crate) fn at<T: Copy>(list: &Vec<T>, place: usize) -> Option<T> {
    match list.get(place) {
        Some(value) => Some(*value),
        None => None,
    }
}

/// What a list has at a place, or this where it is not as long.
pub(crate) fn at_or<T: Copy>(list: &Vec<T>, place: usize, other: T) -> T {
    match list.get(place) {
        Some(value) => *value,
        None => other,
    }
}

/// A list has this at a place from now on, if it is as long.
pub(crate) fn put_at<T: Copy>(list: &mut Vec<T>, place: usize, value: T) {
    if let Some(old) = list.get_mut(place) {
        *old = value;
    }
}

/// A list of so many that are the same.
pub(crate) fn all<T: Copy>(alloc: Global, count: usize, value: T) -> Result<Vec<T>, &'static str> {
    match vec![in alloc; value; count] {
        Ok(list) => Ok(list),
        Err(_) => Err(NO_MEMORY),
    }
}

/// Adds to a list.
pub(crate) fn add<T: Drop>(list: &mut Vec<T>, value: T) -> Verdict {
    list.push(value).map_err(|_| NO_MEMORY)
}

impl Machine {
    /// A room in which nothing stands.
    pub(crate) fn new(alloc: Global, config: Config, last: u32) -> Result<Self, &'static str> {
        let threads = config.threads as usize;
        let numbers = (config.objects as usize).saturating_add(1);
        let locals = threads.saturating_mul(config.locals as usize);
        Ok(Machine {
            config,
            last,
            roles: all(alloc, threads, Role::Outside)?,
            seen: all(alloc, threads, Seen::new())?,
            made: Vec::new(alloc),
            found: Vec::new(alloc),
            handles: Vec::new(alloc),
            locals: all(alloc, locals, 0)?,
            headers: all(alloc, numbers, None)?,
            elements: all(alloc, numbers.saturating_mul(LONGEST), 0)?,
            reserved: all(alloc, threads, None)?,
            filled: all(alloc, threads.saturating_mul(LONGEST), 0)?,
            used: 0,
        })
    }

    /// Takes a step of a thread, where its reply is the one that the machine gives.
    pub(crate) fn take(&mut self, thread: u8, step: Step) -> Verdict {
        match step {
            Step::Enter(_)
            | Step::Leave
            | Step::Shut(_)
            | Step::Announce(..)
            | Step::Cancel
            | Step::ShutAnnounced(_)
            | Step::Reopen
            | Step::SeeGate(_) => self.pass_gate(thread, step)?,
            Step::SeeSlot(..) | Step::Claim(..) | Step::Free(..) => {
                self.is_role(thread, Role::Within)?;
                self.refer(thread, step)?;
            }
            Step::ScanSlot(..)
            | Step::ScanLocal(..)
            | Step::ScanHeader(..)
            | Step::ScanElement(..)
            | Step::ScanTop(_)
            | Step::Wipe(..)
            | Step::DropHeader(_)
            | Step::MoveElement(..)
            | Step::SetHeader(..)
            | Step::SetTop(_) => {
                self.is_role(thread, Role::Collecting)?;
                self.collect(thread, step)?;
            }
            _ => {
                self.is_role(thread, Role::Within)?;
                self.fill(thread, step)?;
            }
        }
        self.show();
        Ok(())
    }

    /// The thread has this role.
    fn is_role(&self, thread: u8, role: Role) -> Verdict {
        must(
            self.role(thread) == role,
            "a step in a role that has no such step",
        )
    }

    /// The role of a thread.
    pub(crate) fn role(&self, thread: u8) -> Role {
        self.role_at(usize::from(thread))
    }

    /// The role of the thread at a place.
    pub(crate) fn role_at(&self, place: usize) -> Role {
        at_or(&self.roles, place, Role::Outside)
    }

    /// Shows each thread that is within which slots and which numbers have nothing free now.
    fn show(&mut self) {
        let (slots, numbers) = (self.taken_slots(), self.taken_numbers());
        for place in 0..self.roles.len() {
            if self.role_at(place) == Role::Within {
                self.show_at(place, slots, numbers);
            }
        }
    }

    /// Shows the thread at a place which slots and which numbers have nothing free now.
    fn show_at(&mut self, place: usize, slots: u64, numbers: u64) {
        let mut seen = self.seen_at(place);
        seen.taken_slots |= slots;
        seen.taken_numbers |= numbers;
        put_at(&mut self.seen, place, seen);
    }

    /// The slots that have nothing free, a bit each. No case has as many as 64.
    fn taken_slots(&self) -> u64 {
        let (mut slots, mut slot) = (0u64, 1u64);
        for index in 0..64u16 {
            if u32::from(index) < self.config.slots && self.next_serial(index).is_none() {
                slots |= slot;
            }
            slot = slot.wrapping_mul(2);
        }
        slots
    }

    /// The numbers of present objects, a bit each.
    fn taken_numbers(&self) -> u64 {
        let (mut numbers, mut bit) = (0u64, 1u64);
        for number in 0..self.headers.len() {
            if at_or(&self.headers, number, None).is_some() {
                numbers |= bit;
            }
            bit = bit.wrapping_mul(2);
        }
        numbers
    }

    /// The serial of the next reference of a slot: none where a reference stands, or the last was given.
    pub(crate) fn next_serial(&self, index: u16) -> Option<u32> {
        if self.standing(index).is_some() {
            return None;
        }
        let given = self.given(index);
        if given <= self.last {
            Some(given)
        } else {
            None
        }
    }

    /// How many references a slot has given.
    fn given(&self, index: u16) -> u32 {
        let mut given = 0u32;
        for number in 0..self.made.len() {
            if let Some(handle) = at(&self.made, number) {
                if handle.index == index {
                    given = given.saturating_add(1);
                }
            }
        }
        given
    }

    /// The reference that stands in a slot.
    pub(crate) fn standing(&self, index: u16) -> Option<HandleParts> {
        for number in 0..self.made.len() {
            if let Some(handle) = at(&self.made, number) {
                if handle.index == index && self.found_at(number) != Found::Stale {
                    return Some(handle);
                }
            }
        }
        None
    }

    /// What a handle finds.
    pub(crate) fn find(&self, handle: HandleParts) -> Found {
        self.found_at(self.number_of(handle))
    }

    /// The type of a handle: 0 where its reference doesn't stand, 2 of a global one, 3 of a weak one.
    pub(crate) fn type_of(&self, handle: Handle) -> u8 {
        let Some(parts) = Handle::parts(handle.0) else {
            return 0;
        };
        match (self.find(parts), parts.kind) {
            (Found::Stale, _) => 0,
            (_, RefKind::Weak) => 3,
            (_, _) => 2,
        }
    }

    /// What the reference with a number stands for.
    pub(crate) fn found_at(&self, number: usize) -> Found {
        at_or(&self.found, number, Found::Stale)
    }

    /// The reference of a handle stands for this from now on.
    pub(crate) fn set(&mut self, handle: HandleParts, found: Found) {
        let number = self.number_of(handle);
        put_at(&mut self.found, number, found);
    }

    /// The number of a handle's reference, among those that were made: none has it where it was not made.
    fn number_of(&self, handle: HandleParts) -> usize {
        for number in 0..self.made.len() {
            if let Some(made) = at(&self.made, number) {
                if made == handle {
                    return number;
                }
            }
        }
        self.made.len()
    }

    /// The header of the object with a number, if it is present.
    pub(crate) fn header(&self, number: u16) -> Option<HeaderParts> {
        at_or(&self.headers, usize::from(number), None)
    }

    /// The object with a number has this header from now on, or is absent.
    pub(crate) fn set_header(&mut self, number: u16, header: Option<HeaderParts>) {
        if number != 0 {
            put_at(&mut self.headers, usize::from(number), header);
        }
    }

    /// Whether a global or a local reference is to the object. No case has an array of objects.
    pub(crate) fn is_reached(&self, number: u16) -> bool {
        for place in 0..self.locals.len() {
            if let Some(object) = at(&self.locals, place) {
                if object == number {
                    return true;
                }
            }
        }
        self.is_named(number, true)
    }

    /// Whether a global reference is to the object, or one of either kind where that is asked for.
    pub(crate) fn is_named(&self, number: u16, by_global: bool) -> bool {
        for made in 0..self.made.len() {
            if let Some(handle) = at(&self.made, made) {
                let is_asked = !by_global || handle.kind == RefKind::Global;
                if is_asked && self.found_at(made) == Found::Object(number) {
                    return true;
                }
            }
        }
        false
    }

    /// How many words the objects have that are present.
    pub(crate) fn present_words(&self) -> u32 {
        let mut words = 0u32;
        for number in 0..self.headers.len() {
            if let Some(header) = at_or(&self.headers, number, None) {
                words = words.saturating_add(header.length);
            }
        }
        words
    }

    /// What a room in this state tells as it is closed.
    pub(crate) fn summary(&self) -> Summary {
        let mut summary = Summary {
            globals: 0,
            weaks: 0,
            live: self.taken_numbers().count_ones(),
            used: self.used,
        };
        for number in 0..self.made.len() {
            if let Some(handle) = at(&self.made, number) {
                match (handle.kind, self.found_at(number)) {
                    (_, Found::Stale) => {}
                    (RefKind::Weak, _) => summary.weaks = summary.weaks.saturating_add(1),
                    (_, _) => summary.globals = summary.globals.saturating_add(1),
                }
            }
        }
        summary
    }

    /// A call of the thread is refused so, by what its step saw; `None` where what was seen before counts no more.
    pub(crate) fn refuse(&mut self, thread: u8, fault: Option<Fault>) {
        let mut seen = self.seen(thread);
        seen.refused = fault;
        self.set_seen(thread, seen);
    }

    /// A call of the thread did this last.
    pub(crate) fn did(&mut self, thread: u8, did: Did) {
        let mut seen = self.seen(thread);
        seen.did = Some(did);
        self.set_seen(thread, seen);
    }

    /// What the call of a thread has seen so far.
    pub(crate) fn seen(&self, thread: u8) -> Seen {
        self.seen_at(usize::from(thread))
    }

    /// What the call of the thread at a place has seen so far.
    fn seen_at(&self, place: usize) -> Seen {
        at_or(&self.seen, place, Seen::new())
    }

    /// What the call of a thread has seen from now on.
    pub(crate) fn set_seen(&mut self, thread: u8, seen: Seen) {
        put_at(&mut self.seen, usize::from(thread), seen);
    }
}
