//! What a call has seen of the machine, and the answer that it makes.

use crate::case::EnvCall;
use crate::counted::CensusCounts;
use crate::machine::{Machine, Verdict, add, must};
use jr_model::Found;
use jr_weak::Collected;
use jr_word::{Elem, Fault, Handle, HandleParts, RefKind};

/// What the last step of a call did that its answer tells.
#[derive(Clone, Copy)]
pub(crate) enum Did {
    /// It made this reference.
    Made(HandleParts),
    /// Whether its exchange deleted the reference.
    Deleted(bool),
    /// It gave an object this number.
    Published(u16),
    /// It read this element.
    Read(u64),
    /// It wrote this element.
    Wrote(u64),
    /// It left so many words used.
    Settled(u32),
}

/// What a call of a thread has seen, from its entry on.
#[derive(Clone, Copy)]
pub(crate) struct Seen {
    /// The kind of the handle that it looked at.
    pub(crate) kind: Option<RefKind>,
    /// What its look at a handle found.
    pub(crate) found: Option<Found>,
    /// What it did.
    pub(crate) did: Option<Did>,
    /// The local place that it stored an object in.
    pub(crate) placed: Option<u16>,
    /// Why it is refused.
    pub(crate) refused: Option<Fault>,
    /// How many weak references it cleared.
    pub(crate) cleared: u32,
    /// How many objects it dropped.
    pub(crate) dropped: u32,
    /// The slots that had nothing free at a moment of the call, a bit each.
    pub(crate) taken_slots: u64,
    /// The numbers that an object had at a moment of the call, a bit each.
    pub(crate) taken_numbers: u64,
}

/// What a call answered.
#[derive(Clone, Copy, PartialEq, Eq)]
pub(crate) enum Answer {
    /// A new reference, or one to null.
    Made(Handle),
    /// Nothing.
    Done,
    /// The type of a reference.
    Type(u8),
    /// Whether a reference is to null.
    IsNull(bool),
    /// An element.
    Read(i32),
    /// What a collection did.
    Collected(Collected),
    /// What a census counted.
    Counted(CensusCounts),
    /// It was refused.
    Refused(Fault),
}

impl Seen {
    /// What a call has seen that begins.
    pub(crate) fn new() -> Self {
        Seen {
            kind: None,
            found: None,
            did: None,
            placed: None,
            refused: None,
            cleared: 0,
            dropped: 0,
            taken_slots: 0,
            taken_numbers: 0,
        }
    }

    /// The answer that a look makes in any call that needs the reference to stand.
    fn stale(&self) -> Option<Answer> {
        match self.found {
            Some(Found::Stale) => Some(Answer::Refused(Fault::Stale)),
            _ => None,
        }
    }

    /// The type of what a look found: 2 a global reference, 3 a weak one.
    fn type_of(&self) -> u8 {
        match self.found {
            None => 0,
            Some(Found::Stale) => 0,
            Some(_) => match self.kind {
                Some(RefKind::Weak) => 3,
                _ => 2,
            },
        }
    }

    /// The answer of a call that deletes.
    fn deleted(&self) -> Answer {
        match self.did {
            Some(Did::Deleted(true)) => Answer::Done,
            _ => Answer::Refused(Fault::Stale),
        }
    }

    /// The answer of a call that makes a global or weak reference: E8 only where each slot had nothing free at a moment of the call.
    fn made(&self, slots: u32) -> Option<Answer> {
        match (self.found, self.did) {
            (Some(Found::Cleared), _) => Some(Answer::Made(Handle::NULL)),
            (_, None) if self.taken_slots.count_ones() == slots => {
                Some(Answer::Refused(Fault::RowFull))
            }
            _ => None,
        }
    }

    /// The answer of a collection.
    fn collected(&self) -> Option<Answer> {
        match self.did {
            Some(Did::Settled(used)) => Some(Answer::Collected(Collected {
                cleared: self.cleared,
                dropped: self.dropped,
                used,
            })),
            _ => None,
        }
    }

    /// The answer of a call that writes an element.
    fn written(&self, value: i32) -> Option<Answer> {
        match (self.found, self.did) {
            (Some(Found::Cleared), _) => Some(Answer::Refused(Fault::Null)),
            (_, Some(Did::Wrote(word))) if word == value.to_word() => Some(Answer::Done),
            _ => None,
        }
    }

    /// The answer of a critical region.
    fn read(&self) -> Option<Answer> {
        match (self.found, self.did) {
            (Some(Found::Cleared), _) => Some(Answer::Refused(Fault::Null)),
            (_, Some(Did::Read(word))) => Some(Answer::Read(i32::from_word(word)?)),
            _ => None,
        }
    }
}

impl Machine {
    /// The answer that a call makes of what it saw; none where no answer is right, or the one of a new object.
    fn answer(&self, seen: &Seen, call: EnvCall) -> Option<Answer> {
        if let Some(fault) = seen.refused {
            return Some(Answer::Refused(fault));
        }
        match call {
            EnvCall::TypeOf(_) => Some(Answer::Type(seen.type_of())),
            EnvCall::IsNull(_) => seen
                .stale()
                .or(Some(Answer::IsNull(seen.found == Some(Found::Cleared)))),
            EnvCall::NewGlobal(_) | EnvCall::NewWeak(_) => seen
                .stale()
                .or(seen.made(self.config.slots)),
            EnvCall::DeleteGlobal(_) | EnvCall::DeleteWeak(_) => Some(seen.deleted()),
            EnvCall::DeleteLocal(_) => Some(Answer::Done),
            EnvCall::Write(_, value) => seen.stale().or(seen.written(value)),
            EnvCall::ReadCritical(_) => seen.stale().or(seen.read()),
            EnvCall::Collect | EnvCall::CollectAnnounced(_) => seen.collected(),
            EnvCall::Census => self.counted(seen),
            EnvCall::NewPlain | EnvCall::NewArray(_) => match seen.did {
                None if seen.taken_numbers.count_ones() == self.config.objects => {
                    Some(Answer::Refused(Fault::ObjectsFull))
                }
                _ => None,
            },
        }
    }

    /// Whether a handle is a new local one of the thread, at the place where the call put the object that it published.
    fn is_local(&self, thread: u8, seen: &Seen, handle: Handle) -> bool {
        let (Some(parts), Some(place)) = (Handle::parts(handle.0), seen.placed) else {
            return false;
        };
        let new = (parts.kind, parts.owner, parts.index) == (RefKind::Local, thread, place);
        match seen.did {
            Some(Did::Published(number)) => new && self.local(thread, place) == Some(number),
            _ => false,
        }
    }

    /// The call of a thread answers what its own steps make.
    pub(crate) fn answers(&mut self, thread: u8, call: EnvCall, answer: Answer) -> Verdict {
        let seen = self.seen(thread);
        let right = match (self.answer(&seen, call), answer) {
            (Some(wanted), _) => answer == wanted,
            (None, Answer::Made(handle)) => match seen.did {
                Some(Did::Made(parts)) => {
                    add(&mut self.handles, handle)?;
                    Handle::parts(handle.0) == Some(parts)
                }
                _ => self.is_local(thread, &seen, handle),
            },
            (None, _) => false,
        };
        must(right, "a call answered otherwise than its steps")?;
        self.set_seen(thread, Seen::new());
        Ok(())
    }
}
