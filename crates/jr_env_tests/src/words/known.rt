//! What a call is to be refused with, worked out from the word alone and from what was made in the room.

use crate::words::calls::{CallOfReference, OfCopy, OfObject, OfReference, OfRegion};
use jr_word::{Config, Fault, Handle, Kind, RefKind};
use std::alloc::Global;
use std::test::Fail;

/// What thread 0 knows of its room, by what was made there.
#[derive(Drop)]
pub(crate) struct Known {
    pub(crate) config: Config,
    /// Each reference that stands and isn't another thread's local one, with the kind of what it names: none where it is cleared.
    pub(crate) named: Vec<(Handle, Option<Kind>)>,
    /// Whether a frame was pushed.
    pub(crate) has_frame: bool,
    /// Whether no slot and no local place is free.
    pub(crate) is_full: bool,
    /// With what a new array is refused, where its reference is not.
    pub(crate) array_refused: Option<Fault>,
}

/// What a call asks of its first reference, beside that it stands.
#[derive(Clone, Copy)]
enum Asks {
    Nothing,
    Object,
    Array,
    Ints,
    Primitives,
    Objects,
    String,
}

/// What it asks.
fn asked_by(call: CallOfReference) -> Asks {
    match call {
        CallOfReference::Delete(_) | CallOfReference::Of(_) => Asks::Nothing,
        CallOfReference::Object(OfObject::Identity | OfObject::Kind) => Asks::Object,
        CallOfReference::Object(OfObject::ArrayLength) => Asks::Array,
        CallOfReference::Object(OfObject::GetElement | OfObject::SetElement) => Asks::Objects,
        CallOfReference::Object(OfObject::GetInts | OfObject::SetInts) => Asks::Ints,
        CallOfReference::Copy(OfCopy::Ints | OfCopy::Release(_)) => Asks::Ints,
        CallOfReference::Object(OfObject::StringLength) | CallOfReference::Copy(OfCopy::Chars) =>
            Asks::String,
        CallOfReference::Critical(call) => match call {
            OfRegion::String | OfRegion::StringByLevels => Asks::String,
            OfRegion::NestString | OfRegion::NestStringByLevels => Asks::String,
            _ => Asks::Primitives,
        },
    }
}

/// With what an object of the kind is refused.
fn kind_refused(asks: Asks, kind: Kind) -> Option<Fault> {
    match (asks, kind) {
        (Asks::Nothing | Asks::Object, _) | (Asks::String, Kind::Text) => None,
        (Asks::String, _) => Some(Fault::WrongKind),
        (_, Kind::Plain | Kind::Text) => Some(Fault::NotArray),
        (Asks::Array, _) | (Asks::Ints, Kind::Int) | (Asks::Objects, Kind::Objects) => None,
        (Asks::Ints | Asks::Objects, _) | (Asks::Primitives, Kind::Objects) => {
            Some(Fault::WrongElement)
        }
        (Asks::Primitives, _) => None,
    }
}

/// The two bits of a word that say a kind.
fn code(kind: RefKind) -> u64 {
    match kind {
        RefKind::Local => 1,
        RefKind::Global => 2,
        RefKind::Weak => 3,
    }
}

impl Known {
    /// A room in which nothing was made.
    pub(crate) fn of_nothing(alloc: Global, config: Config) -> Known {
        Known {
            config,
            named: Vec::new(alloc),
            has_frame: false,
            is_full: false,
            array_refused: None,
        }
    }

    /// Notes that a reference stands.
    pub(crate) fn note(&mut self, word: Handle, kind: Option<Kind>) -> Result<(), Fail> {
        self.named.push((word, kind))?;
        Ok(())
    }

    /// What a reference names that stands.
    fn named_by(&self, word: Handle) -> Option<Option<Kind>> {
        for (known, kind) in &self.named {
            if *known == word {
                return Some(*kind);
            }
        }
        None
    }

    /// The first check that a word fails, by its number, and the refusal. NULL fails none.
    fn failed(&self, call: CallOfReference, word: Handle) -> (u8, Option<Fault>) {
        let (kind, index, owner) = (word.0 & 3, word.0 >> 34 & 0xFFFF, word.0 >> 50);
        let (is_local, most) = (kind == 1, if kind == 1 { 64 } else { 1 });
        let limit = if is_local {
            self.config.locals
        } else {
            self.config.slots
        };
        let is_outside = index >= u64::from(limit) || owner >= u64::from(self.config.threads);
        if word == Handle::NULL {
            return (6, None);
        }
        if kind == 0 || owner >= most {
            return (1, Some(Fault::Stale));
        }
        match call {
            CallOfReference::Delete(wanted) if code(wanted) != kind => (2, Some(Fault::WrongKind)),
            _ if is_outside => (3, Some(Fault::Stale)),
            _ if owner != 0 => (4, Some(Fault::Foreign)),
            _ if self.named_by(word).is_none() => (5, Some(Fault::Stale)),
            _ => (6, None),
        }
    }

    /// With what a call is refused whose references stand.
    fn standing_refused(&self, call: CallOfReference, word: Handle) -> Option<Fault> {
        let kind = self.named_by(word).flatten();
        match (asked_by(call), kind) {
            (Asks::Nothing, Some(_)) => self.lacked(call),
            (Asks::Nothing, None) => match call {
                CallOfReference::Of(OfReference::NewArray) => self.array_refused,
                _ => None,
            },
            (_, None) => Some(Fault::Null),
            (asks, Some(kind)) => kind_refused(asks, kind),
        }
    }

    /// What the room lacks for a call by a reference to an object.
    fn lacked(&self, call: CallOfReference) -> Option<Fault> {
        match call {
            CallOfReference::Of(OfReference::NewArray) => self.array_refused,
            CallOfReference::Of(OfReference::NewGlobal | OfReference::NewWeakGlobal)
                if self.is_full => { Some(Fault::RowFull) }
            CallOfReference::Of(OfReference::NewLocal | OfReference::PopFrame) if self.is_full => {
                Some(Fault::LocalsFull)
            }
            _ => None,
        }
    }

    /// With what a call is to be refused, if it is: each check is made of both words, where it takes two, before the next check.
    pub(crate) fn refusal(&self, call: CallOfReference, words: [Handle; 2]) -> Option<Fault> {
        if matches!(call, CallOfReference::Of(OfReference::PopFrame)) && !self.has_frame {
            return Some(Fault::NoFrame);
        }
        let [word, other] = words;
        let (first, refused) = self.failed(call, word);
        let (second, other_refused) = self.failed(call, other);
        if first < 6 && first <= second {
            return refused;
        }
        if second < 6 {
            return other_refused;
        }
        self.standing_refused(call, word)
    }

    /// The type of a reference.
    pub(crate) fn ref_type(&self, word: Handle) -> u8 {
        if self.named_by(word).is_none() {
            return 0;
        }
        match word.0 & 3 {
            1 => 1,
            2 => 2,
            _ => 3,
        }
    }

    /// Forgets a reference that was deleted.
    pub(crate) fn forget(&mut self, word: Handle) {
        for at in 0..self.named.len() {
            if self.named[at].0 == word {
                self.named.remove(at);
                return;
            }
        }
    }
}
