//! What is tried: rooms, what their threads make ready, and their calls.

use jr_word::Config;

/// Which reference a call is about.
#[derive(Clone, Copy)]
pub(crate) enum Name {
    /// The one that was made ready with this number, counted over all threads.
    Ready(usize),
    /// The last that this thread made by its calls. Where it made none, the call is left out.
    Own,
}

/// A call of a thread's env.
#[derive(Clone, Copy)]
pub(crate) enum EnvCall {
    /// An object without elements.
    NewPlain,
    /// An array of so many integers.
    NewArray(u32),
    /// A global reference to what a reference names.
    NewGlobal(Name),
    /// A weak global reference to what a reference names.
    NewWeak(Name),
    /// A global reference is deleted.
    DeleteGlobal(Name),
    /// A weak global reference is deleted.
    DeleteWeak(Name),
    /// A local reference is deleted.
    DeleteLocal(Name),
    /// The first integer of an array is written.
    Write(Name, i32),
    /// The type of a reference.
    TypeOf(Name),
    /// Whether a reference is to null.
    IsNull(Name),
    /// A critical region, in which the first integer of an array is read.
    ReadCritical(Name),
    /// A collection.
    Collect,
    /// A collection that is announced, with so many tries.
    CollectAnnounced(u32),
    /// A census.
    Census,
}

/// A room, and what its threads do there.
#[derive(Clone, Copy)]
pub(crate) struct Case {
    /// What it shows.
    pub(crate) name: &'static str,
    /// How many slots the room has.
    pub(crate) slots: u32,
    /// How many objects.
    pub(crate) objects: u32,
    /// For each thread the calls by which it makes ready what it needs, before any of the others' calls.
    pub(crate) ready: &'static [&'static [EnvCall]],
    /// For each thread its calls.
    pub(crate) calls: &'static [&'static [EnvCall]],
}

/// How many words of array space each room has.
const WORDS: u32 = 4;

/// Threads beside those that call: one closes the room.
const AFTERWARDS: u32 = 1;

impl Case {
    /// How many threads call.
    pub(crate) fn threads(&self) -> u32 {
        match self.calls.len() {
            len @ 0..=8 => len as u32,
            _ => 8,
        }
    }

    /// The sizes of the room.
    pub(crate) fn config(&self) -> Config {
        Config {
            threads: self.threads().saturating_add(AFTERWARDS),
            slots: self.slots,
            objects: self.objects,
            words: WORDS,
            locals: Config::LEAST_LOCALS,
        }
    }
}
