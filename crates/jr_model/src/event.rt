//! The events of the machine: each step of a thread, with its reply.
ghost use Rattle.std.specs.Prelude.{◌≡◌, ◌≢◌, ◌↔◌, IsTrue};
ghost use Rattle.jr_model.specs.declared.event.Found.TheVariants.{Stale};

use jr_word::{HandleParts, Kind};
use std::collections::LinkedList;

/// Where a thread stands towards the gate.
#[derive(Clone, Copy, Debug, PartialEq, Eq)]
pub enum Role {
    /// Neither in the gate nor on its way in.
    Outside,
    /// In a stay.
    Within,
    /// Its entry found the gate closed, and it has not withdrawn yet.
    Knocking,
    /// It has announced that it will shut the gate, which bars entries from then on.
    Announcing,
    /// It shut the gate, and has not opened it yet.
    Collecting,
}

/// What a look at a global or weak reference finds.
#[derive(Clone, Copy, Debug, PartialEq, Eq)]
pub enum Found {
    /// The object's number.
    Object(u16),
    /// A weak reference whose object was collected.
    Cleared,
    /// No such reference stands.
    Stale,
}

/// One atomic step of a thread, with its reply.
#[derive(Drop)]
pub struct Event {
    /// The thread that steps.
    pub thread: u8,
    /// What it does.
    pub act: Act,
}

/// A step at the gate by which the thread goes from one role to another.
#[derive(Drop)]
pub enum GateAct {
    /// Goes in.
    Enter,
    /// Finds the gate closed on the way in, shut or announced to be.
    Knock,
    /// Goes out.
    Leave,
    /// Gives the entry up that found the gate closed.
    Withdraw,
    /// Announces that it will shut the gate, which bars entries from then on.
    Announce,
    /// Takes the announcement back.
    Cancel,
    /// Shuts the gate, for a collection.
    Shut,
    /// Opens the gate again after a collection.
    Reopen,
}

/// What a step does, with its reply.
#[derive(Drop)]
pub enum Act {
    /// Goes from one role to another, at the gate.
    Gate(GateAct),
    /// Does not shut the gate, since this many other threads are not outside.
    ShutBusy {
        count: u32,
    },
    /// Makes a global or weak reference.
    Create {
        handle: HandleParts,
        object: u16,
    },
    /// Looks a handle up.
    Look {
        handle: HandleParts,
        found: Found,
    },
    /// Asks whether no reference can be made at an index.
    Probe {
        index: u16,
        occupied: bool,
    },
    /// Takes a reference away.
    Delete {
        handle: HandleParts,
    },
    /// Finds no reference to take away.
    DeleteStale {
        handle: HandleParts,
    },
    /// Takes its object from a weak reference, which stays.
    Clear {
        handle: HandleParts,
    },
    /// Puts an object at a place for a local reference.
    LocalPut {
        place: u16,
        object: u16,
    },
    /// Leaves a place for a local reference empty.
    LocalDrop {
        place: u16,
    },
    /// Reserves words of array space.
    Reserve {
        words: u32,
    },
    /// Finds no room for the words beside those that are used.
    ReserveFull {
        words: u64,
        used: u32,
    },
    /// Finds another number of words used than was looked at.
    ReserveLost {
        words: u32,
        looked: u32,
        found: u32,
    },
    /// Makes an object.
    New {
        object: u16,
        kind: Kind,
        words: LinkedList<u64>,
    },
    /// Reads an element.
    Read {
        object: u16,
        index: u32,
        word: u64,
    },
    /// Writes an element.
    Write {
        object: u16,
        index: u32,
        word: u64,
    },
    /// Takes an object away that nothing reaches.
    Drop {
        object: u16,
    },
    /// Sets how many words are used, after a collection.
    Settle {
        used: u32,
    },
    /// Changes nothing: the thread learns what others did.
    Meet,
}

impl Found {
    /// Whether a reference stands, be it cleared.
    pub const fn is_there(self) -> bool
        ensures { IsTrue result ↔ (self ≢ Stale) }
    {
        !matches!(self, Found::Stale)
    }
}
