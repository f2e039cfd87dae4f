//! The atomic steps of a thread, each with its reply.

use jr_steps::SlotLoad;
use jr_word::{GateParts, HandleParts, HeaderParts, LocalParts, SlotParts};

/// An atomic step of a thread, with its reply.
#[derive(Clone, Copy)]
pub(crate) enum Step {
    /// An entry at the gate: whether it was let in.
    Enter(bool),
    /// An exit, or the withdrawal of an entry that was not let in.
    Leave,
    /// The gate is shut, or so many others are in the way.
    Shut(Result<(), u32>),
    /// It is announced that the gate will be shut, where it counts as many as were looked at, or this was found.
    Announce(u16, Result<(), GateParts>),
    /// The announcement is taken back.
    Cancel,
    /// The gate is shut, as announced, or so many others are in the way.
    ShutAnnounced(Result<(), u32>),
    /// The gate is opened after a collection.
    Reopen,
    /// A look at the gate.
    SeeGate(GateParts),
    /// A look at a slot.
    SeeSlot(u16, SlotLoad, SlotParts),
    /// A reference to an object is made, or this was found.
    Claim(HandleParts, u16, Result<(), SlotParts>),
    /// A reference is deleted: whether it still stood.
    Free(HandleParts, bool),
    /// A store in a local place.
    PutLocal(u16, Option<u16>),
    /// A look at the header of an object.
    SeeHeader(u16, Option<HeaderParts>),
    /// An object is published: whether its number was free.
    ClaimHeader(u16, HeaderParts, bool),
    /// A look at the top, for so many words where they are asked for.
    SeeTop(Option<u64>, u32),
    /// So many words are reserved beside those that were looked at, or so many were found.
    ClaimTop(u32, u32, Result<(), u32>),
    /// An element is read.
    SeeElement(u16, u32, u64),
    /// An element is written.
    PutElement(u16, u32, u64),
    /// A word of what was reserved at a place is written.
    PutReserved(u32, u32, u64),
    /// A look at a slot during a collection.
    ScanSlot(u16, SlotParts),
    /// A look at a local place of any thread during a collection.
    ScanLocal(u8, u16, LocalParts),
    /// A look at a header during a collection.
    ScanHeader(u16, Option<HeaderParts>),
    /// A look at an element during a collection.
    ScanElement(u16, u32, u64),
    /// A look at the top during a collection.
    ScanTop(u32),
    /// A weak reference, by its index and serial, is cleared of its object.
    Wipe(u16, u32, u16),
    /// An object is dropped.
    DropHeader(u16),
    /// An element of an object is copied to its new place.
    MoveElement(u16, u32, u64),
    /// An object is given its new place.
    SetHeader(u16, HeaderParts, u32),
    /// So many words are used from now on.
    SetTop(u32),
    /// A step that no case is made of.
    Unforeseen,
}
