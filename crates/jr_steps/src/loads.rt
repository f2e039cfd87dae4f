//! What a load counts as.
use jr_word::HandleParts;

/// What a load of a slot counts as.
#[derive(Clone, Copy)]
pub enum SlotLoad {
    /// A look at a handle.
    Look(HandleParts),
    /// Whether the slot is occupied.
    Probe,
    /// Nothing but what others did.
    Meet,
}

/// What a load of the gate counts as.
#[derive(Clone, Copy)]
pub enum GateLoad {
    /// Nothing but what others did.
    Meet,
    /// A refusal to shut the gate, where another thread keeps it closed; else nothing but what others did.
    Busy,
}

/// As what a load of the top counts.
#[derive(Clone, Copy)]
pub enum TopLoad {
    /// Nothing but what others did.
    Look,
    /// A refusal of space, where this many words don't fit beside those that are reserved.
    Full { words: u64 },
}
