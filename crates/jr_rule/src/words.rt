//! The words of the row:
//! where each is (the gate, the top, the slots, the local words thread by thread, the headers of objects 1 upward, and the element words), and what it says, as the steps make and read it.
ghost use Rattle.std.specs.Prelude.{◌≡◌, ◌↔◌, ◌<◌, ◌≤◌, ◌^◌, IsTrue};
ghost use Rattle.jr_word.specs.declared.gate.GateParts.{GateParts as Gates};
ghost use Rattle.jr_word.specs.declared.slot.SlotParts.TheVariants.{Free};
ghost use Rattle.jr_word.specs.Config.{IsLimited};
ghost use Rattle.jr_word.specs.Gate.{gate_word, IsGate};
ghost use Rattle.jr_word.specs.Top.{top_word as word_of_top};
ghost use Rattle.jr_model.specs.declared.event.Role.TheVariants.{Outside};
ghost use Rattle.jr_model.specs.History.{role_after};
ghost use Rattle.jr_steps.specs.Acts.{act_of_entry, all_counted as all_of, is_closed as state_closed};
ghost use Rattle.jr_steps.specs.Says.{local_parts as parts_of_local};
ghost use Rattle.jr_rule.specs.Image.{slot_at as place_of_slot, local_at as place_of_local, header_at as place_of_header, element_at as place_of_element};
ghost use Rattle.jr_rule.specs.Slots.{CanStand, IsReference, has_kind, parts_once_free};

use jr_model::Role;
use jr_word::{
    Config, GateParts, GateState, GateWord, LocalParts, RefKind, SlotParts, TopParts, TopWord,
};

/// The word of the gate.
pub(crate) const GATE: usize = 0;

/// The word of the top.
pub(crate) const TOP: usize = 1;

/// The word of the first slot.
const SLOTS: usize = 2;

/// The place of a slot in the row.
pub(crate) fn slot_at(index: u16) -> usize
    ensures { result ≡ place_of_slot index }
{
    SLOTS + usize::from(index)
}

/// The place of a thread's local word in the row.
pub(crate) fn local_at(config: &Config, thread: u8, place: u16) -> usize
    requires limited { IsLimited config.now }
    requires thread { thread < config.now.threads }
    requires place { place < config.now.locals }
    ensures { result ≡ place_of_local config.now thread place }
{
    let before = usize::from(thread) * config.locals as usize;
    SLOTS + config.slots as usize + before + usize::from(place)
}

/// The place of the header of object 1 in the row.
pub(crate) fn first_header(config: &Config) -> usize
    requires limited { IsLimited config.now }
    ensures { result ≡ place_of_header config.now 1 }
{
    let locals = config.threads as usize * config.locals as usize;
    SLOTS + config.slots as usize + locals
}

/// The place of an object's header in the row.
pub(crate) fn header_at(config: &Config, object: u32) -> usize
    requires limited { IsLimited config.now }
    requires object { (1 ≤ object) × (object ≤ config.now.objects) }
    ensures { result ≡ place_of_header config.now object }
{
    let locals = config.threads as usize * config.locals as usize;
    SLOTS + config.slots as usize + locals + (object as usize - 1)
}

/// The place of the first word of array space in the row, where it has any.
pub(crate) fn first_element(config: &Config) -> usize
    requires limited { IsLimited config.now }
    ensures { result ≡ place_of_element config.now 0 }
{
    first_header(config) + config.objects as usize
}

/// The word of a top that has so many words used.
pub(crate) fn top_word(used: u32) -> u64
    requires { used < 2 ^ 24 }
    ensures { result ≡ word_of_top (record { used = used }) }
{
    TopWord::pack(TopParts { used }).0
}

/// Whether the word of a gate is that of one that lets nobody in.
pub(crate) fn is_closed(word: u64) -> bool
    ensures { (parts : Gates) → IsGate parts → word ≡ gate_word parts → result ≡ state_closed parts.state }
{
    !matches!(
        GateWord::parts(word),
        Some(GateParts {
            state: GateState::Open,
            ..
        })
    )
}

/// How many threads are inside, knocking, announcing or collecting, as the gate says.
pub(crate) fn all_counted(parts: GateParts) -> u32
    ensures { result ≡ all_of parts }
{
    u32::from(parts.count) + u32::from(!matches!(parts.state, GateState::Open))
}

/// Whether what the word of a slot says is a reference of the kind.
pub(crate) fn is_reference(kind: RefKind, parts: SlotParts) -> bool
    ensures { result ≡ has_kind kind parts }
{
    match parts {
        SlotParts::Global { .. } => kind == RefKind::Global,
        SlotParts::Weak { .. } => kind == RefKind::Weak,
        _ => false,
    }
}

/// What the word of a slot says in which a reference stands.
pub(crate) fn reference(kind: RefKind, serial: u32, object: Option<u16>) -> SlotParts
    requires { CanStand kind object }
    ensures { IsReference kind serial object result }
{
    match (kind, object) {
        (RefKind::Global, Some(object)) => SlotParts::Global { serial, object },
        (RefKind::Weak, object) => SlotParts::Weak { serial, object },
        _ => unreachable!(),
    }
}

/// What the word of a place for a local reference says.
pub(crate) fn local_parts(object: Option<u16>) -> LocalParts
    ensures { result ≡ parts_of_local object }
{
    match object {
        Some(object) => LocalParts::Object(object),
        None => LocalParts::Free,
    }
}

/// What the word of a slot says once its reference of the serial is deleted.
pub(crate) fn freed_slot(serial: u32, last: u32) -> SlotParts
    ensures { result ≡ parts_once_free last serial }
{
    if serial < last {
        SlotParts::Free { serial: serial + 1 }
    } else {
        SlotParts::Retired { serial: last }
    }
}
