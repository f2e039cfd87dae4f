//! The word of the gate.

use crate::bits::u16_at;

/// Whether a gate lets threads in.
#[derive(Clone, Copy, Debug, PartialEq, Eq)]
pub enum GateState {
    /// It does.
    Open,
    /// A thread has announced that it will shut it: nobody is let in.
    Announced,
    /// A thread has shut it, and collects.
    Shut,
}

/// What the word of the gate says.
#[derive(Clone, Copy, Debug, PartialEq, Eq)]
pub struct GateParts {
    /// The threads inside or knocking.
    pub count: u16,
    /// Whether others are let in.
    pub state: GateState,
}

/// The word of the gate.
#[derive(Clone, Copy, Debug, PartialEq, Eq)]
pub struct GateWord(pub u64);

impl GateWord {
    ghost use Rattle.std.specs.Prelude.{◌≡◌, IfSome};
    ghost use Rattle.jr_word.specs.Gate.{gate_word, IsGate};

    /// What a word has where the gate is shut.
    pub const SHUT: u64 = 0x1_0000;

    /// What a word has where it is announced that the gate will be shut.
    pub const ANNOUNCED: u64 = 0x2_0000;

    /// The word of a gate with these parts.
    #[inline]
    pub fn pack(parts: GateParts) -> Self
        ensures { result.0 ≡ gate_word parts }
    {
        let state = match parts.state {
            GateState::Open => 0,
            GateState::Announced => Self::ANNOUNCED,
            GateState::Shut => Self::SHUT,
        };
        GateWord(u64::from(parts.count) + state)
    }

    /// What a word says of the gate, if it is well formed.
    #[inline]
    pub fn parts(word: u64) -> Option<GateParts>
        ensures sound { IfSome result (λ parts. IsGate parts × (word ≡ gate_word parts)) }
        ensures complete { (parts : _) → IsGate parts → word ≡ gate_word parts → result ≡ Some parts }
    {
        let state = match word >> 16 {
            0 => GateState::Open,
            1 => GateState::Shut,
            2 => GateState::Announced,
            _ => return None,
        };
        let count = u16_at(word, 0);
        Some(GateParts { count, state })
    }
}
