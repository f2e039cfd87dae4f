//! How far a stress has come: how many calls it has seen, and its draws.

ghost use Rattle.std.specs.Prelude.{◌≡◌};
ghost use Rattle.rand_pcg.specs.Pcg.{pcg32};
ghost use Rattle.jr_stressed.specs.Drawing.{first_turns, next_turns};

use rand_core::utils::NextWord;
use rand_pcg::Pcg32;

/// How far a stress has come: how many calls it has seen, and the generator of its draws, a PCG of 32 bits.
#[derive(Clone, Drop)]
pub struct Turns {
    /// How many calls it has seen.
    pub calls: u64,
    pub(crate) draws: Pcg32,
}

impl Turns {
    /// Before the first call, by a seed.
    pub(crate) fn new(seed: u64) -> Turns
        ensures { result ≡ first_turns seed }
    {
        let draws = Pcg32::new(seed, 0);
        Turns { calls: 0, draws }
    }

    /// The word that is drawn for the next call.
    pub(crate) fn next(&mut self) -> u32
        ensures word { result ≡ (pcg32 self.old.draws).0 }
        ensures turns { self.new ≡ next_turns self.old }
    {
        self.calls = self.calls.wrapping_add(1);
        self.draws.next_word()
    }
}
