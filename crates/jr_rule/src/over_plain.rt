//! The steps of one thread over a plain vector of words.
use crate::over::StepsOver;
use crate::plain_cells::PlainCells;
use crate::summing::summary;
use jr_model::{Role, Summary};
use jr_word::{Config, Fault};
use std::alloc::Global;

/// The steps of thread 0 over a row of plain words, with `LAST` as the last serial.
pub type PlainSteps<const LAST: u32> = StepsOver<PlainCells<LAST>, ()>;

impl<const LAST: u32> StepsOver<PlainCells<LAST>, ()> {
    ghost use Rattle.std.specs.Prelude.{◌≡◌, ◌⊎◌, ◌↔◌, false, IfOk, IfErr, Err};
    ghost use Rattle.jr_word.specs.declared.fault.Fault.TheVariants.{Memory, Size};
    ghost use Rattle.jr_word.specs.Config.{in_limits};
    ghost use Rattle.jr_model.specs.declared.event.Role.TheVariants.{Outside};
    ghost use Rattle.jr_model.specs.State.{summary as summary_of};
    ghost use Rattle.jr_steps.specs.Knowing.{state_of};
    ghost use Rattle.jr_rule.specs.Cells.{IsAmong};
    ghost use Rattle.jr_rule.specs.Sights.{sight_of_words, IsOpenedAlone};

    /// The steps of thread 0 over a row of zeros, outside the gate and fresh. Where the sizes name more threads, the others never do anything.
    ///
    /// # Errors
    ///
    /// E17 exactly where the sizes are beyond their limits; E16 where memory was refused.
    pub fn new(alloc: Global, config: Config) -> Result<Self, Fault>
        ensures size { (result ≡ Err Size) ↔ (in_limits config ≡ false) }
        ensures memory { IfErr result (λ e. (e ≡ Size) ⊎ (e ≡ Memory)) }
        ensures opened { IfOk result (λ s. IsOpenedAlone config LAST s.cells.config s.cells.words.items s.role s.fresh s.hint) }
    {
        if !config.in_limits() {
            return Err(Fault::Size);
        }
        let Ok(words) = vec![in alloc; 0u64; config.row_words()] else {
            return Err(Fault::Memory);
        };
        let cells = PlainCells { words, config };
        Ok(StepsOver {
            cells,
            role: Role::Outside,
            fresh: true,
            hint: 0,
            place: (),
        })
    }

    /// What stands in the room. It takes no memory.
    pub fn summary(&self) -> Summary
        ensures { (k : _) → IsAmong (sight_of_words self.now.cells.config LAST self.now.cells.words.items) k → result ≡ summary_of k.config k.last (state_of k) }
    {
        summary(&self.cells.words, &self.cells.config)
    }
}
