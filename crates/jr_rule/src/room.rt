//! Rooms: opened, shared by the holders of their passes, and closed.
ghost use Rattle.std.specs.Prelude.{◌≡◌, ◌⊎◌, ◌↔◌, IfOk, IfErr, Ok, Err, false};
ghost use Rattle.jr_word.specs.declared.fault.Fault.TheVariants.{Memory, Size};
ghost use Rattle.jr_word.specs.Config.{in_limits};

use crate::pass::Pass;
use crate::row::Row;
use jr_word::{Config, Fault};
use std::alloc::Global;

/// A room: one row of atomic words, which the holders of its passes share, with `LAST` as the last serial.
#[derive(Drop)]
pub struct Room<const LAST: u32> {
    pub(crate) row: Row,
    ghost last: { row.last ≡ LAST },
}

impl<const LAST: u32> Room<LAST> {
    ghost use Rattle.jr_rule.specs.Rooms.{IsOpening};

    /// Opens a room of zeros, with one pass a thread, from thread 0 upward, each outside the gate and fresh.
    ///
    /// # Errors
    ///
    /// E17 exactly where the sizes are beyond their limits; E16 where memory was refused.
    pub fn open(alloc: Global, config: Config) -> Result<(Room<LAST>, Vec<Pass>), Fault>
        ensures size { (result ≡ Err Size) ↔ (in_limits config ≡ false) }
        ensures memory { IfErr result (λ e. (e ≡ Size) ⊎ (e ≡ Memory)) }
        ensures opened { IfOk result (λ r. IsOpening LAST config r.0 r.1.items) }
    {
        if !config.in_limits() {
            return Err(Fault::Size);
        }
        let Ok((row, passes)) = Row::open(alloc, config, LAST) else {
            return Err(Fault::Memory);
        };
        Ok((Room { row }, passes))
    }
}
