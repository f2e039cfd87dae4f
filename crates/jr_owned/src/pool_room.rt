//! A room that is opened for a pool.
ghost use Rattle.std.specs.Prelude.{◌≡◌, ◌⊎◌, ◌↔◌, false, Err, IfOk, IfErr};
ghost use Rattle.jr_word.specs.declared.fault.Fault.TheVariants.{Memory, Size};
ghost use Rattle.jr_word.specs.Config.{in_limits};
ghost use Rattle.jr_rule.specs.Passes.{AreOpened};

use crate::LAST;
use jr_rule::{Pass, Room};
use jr_word::{Config, Fault};
use std::alloc::Global;

/// A room that was opened for a pool, with the pass of each thread, before a type stands for it.
#[derive(Drop)]
pub struct PoolRoom {
    pub(crate) room: Room<LAST>,
    pub(crate) passes: Vec<Pass>,
    ghost opened: { AreOpened room.row.config 4294967295 room.row passes.items },
}

impl PoolRoom {
    /// Opens a room of these sizes.
    ///
    /// # Errors
    ///
    /// E17 exactly where the sizes are beyond their limits; E16 where memory was refused.
    pub fn open(alloc: Global, config: Config) -> Result<PoolRoom, Fault>
        ensures size { (result ≡ Err Size) ↔ (in_limits config ≡ false) }
        ensures memory { IfErr result (λ e. (e ≡ Size) ⊎ (e ≡ Memory)) }
        ensures sizes { IfOk result (λ r. r.room.row.config ≡ config) }
    {
        let (room, passes) = Room::<LAST>::open(alloc, config)?;
        Ok(PoolRoom { room, passes })
    }
}
