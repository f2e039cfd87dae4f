//! Whose calls can be stressed.

use jr_env::{Checked, Env};
use jr_steps::Steps;
use jr_weak::{Collected, Marker};
use jr_word::{Config, Fault};

/// Whose calls can be stressed: who can collect before them. Each of its calls enters the gate.
pub trait Stressable: Sized {
    ghost use Rattle.std.specs.Prelude.{◌≡◌, ℕ, Result};
    ghost use Rattle.jr_word.specs.declared.config.Config.{Config};
    ghost use Rattle.jr_word.specs.declared.fault.Fault.{Fault};
    ghost use Rattle.jr_weak.specs.declared.collecting.Collected.{Collected};
    ghost use Rattle.jr_weak.specs.Markers.{room_of};

    ghost collected: { ℕ → Self → Self → Result Collected Fault → Type 0 };

    ghost sizes: { Self → Config };

    /// The sizes of its room.
    fn sizes(&self) -> Config
        ensures { result ≡ sizes self.now };

    /// Collects once, as `collect` of an env does.
    ///
    /// # Errors
    ///
    /// Those of `collect` of an env: E17 for a marker that doesn't fit, and E14.
    ///
    /// Nothing has changed then.
    ///
    /// # Operations
    ///
    /// Those of `collect` of an env.
    fn collect_once(&mut self, marker: &mut Marker) -> Result<Collected, Fault>
        ensures call { collected (room_of marker.old) self.old self.new result }
        ensures room { room_of marker.new ≡ room_of marker.old };
}

impl<S: Steps> Stressable for Env<S> {
    ghost use Rattle.jr_stressed.specs.Stressing.{CollectsWhereItFits};

    ghost collected = { λ room old new answer. CollectsWhereItFits room old new answer };

    ghost sizes = { λ env. (S.facts env.held.steps).stands.config };

    fn sizes(&self) -> Config {
        self.held.steps.config()
    }

    fn collect_once(&mut self, marker: &mut Marker) -> Result<Collected, Fault> {
        self.collect(marker)
    }
}

impl<N: Stressable, W> Stressable for Checked<'_, N, W> {
    ghost use Rattle.jr_stressed.specs.Stressing.{CollectsUnwatched};

    ghost collected = { λ room old new answer. CollectsUnwatched (N.collected room) old new answer };

    ghost sizes = { λ checked. N.sizes checked.caller.now };

    fn sizes(&self) -> Config {
        self.caller.sizes()
    }

    fn collect_once(&mut self, marker: &mut Marker) -> Result<Collected, Fault> {
        self.caller.collect_once(marker)
    }
}
