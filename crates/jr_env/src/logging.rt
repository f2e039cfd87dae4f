//! A watcher that hands each refusal to the embedder's logger.

use crate::checked::{Refusal, Watcher};
use log::{Log, warn};

/// A watcher over a logger, such as a runtime, `log::Logged` or `log::Span`: each refusal is one record, of level `Warn` and of a target.
/// A logger that fails or drops a record tells nobody.
#[derive(Clone, Copy, Debug, Drop)]
pub struct LogWatcher<R> {
    /// Who logs.
    pub logger: R,
    /// The target of each record.
    pub target: &'static str,
}

impl<R> LogWatcher<R> {
    ghost use Rattle.std.specs.Prelude.{◌≡◌};

    /// A watcher over a logger, whose records have this target.
    pub fn new(logger: R, target: &'static str) -> Self
        ensures logger { result.logger ≡ logger }
        ensures target { result.target ≡ target.entry }
    {
        LogWatcher { logger, target }
    }
}

impl<R: Log> Watcher for LogWatcher<R> {
    ghost use Rattle.std.specs.Prelude.{◌≡◌};

    ghost hears = { λ old new refusal. new ≡ old };

    fn refused(&mut self, refusal: Refusal) {
        warn!(self.logger; target: self.target, "{refusal}");
    }
}
