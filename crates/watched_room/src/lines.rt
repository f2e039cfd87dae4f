//! A watcher that writes a line for each refusal.

use jr::{Refusal, Watcher};
use std::io;
use std::io::Write;

/// Who writes, and whether all lines so far were written.
#[derive(Drop)]
pub(crate) struct Lines<W> {
    out: W,
    written: io::Result<()>,
}

impl<W: Write + Drop> Lines<W> {
    /// Lines that go there.
    pub(crate) fn to(out: W) -> Lines<W> {
        let written = Ok(());
        Lines { out, written }
    }

    /// Whether all were written.
    pub(crate) fn end(self) -> io::Result<()> {
        let Lines { written, out: _ } = self;
        written
    }
}

impl<W: Write> Watcher for Lines<W> {
    ghost hears = { λ old new refusal. Unit {0} };

    /// Writes the refusal, unless one before was not written.
    fn refused(&mut self, refusal: Refusal) {
        if self.written.is_ok() {
            self.written = writeln!(self.out, "WRONG CALL: {refusal}");
        }
    }
}
