//! A watcher that counts refusals by call and fault.

use jr::{Refusal, Watcher};
use std::io;
use std::io::Write;

/// How many calls have a row of counts of their own.
const ROWS: usize = 7;

/// The calls whose refusals are counted apart. Those of all others are counted in one row behind theirs.
const CALLS: [&str; ROWS] = [
    "DeleteGlobalRef",
    "GetArrayLength",
    "GetStringLength",
    "SetLongArrayRegion",
    "GetIntArrayRegion",
    "IsSameObject",
    "NewCharArray",
];

/// How many numbers of faults there are, from 0 on.
const FAULTS: usize = 24;

/// How many counts there are: those of one call, by their fault, stand side by side.
const COUNTS: usize = (ROWS + 1) * FAULTS;

/// How often each call had each fault.
#[derive(Drop)]
pub(crate) struct Counts {
    times: [u32; COUNTS],
}

/// The row of a call.
fn row_of(call: &str) -> usize {
    for row in 0..CALLS.len() {
        if CALLS[row] == call {
            return row;
        }
    }
    CALLS.len()
}

impl Counts {
    /// No refusal yet.
    pub(crate) fn none() -> Counts {
        Counts { times: [0; COUNTS] }
    }

    /// Writes a line for each call and fault.
    pub(crate) fn write<W: Write>(&self, out: &mut W) -> io::Result<()> {
        for at in 0..COUNTS {
            let times = self.times[at];
            if times > 0 {
                let call = CALLS.get(at / FAULTS).copied().unwrap_or("other calls");
                let fault = at % FAULTS;
                writeln!(out, "{call}, E{fault}: {times}")?;
            }
        }
        Ok(())
    }
}

impl Watcher for Counts {
    ghost hears = { λ old new refusal. Unit {0} };

    /// Counts the refusal.
    fn refused(&mut self, refusal: Refusal) {
        let fault = usize::from(refusal.fault.number());
        let at = row_of(refusal.call)
            .wrapping_mul(FAULTS)
            .wrapping_add(fault);
        if at < COUNTS {
            self.times[at] = self.times[at].wrapping_add(1);
        }
    }
}
