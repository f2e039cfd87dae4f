//! A refusal as a line of a log.
use crate::fault::Fault;
use std::fmt;

/// A refusal with all that it says, for a log. `Fault::report` makes it.
#[derive(Clone, Copy, Debug)]
pub struct FaultReport {
    pub(crate) fault: Fault,
}

/// The word for so many threads, with its verb.
fn threads_are(count: u32) -> &'static str {
    match count {
        1 => "thread is",
        _ => "threads are",
    }
}

impl fmt::Display for FaultReport {
    fn fmt<W: fmt::Write>(&self, f: &mut fmt::Formatter<W>) -> fmt::Result {
        let fault = self.fault;
        write!(f, "{fault}: {}. ", fault.meaning())?;
        match fault {
            Fault::SpaceFull(used) => write!(f, "{used} words are in use. ")?,
            Fault::Busy(count) | Fault::LeftInside(count) => {
                let them = threads_are(count);
                write!(
                    f,
                    "{count} {them} inside, knocking, announcing or collecting. "
                )?;
            }
            Fault::Raced(seen, found) => write!(f, "{seen} words were looked at, {found} found. ")?,
            Fault::Moved(seen, found) => {
                write!(f, "{seen} threads were looked at, {found} found. ")?;
            }
            _ => {}
        }
        f.write_str(fault.advice())
    }
}
