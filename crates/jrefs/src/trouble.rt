//! Why the program failed.

use jr_scripts::{Reason, ScriptFault};
use std::error::Error;
use std::fmt;

/// Why the program failed, with the text that it prints.
#[derive(Debug, Drop)]
pub enum Trouble {
    /// The first fault of the script, and its line.
    Script { line: usize, reason: Reason },
    /// The words of the command line ask for nothing.
    Usage,
    /// Memory was refused.
    Memory,
    /// The reader failed.
    Input,
    /// The writer failed.
    Output,
}

impl Trouble {
    ghost use Rattle.std.specs.Prelude.{◌≡◌};
    ghost use Rattle.jrefs.specs.Trouble.{status_of};

    /// The exit status.
    pub(crate) fn status(&self) -> u8
        ensures { result ≡ status_of self.now }
    {
        match self {
            Trouble::Script { .. } => 1,
            Trouble::Usage => 2,
            Trouble::Memory => 3,
            Trouble::Input | Trouble::Output => 4,
        }
    }
}

impl fmt::Display for Trouble {
    ghost use Rattle.std.specs.Prelude.{Some};
    ghost use Rattle.jrefs.specs.Trouble.{trouble_text};

    ghost output = { λ t. Some (trouble_text t) };

    fn fmt<W: fmt::Write>(&self, f: &mut fmt::Formatter<W>) -> fmt::Result {
        match self {
            Trouble::Script { line, reason } => {
                write!(f, "script fault at line {line}: {}", reason.text())
            }
            Trouble::Usage => f.write_str("usage: jrefs run | check | word HEX | widen HEX"),
            Trouble::Memory => f.write_str("out of memory"),
            Trouble::Input => f.write_str("input fault"),
            Trouble::Output => f.write_str("output fault"),
        }
    }
}

impl Error for Trouble {}

impl From<ScriptFault> for Trouble {
    ghost use Rattle.std.specs.Prelude.{◌≡◌};
    ghost use Rattle.jrefs.specs.Trouble.{trouble_of};

    ghost from_gives = { λ fault t. t ≡ trouble_of fault };

    fn from(fault: ScriptFault) -> Trouble {
        match fault {
            ScriptFault::At(line, reason) => Trouble::Script { line, reason },
            ScriptFault::Memory => Trouble::Memory,
        }
    }
}
