//! Why the program fails.

use std::alloc::{AllocError, AllocFailed};
use std::io;
use thiserror::Error;

/// Why the program fails, with the text that it prints.
#[derive(Clone, Copy, Debug, Error)]
pub(crate) enum Trouble {
    /// Memory was refused, or a thread could not be started.
    #[error("out of memory")]
    Memory,
    /// The reader failed.
    #[error("input fault")]
    Input,
    /// The writer failed.
    #[error("output fault")]
    Output,
}

impl Trouble {
    /// The exit status.
    pub(crate) fn status(self) -> u8 {
        match self {
            Trouble::Memory => 3,
            Trouble::Input | Trouble::Output => 4,
        }
    }
}

impl From<AllocError> for Trouble {
    fn from(_error: AllocError) -> Trouble {
        Trouble::Memory
    }
}
