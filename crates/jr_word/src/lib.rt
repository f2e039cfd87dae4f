//! The words of the row, what each says, and the types that every other crate speaks of.
#![tactic(auto)]

mod bits;
mod config;
mod elem;
mod fault;
mod gate;
mod handle;
mod header;
mod kind;
mod local;
mod narrow;
mod report;
mod slot;
mod top;

pub use config::Config;
pub use elem::Elem;
pub use fault::Fault;
pub use gate::{GateParts, GateState, GateWord};
pub use handle::{Handle, HandleParts, LAST_SERIAL, RefKind};
pub use header::{Header, HeaderParts};
pub use kind::Kind;
pub use local::{LocalParts, LocalWord};
pub use report::FaultReport;
pub use slot::{SlotParts, SlotWord};
pub use top::{TopParts, TopWord};
