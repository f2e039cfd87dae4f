//! A census: what stands in a room at one step, told while the gate is shut for it, over any steps.
#![tactic(auto)]

mod dump;
mod dumping;
mod laws;
mod locals;
mod objects;
mod printing;
mod slots;
mod taking;
mod words;

pub use dumping::{take_dump, take_dump_announced};
pub use laws::censuses_foretell_collections;
pub use objects::{KindCounts, Objects};
pub use printing::kind_name;
pub use slots::Slots;
pub use taking::{Census, take_census, take_census_announced};
pub use words::WordCounts;
