//! The room: one row of atomic words that threads step on without locks, under a rule that ties it to one legal history of the machine.
#![tactic(auto)]

mod cells;
mod closing;
mod closing_all;
mod in_room;
mod laws;
mod note;
mod of_site;
mod over;
mod over_owned;
mod over_plain;
mod over_room;
mod owned_cells;
mod parts;
mod pass;
mod pinned_note;
mod pinning;
mod plain_cells;
mod room;
mod row;
mod rule;
mod site;
mod steps_in;
mod summing;
mod words;

pub use cells::{Cells, StepKind};
pub use closing::Left;
pub use closing_all::AllLeft;
pub use in_room::{InRoom, SiteSteps};
pub use jr_model::{Role, Summary};
pub use jr_steps::{
    GateLoad, Holdings, Known, KnownHeader, Move, OwnRange, SlotLoad, Steps, TopLoad,
};
pub use laws::{histories_go_by_operations, rooms_have_one_history, steps_tell_of_operations};
pub use note::Note;
pub use of_site::OfSite;
pub use over::StepsOver;
pub use over_owned::OwnedSteps;
pub use over_plain::PlainSteps;
pub use over_room::RoomSteps;
pub use owned_cells::OwnedCells;
pub use parts::Parts;
pub use pass::Pass;
pub use pinned_note::PinnedNote;
pub use plain_cells::PlainCells;
pub use room::Room;
pub use row::RoomCells;
pub use rule::View;
pub use site::{NoteOf, PinnedNoteOf, Site, ThreadNumber};
pub use steps_in::StepsIn;
