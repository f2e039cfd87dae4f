//! What a collection reaches, and a collection as a whole, over any steps: marking, clearing, dropping and moving together.
#![tactic(auto)]

mod clearing;
mod collecting;
mod compacting;
mod dropping;
mod following;
mod listing;
mod marker;
mod marking;
mod roots;
mod waiting;

pub use collecting::{
    Collected, collect, collect_announced, collect_announced_listing, collect_listing,
};
pub use marker::Marker;
pub use waiting::shut_announced;
