//! The steps and the env of a thread that owns its room together with others, so that neither has a lifetime.
#![tactic(auto)]

mod code;
mod collecting;
mod envs;
mod listing;
mod owned;
mod pool;
mod pool_room;
mod site;

pub use code::{OwnedCode, OwnedThreads, RunsCode, spawn_owned};
pub use collecting::close_collected;
pub use envs::{OwnedEnv, open_envs};
pub use listing::close_collected_listing;
pub use owned::{
    OwnedCells, OwnedSteps, close_owned, end_owner, last_owner, open_owned, owned_steps,
};
pub use pool::{Attached, AttachedOver, EnvPool, PoolOver};
pub use pool_room::PoolRoom;
pub use site::{OwnedStepsOf, of_any_site, of_site};

/// The last serial of the rooms.
pub(crate) const LAST: u32 = jr_word::LAST_SERIAL;
