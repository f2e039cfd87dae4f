//! What stands behind the pointers.
ghost use Rattle.std.specs.Prelude.{◌≤◌, ◌+◌, All, length, vec_capacity};
ghost use Rattle.jr_critical.specs.Levels.{StandOver};
ghost use Rattle.jr_owned.specs.Pools.{IsIdle};

use crate::in_region::{close_by, nest_by};
use jr_critical::Levels;
use jr_env::levels_beside;
use jr_env::levels_beside::First;
use jr_owned::OwnedEnv;
use jr_weak::Marker;
use jr_word::Fault;

/// What the place of a room begins with.
pub(crate) const ROOM_MARK: u64 = 0x6c75_7468_726f_6f6d;

/// What the place of a thread's env begins with.
pub(crate) const ENV_MARK: u64 = 0x6c75_7468_7265_6e76;

/// The place of a room: its mark, the envs that no thread holds, how many threads are attached, and whether no further one may be.
#[repr(C)]
#[derive(Drop)]
pub struct Opened {
    pub(crate) mark: u64,
    pub(crate) envs: Vec<OwnedEnv>,
    pub(crate) attached: u32,
    pub(crate) released: bool,
    ghost idle: { All IsIdle envs.items },
    ghost places: { length envs.items + attached ≤ vec_capacity envs },
    ghost few: { length envs.items + attached ≤ 4294967295 },
}

/// A thread's env, and the memory of its collections.
#[derive(Drop)]
pub struct Native {
    pub(crate) env: OwnedEnv,
    pub(crate) marker: Marker,
}

/// A thread's env in a critical region, whose levels stand over it. The region ends where it is let go.
pub struct InRegion {
    pub(crate) native: Box<Native>,
    pub(crate) levels: Levels,
    ghost stand: { StandOver levels native.value.env.held },
}

impl InRegion {
    ghost use Rattle.std.specs.Prelude.{◌≡◌};
    ghost use Rattle.jr_critical.specs.Levels.{LeavesBefore};
    ghost use Rattle.jr_env.specs.Retried.{first_word};
    ghost use Rattle.luthrady.specs.KeptRegions.{adding_first, count_left, AddsToRegion, LeavesRegion};

    /// Adds a level to a region, and answers its number.
    ///
    /// # Errors
    ///
    /// Those of `nest_by`.
    pub(crate) fn nested(self, first: First) -> (Presence, Result<usize, Fault>)
        ensures { AddsToRegion (adding_first first) (first_word first) self result.0 result.1 }
    {
        let InRegion {
            mut native,
            mut levels,
        } = self;
        let answer = nest_by(&mut *native, &mut levels, first);
        (Presence::Critical(InRegion { native, levels }), answer)
    }

    /// Gives up the last level of a region, and tells how many are left. With the first one the env is ready for calls again.
    pub(crate) fn given_up(self) -> (Presence, usize)
        ensures { (left : _) × (result.1 ≡ count_left left) × LeavesBefore self.levels left × LeavesRegion self result.0 left }
    {
        let InRegion { mut native, levels } = self;
        match close_by(&mut *native, levels) {
            Some(levels) => {
                let left = levels.depth();
                (Presence::Critical(InRegion { native, levels }), left)
            }
            None => (Presence::Ready(native), 0),
        }
    }
}

impl Drop for InRegion {
    fn drop(self) {
        let InRegion { mut native, levels } = self;
        end_by(&mut *native, levels);
    }
}

/// Ends a region whose levels stand over a thread's env.
fn end_by(native: &mut Native, levels: Levels)
    requires { StandOver levels native.old.env.held }
{
    levels_beside::close_all(&mut native.env, levels);
}

/// Where a thread's env is.
#[derive(Drop)]
pub enum Presence {
    /// With the room again: the thread was detached.
    Detached,
    /// Ready for the thread's calls.
    Ready(Box<Native>),
    /// In a critical region.
    Critical(InRegion),
}

/// The place of a thread's env: its mark, and where the env is.
#[repr(C)]
#[derive(Drop)]
pub struct EnvPlace {
    pub(crate) mark: u64,
    pub(crate) presence: Presence,
}
