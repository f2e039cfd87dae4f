//! How a room is opened, and how threads come to it and go.
ghost use Rattle.std.specs.Prelude.{◌≡◌, ◌≤◌, ◌⊎◌, ◌↔◌, false, Some, Err, IfOk, IfErr, IfSome};
ghost use Rattle.std.specs.Global.{Box};
ghost use Rattle.jr_word.specs.declared.fault.Fault.TheVariants.{Memory, Size};
ghost use Rattle.jr_word.specs.Config.{in_limits};
ghost use Rattle.jr_rule.specs.Passes.{Closes};
ghost use Rattle.jr_rule.specs.Rule.{stepping_pass};
ghost use Rattle.jr_owned.specs.Pools.{IsIdle};
ghost use Rattle.jr_env.specs.Envs.{IsOutside};
ghost use Rattle.jr_env.specs.Collections.{FitsRoom};
ghost use Rattle.luthrady.specs.declared.held.Native.{Native};
ghost use Rattle.luthrady.specs.Opening.{IsPlaceOpened};
ghost use Rattle.luthrady.specs.Threads.{IsAttached, IsLetGo, IsPlaced, LeavesSome, TakesBack};

use crate::held::{ENV_MARK, EnvPlace, Native, Opened, Presence, ROOM_MARK};
use jr_model::Summary;
use jr_owned::{OwnedEnv, close_owned, open_envs};
use jr_word::{Config, Fault};
use std::alloc::Global;

/// Opens a room.
///
/// # Errors
///
/// E17 where the sizes are beyond their limits; E16 where memory was refused.
pub(crate) fn open_room(alloc: Global, config: Config) -> Result<Box<Opened>, Fault>
    ensures size { (result ≡ Err Size) ↔ (in_limits config ≡ false) }
    ensures memory { IfErr result (λ e. (e ≡ Size) ⊎ (e ≡ Memory)) }
    ensures opened { IfOk result (λ b. IsPlaceOpened config b.value) }
{
    let envs = open_envs(alloc, config)?;
    let place = Opened {
        mark: ROOM_MARK,
        envs,
        attached: 0,
        released: false,
    };
    let Ok(opened) = Box::new(alloc, place) else {
        return Err(Fault::Memory);
    };
    Ok(opened)
}

impl Opened {
    /// An env that no thread holds, in the place of a thread's env.
    ///
    /// # Errors
    ///
    /// E21 where no env is free; E16 where memory was refused.
    ///
    /// No env is gone then.
    pub(crate) fn attach(&mut self, alloc: Global) -> Result<Box<EnvPlace>, Fault>
        ensures { IsAttached self.old self.new result }
    {
        let Some(env) = self.envs.pop() else {
            return Err(Fault::NotFresh);
        };
        match place_of(alloc, env) {
            Ok(place) => {
                self.attached += 1;
                Ok(place)
            }
            Err(env) => {
                self.envs.push_reserved(env);
                Err(Fault::Memory)
            }
        }
    }

    /// Lets go of the envs that no thread holds. No further thread is attached then.
    pub(crate) fn release(&mut self)
        ensures { IsLetGo self.old self.new }
    {
        self.envs.clear();
        self.released = true;
    }

    /// Takes the env of a thread that goes. Where the room was released the env is let go, and the last one closes the room, and tells what stands there.
    ///
    /// # Errors
    ///
    /// E22 where threads are left inside as the last one closes the room.
    pub(crate) fn take_back(&mut self, native: Box<Native>) -> Result<Option<Summary>, Fault>
        requires idle { IsIdle native.value.env }
        requires attached { 1 ≤ self.old.attached }
        ensures { TakesBack self.old self.new native.value result }
    {
        let Native { env, marker: _ } = Box::into_inner(native);
        self.attached -= 1;
        if !self.released {
            self.envs.push_reserved(env);
            return Ok(None);
        }
        if self.attached != 0 {
            return Ok(None);
        }
        closed(env)
    }
}

/// An env in the place of a thread's env, with the memory of its collections.
///
/// # Errors
///
/// The env, where memory was refused.
fn place_of(alloc: Global, env: OwnedEnv) -> Result<Box<EnvPlace>, OwnedEnv>
    ensures placed { IfOk result (λ a. (n : Box Native) × IsPlaced n a.value × (n.value.env ≡ env)) }
    ensures back { IfErr result (λ e. e ≡ env) }
{
    let nobody = EnvPlace {
        mark: ENV_MARK,
        presence: Presence::Detached,
    };
    let Ok(mut place) = Box::new(alloc, nobody) else {
        return Err(env);
    };
    match native_of(alloc, env) {
        Ok(native) => {
            place.presence = Presence::Ready(native);
            Ok(place)
        }
        Err(env) => Err(env),
    }
}

/// An env with the memory of its collections.
///
/// # Errors
///
/// The env, where memory was refused.
fn native_of(alloc: Global, env: OwnedEnv) -> Result<Box<Native>, OwnedEnv>
    ensures env { IfOk result (λ n. n.value.env ≡ env) }
    ensures fits { IfOk result (λ n. FitsRoom n.value.marker n.value.env) }
    ensures back { IfErr result (λ e. e ≡ env) }
{
    let Ok(marker) = env.marker(alloc) else {
        return Err(env);
    };
    match Box::new(alloc, Native { env, marker }) {
        Ok(native) => Ok(native),
        Err(refused) => {
            let Native { env, marker: _ } = refused.value;
            Err(env)
        }
    }
}

/// Lets go of the last env of a room, and closes the room. `None` where somebody owns it still.
///
/// # Errors
///
/// E22 where threads are left inside.
fn closed(env: OwnedEnv) -> Result<Option<Summary>, Fault>
    ensures closed { IsOutside env → IfOk result (λ o. IfSome o (λ s. Closes (stepping_pass env.held.steps.cells.cells.seat.me) s)) }
    ensures left { IsOutside env → IfErr result (λ e. LeavesSome env.held.steps e) }
{
    match close_owned(env.into_pass()) {
        Ok(summary) => Ok(summary),
        Err(left) => Err(left.fault),
    }
}
