//! A pool of envs, for native threads that come and go: each is attached with an env that no other thread holds, and hands it back. A type stands for the pool's room.
ghost use Rattle.std.specs.Prelude.{◌≡◌, All, Some, length, Err, IfSome, IfOk, IfErr};
ghost use Rattle.std.specs.Arc.{arc_value};
ghost use Rattle.jr_word.specs.declared.fault.Fault.TheVariants.{Memory};
ghost use Rattle.jr_rule.specs.Passes.{IsOpened};
ghost use Rattle.jr_owned.specs.Pools.{ClosesAt, ClosesCollectedAt, IsIdle, IsLeftAt, IsLeftCollectingAt};
ghost use Rattle.jr_weak.specs.Markers.{room_of};
ghost use Rattle.jr_owned.specs.Listing.{ClosesListedAt, IsLeftListingAt};
ghost use Rattle.jr_owned.specs.PoolRooms.{IsRoomOfSite};

use crate::LAST;
use crate::collecting::close_collected;
use crate::envs::env_over;
use crate::listing::close_collected_listing;
use crate::owned::{close_owned, owned_steps};
use crate::pool_room::PoolRoom;
use crate::site::{OwnedStepsOf, of_any_site, of_site};
use jr_alive::Dump;
use jr_env::calls::FreeLocals;
use jr_env::{Env, Patience};
use jr_model::Summary;
use jr_rule::{Left, Pass, Room, Site};
use jr_steps::Steps;
use jr_weak::Marker;
use jr_word::Fault;
use std::alloc::{AllocError, Global};
use std::sync::{Arc, Mutex, MutexGuard};
use std::thread;

/// An env that no thread holds.
#[derive(Drop)]
struct Idle<S: Steps + Drop> {
    env: Box<Env<S>>,
    ghost idle: { IsIdle env.value },
}

/// Envs, one for each thread that may be attached at a time. Threads share them, as by an `Arc`.
#[derive(Drop)]
pub struct PoolOver<S: Steps + Drop> {
    places: Vec<Mutex<Option<Idle<S>>>>,
}

/// The env of an attached thread, and its place in the pool, which nobody else has meanwhile. It has to be detached, or taken out of the pool, or the program does not compile.
pub struct AttachedOver<'p, S: Steps + Drop> {
    /// The thread's env.
    pub env: Box<Env<S>>,
    place: MutexGuard<'p, Option<Idle<S>>>,
}

/// The envs of the site's room.
pub type EnvPool<Q> = PoolOver<OwnedStepsOf<Q>>;

/// An attached thread's env, which is one of the site's room.
pub type Attached<'p, Q> = AttachedOver<'p, OwnedStepsOf<Q>>;

/// An env that no thread holds.
fn parked<S: Steps + Drop>(env: Box<Env<S>>) -> Idle<S>
    requires { IsIdle env.value }
{
    Idle { env }
}

/// The env of a pass in the site's room, as it was opened.
fn env_of<Q: Site>(room: Arc<Room<LAST>>, pass: Pass) -> Env<OwnedStepsOf<Q>>
    requires opened { IsOpened (arc_value room).row pass }
    requires site { Some (arc_value room).row.table.shared.table_id ≡ Q.room }
    ensures { IsIdle result }
{
    let steps = of_site::<Q>(owned_steps(room, pass));
    env_over(steps)
}

/// A place with the env of a pass.
fn place_of<Q: Site>(
    alloc: Global,
    room: Arc<Room<LAST>>,
    pass: Pass,
) -> Result<Mutex<Option<Idle<OwnedStepsOf<Q>>>>, AllocError>
    requires opened { IsOpened (arc_value room).row pass }
    requires site { Some (arc_value room).row.table.shared.table_id ≡ Q.room }
{
    let Ok(env) = Box::new(alloc, env_of::<Q>(room, pass)) else {
        return Err(AllocError);
    };
    Ok(Mutex::new(Some(parked(env))))
}

/// A place for each pass, in the same order.
fn places_of<Q: Site>(
    alloc: Global,
    room: Room<LAST>,
    passes: Vec<Pass>,
) -> Result<Vec<Mutex<Option<Idle<OwnedStepsOf<Q>>>>>, AllocError>
    requires opened { All (λ p. IsOpened room.row p) passes.items }
    requires site { Some room.row.table.shared.table_id ≡ Q.room }
    ensures { IfOk result (λ r. length r.items ≡ length passes.items) }
{
    let room = Arc::new(alloc, room)?;
    let mut places = Vec::with_capacity(alloc, passes.len())?;
    for pass in passes {
        let shared = Arc::try_clone(&room)?;
        let place = place_of::<Q>(alloc, shared, pass)?;
        places.push(place)?;
    }
    Ok(places)
}

/// Ends an env that no thread holds, and closes the site's room where nobody else owns it, as `close_owned`.
fn end<Q: Site>(idle: Idle<OwnedStepsOf<Q>>) -> Result<Option<Summary>, Left<LAST>>
    ensures closed { IfOk result (λ o. IfSome o (ClosesAt Q.room)) }
    ensures left { IfErr result (IsLeftAt Q.room) }
{
    let env = Box::into_inner(idle.env);
    let steps = of_any_site(env.into_pass());
    close_owned(steps)
}

/// Ends an env that no thread holds, and collects and closes the site's room where nobody else owns it, as `close_collected`.
fn end_collected<Q: Site>(
    idle: Idle<OwnedStepsOf<Q>>,
    marker: &mut Marker,
) -> Result<Option<Summary>, Left<LAST>>
    ensures marker { room_of marker.new ≡ room_of marker.old }
    ensures closed { IfOk result (λ o. IfSome o (ClosesCollectedAt Q.room)) }
    ensures left { IfErr result (IsLeftCollectingAt Q.room (room_of marker.old)) }
{
    let owner = Box::into_inner(idle.env);
    let steps = of_any_site(owner.into_pass());
    close_collected(steps, marker)
}

/// Ends an env that no thread holds, and collects, notes what was left and closes as `close_collected_listing`.
fn end_listing<Q: Site>(
    alloc: Global,
    idle: Idle<OwnedStepsOf<Q>>,
    marker: &mut Marker,
) -> Result<Option<(Summary, Dump)>, Left<LAST>>
    ensures marker { room_of marker.new ≡ room_of marker.old }
    ensures closed { IfOk result (λ o. IfSome o (λ r. ClosesListedAt Q.room r.0 r.1)) }
    ensures left { IfErr result (IsLeftListingAt Q.room (room_of marker.old)) }
{
    let owner = Box::into_inner(idle.env);
    let steps = of_any_site(owner.into_pass());
    close_collected_listing(alloc, steps, marker)
}

impl<S: Steps + Drop> PoolOver<S> {
    /// An env that no other thread holds, until it is detached. Its thread stands outside, and has no local reference, in one base frame.
    /// `None` where each env was attached, or taken out of the pool, when it was looked for. (JNI Specification, chapter 5, "AttachCurrentThread")
    ///
    /// # Operations
    ///
    /// None.
    pub fn attach(&self) -> Option<AttachedOver<'_, S>>
        ensures { IfSome result (λ a. IsIdle a.env.value) }
    {
        for at in 0..self.places.len() {
            if let Some(mut place) = self.places[at].try_lock() {
                if let Some(idle) = place.take() {
                    return Some(AttachedOver {
                        env: idle.env,
                        place,
                    });
                }
            }
        }
        None
    }

    /// An env as `attach` hands out, and again while others hold each, but no more often than there is patience for. The last answer is the answer.
    /// Between two tries it does nothing but yield, where the patience does.
    ///
    /// # Operations
    ///
    /// None.
    pub fn retry_attach(&self, patience: Patience) -> Option<AttachedOver<'_, S>>
        ensures { IfSome result (λ a. IsIdle a.env.value) }
    {
        for _ in 0..patience.more {
            if let Some(attached) = self.attach() {
                return Some(attached);
            }
            if patience.yields {
                thread::yield_now();
            }
        }
        self.attach()
    }
}

impl<Q: Site> PoolOver<OwnedStepsOf<Q>> {
    /// The pool of a room that was opened, which is the site's: it has an env for each of the room's threads.
    ///
    /// # Errors
    ///
    /// E16 where memory was refused. The room is gone then.
    pub fn of(alloc: Global, room: PoolRoom) -> Result<EnvPool<Q>, Fault>
        requires { IsRoomOfSite Q.room room }
        ensures memory { IfErr result (λ e. e ≡ Memory) }
        ensures count { IfOk result (λ p. length p.places.items ≡ room.room.row.config.threads) }
    {
        let PoolRoom { room, passes } = room;
        let Ok(places) = places_of::<Q>(alloc, room, passes) else {
            return Err(Fault::Memory);
        };
        Ok(PoolOver { places })
    }

    /// Ends all envs, and closes the site's room. It tells what stands there, after a legal history that keeps the laws. By its type no thread is attached any more.
    /// `None` where an env was taken out of the pool, whose holder owns the room still: then all others are gone.
    ///
    /// # Errors
    ///
    /// E22 with how many threads were inside, knocking, announcing or collecting at its one look, at least 1: the steps of each were let go there.
    ///
    /// The room is handed back as it was, and the pass that looked.
    ///
    /// # Operations
    ///
    /// Those of `close_owned`.
    pub fn close(self) -> Result<Option<Summary>, Left<LAST>>
        ensures closed { IfOk result (λ o. IfSome o (ClosesAt Q.room)) }
        ensures left { IfErr result (IsLeftAt Q.room) }
    {
        for place in self.places {
            if let Some(idle) = place.into_inner() {
                match end(idle) {
                    Ok(None) => {}
                    ended => return ended,
                }
            }
        }
        Ok(None)
    }

    /// Ends all envs, and collects and closes the site's room. So what it tells is reached, as `close_collected` says it. By its type no thread is attached any more.
    /// `None` where an env was taken out of the pool, whose holder owns the room still: then all others are gone.
    ///
    /// # Errors
    ///
    /// E17 where the marker was made for another number of objects; E14 with how many threads were inside, knocking, announcing or collecting at the step that was to shut the gate, at least 1;
    /// E22 as `close` has it, with how many were there behind the collection.
    ///
    /// The room is handed back as it was but for the collection, and the pass that looked.
    ///
    /// # Operations
    ///
    /// Those of `close_collected`.
    pub fn close_collected(self, marker: &mut Marker) -> Result<Option<Summary>, Left<LAST>>
        ensures marker { room_of marker.new ≡ room_of marker.old }
        ensures closed { IfOk result (λ o. IfSome o (ClosesCollectedAt Q.room)) }
        ensures left { IfErr result (IsLeftCollectingAt Q.room (room_of marker.old)) }
    {
        for place in self.places {
            if let Some(idle) = place.into_inner() {
                match end_collected(idle, marker) {
                    Ok(None) => {}
                    told => return told,
                }
            }
        }
        Ok(None)
    }

    /// Ends all envs as `close_collected` does, and notes what was left, as `close_collected_listing` of an owner. By its type no thread is attached any more.
    /// `None` where an env was taken out of the pool, whose holder owns the room still: then all others are gone.
    ///
    /// # Errors
    ///
    /// E16 where the dump's memory was refused; E17 where the marker was made for another number of objects;
    /// E14 with how many threads were inside, knocking, announcing or collecting at the shut of the collection or of the dump, at least 1;
    /// E22 as `close` has it, with how many were there behind the dump.
    ///
    /// The room is handed back as `close_collected_listing` of an owner does it.
    ///
    /// # Operations
    ///
    /// Those of `close_collected_listing`.
    pub fn close_collected_listing(
        self,
        alloc: Global,
        marker: &mut Marker,
    ) -> Result<Option<(Summary, Dump)>, Left<LAST>>
        ensures marker { room_of marker.new ≡ room_of marker.old }
        ensures closed { IfOk result (λ o. IfSome o (λ r. ClosesListedAt Q.room r.0 r.1)) }
        ensures left { IfErr result (IsLeftListingAt Q.room (room_of marker.old)) }
    {
        for place in self.places {
            if let Some(idle) = place.into_inner() {
                match end_listing(alloc, idle, marker) {
                    Ok(None) => {}
                    listed => return listed,
                }
            }
        }
        Ok(None)
    }
}

impl<'p, S: Steps + Drop> AttachedOver<'p, S> {
    ghost use Rattle.jr_env.specs.Envs.{Does};
    ghost use Rattle.jr_env.specs.Deeds.{free_locals};
    ghost use Rattle.jr_env.specs.Tries.{made_again};
    ghost use Rattle.jr_owned.specs.Pools.{FreesLocals};

    /// Frees all local references of the thread, and hands its env back to the pool, outside and in one base frame. (JNI Specification, chapter 5, "DetachCurrentThread")
    ///
    /// # Errors
    ///
    /// E13 where another thread was collecting, or had announced that it will, at each try of `free_locals`.
    ///
    /// The thread is still attached then, and has its local references.
    ///
    /// # Operations
    ///
    /// Those of `free_locals` at each try.
    pub fn detach(self, patience: Patience) -> Result<(), (AttachedOver<'p, S>, Fault)>
        ensures freed { IfOk result (λ _. FreesLocals self.entry.env.value patience) }
        ensures held { IfErr result (λ e. Does self.entry.env.value e.0.env.value (made_again patience.waits_for_room patience.more free_locals) (Err e.1)) }
    {
        let AttachedOver { mut env, mut place } = self;
        if let Err(fault) = env.retry(FreeLocals, patience) {
            return Err((AttachedOver { env, place }, fault));
        }
        *place = Some(parked(env));
        Ok(())
    }

    /// Takes the env out of the pool for good. Its place stays empty, and the room has an owner more that is to close it.
    pub fn into_env(self) -> Env<S>
        ensures { result ≡ self.entry.env.value }
    {
        let AttachedOver { env, place: _ } = self;
        Box::into_inner(env)
    }
}
