//! A room from its opening to its close, with native code in each of its threads.
ghost use Rattle.std.specs.Prelude.{◌≡◌, ◌⊎◌, ◌↔◌, ◌≤◌, All, length, false, Err, IfOk, IfErr};
ghost use Rattle.jr_word.specs.declared.fault.Fault.TheVariants.{Memory, Size};
ghost use Rattle.jr_word.specs.Config.{in_limits};
ghost use Rattle.jr_rule.specs.Passes.{AreOpened, IsOpened};
ghost use Rattle.jr_weak.specs.Markers.{room_of};
ghost use Rattle.jr_alive.specs.Graph.{HasRoomFor};
ghost use Rattle.jr_threads.specs.Parts.{RanListing, RanTogether};
ghost use Rattle.jr_threads.specs.Sites.{HasRunEach, PlaceRan, PlacesRan, IsClosedBehind, IsSiteRoom, IsWaiting};

use crate::closing::{Places, close};
use crate::listing::close_listing;
use crate::native::{LAST, NativeCode, Place, run_thread};
use crate::queue::NoteQueue;
use jr_alive::Dump;
use jr_model::Summary;
use jr_rule::{Pass, Room, Site};
use jr_weak::Marker;
use jr_word::{Config, Fault};
use std::alloc::Global;
use std::marker::Brand;
use std::thread;
use std::thread::Threads;

/// What came of the threads of a room.
#[derive(Drop)]
pub struct Ran<A: Drop> {
    /// What each thread answered, in the order of their numbers.
    pub answers: Vec<A>,
    /// What stood in the room as it was closed: each object that it tells is reached.
    pub summary: Summary,
}

/// What came back of the threads of a room: the answers, and the passes, that of thread 0 apart.
#[derive(Drop)]
pub(crate) struct Returned<A: Drop> {
    pub(crate) answers: Vec<A>,
    pub(crate) first: Pass,
    pub(crate) others: Vec<Pass>,
}

/// Runs the native code in the thread whose place this is.
fn run_at_place<Q: Site, N: NativeCode>(
    room: &Room<LAST>,
    native: &N,
    queue: &NoteQueue<N::Message, Q>,
    place: &mut Place<N::Answer>,
)
    requires waits { IsWaiting room.now.row place.old }
    requires site { IsSiteRoom Q.room Q.sizes room.now }
    ensures { PlaceRan N.tells (N.deed native.now) room.now.row place.old place.new }
{
    let Some(pass) = place.waiting.take() else {
        unreachable!();
    };
    place.ended = Some(run_thread::<Q, N>(room, native, pass, queue.end()));
}

/// Runs the native code in each thread of the room.
fn run_threads<R: Threads + Sync, Q: Site + Send + Sync + 'static, N: NativeCode + Sync>(
    rt: &R,
    room: &Room<LAST>,
    native: &N,
    queue: &NoteQueue<N::Message, Q>,
    places: &mut [Place<N::Answer>],
)
    requires wait { All (λ p. IsWaiting room.now.row p) places.old }
    requires site { IsSiteRoom Q.room Q.sizes room.now }
    ensures { PlacesRan N.tells (N.deed native.now) room.now.row places.old places.new }
{
    let count = places.len().max(1);
    let there = |_: usize, place: &mut Place<N::Answer>|
        requires { IsWaiting room.now.row place.now × IsSiteRoom Q.room Q.sizes room.now }
        ensures { PlaceRan N.tells (N.deed native.entry.now) room.entry.now.row place.entry.now place.exit.now }
    { run_at_place::<Q, N>(room, native, queue, place) };
    thread::for_each_mut(rt, places, count, &there);
}

/// Runs the native code in each thread of a room that was opened, which is the site's.
fn run_each<R: Threads + Sync, Q: Site + Send + Sync + 'static, N: NativeCode + Sync>(
    rt: &R,
    alloc: Global,
    room: &Room<LAST>,
    passes: Vec<Pass>,
    native: &N,
) -> Result<Returned<N::Answer>, Fault>
    requires opened { AreOpened room.now.row.config room.now.row.last room.now.row passes.items }
    requires some { 1 ≤ length passes.items }
    requires site { IsSiteRoom Q.room Q.sizes room.now }
    ensures memory { IfErr result (λ e. e ≡ Memory) }
    ensures run { IfOk result (λ r. HasRunEach N.tells (N.deed native.now) room.now.row passes.items r) }
{
    let Ok(mut places) = Places::new(alloc, passes) else {
        return Err(Fault::Memory);
    };
    let count = places.threads.len() as u64;
    let Ok(queue) = NoteQueue::<N::Message, Q>::new(alloc, N::PLACES, count) else {
        return Err(Fault::Memory);
    };
    run_threads(rt, room, native, &queue, &mut places.threads);
    let (answers, mut others) = places.parted();
    let first = others.remove(0);
    Ok(Returned {
        answers,
        first,
        others,
    })
}

/// Runs the native code in each thread of a room that was opened, which is the site's, collects, and closes it.
fn run_in<R: Threads + Sync, Q: Site + Send + Sync + 'static, N: NativeCode + Sync>(
    rt: &R,
    alloc: Global,
    room: Room<LAST>,
    passes: Vec<Pass>,
    mut marker: Marker,
    native: &N,
) -> Result<Ran<N::Answer>, Fault>
    requires opened { AreOpened room.row.config room.row.last room.row passes.items }
    requires some { 1 ≤ length passes.items }
    requires site { IsSiteRoom Q.room Q.sizes room }
    requires marker { room_of marker ≡ room.row.config.objects }
    ensures memory { IfErr result (λ e. e ≡ Memory) }
    ensures run { IfOk result (λ r. RanTogether N.tells (N.deed native.now) room.row.config room.row.last r.answers.items r.summary) }
    ensures summary { IfOk result (λ r. IsClosedBehind room.row.config room.row.last r.summary) }
{
    let Returned {
        answers,
        first,
        others,
    } = run_each::<R, Q, N>(rt, alloc, &room, passes, native)?;
    Ok(Ran {
        answers,
        summary: close(room, first, others, &mut marker),
    })
}

/// Runs the native code as `run_in` does, and takes a dump between the collection and the close.
fn run_listing_in<R: Threads + Sync, Q: Site + Send + Sync + 'static, N: NativeCode + Sync>(
    rt: &R,
    alloc: Global,
    opened: (Room<LAST>, Vec<Pass>),
    memory: (Marker, Dump),
    native: &N,
) -> Result<(Ran<N::Answer>, Dump), Fault>
    requires opened { AreOpened opened.0.row.config opened.0.row.last opened.0.row opened.1.items }
    requires some { 1 ≤ length opened.1.items }
    requires site { IsSiteRoom Q.room Q.sizes opened.0 }
    requires marker { room_of memory.0 ≡ opened.0.row.config.objects }
    requires dump { HasRoomFor opened.0.row.config memory.1 }
    ensures memory { IfErr result (λ e. e ≡ Memory) }
    ensures run { IfOk result (λ r. RanListing N.tells (N.deed native.now) opened.0.row.config opened.0.row.last r.0.answers.items r.0.summary r.1) }
    ensures summary { IfOk result (λ r. IsClosedBehind opened.0.row.config opened.0.row.last r.0.summary) }
{
    let (room, passes) = opened;
    let (mut marker, dump) = memory;
    let Returned {
        answers,
        first,
        others,
    } = run_each::<R, Q, N>(rt, alloc, &room, passes, native)?;
    let (summary, dump) = close_listing(room, first, others, &mut marker, dump);
    Ok((Ran { answers, summary }, dump))
}

/// Opens a room of these sizes, runs the native code in each of its threads, each over an env of its own, and when all have ended collects and closes the room. So what the summary tells is reached:
/// by a global reference that nobody deleted, or by a local one that a thread left.
///
/// # Errors
///
/// E17 exactly where the sizes are beyond their limits; E16 where memory was refused.
///
/// No native code has run then: all memory is taken before a thread starts, that of the collection too, which is never refused. Where the system can't make a thread, that is no refusal:
/// its native code runs in another's, behind or before that one's own.
///
/// What lies in the queue at the close is let go, and a global reference in it stays in its slot.
pub fn run_native<R: Threads + Sync, N: NativeCode + Sync>(
    rt: &R,
    alloc: Global,
    config: Config,
    native: &N,
) -> Result<Ran<N::Answer>, Fault>
    ensures size { (result ≡ Err Size) ↔ (in_limits config ≡ false) }
    ensures memory { IfErr result (λ e. (e ≡ Size) ⊎ (e ≡ Memory)) }
    ensures run { IfOk result (λ r. RanTogether N.tells (N.deed native.now) config 4294967295 r.answers.items r.summary) }
    ensures summary { IfOk result (λ r. IsClosedBehind config 4294967295 r.summary) }
{
    let (room, passes) = Room::<LAST>::open(alloc, config)?;
    let Ok(marker) = Marker::new(alloc, config) else {
        return Err(Fault::Memory);
    };
    run_in::<R, Brand, N>(rt, alloc, room, passes, marker, native)
}

/// Runs native code as `run_native` does, and notes what was left: between its collection and the close it takes a dump.
/// So the dump is of what the summary tells, and each object that it has is kept by a reference that it has: `path_to` tells which, and `draw` draws all.
///
/// # Errors
///
/// E17 exactly where the sizes are beyond their limits; E16 where memory was refused, that of the dump too. No native code has run then.
pub fn run_native_listing<R: Threads + Sync, N: NativeCode + Sync>(
    rt: &R,
    alloc: Global,
    config: Config,
    native: &N,
) -> Result<(Ran<N::Answer>, Dump), Fault>
    ensures size { (result ≡ Err Size) ↔ (in_limits config ≡ false) }
    ensures memory { IfErr result (λ e. (e ≡ Size) ⊎ (e ≡ Memory)) }
    ensures run { IfOk result (λ r. RanListing N.tells (N.deed native.now) config 4294967295 r.0.answers.items r.0.summary r.1) }
    ensures summary { IfOk result (λ r. IsClosedBehind config 4294967295 r.0.summary) }
{
    let opened = Room::<LAST>::open(alloc, config)?;
    let (Ok(marker), Ok(dump)) = (Marker::new(alloc, config), Dump::new(alloc, config)) else {
        return Err(Fault::Memory);
    };
    run_listing_in::<R, Brand, N>(rt, alloc, opened, (marker, dump), native)
}
