//! A census: what stands in a room, counted.
ghost use Rattle.std.specs.Prelude.{◌≡◌};
ghost use Rattle.jr_weak.specs.Listing.{over_front};
ghost use Rattle.jr_env.specs.Censuses.{announced_census, census};
ghost use Rattle.luthrady.specs.Collecting.{at_least_one};
ghost use Rattle.luthrady.specs.Counting.{CensusReplied, census_counts, locals_into, object_counts};
ghost use Rattle.luthrady.specs.Replies.{reply_of};
ghost use Rattle.luthrady.specs.Telling.{told_into};
ghost use Rattle.luthrady.specs.Threads.{elsewhere};

use crate::collecting::some;
use crate::handles::EnvHandle;
use crate::held::Native;
use crate::marker_call::{MarkerCall, make_marking};
use crate::reply::{Reply, nothing_reply};
use jr_census::{Census, Objects};
use jr_word::Fault;

/// How many objects there are, by their kinds.
#[repr(C)]
#[derive(Clone, Copy)]
pub struct Population {
    /// How many have no elements.
    pub plain: u32,
    /// How many arrays of booleans there are.
    pub booleans: u32,
    /// How many arrays of bytes there are.
    pub bytes: u32,
    /// How many arrays of chars there are.
    pub chars: u32,
    /// How many arrays of shorts there are.
    pub shorts: u32,
    /// How many arrays of ints there are.
    pub ints: u32,
    /// How many arrays of longs there are.
    pub longs: u32,
    /// How many arrays of objects there are.
    pub objects: u32,
    /// How many strings there are.
    pub strings: u32,
    /// How many there are of all kinds.
    pub live: u32,
    /// How many words of array space they have.
    pub words: u32,
}

/// What stands in a room.
#[repr(C)]
#[derive(Clone, Copy)]
pub struct Inventory {
    /// How many global references stand.
    pub globals: u32,
    /// How many weak references stand, cleared ones too.
    pub weaks: u32,
    /// How many of these are cleared.
    pub cleared: u32,
    /// How many slots are used no more, since each gave its last reference.
    pub retired: u32,
    /// The objects that are present.
    pub present: Population,
    /// Those of them that nothing reaches, which a collection would drop.
    pub unreached: Population,
    /// How many words are used.
    pub used: u32,
    /// How many of these no object has: creations reserved them that were refused afterwards.
    pub lost: u32,
    /// How many of these a collection would leave used.
    pub reached: u32,
    /// How many of these a collection would free.
    pub freed: u32,
}

/// Counts what stands in the room, at one step that shuts the gate for it, and changes nothing. It writes the counts, and how many local references each thread has, by the thread's number:
/// as many of these as there is room for, and 64 at the most. A thread that the room doesn't have has none.
///
/// # Errors
///
/// E21 where no env stands behind the handle; E19 in a critical region; else those of `Env::census`.
#[unsafe(no_mangle)]
pub extern "C" fn luthrady_census(
    env: &mut EnvHandle,
    locals: &mut [u32],
    out: &mut Inventory,
) -> Reply
    ensures { CensusReplied env.old env.new census result locals.old locals.new out.old out.new }
{
    told_of(make_marking(env, TakeCensus), locals, out)
}

/// Counts as `luthrady_census` does, but announces it first, and tries so many times to shut the gate, at least once.
///
/// # Errors
///
/// E21 where no env stands behind the handle; E19 in a critical region; else those of `Env::census_announced`.
#[unsafe(no_mangle)]
pub extern "C" fn luthrady_census_announced(
    env: &mut EnvHandle,
    tries: u32,
    locals: &mut [u32],
    out: &mut Inventory,
) -> Reply
    ensures { CensusReplied env.old env.new (announced_census (at_least_one tries)) result locals.old locals.new out.old out.new }
{
    told_of(make_marking(env, TakeCensusAnnounced(tries)), locals, out)
}

/// A census.
#[derive(Clone, Copy)]
struct TakeCensus;

impl MarkerCall for TakeCensus {
    type Answer = Census;

    ghost deed = { λ t. census };

    fn by(self, native: &mut Native) -> Result<Census, Fault> {
        native.env.census(&mut native.marker)
    }
}

/// A census that is announced, with so many tries, at least one.
#[derive(Clone, Copy)]
struct TakeCensusAnnounced(u32);

impl MarkerCall for TakeCensusAnnounced {
    type Answer = Census;

    ghost deed = { λ t. announced_census (at_least_one t.0) };

    fn by(self, native: &mut Native) -> Result<Census, Fault> {
        native
            .env
            .census_announced(&mut native.marker, some(self.0))
    }
}

/// Tells what stands.
fn told_of(answer: Result<Census, Fault>, locals: &mut [u32], out: &mut Inventory) -> Reply
    ensures reply { result ≡ reply_of elsewhere answer }
    ensures counts { out.new ≡ told_into census_counts answer out.old }
    ensures locals { locals.new ≡ locals_into answer locals.old }
{
    match answer {
        Ok(census) => {
            *out = counts_of(&census);
            write_locals(&census.locals, locals);
            nothing_reply(Ok(()))
        }
        Err(fault) => nothing_reply(Err(fault)),
    }
}

/// What a census counts, as C sees it.
fn counts_of(census: &Census) -> Inventory
    ensures { result ≡ census_counts census.now }
{
    Inventory {
        globals: census.slots.globals,
        weaks: census.slots.weaks,
        cleared: census.slots.cleared,
        retired: census.slots.retired,
        present: kinds_of(census.objects),
        unreached: kinds_of(census.unreached),
        used: census.words.used,
        lost: census.words.lost,
        reached: census.words.reached,
        freed: census.words.freed,
    }
}

/// Objects that are counted, as C sees them.
fn kinds_of(objects: Objects) -> Population
    ensures { result ≡ object_counts objects }
{
    let kinds = objects.kinds;
    Population {
        plain: kinds.plain,
        booleans: kinds.booleans,
        bytes: kinds.bytes,
        chars: kinds.chars,
        shorts: kinds.shorts,
        ints: kinds.ints,
        longs: kinds.longs,
        objects: kinds.objects,
        strings: kinds.strings,
        live: objects.live,
        words: objects.words,
    }
}

/// Writes as many of the threads' counts as there is room for.
fn write_locals(counts: &[u32; 64], locals: &mut [u32])
    ensures { locals.new ≡ over_front locals.old counts.now }
{
    let count = locals.len().min(counts.len());
    locals[..count].copy_from_slice(&counts[..count]);
}
