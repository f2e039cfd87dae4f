//! Collections that list what went, in memory of the caller's.
ghost use Rattle.std.specs.Prelude.{◌≡◌, OnErr};
ghost use Rattle.jr_env.specs.Listings.{listed_in_turn};
ghost use Rattle.luthrady.specs.Collecting.{at_least_one};
ghost use Rattle.luthrady.specs.Listed.{ListedBy, ListsReplied, WasListed, WordsTell};

use crate::behind::{env_of, is_env};
use crate::collecting::{Counts, collect_until_served, some, told};
use crate::handles::EnvHandle;
use crate::held::{Native, Presence};
use crate::reply::Reply;
use crate::rows::write_rows;
use jr_weak::Collected;
use jr_word::{Fault, Handle};
use std::alloc::Global;

/// Collects as `luthrady_collect_in_turn` does, and lists what went at the front of two buffers, in the order in which it went and as much as there is room for:
/// the weak references that it cleared, by their words, and the objects that it dropped, by their identities. What lies behind stays.
/// The counts tell how many there were, which may be more than the buffers have room for. Memory for the list of references is taken first.
///
/// # Errors
///
/// E21 where no env stands behind the handle; E19 in a critical region; E16 where that memory was refused; else those of `Env::collect_in_turn_listing`.
///
/// Nothing has changed then, and the marker and the buffers are as they were. At E14 and E23 the thread stands outside, and at E17 it has taken no step.
/// Over one thread a marker that fits is refused by E16 alone.
#[unsafe(no_mangle)]
pub extern "C" fn luthrady_collect_in_turn_listing(
    alloc: Global,
    env: &mut EnvHandle,
    tries: u32,
    more: u32,
    references: &mut [u64],
    identities: &mut [u16],
    out: &mut Counts,
) -> Reply
    ensures { ListsReplied (listed_in_turn (at_least_one tries) more) env.old env.new result references.old identities.old references.new identities.new out.old out.new }
{
    told(list(alloc, env, (tries, more), references, identities), out)
}

/// Lists what goes in a collection, by the env behind a pointer: with so many tries, and announced up to so many times more.
///
/// # Errors
///
/// E21 where no env stands behind the handle; E19 in a critical region; else those of `list_by`.
fn list(
    alloc: Global,
    handle: &mut EnvHandle,
    turns: (u32, u32),
    words: &mut [u64],
    numbers: &mut [u16],
) -> Result<Collected, Fault>
    ensures call { WasListed (listed_in_turn (at_least_one turns.0) turns.1) handle.old handle.new words.old numbers.old words.new numbers.new result }
    ensures unlisted { OnErr result ((words.new ≡ words.old) × (numbers.new ≡ numbers.old)) }
{
    if !is_env(handle) {
        return Err(Fault::NotFresh);
    }
    match &mut env_of(handle).presence {
        Presence::Ready(native) => list_by(alloc, &mut *native, turns, words, numbers),
        Presence::Critical(_) => Err(Fault::InCritical),
        Presence::Detached => Err(Fault::NotFresh),
    }
}

/// Lists what goes in a collection, by a thread's env.
///
/// # Errors
///
/// E16 where memory was refused; else those of `collect_until_served`.
fn list_by(
    alloc: Global,
    native: &mut Native,
    turns: (u32, u32),
    words: &mut [u64],
    numbers: &mut [u16],
) -> Result<Collected, Fault>
    ensures call { ListedBy native.old native.new (λ marks. listed_in_turn (at_least_one turns.0) turns.1 marks (WordsTell words.old numbers.old words.new numbers.new)) result }
    ensures unlisted { OnErr result ((words.new ≡ words.old) × (numbers.new ≡ numbers.old)) }
{
    let Ok(mut handles) = vec![in alloc; Handle::NULL; words.len()] else {
        return Err(Fault::Memory);
    };
    write_rows(words, &mut handles);
    let answer = collect_until_served(
        &mut native.env,
        &mut native.marker,
        some(turns.0),
        turns.1,
        &mut handles,
        numbers,
    );
    write_rows(&handles, words);
    answer
}
