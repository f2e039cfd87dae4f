//! What is told of a word, an object, a thread and a room.
ghost use Rattle.std.specs.Prelude.{◌≡◌};
ghost use Rattle.jr_word.specs.Kind.{kind_code};
ghost use Rattle.jr_frames.specs.declared.counting.LocalCounts.{LocalCounts as Counted};
ghost use Rattle.jr_frames.specs.Counted.{AreCounted};
ghost use Rattle.jr_env.specs.Deeds.{kind_of, whole};
ghost use Rattle.jr_env.specs.Requests.{for_identity_of};
ghost use Rattle.jr_env.specs.UsedWords.{words_used};
ghost use Rattle.jr_env.specs.Words.{explain as explanation};
ghost use Rattle.luthrady.specs.Calls.{Replied};
ghost use Rattle.luthrady.specs.Replies.{reply_of, the_number};
ghost use Rattle.luthrady.specs.Telling.{LocalsReplied, TellsLocals, TellsInto, explained_of, explanation_number, kind_or_none, told_locals, told_into};
ghost use Rattle.luthrady.specs.Threads.{elsewhere};

use crate::behind::{env_of, is_env};
use crate::calling::make;
use crate::handles::EnvHandle;
use crate::held::{Native, Presence};
use crate::reply::{Reply, answered, nothing_reply, number_reply, refused};
use crate::thread_call::{ThreadCall, make_by_thread};
use jr_env::calls::{IdentityOf, KindOf};
use jr_env::{Explanation, LocalCounts};
use jr_word::{Fault, Handle, Kind};

/// The kind of what the word names, by its number: 1 plain, 2 to 7 an array of booleans, bytes, chars, shorts, ints, longs, 8 an array of objects, 9 a string.
/// The Java Native Interface has no such call.
///
/// # Errors
///
/// E21 where no env stands behind the handle; E19 in a critical region; else those of `NativeInterface::kind_of`.
#[unsafe(no_mangle)]
pub extern "C" fn luthrady_kind_of(env: &mut EnvHandle, object: u64) -> Reply
    ensures { Replied kind_code env.old env.new (kind_of object) result }
{
    of_kind(make(env, KindOf(Handle(object))))
}

/// The answer of a call that gives a kind.
fn of_kind(answer: Result<Kind, Fault>) -> Reply
    ensures { result ≡ reply_of kind_code answer }
{
    match answer {
        Ok(kind) => answered(kind.code()),
        Err(fault) => refused(fault),
    }
}

/// The identity of what the word names: a number, at least 1, that all references to one object share, and that no other object has while that one is present.
/// A collection leaves it. Once a collection has dropped the object, another may have its number. The Java Native Interface has no such call.
///
/// # Errors
///
/// E21 where no env stands behind the handle; E19 in a critical region; else those of `NativeInterface::identity_of`.
#[unsafe(no_mangle)]
pub extern "C" fn luthrady_identity_of(env: &mut EnvHandle, object: u64) -> Reply
    ensures { Replied the_number env.old env.new (whole (for_identity_of object)) result }
{
    of_identity(make(env, IdentityOf(Handle(object))))
}

/// The answer of a call that gives an identity.
fn of_identity(answer: Result<u16, Fault>) -> Reply
    ensures { result ≡ reply_of the_number answer }
{
    match answer {
        Ok(identity) => answered(u64::from(identity)),
        Err(fault) => refused(fault),
    }
}

/// What a word is.
#[repr(C)]
#[derive(Clone, Copy)]
pub struct Explained {
    /// What it is, a luthrady_explanation.
    pub explanation: u32,
    /// The type of the reference that stands there, a luthrady_ref_type, 0 where none stands.
    pub reference: u32,
    /// The kind of the reference's object, a luthrady_kind, 0 where none stands or it is cleared.
    pub kind: u32,
}

/// What a word is that is handed in as a reference, whatever word it is. What is told of the room was so at the call's one look. It changes nothing.
///
/// # Errors
///
/// E21 where no env stands behind the handle; E19 in a critical region; E13 where a thread is collecting at the entry, or has announced that it will.
///
/// Nothing has changed then.
#[unsafe(no_mangle)]
pub extern "C" fn luthrady_explain(env: &mut EnvHandle, word: u64, out: &mut Explained) -> Reply
    ensures { TellsInto explained_of env.old env.new (explanation word) result out.old out.new }
{
    told_of(make_by_thread(env, Explain(Handle(word))), out)
}

/// A call that tells what a word is.
#[derive(Clone, Copy)]
struct Explain(Handle);

impl ThreadCall for Explain {
    type Answer = Explanation;

    ghost deed = { λ e. explanation e.0.0 };

    fn by(self, native: &mut Native) -> Result<Explanation, Fault> {
        native.env.explain(self.0)
    }
}

/// Tells what a word is.
fn told_of(answer: Result<Explanation, Fault>, out: &mut Explained) -> Reply
    ensures reply { result ≡ reply_of elsewhere answer }
    ensures written { out.new ≡ told_into explained_of answer out.old }
{
    match answer {
        Ok(explanation) => {
            *out = numbers_of(explanation);
            nothing_reply(Ok(()))
        }
        Err(fault) => nothing_reply(Err(fault)),
    }
}

/// What a word is, in numbers.
fn numbers_of(explanation: Explanation) -> Explained
    ensures { result ≡ explained_of explanation }
{
    let (reference, kind) = match explanation {
        Explanation::Standing { kind, object } => (kind.code() as u32, kind_number(object)),
        _ => (0, 0),
    };
    Explained {
        explanation: number_of(explanation),
        reference,
        kind,
    }
}

/// The number of what a word is.
fn number_of(explanation: Explanation) -> u32
    ensures { result ≡ explanation_number explanation }
{
    match explanation {
        Explanation::Null => 1,
        Explanation::Malformed => 2,
        Explanation::Outside => 3,
        Explanation::Foreign => 4,
        Explanation::Standing { .. } => 5,
        Explanation::OtherKind => 6,
        Explanation::Gone => 7,
        Explanation::NotGiven => 8,
    }
}

/// The number of a kind, 0 for none.
fn kind_number(kind: Option<Kind>) -> u32
    ensures { result ≡ kind_or_none kind }
{
    match kind {
        Some(kind) => kind.code() as u32,
        None => 0,
    }
}

/// How many words of array space are used: reserved, be it for objects that stand or for such as nothing reaches. Others may go on meanwhile.
///
/// # Errors
///
/// E21 where no env stands behind the handle; E19 in a critical region; E13 where a thread is collecting at the entry, or has announced that it will.
///
/// Nothing has changed then.
#[unsafe(no_mangle)]
pub extern "C" fn luthrady_words_used(env: &mut EnvHandle) -> Reply
    ensures { Replied the_number env.old env.new words_used result }
{
    number_reply(make_by_thread(env, WordsUsed))
}

/// A call that tells how many words are used.
#[derive(Clone, Copy)]
struct WordsUsed;

impl ThreadCall for WordsUsed {
    type Answer = u32;

    ghost deed = { λ w. words_used };

    fn by(self, native: &mut Native) -> Result<u32, Fault> {
        native.env.words_used()
    }
}

/// How many local references a thread has, and how many places for them.
#[repr(C)]
#[derive(Clone, Copy)]
pub struct Locals {
    /// How many frames there are, with the base frame.
    pub frames: u64,
    /// How many references stand, in all frames together.
    pub standing: u32,
    /// How many places are free: so many more references can be made.
    pub free: u32,
    /// How many places have ever given a reference. No more stood at any moment.
    pub given: u32,
}

/// How many local references the thread has, and how many places for them. It enters no gate.
///
/// # Errors
///
/// E21 where no env stands behind the handle; E19 in a critical region.
///
/// Nothing has changed then, and nothing is written.
#[unsafe(no_mangle)]
pub extern "C" fn luthrady_local_counts(env: &mut EnvHandle, out: &mut Locals) -> Reply
    ensures { LocalsReplied env.old env.new result out.old out.new }
{
    told_locally(local_counts(env), out)
}

/// Counts the local references of the env behind a pointer.
///
/// # Errors
///
/// E21 where no env stands behind the handle; E19 in a critical region.
fn local_counts(handle: &mut EnvHandle) -> Result<LocalCounts, Fault>
    ensures { TellsLocals handle.old handle.new result }
{
    if !is_env(handle) {
        return Err(Fault::NotFresh);
    }
    match &env_of(handle).presence {
        Presence::Ready(native) => Ok(counted_by(&*native)),
        Presence::Critical(_) => Err(Fault::InCritical),
        Presence::Detached => Err(Fault::NotFresh),
    }
}

/// Counts the local references of a thread's env.
fn counted_by(native: &Native) -> LocalCounts
    ensures { AreCounted native.now.env.held.frames result }
{
    native.env.local_counts()
}

/// Tells how many local references there are.
fn told_locally(answer: Result<LocalCounts, Fault>, out: &mut Locals) -> Reply
    ensures reply { result ≡ reply_of elsewhere answer }
    ensures written { out.new ≡ told_into told_locals answer out.old }
{
    match answer {
        Ok(counts) => {
            *out = Locals {
                frames: counts.frames as u64,
                standing: u32::from(counts.standing),
                free: u32::from(counts.free),
                given: u32::from(counts.given),
            };
            nothing_reply(Ok(()))
        }
        Err(fault) => nothing_reply(Err(fault)),
    }
}
