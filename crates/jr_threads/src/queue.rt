//! A queue between the threads of a room: bounded, with an end that its readers see. No call of it waits.
ghost use Rattle.std.specs.Prelude.{◌≡◌, false, Err, IfOk, IfErr};
ghost use Rattle.jr_rule.specs.Rooms.{seen_by_note};

use crossbeam_queue::RuledArrayQueue;
use crossbeam_queue::protocol::Free;
use jr_env::Patience;
use jr_rule::{NoteOf, Site};
use jr_word::Handle;
use std::alloc::{AllocError, Global};
use std::sync::atomic::{AtomicU64, Ordering};
use std::thread;

/// What is handed on beside a note. Where it wants to, it says something of what its thread had seen as the note was made, in a room of these sizes: by default nothing.
pub trait HandedOn: Drop {
    ghost use Rattle.jr_word.specs.declared.config.Config.{Config};
    ghost use Rattle.jr_model.specs.History.{History};

    ghost says: { Self → Config → History → Type 0 } = { λ message sizes seen. Unit {0} };
}

impl HandedOn for () {}

impl HandedOn for Handle {}

/// A message on its way, and what it says.
#[derive(Drop)]
struct Sent<M: HandedOn, Q: Site> {
    message: M,
    note: NoteOf<Q>,
    ghost said: { ∥ M.says message Q.sizes (seen_by_note note.note) ∥₁ },
}

/// What the threads of a room hand on to one another: each message with a note of the room. All memory is taken as it is made.
#[derive(Drop)]
pub struct NoteQueue<M: HandedOn, Q: Site> {
    ring: RuledArrayQueue<Sent<M, Q>, (), Free>,
    ends: u64,
    handed_out: AtomicU64,
    putting: AtomicU64,
}

impl<M: HandedOn, Q: Site> NoteQueue<M, Q> {
    /// A queue of so many places, at least 1, and for so many ends.
    ///
    /// # Errors
    ///
    /// Where memory was refused.
    pub fn new(alloc: Global, places: usize, ends: u64) -> Result<Self, AllocError> {
        let (ring, _) = RuledArrayQueue::ruled(alloc, places.max(1))?;
        Ok(NoteQueue {
            ring,
            ends,
            handed_out: AtomicU64::new(0),
            putting: AtomicU64::new(ends),
        })
    }

    /// An end of it. As many as it was made for may put, and any further one only takes. Once so many put no more, the queue is over.
    pub fn end(&self) -> QueueEnd<'_, M, Q> {
        QueueEnd {
            queue: self,
            puts: self.handed_out.fetch_add(1, Ordering::SeqCst) < self.ends,
        }
    }
}

/// Lets others run before the next try, where that is wanted.
fn pause(patience: Patience) {
    if patience.yields {
        thread::yield_now();
    }
}

/// Why no message was taken.
#[derive(Clone, Copy, Debug, Drop, Eq, PartialEq)]
pub enum NoMessage {
    /// None is there now, or another thread is in the way: one may come.
    Yet,
    /// All are taken, and no thread puts any more.
    More,
}

/// A thread's end of the queue. Once it is let go the thread puts no more.
pub struct QueueEnd<'q, M: HandedOn, Q: Site> {
    queue: &'q NoteQueue<M, Q>,
    puts: bool,
}

impl<'q, M: HandedOn, Q: Site> QueueEnd<'q, M, Q> {
    /// Puts a message, with a note of this room.
    ///
    /// # Errors
    ///
    /// Both come back where the queue is full, another thread is in the way, or this one puts no more. Only the last stays so.
    pub fn put(&self, message: M, note: NoteOf<Q>) -> Result<(), (M, NoteOf<Q>)>
        requires says { ∥ M.says message Q.sizes (seen_by_note note.note) ∥₁ }
        ensures back { IfErr result (λ back. back ≡ (message, note)) }
        ensures over { self.now.puts ≡ false → result ≡ Err (message, note) }
    {
        if !self.puts {
            return Err((message, note));
        }
        let ring = &self.queue.ring;
        let mut pass = ring.pass();
        let sent = Sent { message, note };
        match ring.try_push_as::<Free>(&mut pass, sent) {
            Ok(()) => Ok(()),
            Err(Sent { message, note }) => Err((message, note)),
        }
    }

    /// Takes the oldest message, with its note, which is one of this room: `learn` of an env has no condition.
    ///
    /// # Errors
    ///
    /// Why none was taken (`NoMessage`).
    pub fn take(&self) -> Result<(M, NoteOf<Q>), NoMessage>
        ensures { IfOk result (λ r. ∥ M.says r.0 Q.sizes (seen_by_note r.1.note) ∥₁) }
    {
        let ring = &self.queue.ring;
        // Looked at first: once nobody puts, what is not there now never comes.
        let is_over = self.queue.putting.load(Ordering::SeqCst) == 0;
        let mut pass = ring.pass();
        if let Some(Sent { message, note }) = ring.try_pop_as::<Free>(&mut pass) {
            return Ok((message, note));
        }
        if is_over && ring.is_empty_as::<Free>(&mut pass) {
            return Err(NoMessage::More);
        }
        Err(NoMessage::Yet)
    }

    /// Puts a message as `put`, and again where that was refused, but no more often than there is patience for.
    ///
    /// # Errors
    ///
    /// Those of the last `put`.
    pub fn retry_put(
        &self,
        message: M,
        note: NoteOf<Q>,
        patience: Patience,
    ) -> Result<(), (M, NoteOf<Q>)>
        requires says { ∥ M.says message Q.sizes (seen_by_note note.note) ∥₁ }
        ensures back { IfErr result (λ back. back ≡ (message, note)) }
        ensures over { self.now.puts ≡ false → result ≡ Err (message, note) }
    {
        let (mut message, mut note) = (message, note);
        for _ in 0..patience.more {
            match self.put(message, note) {
                Ok(()) => return Ok(()),
                Err(back) => (message, note) = back,
            }
            pause(patience);
        }
        self.put(message, note)
    }

    /// Takes the oldest message as `take`, and again while none is there, but no more often than there is patience for.
    ///
    /// # Errors
    ///
    /// Those of the last `take`.
    pub fn retry_take(&self, patience: Patience) -> Result<(M, NoteOf<Q>), NoMessage>
        ensures { IfOk result (λ r. ∥ M.says r.0 Q.sizes (seen_by_note r.1.note) ∥₁) }
    {
        for _ in 0..patience.more {
            match self.take() {
                Err(NoMessage::Yet) => pause(patience),
                ended => return ended,
            }
        }
        self.take()
    }

    /// The thread only takes from now on.
    pub fn puts_no_more(&mut self)
        ensures { self.new.puts ≡ false }
    {
        if self.puts {
            self.puts = false;
            self.queue.putting.fetch_sub(1, Ordering::SeqCst);
        }
    }
}

impl<'q, M: HandedOn, Q: Site> Drop for QueueEnd<'q, M, Q> {
    fn drop(mut self) {
        self.puts_no_more();
        let Self { queue: _, puts: _ } = self;
    }
}
