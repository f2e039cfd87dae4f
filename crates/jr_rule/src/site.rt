//! One room, or one of its threads, by a type: so that a value says by its type which it is of.
ghost use Rattle.std.specs.Prelude.{◌≡◌, ◌+◌, ℕ, Option, None, [], true, false};
ghost use Rattle.atomic_table.specs.Seated.{TableId};
ghost use Rattle.jr_word.specs.declared.config.Config.{Config as SizesOfRoom};
ghost use Rattle.jr_steps.specs.Knowing.{Took, anything, keeps};
ghost use Rattle.jr_rule.specs.Passes.{facts_of};
ghost use Rattle.jr_rule.specs.Rooms.{AreAsBefore, IsPinned, LearnedPinned, WasPinned, holder_over, joints_of_pinned, joints_over};
ghost use Rattle.jr_rule.specs.Sites.{no_sizes, IsNoteOf, IsPinnedOf};

use crate::note::Note;
use crate::over_room::RoomSteps;
use crate::pinned_note::PinnedNote;
use std::marker::{Brand, PhantomData};

/// One room: a type stands for it, which whoever opens the room picks. What is handed from thread to thread says so by its type of which room it is.
pub trait Site {
    ghost room: { Option TableId };

    ghost sizes: { SizesOfRoom };
}

/// The room that was opened.
impl Site for Brand {
    ghost room = { None };

    ghost sizes = { no_sizes };
}

/// The number of one thread: a type stands for it, which the thread's start picks.
pub trait ThreadNumber: Send + Sync {
    ghost number: { ℕ };
}

/// The thread that starts.
impl ThreadNumber for Brand {
    ghost number = { 0 };
}

/// A note of all that a thread of the site's room had seen, which any thread of that room can learn (`StepsIn`). It is no pass: no collection and no close waits for it, and it may be let go.
#[derive(Drop)]
pub struct NoteOf<Q: Site> {
    pub(crate) note: Note,
    pub(crate) site: PhantomData<Q>,
    ghost there: { IsNoteOf Q.room note },
}

impl<Q: Site> NoteOf<Q> {
    /// The note, pinned, so that several threads can learn it, each as often as it likes.
    ///
    /// # Operations
    ///
    /// Those of `Note::pin`.
    pub fn pin(self) -> PinnedNoteOf<Q>
        ensures { IsPinned self.note result.pinned }
    {
        let NoteOf { note, site } = self;
        let pinned = note.pin();
        PinnedNoteOf { pinned, site }
    }
}

/// A pinned note of all that a thread of the site's room had seen.
#[derive(Drop)]
pub struct PinnedNoteOf<Q: Site> {
    pub(crate) pinned: PinnedNote,
    pub(crate) site: PhantomData<Q>,
    ghost there: { IsPinnedOf Q.room pinned },
}

impl<Q: Site> PinnedNoteOf<Q> {
    /// What the thread of steps in the site's room has seen, pinned. The steps stay as they were.
    ///
    /// # Operations
    ///
    /// Those of `RoomSteps::pin`.
    pub fn by<const LAST: u32>(steps: &mut RoomSteps<'_, LAST>) -> PinnedNoteOf<Q>
        requires { (facts_of (holder_over steps.old)).stands.room ≡ Q.room }
        ensures same { AreAsBefore steps.old steps.new }
        ensures pinned { WasPinned steps.old result.pinned }
        ensures counted { (joints_over steps.new ≡ joints_over steps.old + 1) × (joints_of_pinned result.pinned ≡ 0) }
    {
        let pinned = steps.pin();
        PinnedNoteOf {
            pinned,
            site: PhantomData,
        }
    }

    /// The thread of steps in the site's room learns it, unless another thread is just learning it: then the answer is false, and the steps are as they were.
    ///
    /// # Operations
    ///
    /// Those of `RoomSteps::learn_pinned`.
    pub fn learned_by<const LAST: u32>(&self, steps: &mut RoomSteps<'_, LAST>) -> bool
        requires { (facts_of (holder_over steps.old)).stands.room ≡ Q.room }
        ensures step { result ≡ true → Took facts_of (holder_over steps.old) (holder_over steps.new) [] anything keeps }
        ensures learned { result ≡ true → LearnedPinned self.now.pinned steps.new }
        ensures busy { result ≡ false → AreAsBefore steps.old steps.new }
        ensures counted { (result ≡ true → joints_over steps.new ≡ joints_over steps.old + joints_of_pinned self.now.pinned + 2) × (result ≡ false → joints_over steps.new ≡ joints_over steps.old) }
    {
        steps.learn_pinned(&self.pinned)
    }
}
