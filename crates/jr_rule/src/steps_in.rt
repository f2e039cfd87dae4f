//! Steps of a room that a type stands for: what their thread has seen is noted, and learned by another thread there.
ghost use Rattle.std.specs.Prelude.{◌≡◌, ◌+◌, ℕ, [], true, false};
ghost use Rattle.jr_steps.specs.Knowing.{Took, anything, keeps};
ghost use Rattle.jr_rule.specs.Notes.{HasSeen, HasSeenJust, IsUnchanged};
ghost use Rattle.jr_rule.specs.Over.{facts_over};
ghost use Rattle.jr_rule.specs.Rooms.{joints_of_note, joints_of_pinned, joints_over, seen_by_note, seen_by_pinned};
ghost use Rattle.jr_rule.specs.Sites.{IsNoteOf, IsPinnedOf};

use crate::in_room::InRoom;
use crate::note::Note;
use crate::over::StepsOver;
use crate::pinned_note::PinnedNote;
use crate::row::RoomCells;
use crate::site::{NoteOf, PinnedNoteOf, Site, ThreadNumber};
use jr_steps::Steps;
use std::marker::PhantomData;

/// The steps of a thread of the site's room. What it learns is a note of that room: `learned_in` of a `NoteOf` and of a `PinnedNoteOf` has that by the type, so that its caller has nothing to show.
pub trait StepsIn<Q: Site>: Steps {
    // The count of joins and partings of seats that the steps have, each of which is a load of the gate. (`joints_over` of `specs/Rooms.antt`)
    ghost joints: { Self → ℕ };

    /// A note of all that the thread has seen, which may be handed to another thread by whatever way. The thread stays as it was.
    ///
    /// # Operations
    ///
    /// A load of the gate, by which the note leaves the thread's seat: it counts as one parting, and as no step.
    fn note(&mut self) -> NoteOf<Q>
        ensures same { IsUnchanged Self.facts self.old self.new }
        ensures note { HasSeenJust Self.facts self.old (seen_by_note result.note) }
        ensures counted { (Self.joints self.new ≡ Self.joints self.old + 1) × (joints_of_note result.note ≡ 0) };

    /// Learns all that a note of the room says: whatever its thread had seen, this one has seen then. That is no event of the machine.
    ///
    /// So a reference that stood where the note was made stands here, unless somebody has deleted it since:
    /// a global one with its object, a weak one with it, or cleared (the law `references_stand_until_deleted` of `jr_model`, of the history up to the note and of that up to here).
    ///
    /// # Operations
    ///
    /// One, a load of the gate. The note joins the thread's seat for it, by a load of the gate that counts as one join. The thread's count of joins and partings goes up by what the note had, too.
    fn learn(&mut self, note: Note)
        requires { IsNoteOf Q.room note }
        ensures step { Took Self.facts self.old self.new [] anything keeps }
        ensures learned { HasSeen Self.facts self.new (seen_by_note note) }
        ensures counted { Self.joints self.new ≡ Self.joints self.old + joints_of_note note + 1 };

    /// Learns all that a pinned note of the room says, as `learn` does, and leaves it pinned; or answers false, where another thread was just learning it. Nobody waits, and there is no lock:
    /// these steps are then as they were, and the call may be made again. Each call learns, also where this thread has learned the note before.
    ///
    /// # Operations
    ///
    /// Those of `RoomSteps::learn_pinned`.
    fn learn_pinned(&mut self, pinned: &PinnedNote) -> bool
        requires { IsPinnedOf Q.room pinned.now }
        ensures step { result ≡ true → Took Self.facts self.old self.new [] anything keeps }
        ensures learned { result ≡ true → HasSeen Self.facts self.new (seen_by_pinned pinned.now) }
        ensures busy { result ≡ false → IsUnchanged Self.facts self.old self.new }
        ensures counted { (result ≡ true → Self.joints self.new ≡ Self.joints self.old + joints_of_pinned pinned.now + 2) × (result ≡ false → Self.joints self.new ≡ Self.joints self.old) };
}

impl<'r, const LAST: u32, Q: Site, T: ThreadNumber> StepsIn<Q>
    for StepsOver<RoomCells, InRoom<'r, LAST, Q, T>> {
    ghost joints = { λ s. joints_over s };

    fn note(&mut self) -> NoteOf<Q>
        ensures same { IsUnchanged facts_over self.old self.new }
        ensures note { HasSeenJust facts_over self.old (seen_by_note result.note) }
        ensures counted { (joints_over self.new ≡ joints_over self.old + 1) × (joints_of_note result.note ≡ 0) }
    {
        let seat = self.cells.note(self.place.room);
        NoteOf {
            note: Note { seat },
            site: PhantomData,
        }
    }

    fn learn(&mut self, note: Note)
        requires { IsNoteOf Q.room note }
        ensures step { Took facts_over self.old self.new [] anything keeps }
        ensures learned { HasSeen facts_over self.new (seen_by_note note) }
        ensures counted { joints_over self.new ≡ joints_over self.old + joints_of_note note + 1 }
    {
        let Note { seat } = note;
        self.cells.learn(self.place.room, seat);
    }

    fn learn_pinned(&mut self, pinned: &PinnedNote) -> bool
        requires { IsPinnedOf Q.room pinned.now }
        ensures step { result ≡ true → Took facts_over self.old self.new [] anything keeps }
        ensures learned { result ≡ true → HasSeen facts_over self.new (seen_by_pinned pinned.now) }
        ensures busy { result ≡ false → IsUnchanged facts_over self.old self.new }
        ensures counted { (result ≡ true → joints_over self.new ≡ joints_over self.old + joints_of_pinned pinned.now + 2) × (result ≡ false → joints_over self.new ≡ joints_over self.old) }
    {
        let Some(note) = pinned.take() else {
            return false;
        };
        let note = self.cells.learn_again(self.place.room, note);
        pinned.give(note);
        true
    }
}

impl<Q: Site> NoteOf<Q> {
    /// The thread of steps in the site's room learns it.
    ///
    /// # Operations
    ///
    /// Those of `StepsIn::learn`.
    pub fn learned_in<S: StepsIn<Q>>(self, steps: &mut S)
        ensures step { Took S.facts steps.old steps.new [] anything keeps }
        ensures learned { HasSeen S.facts steps.new (seen_by_note self.note) }
        ensures counted { S.joints steps.new ≡ S.joints steps.old + joints_of_note self.note + 1 }
    {
        let NoteOf { note, site: _ } = self;
        steps.learn(note);
    }
}

impl<Q: Site> PinnedNoteOf<Q> {
    /// The thread of steps in the site's room learns it, unless another thread is just learning it: then the answer is false, and the steps are as they were.
    ///
    /// # Operations
    ///
    /// Those of `StepsIn::learn_pinned`.
    pub fn learned_in<S: StepsIn<Q>>(&self, steps: &mut S) -> bool
        ensures step { result ≡ true → Took S.facts steps.old steps.new [] anything keeps }
        ensures learned { result ≡ true → HasSeen S.facts steps.new (seen_by_pinned self.now.pinned) }
        ensures busy { result ≡ false → IsUnchanged S.facts steps.old steps.new }
        ensures counted { (result ≡ true → S.joints steps.new ≡ S.joints steps.old + joints_of_pinned self.now.pinned + 2) × (result ≡ false → S.joints steps.new ≡ S.joints steps.old) }
    {
        steps.learn_pinned(&self.pinned)
    }
}
