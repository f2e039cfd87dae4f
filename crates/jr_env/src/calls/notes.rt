//! What an env's thread had seen, noted and learned: in a room that a type stands for, so that a note is of that room by its type.
ghost use Rattle.std.specs.Prelude.{◌≡◌, ◌+◌, [], true, false};
ghost use Rattle.jr_steps.specs.Knowing.{Took, anything, keeps};
ghost use Rattle.jr_rule.specs.Notes.{HasSeen, HasSeenJust, IsUnchanged};
ghost use Rattle.jr_rule.specs.Rooms.{joints_of_note, joints_of_pinned, seen_by_note, seen_by_pinned};

use crate::env::Env;
use jr_rule::{NoteOf, PinnedNoteOf, Site, StepsIn};
use jr_steps::Steps;

impl<S: Steps> Env<S> {
    /// A note of all that the env's thread has seen until now, to be handed to another thread of the room by whatever way: a channel, a lock, a join. It is no pass:
    /// no collection and no close waits for it, and it may be let go. The env stays as it was. An env in a room alone has this call.
    ///
    /// # Operations
    ///
    /// A load of the gate, by which the note leaves the thread's seat: it counts as one parting, and as no step.
    pub fn note<Q: Site>(&mut self) -> NoteOf<Q>
    where
        S: StepsIn<Q>,
        ensures same { IsUnchanged S.facts self.old.held.steps self.new.held.steps × (self.new.held.frames ≡ self.old.held.frames) × (self.new.numbers ≡ self.old.numbers) }
        ensures note { HasSeenJust S.facts self.old.held.steps (seen_by_note result.note) }
        ensures counted { (S.joints self.new.held.steps ≡ S.joints self.old.held.steps + 1) × (joints_of_note result.note ≡ 0) }
    {
        let held = &mut self.held;
        held.steps.note()
    }

    /// Learns all that a note of the room says: what its thread had seen, this one has seen then. That is no event of the machine. The local references stay as they are.
    /// An env in a room alone has this call.
    ///
    /// So a reference that stood where the note was made stands here, unless somebody has deleted it since:
    /// a global one with its object, a weak one with it, or cleared (the law `references_stand_until_deleted`).
    ///
    /// # Operations
    ///
    /// One, a load of the gate. The note joins the thread's seat for it, by a load of the gate that counts as one join. The thread's count of joins and partings goes up by what the note had, too.
    pub fn learn<Q: Site>(&mut self, note: NoteOf<Q>)
    where
        S: StepsIn<Q>,
        ensures step { Took S.facts self.old.held.steps self.new.held.steps [] anything keeps }
        ensures learned { HasSeen S.facts self.new.held.steps (seen_by_note note.note) }
        ensures counted { S.joints self.new.held.steps ≡ S.joints self.old.held.steps + joints_of_note note.note + 1 }
        ensures frames { self.new.held.frames ≡ self.old.held.frames }
        ensures numbers { self.new.numbers ≡ self.old.numbers }
    {
        let held = &mut self.held;
        note.learned_in(&mut held.steps);
    }

    /// A pinned note of all that the env's thread has seen until now, from which several threads can learn it, each as often as it likes. The env stays as it was.
    /// An env in a room alone has this call.
    ///
    /// # Operations
    ///
    /// A load of the gate, by which the note leaves the thread's seat: it counts as one parting, and as no step. The note comes to rest by an exchange of a word of its own, which no clause counts.
    pub fn pin<Q: Site>(&mut self) -> PinnedNoteOf<Q>
    where
        S: StepsIn<Q>,
        ensures same { IsUnchanged S.facts self.old.held.steps self.new.held.steps × (self.new.held.frames ≡ self.old.held.frames) × (self.new.numbers ≡ self.old.numbers) }
        ensures note { HasSeenJust S.facts self.old.held.steps (seen_by_pinned result.pinned) }
        ensures counted { (S.joints self.new.held.steps ≡ S.joints self.old.held.steps + 1) × (joints_of_pinned result.pinned ≡ 0) }
    {
        let note: NoteOf<Q> = self.note();
        note.pin()
    }

    /// Learns all that a pinned note of the room says, as `learn` does, and leaves it pinned; or answers false, where another thread was just learning it. Nobody waits:
    /// the env is then as it was, and the call may be made again. An env in a room alone has this call.
    ///
    /// # Operations
    ///
    /// Those of `RoomSteps::learn_pinned`.
    pub fn learn_pinned<Q: Site>(&mut self, pinned: &PinnedNoteOf<Q>) -> bool
    where
        S: StepsIn<Q>,
        ensures step { result ≡ true → Took S.facts self.old.held.steps self.new.held.steps [] anything keeps }
        ensures learned { result ≡ true → HasSeen S.facts self.new.held.steps (seen_by_pinned pinned.now.pinned) }
        ensures busy { result ≡ false → IsUnchanged S.facts self.old.held.steps self.new.held.steps }
        ensures counted { (result ≡ true → S.joints self.new.held.steps ≡ S.joints self.old.held.steps + joints_of_pinned pinned.now.pinned + 2)
            × (result ≡ false → S.joints self.new.held.steps ≡ S.joints self.old.held.steps) }
        ensures frames { self.new.held.frames ≡ self.old.held.frames }
        ensures numbers { self.new.numbers ≡ self.old.numbers }
    {
        let held = &mut self.held;
        pinned.learned_in(&mut held.steps)
    }
}
