//! A note is pinned.
use crate::note::Note;
use crate::pinned_note::PinnedNote;

impl Note {
    ghost use Rattle.jr_rule.specs.Rooms.{IsPinned};

    /// The note, pinned, so that several threads can learn it, each as often as it likes.
    ///
    /// # Operations
    ///
    /// None that a clause counts: the note comes to rest by an exchange of a word of its own.
    pub fn pin(self) -> PinnedNote
        ensures { IsPinned self result }
    {
        let Note { seat } = self;
        PinnedNote::of(seat)
    }
}
