//! The board of a room's threads.

ghost use Rattle.std.specs.Prelude.{◌≡◌};
ghost use Rattle.jr_scripts.specs.Layouts.{layout_of};
ghost use Rattle.jr_scripts.specs.NotedWords.{words_noted};
ghost use Rattle.jr_scripts.specs.Telling.{account_told};

use crate::board::Board;
use crate::sightings::Sightings;
use jr_rule::{PinnedNoteOf, RoomSteps, Site};
use jr_syntax::Name;

/// In a room, a board tells with each word all that its poster had seen. A look that comes while another thread reads what was told finds nothing.
impl<Q: Site, const LAST: u32> Board<RoomSteps<'_, LAST>> for Sightings<'_, PinnedNoteOf<Q>> {
    ghost layout = { λ board. layout_of board.posts.now };

    ghost tells = { λ board. account_told board.is_lost board.posts.now.numbers.entries board.notes.items };

    ghost follows = { λ board words. words_noted board.is_lost board.posts.now.numbers.entries board.notes.items board.heard words };

    ghost looked = { λ first n found last. Unit {0} };

    fn post(&mut self, steps: &mut RoomSteps<'_, LAST>, name: &Name, word: u64) {
        let told = PinnedNoteOf::by(steps);
        self.put(name, word, told);
    }

    fn look(&mut self, steps: &mut RoomSteps<'_, LAST>, name: &Name) -> Option<u64> {
        let (number, note) = self.find(name)?;
        let posted = self.posted(number, &note);
        if !posted.told.learned_by(steps) {
            return None;
        }
        self.hear(number, note, posted.stamp);
        Some(posted.word)
    }
}
