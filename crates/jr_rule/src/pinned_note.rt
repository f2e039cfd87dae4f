//! A note that several threads may learn: each of them takes it, and gives it back.
ghost use Rattle.std.specs.Prelude.{◌≡◌, [], IfSome};
ghost use Rattle.jr_rule.specs.Rule.{IsNote};

use crate::note::Note;
use crate::rule::View;
use atomic_table::{Perch, Seat};

/// The word of a perch whose seat somebody has at the moment, or nobody any more.
const TAKEN: u64 = 1;

/// The word of a perch on which its seat rests.
const RESTS: u64 = 2;

/// What a thread had seen in its room, pinned where other threads find it: it can be shared by `&`, and each thread of the room may learn it, as often as it likes. It is no pass:
/// it holds nobody inside, and no collection and no close waits for it. It has one word of its own, none that names its room, and may be let go.
///
/// There is no lock, and nobody waits: a thread that finds another one just learning it is told so.
#[derive(Drop)]
pub struct PinnedNote {
    pub(crate) perch: Perch<(), View>,
    ghost noted: { IsNote (perch.view, []) },
}

impl PinnedNote {
    /// The seat of a note, pinned.
    pub(crate) fn of(seat: Seat<(), View>) -> PinnedNote
        requires { IsNote seat.me }
        ensures { (result.perch.table_id ≡ seat.table_id) × ((result.perch.view, []) ≡ seat.me) }
    {
        let perch = Perch::new(&seat, TAKEN);
        // (nobody else has the perch yet, so the seat comes to rest; no clause says so, and where it didn't, nobody could learn the note)
        let _ = perch.give(seat, TAKEN, RESTS);
        PinnedNote { perch }
    }

    /// The seat of the note, where nobody else has it at the moment.
    pub(crate) fn take(&self) -> Option<Seat<(), View>>
        ensures { IfSome result (λ s. (s.table_id ≡ self.now.perch.table_id) × (s.me ≡ (self.now.perch.view, []))) }
    {
        let (_, seat) = self.perch.take(TAKEN);
        seat
    }

    /// The seat comes to rest again.
    pub(crate) fn give(&self, seat: Seat<(), View>)
        requires { (seat.table_id ≡ self.now.perch.table_id) × (seat.me ≡ (self.now.perch.view, [])) }
    {
        // (nobody else gives a seat here, so this one comes to rest; no clause says so, and where it didn't, nobody could learn the note any more)
        let _ = self.perch.give(seat, TAKEN, RESTS);
    }
}
