//! The steps of one thread in a room that it shares.
use crate::note::Note;
use crate::over::StepsOver;
use crate::pass::Pass;
use crate::pinned_note::PinnedNote;
use crate::room::Room;
use crate::row::RoomCells;

/// The steps that the holder of a pass takes in its room.
pub type RoomSteps<'a, const LAST: u32> = StepsOver<RoomCells, &'a Room<LAST>>;

impl<'a, const LAST: u32> StepsOver<RoomCells, &'a Room<LAST>> {
    ghost use Rattle.std.specs.Prelude.{◌≡◌, ◌+◌, [], ◌∷◌, true, false};
    ghost use Rattle.jr_model.specs.declared.event.Act.TheVariants.{Meet};
    ghost use Rattle.jr_model.specs.History.{HasMet};
    ghost use Rattle.jr_steps.specs.Knowing.{view, anything, Goes, Took, keeps};
    ghost use Rattle.jr_rule.specs.Passes.{facts_of, holder_of, joints_of, known_of, IsSame};
    ghost use Rattle.jr_rule.specs.Rule.{stepping_pass};
    ghost use Rattle.jr_rule.specs.Rooms.{AreAsBefore, AreInOneRoom, IsNoteThere, IsOfRoom, IsPinnedThere, Learned, LearnedPinned, WasNoted, WasPinned, holder_over, joints_of_note, joints_of_pinned};
    ghost use Rattle.jr_rule.specs.Rooms.{joints_over};

    /// The steps of a pass in its own room. That the pass is one of the room's is a condition: it has no bytes that name its room.
    pub fn new(room: &'a Room<LAST>, pass: Pass) -> Self
        requires { IsOfRoom room.now pass }
        ensures room { result.place ≡ room.entry }
        ensures pass { holder_over result ≡ holder_of pass }
        ensures seen { stepping_pass result.cells.seat.me ≡ known_of pass }
    {
        let Pass {
            seat,
            thread,
            role,
            fresh,
            hint,
        } = pass;
        let cells = RoomCells { seat, thread };
        StepsOver {
            cells,
            role,
            fresh,
            hint,
            place: room,
        }
    }

    /// The pass, as it is.
    ///
    /// # Operations
    ///
    /// None.
    pub fn into_pass(self) -> Pass
        ensures pass { holder_of result ≡ holder_over self.entry }
        ensures room { IsOfRoom self.entry.place.now result }
        ensures seen { known_of result ≡ stepping_pass self.entry.cells.seat.me }
    {
        let StepsOver {
            cells,
            role,
            fresh,
            hint,
            place: _,
        } = self;
        let RoomCells { seat, thread } = cells;
        Pass {
            seat,
            thread,
            role,
            fresh,
            hint,
        }
    }

    /// Learns all that the holder of another pass of the room has seen, which gets its pass back as it was.
    ///
    /// # Operations
    ///
    /// One, a load of the gate. The passes join for it and part again, each by a load of the gate: the thread's count of joins and partings goes up by two, and by what the other pass had.
    /// That one begins anew at 0.
    pub fn meet(&mut self, other: Pass) -> Pass
        requires { IsOfRoom self.old.place.now other }
        ensures room { self.new.place ≡ self.old.place }
        ensures step { Took facts_of (holder_over self.old) (holder_over self.new) (Meet ∷ []) anything keeps }
        ensures seen { Goes (stepping_pass self.old.cells.seat.me) (Meet ∷ []) (stepping_pass self.new.cells.seat.me) }
        ensures met { HasMet (view (known_of other)) (view (stepping_pass self.new.cells.seat.me)) }
        ensures other { IsOfRoom self.old.place.now result × IsSame other result }
        ensures counted { (joints_over self.new ≡ joints_over self.old + joints_of other + 2) × (joints_of result ≡ 0) }
    {
        let Pass {
            seat,
            thread,
            role,
            fresh,
            hint,
        } = other;
        let seat = self.cells.meet(self.place, seat);
        Pass {
            seat,
            thread,
            role,
            fresh,
            hint,
        }
    }

    /// A note of all that the thread has seen, which may be handed to another thread by whatever way. The thread stays as it was.
    ///
    /// # Operations
    ///
    /// A load of the gate, by which the note leaves the thread's seat: it counts as one parting, and as no step.
    pub fn note(&mut self) -> Note
        ensures same { AreAsBefore self.old self.new }
        ensures room { IsNoteThere self.new result }
        ensures note { WasNoted self.old result }
        ensures counted { (joints_over self.new ≡ joints_over self.old + 1) × (joints_of_note result ≡ 0) }
    {
        let seat = self.cells.note(self.place);
        Note { seat }
    }

    /// Learns all that a note of the room says: whatever its thread had seen, this one has seen then. That is no event of the machine.
    ///
    /// So a reference that stood where the note was made stands here, unless somebody has deleted it since:
    /// a global one with its object, a weak one with it, or cleared (the law `references_stand_until_deleted` of `jr_model`, of the history up to the note and of that up to here).
    ///
    /// # Operations
    ///
    /// One, a load of the gate. The note joins the thread's seat for it, by a load of the gate that counts as one join. The thread's count of joins and partings goes up by what the note had, too.
    pub fn learn(&mut self, note: Note)
        requires { IsNoteThere self.old note }
        ensures room { self.new.place ≡ self.old.place }
        ensures step { Took facts_of (holder_over self.old) (holder_over self.new) [] anything keeps }
        ensures seen { Goes (stepping_pass self.old.cells.seat.me) [] (stepping_pass self.new.cells.seat.me) }
        ensures learned { Learned note self.new }
        ensures counted { joints_over self.new ≡ joints_over self.old + joints_of_note note + 1 }
    {
        let Note { seat } = note;
        self.cells.learn(self.place, seat);
    }

    /// A pinned note of all that the thread has seen, from which several threads can learn it. The thread stays as it was.
    ///
    /// # Operations
    ///
    /// A load of the gate, by which the note leaves the thread's seat: it counts as one parting, and as no step. The note comes to rest by an exchange of a word of its own, which no clause counts.
    pub fn pin(&mut self) -> PinnedNote
        ensures same { AreAsBefore self.old self.new }
        ensures room { IsPinnedThere self.new result }
        ensures note { WasPinned self.old result }
        ensures counted { (joints_over self.new ≡ joints_over self.old + 1) × (joints_of_pinned result ≡ 0) }
    {
        self.note().pin()
    }

    /// Learns all that a pinned note of the room says, as `learn` does, and leaves it pinned; or answers false, where another thread was just learning it. Nobody waits, and there is no lock:
    /// these steps are then as they were, and the call may be made again. Each call learns, also where this thread has learned the note before.
    ///
    /// # Operations
    ///
    /// One where the answer is true, a load of the gate, and none where it is false. Where it is true, the note joins the thread's seat and leaves it again by two loads of the gate:
    /// they count as one join and one parting. No clause counts the exchanges of the note's own word: one, and where the note rested there another one.
    pub fn learn_pinned(&mut self, pinned: &PinnedNote) -> bool
        requires { IsPinnedThere self.old pinned.now }
        ensures room { self.new.place ≡ self.old.place }
        ensures step { result ≡ true → Took facts_of (holder_over self.old) (holder_over self.new) [] anything keeps }
        ensures seen { result ≡ true → Goes (stepping_pass self.old.cells.seat.me) [] (stepping_pass self.new.cells.seat.me) }
        ensures learned { result ≡ true → LearnedPinned pinned.now self.new }
        ensures busy { result ≡ false → AreAsBefore self.old self.new }
        ensures counted { (result ≡ true → joints_over self.new ≡ joints_over self.old + joints_of_pinned pinned.now + 2) × (result ≡ false → joints_over self.new ≡ joints_over self.old) }
    {
        let Some(note) = pinned.take() else {
            return false;
        };
        let note = self.cells.learn_again(self.place, note);
        pinned.give(note);
        true
    }

    /// Learns all that the thread of other steps in the room has seen. These stay as they were.
    ///
    /// # Operations
    ///
    /// One, a load of the gate. The other's pass leaves its seat for it, the passes join, and they part again, each by a load of the gate:
    /// the thread's count of joins and partings goes up by three, and by what the other had. That one begins anew at 0.
    pub fn meet_steps(&mut self, other: &mut RoomSteps<'_, LAST>)
        requires { AreInOneRoom self.old other.old }
        ensures room { self.new.place ≡ self.old.place }
        ensures step { Took facts_of (holder_over self.old) (holder_over self.new) (Meet ∷ []) anything keeps }
        ensures met { HasMet (view (stepping_pass other.old.cells.seat.me)) (view (stepping_pass self.new.cells.seat.me)) }
        ensures other { AreAsBefore other.old other.new }
        ensures counted { (joints_over self.new ≡ joints_over self.old + joints_over other.old + 3) × (joints_over other.new ≡ 0) }
    {
        self.cells.meet_cells(self.place, &mut other.cells);
    }
}
