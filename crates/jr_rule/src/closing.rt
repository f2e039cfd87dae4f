//! A room is closed, once nobody is in it.
ghost use Rattle.std.specs.Prelude.{◌≡◌, [], ◌∷◌, length, IfOk, IfErr};
ghost use Rattle.std.specs.Slots.{slots_items, slots_len, IsFull};

use crate::over_room::RoomSteps;
use crate::pass::Pass;
use crate::room::Room;
use crate::summing::RowWords;
use crate::words::all_counted;
use atomic_table::Closed;
use jr_model::Summary;
use jr_steps::GateLoad;
use jr_word::Fault;
use std::alloc::Global;

/// A room that was not closed, since threads are in it: the room and the pass, and E22.
#[derive(Drop)]
pub struct Left<const LAST: u32> {
    /// The room, as it was.
    pub room: Room<LAST>,
    /// The pass that looked at the gate.
    pub pass: Pass,
    /// E22, with the number of threads that are not outside.
    pub fault: Fault,
}

impl<const LAST: u32> Room<LAST> {
    ghost use Rattle.jr_model.specs.declared.event.Act.TheVariants.{Meet};
    ghost use Rattle.jr_steps.specs.Knowing.{anything, keeps, Took};
    ghost use Rattle.jr_rule.specs.Passes.{facts_of, holder_of, joints_of, known_of, Closes};
    ghost use Rattle.jr_rule.specs.Rooms.{IsOfRoom, IsLeft, CountsInside};

    /// Closes the room, and tells what stands in it: what stands after a legal history that begins with all that the pass has seen, and has no more events of its thread.
    /// The pass has to be one of the room's.
    ///
    /// # Errors
    ///
    /// E22 with how many threads were inside, knocking, announcing or collecting at its one look, at least 1.
    ///
    /// The room is handed back as it was, and the pass, which has looked at the gate. They can be closed again.
    ///
    /// # Operations
    ///
    /// One, the look at the gate. Then no thread shares the words any more.
    pub fn close(self, pass: Pass) -> Result<Summary, Left<LAST>>
        requires { IsOfRoom self pass }
        ensures ok { IfOk result (λ s. Closes (known_of pass) s) }
        ensures err { IfErr result (λ l. IsLeft self.entry pass l) }
        ensures counted { IfErr result (λ l. joints_of l.pass ≡ joints_of pass) }
    {
        let (inside, pass) = self.look(pass);
        if inside != 0 {
            return Err(Left {
                room: self,
                pass,
                fault: Fault::LeftInside(inside),
            });
        }
        let Room { row } = self;
        Ok(row.close(pass))
    }

    /// The pass looks at the gate, as it does when it meets another one: how many threads are inside, knocking, announcing or collecting, and the pass.
    pub(crate) fn look(&self, pass: Pass) -> (u32, Pass)
        requires { IsOfRoom self.now pass }
        ensures room { IsOfRoom self.now result.1 }
        ensures step { Took facts_of (holder_of pass) (holder_of result.1) (Meet ∷ []) anything keeps }
        ensures seen { CountsInside (known_of pass) (known_of result.1) result.0 }
        ensures counted { joints_of result.1 ≡ joints_of pass }
    {
        let mut steps = RoomSteps::new(self, pass);
        let inside = all_counted(steps.look(GateLoad::Meet));
        (inside, steps.into_pass())
    }
}

/// The words of a row that no thread shares any more.
pub(crate) struct ClosedWords {
    pub(crate) closed: Closed<(), Global>,
    ghost full: { IsFull closed.words × (slots_len closed.words ≡ length (slots_items closed.words)) },
}

impl RowWords for ClosedWords {
    ghost words = { λ w. slots_items w.closed.words };

    fn word(&self, at: usize) -> u64 {
        self.closed.word(at)
    }
}
