//! A room is closed together with several of its passes.
ghost use Rattle.std.specs.Prelude.{◌≡◌, map, IfOk, IfErr, All};
ghost use Rattle.jr_model.specs.State.{summary as summary_of};
ghost use Rattle.jr_steps.specs.Knowing.{state_of};

use crate::closing::Left;
use crate::pass::Pass;
use crate::room::Room;
use jr_model::Summary;
use jr_word::Fault;

/// A room that was not closed, and the other passes.
#[derive(Drop)]
pub struct AllLeft<const LAST: u32> {
    /// The room and the first pass, and E22.
    pub left: Left<LAST>,
    /// The other passes, as they were.
    pub others: Vec<Pass>,
}

impl<const LAST: u32> Room<LAST> {
    ghost use Rattle.jr_rule.specs.Passes.{known_of, ClosesAll, SawOneHistory, HasSeenAll};
    ghost use Rattle.jr_rule.specs.Rooms.{IsOfRoom, AreLeft};

    /// Closes the room with several of its passes, and tells what stands in it.
    /// What is told is of a history that has no more events of any of them, and where the pass has seen all that each other thread did, it is of what the pass has seen.
    /// The passes have to be the room's.
    ///
    /// # Errors
    ///
    /// E22 with how many threads were inside, knocking, announcing or collecting at its one look, at least 1.
    ///
    /// Where each thread of the room has its pass among these, and all of them are outside, it is not answered.
    /// The room and the other passes are handed back as they were, and the first pass, which has looked at the gate. They can be closed again.
    ///
    /// # Operations
    ///
    /// One, the look at the gate.
    /// Beside it a load of the gate for each other pass and two more, by which they come together, and where the room is not closed one for each other pass and one more, by which they part.
    /// Where it is not closed they are counted, as joins and partings: the first pass has the count of all then, and each other pass the one by which it left.
    /// Else no thread shares the words any more, and no pass is left that has a count.
    pub fn close_all(self, pass: Pass, others: Vec<Pass>) -> Result<Summary, AllLeft<LAST>>
        requires pass { IsOfRoom self pass }
        requires others { All (λ p. IsOfRoom self p) others.items }
        ensures ok { IfOk result (λ s. ClosesAll (known_of pass) (map known_of others.items) s) }
        ensures seen { IfOk result (λ s. SawOneHistory (known_of pass) (map known_of others.items)) }
        ensures exact { IfOk result (λ s. HasSeenAll (known_of pass) (map known_of others.items) → s ≡ summary_of (known_of pass).config (known_of pass).last (state_of (known_of pass))) }
        ensures err { IfErr result (λ l. AreLeft self.entry pass others.items l) }
    {
        let Pass {
            seat,
            thread,
            role,
            fresh,
            hint,
        } = pass;
        match self.row.count_beside(seat, others) {
            Ok(seat) => {
                let Room { row } = self;
                Ok(row.end(seat))
            }
            Err(parted) => {
                let pass = Pass {
                    seat: parted.first,
                    thread,
                    role,
                    fresh,
                    hint,
                };
                let left = Left {
                    room: self,
                    pass,
                    fault: Fault::LeftInside(parted.inside),
                };
                Err(AllLeft {
                    left,
                    others: parted.others,
                })
            }
        }
    }
}
