//! The steps of one thread in a room that it owns together with others.
use crate::over::StepsOver;
use crate::owned_cells::OwnedCells;
use crate::pass::Pass;

/// The steps that a thread takes in a room that it owns together with others.
pub type OwnedSteps<const LAST: u32> = StepsOver<OwnedCells<LAST>, ()>;

impl<const LAST: u32> StepsOver<OwnedCells<LAST>, ()> {
    ghost use Rattle.std.specs.Prelude.{◌≡◌, ◌+◌, [], ◌∷◌};
    ghost use Rattle.std.specs.Arc.{arc_value};
    ghost use Rattle.jr_model.specs.declared.event.Act.TheVariants.{Meet};
    ghost use Rattle.jr_model.specs.History.{HasMet};
    ghost use Rattle.jr_steps.specs.Knowing.{view, anything, Took, keeps};
    ghost use Rattle.jr_rule.specs.Notes.{IsUnchanged};
    ghost use Rattle.jr_rule.specs.Over.{facts_over};
    ghost use Rattle.jr_rule.specs.OwnedSites.{joints_owned};
    ghost use Rattle.jr_rule.specs.Passes.{joints_of, known_of, IsSame};
    ghost use Rattle.jr_rule.specs.Rooms.{IsOfRoom};
    ghost use Rattle.jr_rule.specs.Rule.{stepping_pass};

    /// Learns all that the holder of another pass of the room has seen, which gets its pass back as it was.
    ///
    /// # Operations
    ///
    /// Those of `RoomSteps::meet`.
    pub fn meet(&mut self, other: Pass) -> Pass
        requires { IsOfRoom (arc_value self.old.cells.room) other }
        ensures room { arc_value self.new.cells.room ≡ arc_value self.old.cells.room }
        ensures step { Took facts_over self.old self.new (Meet ∷ []) anything keeps }
        ensures met { HasMet (view (known_of other)) (view (stepping_pass self.new.cells.cells.seat.me)) }
        ensures other { IsOfRoom (arc_value self.old.cells.room) result × IsSame other result }
        ensures counted { (joints_owned self.new ≡ joints_owned self.old + joints_of other + 2) × (joints_of result ≡ 0) }
    {
        let Pass {
            seat,
            thread,
            role,
            fresh,
            hint,
        } = other;
        let seat = self.cells.cells.meet(&*self.cells.room, seat);
        Pass {
            seat,
            thread,
            role,
            fresh,
            hint,
        }
    }

    /// Learns all that the thread of other steps in the room has seen. These stay as they were.
    ///
    /// # Operations
    ///
    /// Those of `RoomSteps::meet_steps`.
    pub fn meet_steps(&mut self, other: &mut OwnedSteps<LAST>)
        requires { (facts_over self.old).stands.room ≡ (facts_over other.old).stands.room }
        ensures room { arc_value self.new.cells.room ≡ arc_value self.old.cells.room }
        ensures step { Took facts_over self.old self.new (Meet ∷ []) anything keeps }
        ensures met { HasMet (view (stepping_pass other.old.cells.cells.seat.me)) (view (stepping_pass self.new.cells.cells.seat.me)) }
        ensures other { IsUnchanged facts_over other.old other.new }
        ensures counted { (joints_owned self.new ≡ joints_owned self.old + joints_owned other.old + 3) × (joints_owned other.new ≡ 0) }
    {
        self.cells
            .cells
            .meet_cells(&*self.cells.room, &mut other.cells.cells);
    }
}
