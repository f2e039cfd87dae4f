//! The meeting of an env with another pass of its room, or with another env.
ghost use Rattle.std.specs.Prelude.{◌≡◌, ◌+◌, [], ◌∷◌};
ghost use Rattle.jr_model.specs.declared.event.Act.TheVariants.{Meet};
ghost use Rattle.jr_model.specs.History.{HasMet};
ghost use Rattle.jr_steps.specs.Knowing.{view, anything, Took, keeps};
ghost use Rattle.jr_rule.specs.Passes.{facts_of, joints_of, known_of, IsSame};
ghost use Rattle.jr_rule.specs.Rule.{stepping_pass};
ghost use Rattle.jr_rule.specs.Rooms.{AreAsBefore, AreInOneRoom, IsOfRoom, holder_over, joints_over};

use crate::env::Env;
use jr_rule::{Pass, RoomSteps};

impl<const LAST: u32> Env<RoomSteps<'_, LAST>> {
    /// Learns all that the holder of another pass of the room has seen, which gets its pass back as it was. The local references stay as they are. An env in a room alone has this call.
    ///
    /// # Operations
    ///
    /// One, a load of the gate. The passes join for it and part again, each by a load of the gate: the thread's count of joins and partings goes up by two, and by what the other pass had.
    /// That one begins anew at 0.
    pub fn meet(&mut self, pass: Pass) -> Pass
        requires { IsOfRoom self.old.held.steps.place.now pass }
        ensures room { self.new.held.steps.place ≡ self.old.held.steps.place }
        ensures step { Took facts_of (holder_over self.old.held.steps) (holder_over self.new.held.steps) (Meet ∷ []) anything keeps }
        ensures met { HasMet (view (known_of pass)) (view (stepping_pass self.new.held.steps.cells.seat.me)) }
        ensures other { IsOfRoom self.old.held.steps.place.now result × IsSame pass result }
        ensures counted { (joints_over self.new.held.steps ≡ joints_over self.old.held.steps + joints_of pass + 2) × (joints_of result ≡ 0) }
        ensures frames { self.new.held.frames ≡ self.old.held.frames }
        ensures numbers { self.new.numbers ≡ self.old.numbers }
    {
        let held = &mut self.held;
        held.steps.meet(pass)
    }

    /// Learns all that the thread of another env of the room has seen. That env stays as it was, and so do the local references of both. An env in a room alone has this call.
    ///
    /// # Operations
    ///
    /// One, a load of the gate. The other's pass leaves its seat for it, the passes join, and they part again, each by a load of the gate:
    /// the thread's count of joins and partings goes up by three, and by what the other had. That one begins anew at 0.
    pub fn meet_env(&mut self, other: &mut Env<RoomSteps<'_, LAST>>)
        requires { AreInOneRoom self.old.held.steps other.old.held.steps }
        ensures room { self.new.held.steps.place ≡ self.old.held.steps.place }
        ensures step { Took facts_of (holder_over self.old.held.steps) (holder_over self.new.held.steps) (Meet ∷ []) anything keeps }
        ensures met { HasMet (view (stepping_pass other.old.held.steps.cells.seat.me)) (view (stepping_pass self.new.held.steps.cells.seat.me)) }
        ensures other { AreAsBefore other.old.held.steps other.new.held.steps × (other.new.held.frames ≡ other.old.held.frames) × (other.new.numbers ≡ other.old.numbers) }
        ensures counted { (joints_over self.new.held.steps ≡ joints_over self.old.held.steps + joints_over other.old.held.steps + 3) × (joints_over other.new.held.steps ≡ 0) }
        ensures frames { self.new.held.frames ≡ self.old.held.frames }
        ensures numbers { self.new.numbers ≡ self.old.numbers }
    {
        let held = &mut self.held;
        let theirs = &mut other.held;
        held.steps.meet_steps(&mut theirs.steps);
    }
}
