//! The words of a room, for a thread that owns the room together with others.
use crate::cells::{Cells, StepKind};
use crate::parts::Parts;
use crate::room::Room;
use crate::row::RoomCells;
use jr_word::{Config, Elem, HeaderParts};
use std::sync::Arc;

/// A seat, and the room that it is of.
#[derive(Drop)]
pub struct OwnedCells<const LAST: u32> {
    /// The seat.
    pub cells: RoomCells,
    /// Its room.
    pub room: Arc<Room<LAST>>,
}

impl<const LAST: u32> Cells<()> for OwnedCells<LAST> {
    ghost use Rattle.std.specs.Prelude.{◌≡◌};
    ghost use Rattle.std.specs.Arc.{arc_value};
    ghost use Rattle.jr_steps.specs.Knowing.{Goes};
    ghost use Rattle.jr_rule.specs.Rule.{joints_at, stepping_pass};
    ghost use Rattle.jr_rule.specs.Sights.{IsSeatOf, sight_of_seat};
    ghost use Rattle.jr_rule.specs.CellLaws.{seat_one, seat_sound};

    ghost sight = { λ s. sight_of_seat s.cells.seat.table_id s.cells.seat.me };

    ghost goes = { λ s t acts. Goes (stepping_pass s.cells.seat.me) acts (stepping_pass t.cells.seat.me) };

    ghost joints = { λ s. joints_at s.cells.seat.me };

    ghost are_at = { λ s place. IsSeatOf (arc_value s.room).row.table.shared.table_id (arc_value s.room).row.config (arc_value s.room).row.last s.cells.seat.table_id s.cells.seat.me s.cells.thread };

    ghost one = { λ s place. seat_one };

    fn config(&self, _place: ()) -> Config {
        Cells::<&Room<LAST>>::config(&self.cells, &*self.room)
    }

    fn last(&self, _place: ()) -> u32 {
        Cells::<&Room<LAST>>::last(&self.cells, &*self.room)
    }

    fn thread(&self, _place: ()) -> u8 {
        Cells::<&Room<LAST>>::thread(&self.cells, &*self.room)
    }

    fn headers(&self, _place: ()) -> usize {
        Cells::<&Room<LAST>>::headers(&self.cells, &*self.room)
    }

    fn elements(&self, _place: ()) -> usize {
        Cells::<&Room<LAST>>::elements(&self.cells, &*self.room)
    }

    fn load<T: StepKind>(&mut self, _place: (), at: usize) -> u64 {
        Cells::<&Room<LAST>>::load::<T>(&mut self.cells, &*self.room, at)
    }

    fn store<T: StepKind>(&mut self, _place: (), at: usize, new: u64) {
        Cells::<&Room<LAST>>::store::<T>(&mut self.cells, &*self.room, at, new);
    }

    fn add<T: StepKind>(&mut self, _place: (), at: usize, more: u64) -> u64 {
        Cells::<&Room<LAST>>::add::<T>(&mut self.cells, &*self.room, at, more)
    }

    fn take<T: StepKind>(&mut self, _place: (), at: usize, less: u64) -> u64 {
        Cells::<&Room<LAST>>::take::<T>(&mut self.cells, &*self.room, at, less)
    }

    fn exchange<T: StepKind>(&mut self, _place: (), at: usize, old: u64, new: u64) -> u64 {
        Cells::<&Room<LAST>>::exchange::<T>(&mut self.cells, &*self.room, at, old, new)
    }

    ghost sound = { λ s place at. seat_sound at };
}

impl<const LAST: u32> Parts<()> for OwnedCells<LAST> {
    #[inline(always)]
    fn load_part<E: Elem>(
        &mut self,
        _place: (),
        object: u16,
        header: HeaderParts,
        start: u32,
        elements: &mut [E],
    ) {
        // (the room once for all elements: by the cells it would be looked for anew behind each barrier)
        let room = &*self.room;
        Parts::<&Room<LAST>>::load_part(&mut self.cells, room, object, header, start, elements);
    }
}
