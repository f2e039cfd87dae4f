//! The words of one room, for one of its threads, by types that stand for both.
use crate::cells::{Cells, StepKind};
use crate::over::StepsOver;
use crate::over_room::RoomSteps;
use crate::parts::Parts;
use crate::pass::Pass;
use crate::room::Room;
use crate::row::RoomCells;
use crate::site::{Site, ThreadNumber};
use jr_word::{Config, Elem, HeaderParts};
use std::alloc::AllocError;
use std::marker::PhantomData;

/// Where the words of the site's room are, for one of its threads.
pub struct InRoom<'r, const LAST: u32, Q: Site, T: ThreadNumber> {
    pub(crate) room: &'r Room<LAST>,
    pub(crate) site: PhantomData<Q>,
    pub(crate) thread: PhantomData<T>,
}

/// The steps of one thread in the site's room.
pub type SiteSteps<'r, const LAST: u32, Q, T> = StepsOver<RoomCells, InRoom<'r, LAST, Q, T>>;

impl<'r, const LAST: u32, Q: Site, T: ThreadNumber> Clone for InRoom<'r, LAST, Q, T> {
    ghost use Rattle.std.specs.Prelude.{◌≡◌};

    ghost is_clone = { λ x y. y ≡ x };

    ghost is_infallible = { λ _. Unit {0} };

    fn clone(&self) -> Result<Self, AllocError> {
        Ok(*self)
    }
}

impl<'r, const LAST: u32, Q: Site, T: ThreadNumber> Copy for InRoom<'r, LAST, Q, T> {}

impl<'r, const LAST: u32, Q: Site, T: ThreadNumber> Cells<InRoom<'r, LAST, Q, T>> for RoomCells {
    ghost use Rattle.jr_steps.specs.Knowing.{Goes};
    ghost use Rattle.jr_rule.specs.Rule.{joints_at, stepping_pass};
    ghost use Rattle.jr_rule.specs.Sights.{sight_of_seat};
    ghost use Rattle.jr_rule.specs.Sites.{IsAtThread};
    ghost use Rattle.jr_rule.specs.SiteLaws.{thread_one, thread_sound};

    ghost sight = { λ s. sight_of_seat s.seat.table_id s.seat.me };

    ghost goes = { λ s t acts. Goes (stepping_pass s.seat.me) acts (stepping_pass t.seat.me) };

    ghost joints = { λ s. joints_at s.seat.me };

    ghost are_at = { λ s place. IsAtThread Q.room Q.sizes T.number s place.room.now };

    ghost one = { λ s place. thread_one };

    fn config(&self, place: InRoom<'r, LAST, Q, T>) -> Config {
        Cells::<&Room<LAST>>::config(self, place.room)
    }

    fn last(&self, place: InRoom<'r, LAST, Q, T>) -> u32 {
        Cells::<&Room<LAST>>::last(self, place.room)
    }

    fn thread(&self, place: InRoom<'r, LAST, Q, T>) -> u8 {
        Cells::<&Room<LAST>>::thread(self, place.room)
    }

    fn headers(&self, place: InRoom<'r, LAST, Q, T>) -> usize {
        Cells::<&Room<LAST>>::headers(self, place.room)
    }

    fn elements(&self, place: InRoom<'r, LAST, Q, T>) -> usize {
        Cells::<&Room<LAST>>::elements(self, place.room)
    }

    fn load<K: StepKind>(&mut self, place: InRoom<'r, LAST, Q, T>, at: usize) -> u64 {
        Cells::<&Room<LAST>>::load::<K>(self, place.room, at)
    }

    fn store<K: StepKind>(&mut self, place: InRoom<'r, LAST, Q, T>, at: usize, new: u64) {
        Cells::<&Room<LAST>>::store::<K>(self, place.room, at, new);
    }

    fn add<K: StepKind>(&mut self, place: InRoom<'r, LAST, Q, T>, at: usize, more: u64) -> u64 {
        Cells::<&Room<LAST>>::add::<K>(self, place.room, at, more)
    }

    fn take<K: StepKind>(&mut self, place: InRoom<'r, LAST, Q, T>, at: usize, less: u64) -> u64 {
        Cells::<&Room<LAST>>::take::<K>(self, place.room, at, less)
    }

    fn exchange<K: StepKind>(
        &mut self,
        place: InRoom<'r, LAST, Q, T>,
        at: usize,
        old: u64,
        new: u64,
    ) -> u64 {
        Cells::<&Room<LAST>>::exchange::<K>(self, place.room, at, old, new)
    }

    ghost sound = { λ s place at. thread_sound at };
}

impl<'r, const LAST: u32, Q: Site, T: ThreadNumber> Parts<InRoom<'r, LAST, Q, T>> for RoomCells {
    #[inline(always)]
    fn load_part<E: Elem>(
        &mut self,
        place: InRoom<'r, LAST, Q, T>,
        object: u16,
        header: HeaderParts,
        start: u32,
        elements: &mut [E],
    ) {
        Parts::<&Room<LAST>>::load_part(self, place.room, object, header, start, elements);
    }
}

impl<'r, const LAST: u32, Q: Site, T: ThreadNumber> StepsOver<RoomCells, InRoom<'r, LAST, Q, T>> {
    ghost use Rattle.std.specs.Prelude.{◌≡◌};
    ghost use Rattle.jr_rule.specs.Passes.{holder_of, known_of};
    ghost use Rattle.jr_rule.specs.Rooms.{IsOfRoom, holder_over};
    ghost use Rattle.jr_rule.specs.Rule.{stepping_pass};
    ghost use Rattle.jr_rule.specs.Sites.{IsPassOf, IsSiteOf};

    /// The steps of a pass in its own room, which is the site's, of the thread.
    pub fn new(room: &'r Room<LAST>, pass: Pass) -> Self
        requires pass { IsOfRoom room.now pass }
        requires site { IsSiteOf Q.room Q.sizes T.number room.now pass }
        ensures pass { holder_over result ≡ holder_of pass }
        ensures seen { stepping_pass result.cells.seat.me ≡ known_of pass }
    {
        let StepsOver {
            cells,
            role,
            fresh,
            hint,
            place,
        } = RoomSteps::new(room, pass);
        StepsOver {
            cells,
            role,
            fresh,
            hint,
            place: InRoom {
                room: place,
                site: PhantomData,
                thread: PhantomData,
            },
        }
    }

    /// The pass, as it is: one of the site's room, and of the thread.
    ///
    /// # Operations
    ///
    /// None.
    pub fn into_pass(self) -> Pass
        ensures pass { holder_of result ≡ holder_over self.entry }
        ensures site { IsPassOf Q.room Q.sizes LAST T.number result }
        ensures seen { known_of result ≡ stepping_pass self.entry.cells.seat.me }
    {
        let StepsOver {
            cells,
            role,
            fresh,
            hint,
            place,
        } = self;
        let steps = StepsOver {
            cells,
            role,
            fresh,
            hint,
            place: place.room,
        };
        steps.into_pass()
    }
}
