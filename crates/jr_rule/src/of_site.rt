//! The words of an owner of a room that a type stands for: what its thread has seen is noted, and learned by another owner of that room.
ghost use Rattle.std.specs.Prelude.{◌≡◌, ◌+◌, [], true, false};
ghost use Rattle.jr_steps.specs.Knowing.{Took, anything, keeps};
ghost use Rattle.jr_rule.specs.Notes.{HasSeen, HasSeenJust, IsUnchanged};
ghost use Rattle.jr_rule.specs.Over.{facts_over};
ghost use Rattle.jr_rule.specs.OwnedSites.{joints_owned};
ghost use Rattle.jr_rule.specs.Rooms.{joints_of_note, joints_of_pinned, seen_by_note, seen_by_pinned};
ghost use Rattle.jr_rule.specs.Sites.{IsNoteOf, IsPinnedOf};

use crate::cells::{Cells, StepKind};
use crate::note::Note;
use crate::over::StepsOver;
use crate::owned_cells::OwnedCells;
use crate::parts::Parts;
use crate::pinned_note::PinnedNote;
use crate::site::{NoteOf, Site};
use crate::steps_in::StepsIn;
use jr_word::{Config, Elem, HeaderParts};
use std::alloc::AllocError;
use std::marker::PhantomData;

/// Where the words of an owner are: in its own room, which is the site's.
pub struct OfSite<Q: Site> {
    /// The site.
    pub site: PhantomData<Q>,
}

impl<Q: Site> Clone for OfSite<Q> {
    ghost use Rattle.std.specs.Prelude.{◌≡◌};

    ghost is_clone = { λ x y. y ≡ x };

    ghost is_infallible = { λ _. Unit {0} };

    fn clone(&self) -> Result<Self, AllocError> {
        Ok(*self)
    }
}

impl<Q: Site> Copy for OfSite<Q> {}

impl<const LAST: u32, Q: Site> Cells<OfSite<Q>> for OwnedCells<LAST> {
    ghost use Rattle.jr_steps.specs.Knowing.{Goes};
    ghost use Rattle.jr_rule.specs.Rule.{joints_at, stepping_pass};
    ghost use Rattle.jr_rule.specs.Sights.{sight_of_seat};
    ghost use Rattle.jr_rule.specs.OwnedSites.{IsOwnedIn};
    ghost use Rattle.jr_rule.specs.OwnedLaws.{owned_one, owned_sound};

    ghost sight = { λ s. sight_of_seat s.cells.seat.table_id s.cells.seat.me };

    ghost goes = { λ s t acts. Goes (stepping_pass s.cells.seat.me) acts (stepping_pass t.cells.seat.me) };

    ghost joints = { λ s. joints_at s.cells.seat.me };

    ghost are_at = { λ s place. IsOwnedIn Q.room s };

    ghost one = { λ s place. owned_one };

    fn config(&self, _place: OfSite<Q>) -> Config {
        Cells::<()>::config(self, ())
    }

    fn last(&self, _place: OfSite<Q>) -> u32 {
        Cells::<()>::last(self, ())
    }

    fn thread(&self, _place: OfSite<Q>) -> u8 {
        Cells::<()>::thread(self, ())
    }

    fn headers(&self, _place: OfSite<Q>) -> usize {
        Cells::<()>::headers(self, ())
    }

    fn elements(&self, _place: OfSite<Q>) -> usize {
        Cells::<()>::elements(self, ())
    }

    fn load<T: StepKind>(&mut self, _place: OfSite<Q>, at: usize) -> u64 {
        Cells::<()>::load::<T>(self, (), at)
    }

    fn store<T: StepKind>(&mut self, _place: OfSite<Q>, at: usize, new: u64) {
        Cells::<()>::store::<T>(self, (), at, new);
    }

    fn add<T: StepKind>(&mut self, _place: OfSite<Q>, at: usize, more: u64) -> u64 {
        Cells::<()>::add::<T>(self, (), at, more)
    }

    fn take<T: StepKind>(&mut self, _place: OfSite<Q>, at: usize, less: u64) -> u64 {
        Cells::<()>::take::<T>(self, (), at, less)
    }

    fn exchange<T: StepKind>(&mut self, _place: OfSite<Q>, at: usize, old: u64, new: u64) -> u64 {
        Cells::<()>::exchange::<T>(self, (), at, old, new)
    }

    ghost sound = { λ s place at. owned_sound at };
}

impl<const LAST: u32, Q: Site> Parts<OfSite<Q>> for OwnedCells<LAST> {
    #[inline(always)]
    fn load_part<E: Elem>(
        &mut self,
        _place: OfSite<Q>,
        object: u16,
        header: HeaderParts,
        start: u32,
        elements: &mut [E],
    ) {
        Parts::<()>::load_part(self, (), object, header, start, elements);
    }
}

impl<const LAST: u32, Q: Site> StepsIn<Q> for StepsOver<OwnedCells<LAST>, OfSite<Q>> {
    ghost joints = { λ s. joints_owned s };

    fn note(&mut self) -> NoteOf<Q>
        ensures same { IsUnchanged facts_over self.old self.new }
        ensures note { HasSeenJust facts_over self.old (seen_by_note result.note) }
        ensures counted { (joints_owned self.new ≡ joints_owned self.old + 1) × (joints_of_note result.note ≡ 0) }
    {
        let seat = self.cells.cells.note(&*self.cells.room);
        NoteOf {
            note: Note { seat },
            site: PhantomData,
        }
    }

    fn learn(&mut self, note: Note)
        requires { IsNoteOf Q.room note }
        ensures step { Took facts_over self.old self.new [] anything keeps }
        ensures learned { HasSeen facts_over self.new (seen_by_note note) }
        ensures counted { joints_owned self.new ≡ joints_owned self.old + joints_of_note note + 1 }
    {
        let Note { seat } = note;
        self.cells.cells.learn(&*self.cells.room, seat);
    }

    fn learn_pinned(&mut self, pinned: &PinnedNote) -> bool
        requires { IsPinnedOf Q.room pinned.now }
        ensures step { result ≡ true → Took facts_over self.old self.new [] anything keeps }
        ensures learned { result ≡ true → HasSeen facts_over self.new (seen_by_pinned pinned.now) }
        ensures busy { result ≡ false → IsUnchanged facts_over self.old self.new }
        ensures counted { (result ≡ true → joints_owned self.new ≡ joints_owned self.old + joints_of_pinned pinned.now + 2) × (result ≡ false → joints_owned self.new ≡ joints_owned self.old) }
    {
        let Some(note) = pinned.take() else {
            return false;
        };
        let note = self.cells.cells.learn_again(&*self.cells.room, note);
        pinned.give(note);
        true
    }
}
