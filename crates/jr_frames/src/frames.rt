//! The local references of a thread, in frames.
use crate::counting::{LocalCounts, count_places};
use crate::frame_walk::any_gives_again;
use crate::place::Place;
use arrayvec::ArrayVec;
use jr_model::FRAMES;
use jr_word::{Config, HandleParts, RefKind};
use linked_lists::LinkedLists;
use std::marker::Model;

/// The most places for local references that a thread can have.
pub(crate) const MOST_PLACES: usize = Config::MOST_LOCALS as usize;

/// The most places, the end of the free ones, and an end for each frame.
pub(crate) const MOST_LINKS: usize = MOST_PLACES + 1 + FRAMES;

/// The local references of a thread, in frames.
#[derive(Drop)]
pub struct Frames {
    thread: u8,
    last: u32,
    /// How many places are free.
    free: u16,
    /// Every place, by number.
    places: ArrayVec<Place, MOST_PLACES>,
    /// The free places, and as a list for each frame those of its references, the oldest first.
    order: LinkedLists<MOST_LINKS>,
}

impl Model for Frames {
    ghost use Rattle.jr_frames.specs.Table.{Table};

    ghost Value = { Table };

    ghost use Rattle.jr_frames.specs.Arrangements.{table, IsTable};

    ghost view = { table };

    ghost invariant = { IsTable };
}

impl Frames {
    ghost use Rattle.std.specs.Prelude.{◌≡◌, ◌≢◌, ◌≤◌, ◌==◌, ◌<◌, ◌+◌, ◌↔◌, [], IsTrue, length, IfSome, IfNone, IsSome, Some, None, nat_lt, slice_index};
    ghost use Rattle.jr_model.specs.declared.frames.TheConstants.{FRAMES};
    ghost use Rattle.jr_model.specs.Frames.{fresh_frames, object_of, object_at, free_places, IsAdded, AreSound, without_local, pushed, popped, last_frame};
    ghost use Rattle.jr_frames.specs.Counted.{AreCounted};
    ghost use Rattle.jr_frames.specs.Table.{IsNext, IsOnly, TakesOldest, TakesOldestOf, with_frames, frame_at, oldest_handle};

    /// No reference, and as many places as the configuration says.
    pub fn new(thread: u8, config: &Config, last: u32) -> Frames
        requires { config.now.locals ≤ Config.MOST_LOCALS }
        ensures { result ≡ record { frames = fresh_frames config.now.locals; thread = thread; last = last } }
    {
        let mut places = ArrayVec::new();
        for _ in 0..config.locals {
            places.push(Place::default());
        }
        let free = config.locals as u16;
        let mut order = LinkedLists::new(free);
        order.push();
        Frames {
            thread,
            last,
            free,
            places,
            order,
        }
    }

    /// The handle that the next reference is to get, none where no place is free. Which of the free places it has no clause says.
    #[inline(always)]
    pub fn next(&self) -> Option<HandleParts>
        ensures none { IfNone result (free_places self.now.last self.now.frames ≡ 0) }
        ensures some { IfSome result (IsNext self.now) }
    {
        let Some(index) = self.order.first_free() else {
            return None;
        };
        Some(HandleParts {
            kind: RefKind::Local,
            serial: self.places[usize::from(index)].given() as u32,
            index,
            owner: self.thread,
        })
    }

    /// Whether so many places are free.
    pub fn has_room(&self, wanted: u32) -> bool
        ensures { IsTrue result ↔ (wanted ≤ free_places self.now.last self.now.frames) }
    {
        wanted <= u32::from(self.free)
    }

    /// How many places are free: so many more references can be made.
    #[inline(always)]
    pub fn free_places(&self) -> u32
        ensures { result ≡ free_places self.now.last self.now.frames }
    {
        u32::from(self.free)
    }

    /// How many references stand, in how many frames, and how many places are free and were ever used. In the code each place is gone through.
    pub fn counts(&self) -> LocalCounts
        ensures { AreCounted self.now result }
    {
        let (standing, given) = count_places(&self.places);
        LocalCounts {
            frames: self.depth(),
            standing,
            free: self.free,
            given,
        }
    }

    /// Adds a reference to an object, in the newest frame, at a free place's handle.
    #[inline(always)]
    pub fn add(&mut self, handle: HandleParts, object: u16)
        requires next { IsNext self.old handle }
        requires object { object ≢ 0 }
        ensures added { IsAdded self.old.last self.old.thread self.old.frames (record { handle = handle; object = object }) self.new.frames }
        ensures only { IsOnly self.old.frames handle.index (Some object) self.new.frames }
        ensures same { (self.new.thread ≡ self.old.thread) × (self.new.last ≡ self.old.last) }
    {
        self.places[usize::from(handle.index)].give(object);
        self.order.take_out(handle.index);
        self.order.put_last(handle.index);
        self.free -= 1;
    }

    /// The object of a handle, if its reference stands.
    #[inline(always)]
    pub fn object_of(&self, handle: HandleParts) -> Option<u16>
        ensures object { result ≡ object_of self.now.frames handle }
        ensures place { IfSome result (λ o. object_at self.now.frames handle.index ≡ Some o) }
    {
        let place = self.places.get(usize::from(handle.index))?;
        if place.object != 0 && place.gave_last(self.thread, handle) {
            Some(place.object)
        } else {
            None
        }
    }

    /// Whether the place of a handle's index has given its serial, to a reference that stands or to one that is gone.
    #[inline(always)]
    pub fn has_given(&self, handle: HandleParts) -> bool
        ensures { result ≡ nat_lt handle.serial (slice_index self.now.frames.given handle.index) }
    {
        match self.places.get(usize::from(handle.index)) {
            Some(place) => u64::from(handle.serial) < place.given(),
            None => false,
        }
    }

    /// Removes the reference of a handle that stands, whichever frame has it. In the code its place is given next, unless it is retired.
    #[inline(always)]
    pub fn delete(&mut self, handle: HandleParts)
        requires { IsSome (object_of self.old.frames handle) }
        ensures deleted { self.new.frames ≡ without_local self.old.frames handle }
        ensures only { IsOnly self.old.frames handle.index None self.new.frames }
        ensures same { (self.new.thread ≡ self.old.thread) × (self.new.last ≡ self.old.last) }
    {
        self.places[usize::from(handle.index)].object = 0;
        self.order.take_out(handle.index);
        if self.places[usize::from(handle.index)].given() <= u64::from(self.last) {
            self.order.put_free(handle.index);
            self.free += 1;
        }
    }

    /// How many frames there are.
    pub fn depth(&self) -> usize
        ensures { result ≡ length self.now.frames.frames }
    {
        self.order.len()
    }

    /// Whether the base frame is the only one.
    pub fn is_base(&self) -> bool
        ensures { result ≡ (length self.now.frames.frames == 1) }
    {
        self.depth() == 1
    }

    /// A law, which does nothing when it runs: the frames are sound, so that each reference is in one frame, at a place of its own, with the last handle that the place gave.
    pub fn are_sound(&self)
        ensures { AreSound self.now.frames }
    {
        // A field is named, so that what holds of every table is known.
        let _ = &self.thread;
    }

    /// Adds a frame, which is empty.
    pub fn push(&mut self)
        requires { length self.old.frames.frames < FRAMES }
        ensures { self.new ≡ with_frames self.old (pushed self.old.frames) }
    {
        self.order.push();
    }

    /// The handle of the oldest reference of the newest frame, none where that is empty.
    pub fn oldest_of_newest(&self) -> Option<HandleParts>
        ensures oldest { result ≡ oldest_handle (last_frame self.now.frames.frames) }
        ensures empty { IfNone result (last_frame self.now.frames.frames ≡ []) }
        ensures stands { IfSome result (λ h. IsSome (object_of self.now.frames h)) }
        ensures rest { IfSome result (TakesOldest self.now.frames) }
    {
        self.are_sound();
        self.oldest_of(self.depth() - 1)
    }

    /// The handle of the oldest reference of a frame, none where that is empty. The base frame is number 0, and each that was pushed has the next number.
    pub fn oldest_of(&self, frame: usize) -> Option<HandleParts>
        requires { frame < length self.now.frames.frames }
        ensures oldest { result ≡ oldest_handle (frame_at self.now.frames.frames frame) }
        ensures empty { IfNone result (frame_at self.now.frames.frames frame ≡ []) }
        ensures stands { IfSome result (λ h. IsSome (object_of self.now.frames h)) }
        ensures rest { IfSome result (TakesOldestOf self.now.frames frame) }
    {
        let Some(index) = self.order.first(frame) else {
            return None;
        };
        Some(HandleParts {
            kind: RefKind::Local,
            serial: (self.places[usize::from(index)].given() - 1) as u32,
            index,
            owner: self.thread,
        })
    }

    /// Takes the newest frame away, which is empty, and not the base frame.
    pub fn pop_empty(&mut self)
        requires empty { last_frame self.old.frames.frames ≡ [] }
        requires above { 2 ≤ length self.old.frames.frames }
        ensures { self.new ≡ with_frames self.old (popped self.old.frames) }
    {
        self.order.pop();
    }

    /// Whether a place is free once the newest frame is taken away with its references. In the code those are gone through where none is free already.
    pub fn has_room_after_pop(&self) -> bool
        ensures { IsTrue result ↔ (1 ≤ free_places self.now.last (popped self.now.frames)) }
    {
        if self.free > 0 {
            return true;
        }
        any_gives_again(&self.order, &self.places, self.order.len() - 1, self.last)
    }
}
