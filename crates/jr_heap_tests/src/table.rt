//! The table of a thread's local references, with places that give three handles each: which place is given next, when one is retired, and what a pop frees.

use assertions::assert_same;
use jr_frames::Frames;
use jr_model::FRAMES;
use jr_word::{Config, HandleParts};
use std::alloc::Global;
use std::process::Abort;
use std::test::Fail;

/// A table of sixteen places, each of which gives three handles, and the handles that it gave, by number.
#[derive(Drop)]
struct Table {
    frames: Frames,
    given: Vec<HandleParts>,
    /// How many deeds were begun.
    row: usize,
}

/// What is done to a table, or asked of it, and what comes of it.
#[derive(Clone, Copy)]
enum Deed {
    /// A reference to an object is added. Its handle, which gets the next number, is new, and has this place and this serial.
    Add(u16, u16, u32),
    /// The reference with the handle of this number is deleted.
    Delete(usize),
    /// A frame is added.
    Push,
    /// The newest frame, which is empty, is taken away.
    Pop,
    /// The handle of this number names an object, or none.
    Names(usize, Option<u16>),
    /// The oldest reference of the newest frame has the handle of this number.
    Oldest(usize),
    /// The newest frame is empty.
    Empty,
    /// There are so many frames.
    Deep(usize),
    /// Just so many places are free.
    Free(u32),
    /// Whether a place is free once the newest frame is taken away.
    FreeAfterPop(bool),
}

impl Table {
    fn new(alloc: Global) -> Self {
        let config = Config {
            threads: 64,
            ..Config::LEAST
        };
        Table {
            frames: Frames::new(5, &config, 2),
            given: Vec::new(alloc),
            row: 0,
        }
    }

    /// The handle of this number.
    fn handle(&self, number: usize) -> Result<HandleParts, Fail> {
        match self.given.get(number) {
            Some(handle) => Ok(*handle),
            None => Err("no such handle was given")?,
        }
    }

    fn add(&mut self, rt: &impl Abort, object: u16, index: u16, serial: u32) -> Result<(), Fail> {
        let handle = self.frames.next().ok_or("no place is free")?;
        assert_same!(rt; (handle.index, handle.serial), (index, serial); at self.row);
        assert_same!(rt; self.given.contains(&handle), false; at self.row);
        if object == 0 {
            return Err("no object")?;
        }
        self.given.push(handle)?;
        self.frames.add(handle, object);
        Ok(())
    }

    fn delete(&mut self, number: usize) -> Result<(), Fail> {
        let handle = self.handle(number)?;
        if self.frames.object_of(handle).is_none() {
            return Err("no reference stands")?;
        }
        self.frames.delete(handle);
        Ok(())
    }

    fn push(&mut self) -> Result<(), Fail> {
        if self.frames.depth() >= FRAMES {
            return Err("no more frames")?;
        }
        self.frames.push();
        Ok(())
    }

    fn pop(&mut self) -> Result<(), Fail> {
        if self.frames.depth() < 2 {
            return Err("the base frame")?;
        }
        if self.frames.oldest_of_newest().is_some() {
            return Err("a reference is left")?;
        }
        self.frames.pop_empty();
        Ok(())
    }

    /// Checks how many places are free: a handle is to be had where there is one.
    fn has_free(&self, rt: &impl Abort, wanted: u32) {
        assert_same!(rt; self.frames.has_room(wanted), true; at self.row);
        assert_same!(rt; self.frames.has_room(wanted.saturating_add(1)), false; at self.row);
        assert_same!(rt; self.frames.next().is_some(), wanted > 0; at self.row);
    }

    /// Checks which handle the oldest reference of the newest frame has, if there is one.
    fn has_oldest(&self, rt: &impl Abort, wanted: Option<HandleParts>) {
        assert_same!(rt; self.frames.oldest_of_newest(), wanted; at self.row);
    }

    /// Checks that it is the handle of this number.
    fn has_as_oldest(&self, rt: &impl Abort, number: usize) -> Result<(), Fail> {
        let handle = self.handle(number)?;
        self.has_oldest(rt, Some(handle));
        Ok(())
    }

    /// Checks what the handle of this number names.
    fn names(&self, rt: &impl Abort, number: usize, object: Option<u16>) -> Result<(), Fail> {
        let handle = self.handle(number)?;
        assert_same!(rt; self.frames.object_of(handle), object; at self.row);
        Ok(())
    }

    /// Checks how many frames there are.
    fn is_deep(&self, rt: &impl Abort, depth: usize) {
        assert_same!(rt; self.frames.depth(), depth; at self.row);
        assert_same!(rt; self.frames.is_base(), depth == 1; at self.row);
    }

    /// Does one deed, and checks what comes of it.
    fn does(&mut self, rt: &impl Abort, deed: Deed) -> Result<(), Fail> {
        self.row = self.row.saturating_add(1);
        match deed {
            Deed::Add(object, index, serial) => return self.add(rt, object, index, serial),
            Deed::Delete(number) => return self.delete(number),
            Deed::Push => return self.push(),
            Deed::Pop => return self.pop(),
            Deed::Names(number, object) => return self.names(rt, number, object),
            Deed::Oldest(number) => return self.has_as_oldest(rt, number),
            Deed::Empty => self.has_oldest(rt, None),
            Deed::Deep(depth) => self.is_deep(rt, depth),
            Deed::Free(wanted) => self.has_free(rt, wanted),
            Deed::FreeAfterPop(wanted) =>
                assert_same!(rt; self.frames.has_room_after_pop(), wanted; at self.row),
        }
        Ok(())
    }

    /// Does all of them, one after the other.
    fn does_all(&mut self, rt: &impl Abort, deeds: &[Deed]) -> Result<(), Fail> {
        for deed in deeds {
            self.does(rt, *deed)?;
        }
        Ok(())
    }
}

#[test]
fn sixteen_places_give_48_handles(rt: HostRuntime) -> Result<(), Fail> {
    let mut table = Table::new(rt.alloc());
    for number in 0..48u16 {
        let deeds = [
            Deed::Free(16 - u32::from(number / 3)),
            Deed::Add(7, number / 3, u32::from(number % 3)),
            Deed::Names(usize::from(number), Some(7)),
            Deed::Delete(usize::from(number)),
            Deed::Names(usize::from(number), None),
        ];
        table.does_all(&rt, &deeds)?;
    }
    table.does(&rt, Deed::Free(0))
}

#[test]
fn a_fresh_table_gives_places_in_order(rt: HostRuntime) -> Result<(), Fail> {
    let mut table = Table::new(rt.alloc());
    for index in 0..16 {
        table.does(&rt, Deed::Add(7, index, 0))?;
    }
    table.does(&rt, Deed::Free(0))
}

#[test]
fn a_freed_place_is_given_first(rt: HostRuntime) -> Result<(), Fail> {
    let deeds = [
        Deed::Add(1, 0, 0),
        Deed::Add(2, 1, 0),
        Deed::Delete(0),
        Deed::Add(3, 0, 1),
        Deed::Add(4, 2, 0),
        Deed::Add(4, 3, 0),
        Deed::Add(4, 4, 0),
        Deed::Delete(1),
        Deed::Delete(2),
        Deed::Add(5, 0, 2),
        Deed::Delete(6),
        Deed::Add(6, 1, 1),
    ];
    Table::new(rt.alloc()).does_all(&rt, &deeds)
}

#[test]
fn a_reference_of_an_older_frame_is_deleted(rt: HostRuntime) -> Result<(), Fail> {
    let deeds = [
        Deed::Add(1, 0, 0),
        Deed::Add(2, 1, 0),
        Deed::Add(3, 2, 0),
        Deed::Push,
        Deed::Add(4, 3, 0),
        Deed::Delete(1),
        Deed::Names(1, None),
        Deed::Names(0, Some(1)),
        Deed::Names(2, Some(3)),
        Deed::Oldest(3),
        Deed::Delete(3),
        Deed::Empty,
        Deed::Pop,
        Deed::Oldest(0),
        Deed::Delete(0),
        Deed::Oldest(2),
    ];
    Table::new(rt.alloc()).does_all(&rt, &deeds)
}

#[test]
fn a_pop_takes_the_oldest_first(rt: HostRuntime) -> Result<(), Fail> {
    let deeds = [
        Deed::Add(9, 0, 0),
        Deed::Push,
        Deed::Deep(2),
        Deed::Add(1, 1, 0),
        Deed::Add(2, 2, 0),
        Deed::Add(3, 3, 0),
        Deed::Oldest(1),
        Deed::Names(1, Some(1)),
        Deed::Delete(1),
        Deed::Oldest(2),
        Deed::Names(2, Some(2)),
        Deed::Delete(2),
        Deed::Oldest(3),
        Deed::Names(3, Some(3)),
        Deed::Delete(3),
        Deed::Empty,
        Deed::Pop,
        Deed::Deep(1),
        Deed::Names(0, Some(9)),
        Deed::Names(1, None),
        Deed::Names(3, None),
    ];
    Table::new(rt.alloc()).does_all(&rt, &deeds)
}

#[test]
fn a_pop_may_free_a_place(rt: HostRuntime) -> Result<(), Fail> {
    let mut table = Table::new(rt.alloc());
    table.does(&rt, Deed::FreeAfterPop(true))?;
    for index in 0..16 {
        table.does(&rt, Deed::Add(9, index, 0))?;
    }
    let deeds = [
        Deed::Push,
        Deed::FreeAfterPop(false),
        Deed::Delete(0),
        Deed::FreeAfterPop(true),
        Deed::Add(1, 0, 1),
        Deed::FreeAfterPop(true),
        Deed::Delete(16),
        // The place's last handle: once it is deleted, the place is retired.
        Deed::Add(2, 0, 2),
        Deed::FreeAfterPop(false),
    ];
    table.does_all(&rt, &deeds)
}

#[test]
fn there_may_be_256_frames(rt: HostRuntime) -> Result<(), Fail> {
    let mut table = Table::new(rt.alloc());
    for depth in 1..FRAMES {
        table.does_all(&rt, &[Deed::Deep(depth), Deed::Push])?;
    }
    let deeds = [
        Deed::Deep(FRAMES),
        Deed::Add(7, 0, 0),
        Deed::Oldest(0),
        Deed::Delete(0),
    ];
    table.does_all(&rt, &deeds)?;
    for _ in 1..FRAMES {
        table.does(&rt, Deed::Pop)?;
    }
    table.does(&rt, Deed::Deep(1))
}

/// The table has as many places as there may be, and a link for each, for the end of the free ones and for that of each frame.
#[test]
fn a_place_takes_twelve_bytes_with_its_links(rt: HostRuntime) {
    let places = Config::MOST_LOCALS as usize;
    assert!(rt; size_of::<Frames>() <= 12 * places + 4 * (FRAMES + 1) + 64);
}
