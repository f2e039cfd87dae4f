//! A dump as a drawing for Graphviz, of its largest objects.
use crate::dump::{Dump, has_references, object_of};
use crate::search::{Search, reach_all};
use jr_census::kind_name;
use jr_word::{Handle, HandleParts, HeaderParts, LocalParts, RefKind, SlotParts};
use std::alloc::{AllocError, Global};
use std::io;
use std::io::Write;
use thiserror::Error;

/// What each shape is, drawn beside the room.
const LEGEND: &str = "  subgraph cluster_legend {
    label=\"legend\";
    \"global reference\" [shape=house];
    \"local reference\" [shape=oval];
    \"weak reference\" [shape=oval, style=dashed];
    \"object\" [shape=box, label=\"object: kind, words\"];
    \"unreached\" [shape=box, style=filled, fillcolor=lightgrey, label=\"object that nothing reaches\"];
  }";

/// Why a dump isn't drawn.
#[derive(Debug, Drop, Error)]
pub enum NotDrawn {
    /// Memory was refused: nothing is written.
    #[error("memory was refused")]
    Memory(#[from] AllocError),
    /// It was not written to its end.
    #[error("not written: {0}")]
    Output(#[from] io::Error),
}

/// What is drawn of a dump.
#[derive(Clone, Copy)]
struct Drawing<'d> {
    dump: &'d Dump,
    /// By the number of an object, whether it is drawn.
    shown: &'d [bool],
    reached: &'d Search,
    /// Handles of local references, whose words are drawn.
    handles: &'d [Handle],
}

impl Dump {
    /// Writes a drawing for Graphviz's `dot`: so many of the largest objects at the most, each with its kind and words, grey where nothing reaches it;
    /// the references that name them, and their elements that do. What is left out is counted in a note, and so are the words that were lost, of which a census tells.
    /// A global or weak reference has the word of its handle. A local one has it where its handle is handed in, since no dump has its serial.
    ///
    /// # Errors
    ///
    /// Where memory was refused, or writing.
    pub fn draw<W: Write>(
        &self,
        alloc: Global,
        out: &mut W,
        most: usize,
        lost: u32,
        handles: &[Handle],
    ) -> Result<(), NotDrawn> {
        let numbers = self.largest(alloc, most)?;
        let mut shown = vec![in alloc; false; self.headers.len() + 1]?;
        for number in &numbers {
            if let Some(place) = shown.get_mut(usize::from(*number)) {
                *place = true;
            }
        }
        let reached = reach_all(alloc, self, 0)?;
        let drawing = Drawing {
            dump: self,
            shown: &shown,
            reached: &reached,
            handles,
        };
        drawing.write(out, lost)?;
        Ok(())
    }
}

impl Drawing<'_> {
    /// Writes it all.
    fn write<W: Write>(&self, out: &mut W, lost: u32) -> io::Result<()> {
        writeln!(out, "digraph room {{\n  rankdir=LR;\n{LEGEND}")?;
        self.write_slots(out)?;
        self.write_locals(out)?;
        self.write_objects(out)?;
        write_left_out(out, self.left_out())?;
        write_lost(out, lost)?;
        writeln!(out, "}}")
    }

    /// Whether an object is drawn.
    fn shows(&self, object: u16) -> bool {
        self.shown
            .get(usize::from(object))
            .copied()
            .unwrap_or(false)
    }

    /// How many objects are left out.
    fn left_out(&self) -> usize {
        let mut count = 0usize;
        for (index, header) in self.dump.headers.iter().enumerate() {
            if header.is_some() && !self.shown.get(index + 1).copied().unwrap_or(false) {
                count = count.saturating_add(1);
            }
        }
        count
    }

    /// Writes the global and weak references to what is drawn, and those that are cleared where nothing is left out.
    fn write_slots<W: Write>(&self, out: &mut W) -> io::Result<()> {
        let is_whole = self.left_out() == 0;
        for (index, slot) in self.dump.slots.iter().enumerate() {
            match *slot {
                SlotParts::Global { serial, object } if self.shows(object) => {
                    write_global(out, index as u16, serial, object)?;
                }
                SlotParts::Weak {
                    serial,
                    object: Some(object),
                } if self.shows(object) => {
                    write_weak(out, index as u16, serial)?;
                    write_weak_arrow(out, index, object)?;
                }
                SlotParts::Weak {
                    serial,
                    object: None,
                } if is_whole => write_weak(out, index as u16, serial)?,
                _ => {}
            }
        }
        Ok(())
    }

    /// Writes the local references to what is drawn.
    fn write_locals<W: Write>(&self, out: &mut W) -> io::Result<()> {
        let places = self.dump.places as usize;
        for (index, local) in self.dump.locals.iter().enumerate() {
            if let LocalParts::Object(object) = *local {
                if self.shows(object) {
                    let (thread, place) = (index / places, index % places);
                    write_local(out, thread, place, object)?;
                    self.write_word(out, thread, place)?;
                }
            }
        }
        Ok(())
    }

    /// Writes the word of a local reference's handle, where that is among those that were handed in.
    fn write_word<W: Write>(&self, out: &mut W, thread: usize, place: usize) -> io::Result<()> {
        for handle in self.handles {
            if is_local_at(*handle, thread, place) {
                let word = handle.0;
                return writeln!(
                    out,
                    "  \"local {place} of thread {thread}\" [label=\"local {place} of thread {thread}\\n{word:#x}\"];"
                );
            }
        }
        Ok(())
    }

    /// Writes the objects that are drawn, and what their elements name of them.
    fn write_objects<W: Write>(&self, out: &mut W) -> io::Result<()> {
        for (index, header) in self.dump.headers.iter().enumerate() {
            let number = (index + 1) as u16;
            if let Some(header) = *header {
                if self.shows(number) {
                    write_object(out, number, header, self.reached.has(number))?;
                    self.write_elements(out, number, header)?;
                }
            }
        }
        Ok(())
    }

    /// Writes an arrow to each object that an array names, with the index of the element.
    fn write_elements<W: Write>(
        &self,
        out: &mut W,
        number: u16,
        header: HeaderParts,
    ) -> io::Result<()> {
        if !has_references(header.kind) {
            return Ok(());
        }
        for index in 0..header.length {
            if let Some(object) = object_of(self.dump.word(header, index)) {
                if self.shows(object) {
                    write_element(out, number, index, object)?;
                }
            }
        }
        Ok(())
    }
}

/// Whether a handle is that of a local reference of a thread's place.
fn is_local_at(handle: Handle, thread: usize, place: usize) -> bool {
    let Some(parts) = Handle::parts(handle.0) else {
        return false;
    };
    matches!(parts.kind, RefKind::Local)
        && usize::from(parts.owner) == thread
        && usize::from(parts.index) == place
}

/// The word of the handle of a reference in a slot: a global one, or else a weak one.
fn word_of(is_global: bool, index: u16, serial: u32) -> u64 {
    let kind = if is_global {
        RefKind::Global
    } else {
        RefKind::Weak
    };
    Handle::pack(HandleParts {
        kind,
        serial,
        index,
        owner: 0,
    })
    .0
}

/// Writes a global reference, with the word of its handle.
fn write_global<W: Write>(out: &mut W, index: u16, serial: u32, object: u16) -> io::Result<()> {
    let word = word_of(true, index, serial);
    writeln!(
        out,
        "  \"global {index}\" [shape=house, label=\"global {index}\\n{word:#x}\"];"
    )?;
    writeln!(out, "  \"global {index}\" -> \"object {object}\";")
}

/// Writes a weak reference, with the word of its handle.
fn write_weak<W: Write>(out: &mut W, index: u16, serial: u32) -> io::Result<()> {
    let word = word_of(false, index, serial);
    writeln!(
        out,
        "  \"weak {index}\" [style=dashed, label=\"weak {index}\\n{word:#x}\"];"
    )
}

/// Writes a weak reference's arrow.
fn write_weak_arrow<W: Write>(out: &mut W, index: usize, object: u16) -> io::Result<()> {
    writeln!(
        out,
        "  \"weak {index}\" -> \"object {object}\" [style=dashed];"
    )
}

/// Writes the local reference of a thread's place.
fn write_local<W: Write>(out: &mut W, thread: usize, place: usize, object: u16) -> io::Result<()> {
    writeln!(
        out,
        "  \"local {place} of thread {thread}\" -> \"object {object}\";"
    )
}

/// Writes an object, grey where nothing reaches it.
fn write_object<W: Write>(
    out: &mut W,
    number: u16,
    header: HeaderParts,
    is_reached: bool,
) -> io::Result<()> {
    let (kind, words) = (kind_name(header.kind), header.length);
    let grey = if is_reached {
        ""
    } else {
        ", style=filled, fillcolor=lightgrey"
    };
    writeln!(
        out,
        "  \"object {number}\" [shape=box{grey}, label=\"{number}: {kind}, {words} words\"];"
    )
}

/// Writes the arrow of an element.
fn write_element<W: Write>(out: &mut W, array: u16, index: u32, object: u16) -> io::Result<()> {
    writeln!(
        out,
        "  \"object {array}\" -> \"object {object}\" [label=\"{index}\"];"
    )
}

/// Writes how many objects are left out, if any are.
fn write_left_out<W: Write>(out: &mut W, count: usize) -> io::Result<()> {
    if count == 0 {
        return Ok(());
    }
    writeln!(
        out,
        "  \"left out\" [shape=note, label=\"{count} objects left out\"];"
    )
}

/// Writes how many words were lost, if any were.
fn write_lost<W: Write>(out: &mut W, words: u32) -> io::Result<()> {
    if words == 0 {
        return Ok(());
    }
    writeln!(
        out,
        "  \"lost\" [shape=note, label=\"{words} words lost\"];"
    )
}
