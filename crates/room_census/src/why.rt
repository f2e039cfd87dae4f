//! Why objects are alive, told of a dump.
use crate::Trouble;
use jr_alive::{Dump, Path, Root};
use jr_census::kind_name;
use jr_word::Handle;
use std::alloc::Global;
use std::io;
use std::io::Write;

/// Tells the kind with the most words, which object a handle names, and of each object from 6 on how many words it retains, with a shortest path to it.
pub(crate) fn tell_why<W: Write>(
    alloc: Global,
    dump: &Dump,
    handle: Handle,
    out: &mut W,
) -> Result<(), Trouble> {
    let [group, ..] = dump.groups();
    let (name, count, words) = (kind_name(group.kind), group.count, group.words);
    writeln!(out, "most words: {words}, of {count} {name}")?;
    if let Some(object) = dump.object_of(handle) {
        writeln!(out, "the handle {:#x} names object {object}", handle.0)?;
    }
    for number in 6..12 {
        let words = dump.retained_words(alloc, number)?;
        write!(out, "object {number} retains {words} words: ")?;
        match dump.path_to(alloc, number)? {
            None => writeln!(out, "nothing reaches it")?,
            Some(path) => write_path(out, &path)?,
        }
    }
    Ok(())
}

/// Writes a path from its root on.
fn write_path<W: Write>(out: &mut W, path: &Path) -> io::Result<()> {
    match path.root {
        Root::Global { slot, serial: _ } => write!(out, "global {slot}")?,
        Root::Local { thread, place } => write!(out, "local {place} of thread {thread}")?,
    }
    write!(out, " -> {}", path.first)?;
    for edge in &path.edges {
        write!(out, "[{}] -> {}", edge.index, edge.object)?;
    }
    writeln!(out)
}
