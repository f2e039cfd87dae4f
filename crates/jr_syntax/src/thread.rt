//! The parts of the threads of a script.

ghost use Rattle.std.specs.Prelude.{◌≡◌, true, false, IfNone, IfSome};
ghost use Rattle.jr_syntax.specs.Script.{thread};
ghost use Rattle.jr_syntax.specs.Name.{is_name as name_word};

use crate::command::Command;
use crate::name::{Name, is_name};
use crate::sequence::Sequence;
use crate::word::LineWords;

/// What one thread does.
#[derive(Debug, Drop)]
pub struct ThreadPart {
    /// The thread's name.
    pub name: Name,
    /// Its commands, each a line behind the thread's.
    pub commands: Sequence<Command>,
}

/// The name of a thread line.
pub fn thread_of<'a>(mut words: LineWords<'a>) -> Option<&'a [u8]>
    ensures none { IfNone result (thread.has_form words.entry ≡ false) }
    ensures some { IfSome result (λ n. (thread.has_form words.entry ≡ true) × (n.now ≡ thread.value words.entry)) }
    ensures name { IfSome result (λ n. name_word n.now ≡ true) }
{
    let first = words.next()?;
    let name = words.next()?;
    if first != b"thread".as_slice() || !is_name(name) || words.next().is_some() {
        return None;
    }
    Some(name)
}
