//! What the first thread hands to the second, by the queue between them.
ghost use Rattle.std.specs.Prelude.{◌≡◌};
ghost use Rattle.jr_rule.specs.Notes.{IsUnchanged};
ghost use Rattle.jr_rule.specs.Rooms.{seen_by_note};
ghost use Rattle.first_room.specs.Calls.{message_says};

use crate::message::Handed;
use jr_env::{Env, Patience};
use jr_rule::{NoteOf, Site, StepsIn};
use jr_threads::{HandedOn, QueueEnd};
use jr_word::Fault;

impl HandedOn for Handed {
    ghost use Rattle.first_room.specs.Calls.{message_says};

    ghost says = { λ message sizes seen. message_says message sizes seen };
}

/// Hands a message over, as soon as the one before it was taken: E20 where that one lies there at each try.
pub(crate) fn hand<Q: Site>(
    queue: &QueueEnd<'_, Handed, Q>,
    message: Handed,
    note: NoteOf<Q>,
) -> Result<(), Fault>
    requires { message_says message Q.sizes (seen_by_note note.note) }
{
    match queue.retry_put(message, note, Patience::LONG) {
        Ok(()) => Ok(()),
        Err(_) => Err(Fault::Turns),
    }
}

/// Hands a turn over.
pub(crate) fn give_turn<Q: Site, S: StepsIn<Q>>(
    env: &mut Env<S>,
    queue: &QueueEnd<'_, Handed, Q>,
) -> Result<(), Fault>
    ensures same { IsUnchanged S.facts env.old.held.steps env.new.held.steps }
    ensures frames { env.new.held.frames ≡ env.old.held.frames }
{
    let note = env.note();
    hand(queue, Handed::Turn, note)
}

/// Takes a turn: E20 where none comes.
fn take_turn<Q: Site>(queue: &QueueEnd<'_, Handed, Q>) -> Result<(), Fault> {
    match queue.retry_take(Patience::LONG) {
        Ok(_) => Ok(()),
        Err(_) => Err(Fault::Turns),
    }
}

/// Takes the three turns that the first thread hands over.
pub(crate) fn take_turns<Q: Site>(queue: &QueueEnd<'_, Handed, Q>) -> Result<(), Fault> {
    take_turn(queue)?;
    take_turn(queue)?;
    take_turn(queue)
}
