//! What a pass had seen, to be handed on.
ghost use Rattle.jr_rule.specs.Rule.{IsNote};

use crate::rule::View;
use atomic_table::Seat;

/// What a thread had seen in its room, as a value that another thread there can learn. It is no pass: it holds nobody inside, and no collection and no close waits for it.
/// It has no bytes that name its room, and may be let go.
#[derive(Drop)]
pub struct Note {
    pub(crate) seat: Seat<(), View>,
    ghost noted: { IsNote seat.me },
}
