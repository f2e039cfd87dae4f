//! A thread's right to step.
ghost use Rattle.jr_rule.specs.Rule.{IsHeld};

use crate::rule::View;
use atomic_table::Seat;
use jr_model::Role;

/// A thread's right to step in a room. It has no bytes that name the room.
#[derive(Drop)]
pub struct Pass {
    pub(crate) seat: Seat<(), View>,
    pub(crate) thread: u8,
    pub(crate) role: Role,
    pub(crate) fresh: bool,
    pub(crate) hint: u16,
    ghost held: { IsHeld seat.me thread role fresh hint },
}
