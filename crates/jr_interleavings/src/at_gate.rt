//! The machine's steps at the gate.

use crate::machine::{Machine, Verdict, must, put_at};
use crate::seen::Seen;
use crate::step::Step;
use jr_model::Role;
use jr_word::{Fault, GateParts, GateState};

impl Machine {
    /// How many threads other than this one are not outside.
    fn others(&self, thread: u8) -> u32 {
        let mut others = 0u32;
        for it in 0..self.roles.len() {
            if it != usize::from(thread) && self.role_at(it) != Role::Outside {
                others = others.saturating_add(1);
            }
        }
        others
    }

    /// What the gate says: how many are within or knock, and whether a thread keeps it closed.
    fn gate(&self) -> GateParts {
        let mut parts = GateParts {
            count: 0,
            state: GateState::Open,
        };
        for it in 0..self.roles.len() {
            match self.role_at(it) {
                Role::Outside => {}
                Role::Within | Role::Knocking => parts.count = parts.count.saturating_add(1),
                Role::Announcing => parts.state = GateState::Announced,
                Role::Collecting => parts.state = GateState::Shut,
            }
        }
        parts
    }

    /// The thread goes from one role to another.
    fn go(&mut self, thread: u8, from: Role, to: Role) -> Verdict {
        let is_known = usize::from(thread) < self.roles.len();
        must(
            is_known && self.role(thread) == from,
            "a step at the gate in a role that has no such step",
        )?;
        put_at(&mut self.roles, usize::from(thread), to);
        if to == Role::Outside {
            self.set_reserved(thread, None);
        }
        Ok(())
    }

    /// A step at the gate.
    pub(crate) fn pass_gate(&mut self, thread: u8, step: Step) -> Verdict {
        match step {
            Step::Enter(let_in) => self.enter(thread, let_in),
            Step::Leave => match self.role(thread) {
                Role::Knocking => self.go(thread, Role::Knocking, Role::Outside),
                _ => self.go(thread, Role::Within, Role::Outside),
            },
            Step::Shut(reply) => self.shut(thread, Role::Outside, reply),
            Step::ShutAnnounced(reply) => self.shut(thread, Role::Announcing, reply),
            Step::Announce(looked, reply) => self.announce(thread, looked, reply),
            Step::Cancel => self.go(thread, Role::Announcing, Role::Outside),
            Step::Reopen => self.go(thread, Role::Collecting, Role::Outside),
            Step::SeeGate(parts) => self.see_gate(thread, parts),
            _ => Err("no step at the gate"),
        }
    }

    /// An entry is let in where no thread keeps the gate closed.
    fn enter(&mut self, thread: u8, let_in: bool) -> Verdict {
        let open = self.gate().state == GateState::Open;
        must(
            !(let_in && !open),
            "an entry was let in while a thread kept the gate closed",
        )?;
        must(
            let_in || !open,
            "an entry was not let in while no thread kept the gate closed",
        )?;
        self.set_seen(thread, Seen::new());
        if let_in {
            return self.go(thread, Role::Outside, Role::Within);
        }
        self.refuse(thread, Some(Fault::Barred));
        self.go(thread, Role::Outside, Role::Knocking)
    }

    /// The gate is shut where all others are outside.
    fn shut(&mut self, thread: u8, from: Role, reply: Result<(), u32>) -> Verdict {
        let others = self.others(thread);
        match reply {
            Ok(()) => {
                must(
                    others == 0,
                    "the gate was shut while another thread was not outside",
                )?;
                self.set_seen(thread, Seen::new());
                self.go(thread, from, Role::Collecting)
            }
            Err(count) => {
                must(
                    others != 0,
                    "the gate was not shut while all others were outside",
                )?;
                must(
                    count == others,
                    "a shut of the gate counted other threads than were in the way",
                )?;
                self.refuse(thread, Some(Fault::Busy(count)));
                self.go(thread, from, from)
            }
        }
    }

    /// It is announced that the gate will be shut where it is open, and counts as many as were looked at.
    fn announce(&mut self, thread: u8, looked: u16, reply: Result<(), GateParts>) -> Verdict {
        let gate = self.gate();
        let can = gate.state == GateState::Open && gate.count == looked;
        match reply {
            Ok(()) => {
                must(
                    can,
                    "an announcement beside another, or with another count than was looked at",
                )?;
                self.go(thread, Role::Outside, Role::Announcing)
            }
            Err(found) => {
                must(
                    !can && found == gate,
                    "an announcement was refused for what was not so",
                )?;
                let fault = match found.state {
                    GateState::Open => Fault::Moved(u32::from(looked), u32::from(found.count)),
                    _ => Fault::Busy(self.others(thread)),
                };
                self.refuse(thread, Some(fault));
                self.go(thread, Role::Outside, Role::Outside)
            }
        }
    }

    /// A look at the gate.
    fn see_gate(&mut self, thread: u8, parts: GateParts) -> Verdict {
        must(
            parts == self.gate(),
            "a look at the gate found what was not so",
        )?;
        let fault = match parts.state {
            GateState::Open => None,
            _ => Some(Fault::Busy(self.others(thread))),
        };
        self.refuse(thread, fault);
        Ok(())
    }
}
