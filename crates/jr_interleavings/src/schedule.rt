//! Orders of steps: who goes next, wherever more than one can.

use crate::machine::{NO_MEMORY, add};
use std::alloc::Global;

/// Who went, of those that could.
#[derive(Clone, Copy)]
pub(crate) struct Choice {
    /// The thread that went.
    pub(crate) taken: u8,
    /// The threads that could go, a bit each.
    could: u8,
}

/// An order of steps, as far as it is laid down: behind that, the first thread goes that can.
#[derive(Drop)]
pub(crate) struct Schedule {
    pub(crate) choices: Vec<Choice>,
    /// How many choices of this run were made.
    at: usize,
}

/// The bit of a thread.
pub(crate) fn bit(thread: u8) -> u8 {
    1 << (thread & 7)
}

/// The first thread from this one on that can go.
fn first_from(thread: u8, could: u8) -> Option<u8> {
    for it in thread..8 {
        if could & bit(it) != 0 {
            return Some(it);
        }
    }
    None
}

impl Schedule {
    /// The first order of steps.
    pub(crate) fn new(choices: Vec<Choice>) -> Self {
        Schedule { choices, at: 0 }
    }

    /// Who goes next of those that can, none where nobody can.
    pub(crate) fn pick(&mut self, could: u8) -> Result<Option<u8>, &'static str> {
        let Some(first) = first_from(0, could) else {
            return Ok(None);
        };
        let at = self.at;
        self.at = at.saturating_add(1);
        if let Some(choice) = self.choices.get(at) {
            if choice.could != could {
                return Err("the same order of steps led elsewhere");
            }
            return Ok(Some(choice.taken));
        }
        let choice = Choice {
            taken: first,
            could,
        };
        self.choices.push(choice).map_err(|_| NO_MEMORY)?;
        Ok(Some(first))
    }

    /// The next order of steps, by the last choice that has another thread left: none where each was tried.
    pub(crate) fn following(&self, alloc: Global) -> Result<Option<Self>, &'static str> {
        for at in (0..self.choices.len()).rev() {
            if let Some(other) = self.other_at(at) {
                let choices = self.until(alloc, at, other)?;
                return Ok(Some(Schedule::new(choices)));
            }
        }
        Ok(None)
    }

    /// The choice in the place of one that was made, of the next thread: none where it was the last.
    fn other_at(&self, at: usize) -> Option<Choice> {
        let Choice { taken, could } = *self.choices.get(at)?;
        let taken = first_from(taken.saturating_add(1), could)?;
        Some(Choice { taken, could })
    }

    /// The choices before one, and another in its place.
    fn until(&self, alloc: Global, end: usize, other: Choice) -> Result<Vec<Choice>, &'static str> {
        let mut choices = Vec::new(alloc);
        for choice in self.choices.iter().take(end) {
            add(&mut choices, *choice)?;
        }
        add(&mut choices, other)?;
        Ok(choices)
    }
}
