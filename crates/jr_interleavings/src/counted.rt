//! What a census counts, of a room and of the machine.

use crate::machine::{Machine, at_or};
use crate::seen::{Answer, Seen};
use jr_census::Census;
use jr_model::Found;

/// What is compared of a census.
#[derive(Clone, Copy, PartialEq, Eq)]
pub(crate) struct CensusCounts {
    /// Global references.
    globals: u32,
    /// Weak ones, cleared ones too.
    weaks: u32,
    /// Weak ones that are cleared.
    cleared: u32,
    /// Local ones of all threads.
    locals: u32,
    /// Objects.
    live: u32,
    /// Those of them that nothing reaches.
    unreached: u32,
    /// Used words.
    used: u32,
    /// Those of them that a collection would free.
    freed: u32,
}

impl CensusCounts {
    /// What a census of a room tells.
    pub(crate) fn of(census: &Census) -> Self {
        let mut locals = 0u32;
        for count in census.locals {
            locals = locals.saturating_add(count);
        }
        CensusCounts {
            globals: census.slots.globals,
            weaks: census.slots.weaks,
            cleared: census.slots.cleared,
            locals,
            live: census.objects.live,
            unreached: census.unreached.live,
            used: census.words.used,
            freed: census.words.freed,
        }
    }
}

impl Machine {
    /// The answer of a census: what stands now, since it changed nothing, and nobody else did between its shut of the gate and its reopening.
    pub(crate) fn counted(&self, seen: &Seen) -> Option<Answer> {
        let (cleared, dropped) = (seen.cleared, seen.dropped);
        match seen.did {
            None if cleared == 0 && dropped == 0 => Some(Answer::Counted(self.counts())),
            _ => None,
        }
    }

    /// What a census counts in this state.
    fn counts(&self) -> CensusCounts {
        let summary = self.summary();
        let (unreached, reached_words) = self.unreached();
        CensusCounts {
            globals: summary.globals,
            weaks: summary.weaks,
            cleared: self.cleared(),
            locals: self.standing_locals(),
            live: summary.live,
            unreached,
            used: summary.used,
            freed: summary.used.saturating_sub(reached_words),
        }
    }

    /// How many weak references are cleared.
    fn cleared(&self) -> u32 {
        let mut cleared = 0u32;
        for number in 0..self.found.len() {
            if self.found_at(number) == Found::Cleared {
                cleared = cleared.saturating_add(1);
            }
        }
        cleared
    }

    /// How many local references stand.
    fn standing_locals(&self) -> u32 {
        let mut locals = 0u32;
        for place in 0..self.locals.len() {
            if at_or(&self.locals, place, 0) != 0 {
                locals = locals.saturating_add(1);
            }
        }
        locals
    }

    /// How many objects nothing reaches, and how many words the others have. No case has as many as 64.
    fn unreached(&self) -> (u32, u32) {
        let (mut unreached, mut words) = (0u32, 0u32);
        for number in 0..64u16 {
            match self.header(number) {
                Some(header) if self.is_reached(number) => words = words.saturating_add(
                    header.length,
                ),
                Some(_) => unreached = unreached.saturating_add(1),
                None => {}
            }
        }
        (unreached, words)
    }
}
