//! What an object keeps alive.
ghost use Rattle.std.specs.Prelude.{◌≡◌, if◌then◌else◌};
ghost use Rattle.jr_census.specs.Dumps.{noted_length};
ghost use Rattle.jr_alive.specs.Searching.{goes_with};

use crate::dump::Dump;
use crate::search::{Search, reach_all};
use jr_word::HeaderParts;
use std::alloc::{AllocError, Global};

/// How many words an object has, by its header.
pub(crate) fn length_in(header: Option<HeaderParts>) -> u32
    ensures { result ≡ noted_length header }
{
    match header {
        None => 0,
        Some(header) => header.length,
    }
}

/// How many words an object has that is found in the first search and not in the second, 0 for any other.
fn words_lost(all: &Search, rest: &Search, object: u16, header: Option<HeaderParts>) -> u32
    ensures { result ≡ (if goes_with all.now.entries.items rest.now.entries.items object then noted_length header else 0) }
{
    if all.has(object) && !rest.has(object) {
        length_in(header)
    } else {
        0
    }
}

impl Dump {
    ghost use Rattle.std.specs.Prelude.{IfOk};
    ghost use Rattle.jr_alive.specs.Retained.{IsRetained};

    /// How many words an object retains, by its number: those of the objects that are reached, and would not be without it. Its own are among them, where it is reached; 0 where it isn't.
    ///
    /// # Errors
    ///
    /// Where memory was refused.
    ///
    /// # Time
    ///
    /// That of two calls of `path_to`.
    pub fn retained_words(&self, alloc: Global, object: u16) -> Result<u64, AllocError>
        ensures { IfOk result (λ words. IsRetained self.now object words) }
    {
        let all = reach_all(alloc, self, 0)?;
        let rest = reach_all(alloc, self, object)?;
        let mut words = 0;
        for index in 0..self.headers.len() {
            let header = self.headers[index];
            words += u64::from(words_lost(&all, &rest, (index + 1) as u16, header));
        }
        Ok(words)
    }
}
