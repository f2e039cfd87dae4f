//! Tests of scripts that no script can make: runs over plain words, with few turns, held or refused memory, and the text of scripts from its commands and back.
//! What scripts can say stands in `scripts/` at the top of the repository.
#![tactic(auto)]

#[cfg(test)]
mod board;
#[cfg(test)]
mod groups;
#[cfg(test)]
mod printing;
#[cfg(test)]
mod scripts;
#[cfg(test)]
mod texts;
#[cfg(test)]
mod thread_ends;
#[cfg(test)]
mod threads;
