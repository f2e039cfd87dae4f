//! Tests of all that stands below an env's calls: of words, of rooms and their passes, of the gate, of the heap and of the table of local references, of what calls and scripts can't show.
#![tactic(auto)]

#[cfg(test)]
mod announced;
#[cfg(test)]
mod closing;
#[cfg(test)]
mod gate;
#[cfg(test)]
mod heap;
#[cfg(test)]
mod last_words;
#[cfg(test)]
mod passes;
#[cfg(test)]
mod plain;
#[cfg(test)]
mod rooms;
#[cfg(test)]
mod shared;
#[cfg(test)]
mod table;
#[cfg(test)]
mod words;
