//! Tests of what the threads of a room share: collections, stays, a census, announcements and passes that are dropped, over rooms and over plain words: of what scripts can't show.
#![tactic(auto)]

#[cfg(test)]
mod census;
#[cfg(test)]
mod collections;
#[cfg(test)]
mod left_inside;
#[cfg(test)]
mod listed;
#[cfg(test)]
mod plain;
#[cfg(test)]
mod shared;
#[cfg(test)]
mod stays;
