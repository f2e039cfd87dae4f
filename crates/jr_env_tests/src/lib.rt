//! Tests of the calls of an env for references and frames, over rooms and over plain words: of what scripts can't show.
#![tactic(auto)]

#[cfg(test)]
mod again;
#[cfg(test)]
mod checked;
#[cfg(test)]
mod explained;
#[cfg(test)]
mod frames;
#[cfg(test)]
mod handles;
#[cfg(test)]
mod held;
#[cfg(test)]
mod identities;
#[cfg(test)]
mod notes;
#[cfg(test)]
mod numbers;
#[cfg(test)]
mod references;
#[cfg(test)]
mod remedies;
#[cfg(test)]
mod row;
#[cfg(test)]
mod scopes;
#[cfg(test)]
mod slot_threads;
#[cfg(test)]
mod warned;
#[cfg(test)]
mod words;
