//! Tests of an env's calls at arrays, strings, copies and critical regions, over rooms and over plain words: of what scripts can't show.
#![tactic(auto)]

#[cfg(test)]
mod announced;
#[cfg(test)]
mod at_a_level;
#[cfg(test)]
mod cases;
#[cfg(test)]
mod copies;
#[cfg(test)]
mod courses;
#[cfg(test)]
mod deletion_threads;
#[cfg(test)]
mod element_types;
#[cfg(test)]
mod elements;
#[cfg(test)]
mod envs;
#[cfg(test)]
mod in_a_stay;
#[cfg(test)]
mod level_parts;
#[cfg(test)]
mod levels;
#[cfg(test)]
mod not_opened;
#[cfg(test)]
mod objects;
#[cfg(test)]
mod overtaken;
#[cfg(test)]
mod parts;
#[cfg(test)]
mod plans;
#[cfg(test)]
mod region_threads;
#[cfg(test)]
mod side_by_side;
#[cfg(test)]
mod texts;
#[cfg(test)]
mod undisturbed;
