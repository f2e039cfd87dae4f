//! Tests of what `jr` has beyond the calls of an env: rooms that threads own, pools, native code and its queue, what a close tells, and calls under stress.
#![tactic(auto)]

#[cfg(test)]
mod closing;
#[cfg(test)]
mod native_code;
#[cfg(test)]
mod owner_threads;
#[cfg(test)]
mod owners;
#[cfg(test)]
mod owners_under_stress;
#[cfg(test)]
mod pools;
#[cfg(test)]
mod ten_lines;
#[cfg(test)]
mod under_stress;
