//! What calls mean in a world without handles, slots, places or object numbers, alone and among other threads' steps.
#![tactic(auto)]

mod laws;

pub use laws::{
    births_fill_the_row, calls_in_stays_play, calls_outside_play, calls_play, creations_are_born,
    creations_have_room, first_stands, full_before_exit, not_full_without_the_bound,
    opened_calls_play, players_run, refused_for_a_window, row_is_born, runs_by_a_schedule,
    stories_run, windows_are_full, worlds_are_so,
};
