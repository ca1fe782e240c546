//! A cache as its users see it: one user's way to a book, which others may use too.
#![tactic(auto)]

mod alone;
mod cache;
mod copies;
mod foreign;
mod laws;
mod meddled;

pub use alone::Alone;
pub use cache::Cache;
pub use foreign::Foreign;
pub use laws::{
    found_values_are_objects, left_journals_are_fronts, lone_turns_are_a_run,
    looks_hand_out_permits, own_events_are_added, seen_journals_grow, shown_values_are_objects,
    turns_are_told, turns_keep_objects, users_stay,
};
pub use meddled::Meddled;

#[cfg(test)]
mod tests;
