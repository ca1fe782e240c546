//! Paths through JSON values: the places that a path leads to, and the part of a value at a place.
#![tactic(auto)]

mod needs;
mod part;
mod path;
#[cfg(test)]
mod tests;
mod walk;

pub use needs::{Need, Requires};
pub use part::at;
pub use path::{Path, Place, Spot, Step, copy_spots, enter, leave};
pub use walk::places;
