//! The lines over which subgraphs are asked, lanes of works over them, and crews that run lanes.
#![tactic(auto)]

mod crew;
mod lane;
mod laws;
mod line;
mod script;

pub use crew::{Crew, Solo};
pub use lane::{Lane, Unplaced, Work};
pub use laws::{calls_are_places_in_the_log, lanes_gain_their_fetches};
pub use line::{Call, Line, LineFault};
pub use script::{ScriptLine, Scripted, Told, copy_reply, failed_calls, tell, telling};

#[cfg(test)]
mod tests;
