//! The words of the cache: keys, targets, tags, offers, and the events of a journal.
//!
//! All of it is plain data, which contracts see field by field.
#![tactic(auto)]

mod events;
mod keys;
mod offers;
mod reasons;
mod tags;

pub use events::{Event, Got, Limits, Mark, Outcome, Reply};
pub use keys::{Key, Target, covers};
pub use offers::{Marks, Offer, Verdict, why};
pub use reasons::Why;
pub use tags::{TagList, Tags};

#[cfg(test)]
mod tests;
