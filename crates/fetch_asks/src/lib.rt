//! What a fetch of a plan asks of its subgraph: the keys of its pieces, and the call for those that are missing.
#![tactic(auto)]

mod ask;
mod fetch;
mod front;
mod laws;
mod members;
#[cfg(test)]
mod tests;

pub use ask::Ask;
pub use fetch::ask_of;
pub use laws::{calls_are_their_json, the_body_is_its_text};
