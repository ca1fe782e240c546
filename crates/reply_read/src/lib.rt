//! What a subgraph's reply holds: the pieces that were asked for, their tags and the errors.
#![tactic(auto)]

mod errors;
mod kinds;
mod replies;
mod tag_texts;
mod values;

pub use replies::{Pieces, ReplyFault, Sent, read_reply};

#[cfg(test)]
mod tests;
