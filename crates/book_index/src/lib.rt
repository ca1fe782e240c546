//! Indexes over a journal: positions by key and scope, positions by target, and the last
//! invalidation of each target.
#![tactic(auto)]

mod holders;
mod key_index;
pub mod laws;
mod stamps;
mod subgraph_holders;
mod table;
mod tag_index;
mod targets;

pub use key_index::KeyIndex;
pub use stamps::Stamps;
pub use tag_index::TagIndex;

#[cfg(test)]
mod tests;
