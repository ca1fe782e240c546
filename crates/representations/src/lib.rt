//! Representations of entities: what is sent to a subgraph to name an entity.
#![tactic(auto)]

mod gathering;
mod representing;

pub use gathering::{Gathered, gather};
pub use representing::represent;
