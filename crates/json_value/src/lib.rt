//! JSON values as a tree, and the grammar of their texts.
//!
//! A value keeps its numbers as they are written and its members in order. `specs/Grammar.antt` says which texts
//! stand for which value: the grammar of RFC 8259 in UTF-8, with this project's limits.
#![tactic(auto)]

mod compare;
mod fault;
mod laws;
mod members;
#[cfg(test)]
mod tests;
mod tree;
mod wholes;

pub use compare::equal;
pub use fault::JsonFault;
pub use laws::{parts_have_texts, spells_deeper};
pub use members::member;
pub use tree::{Json, copy};
pub use wholes::whole;
