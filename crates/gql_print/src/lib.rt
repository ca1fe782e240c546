//! The canonical text of a GraphQL document, by which plans, requests and operations are matched.
//!
//! It has the tokens of all operations in their order, then those of all fragments in theirs, with one space between
//! each two, except that `$` and `@` stand directly before their names. An operation without a keyword is written with
//! `query`. Numbers and strings are written as they stand in the source.
#![tactic(auto)]

mod definitions;
mod laws;
mod selections;
#[cfg(test)]
mod tests;
mod types;
mod values;
mod words;

pub use definitions::canonical;
pub use laws::canonical_texts_are_equal;
