//! The fragment spreads of a document that can't be followed: those of an unknown fragment, and those of a fragment
//! that reaches itself (GraphQL October 2021, sections 5.5.2.1 and 5.5.2.2).
//!
//! The fragments are the nodes of a graph, whose edges are the spreads. A fragment reaches itself where its node lies
//! on a cycle, and one search through the graph finds all these, in time linear in its edges.
#![tactic(auto)]

mod cycles;
mod first;
mod numbers;
mod search;
mod steps;
mod targets;
#[cfg(test)]
mod tests;

pub use first::bad_spread;
