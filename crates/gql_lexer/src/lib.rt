//! The tokens of a GraphQL text, with their places, and how the text ends (October 2021, section 2.1).
//!
//! A text ends between tokens, with a token that may still grow, or within something that is no token yet.
#![tactic(auto)]

mod lexing;
mod words;

pub use lexing::lex;

#[cfg(test)]
mod tests;
