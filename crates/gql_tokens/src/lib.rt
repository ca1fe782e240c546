//! The tokens of GraphQL texts (October 2021, sections 2.1 and 2.9): which bytes are which token,
//! and the scanner of one.
#![tactic(auto)]

mod kinds;
mod lexer;
mod numbers;
mod scanner;
mod token;

pub use kinds::{Kind, is_fragment_name, is_name, same_kind};
pub use lexer::{Last, Lexed};
pub use numbers::{Digit, may_end};
pub use scanner::{Class, Scan, State, ignored_length, token_at};
pub use token::Token;

#[cfg(test)]
mod tests;
