//! From tokens to GraphQL documents: exactly those of the grammar, the first token that is refused,
//! and what the end of a text decides.
#![tactic(auto)]

mod definitions;
pub mod directives;
mod endings;
mod laws;
mod lists;
mod selections;
mod tokens;
pub mod types;
pub mod values;
mod variables;

pub use definitions::all;
pub use endings::{cut_off, placed, whole};
pub use laws::text_is_one;
pub use tokens::{Stop, Test, Tokens};
