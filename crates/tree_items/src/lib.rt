//! A `Vec` and a `Box` that contracts see as what they hold, so that a type may lead back to itself through them and
//! its values are plain data.
//!
//! `specs/formers/` says, for each of the two, where it keeps its elements: by that a recursive type such as a tree of
//! lists is built over them.
#![tactic(auto)]

mod boxed;
mod items;
#[cfg(test)]
mod tests;

pub use boxed::Boxed;
pub use items::{Items, at};
