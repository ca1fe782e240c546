//! What the cache is: journals, states, and the laws that hold of them.
//!
//! It has definitions and laws, and no code. The definitions read from top to bottom in `specs/`: `Journal`,
//! `Legal`, `State`, `Story`, `Masked`, `Laws`. Each law is the contract of a function with an empty body.
#![tactic(auto)]

mod journals;
mod stories;

pub use journals::{
    choice_is_masked, choice_is_unique, count_is_unique, empty_is_legal, legal_has_room,
    outcome_is_unique,
};
pub use stories::{
    by_follows, by_without, follows_refl, follows_trans, without_follows, without_refl,
    without_trans,
};
