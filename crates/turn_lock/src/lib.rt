//! A ticket lock over one state. Each member takes the state out in its turn, and learns that nobody added anything in its name since it last gave it back.
#![tactic(auto)]

mod closing;
mod member;
mod opening;
mod plays;
mod seats;
mod steps;
mod storied;
#[cfg(test)]
mod tests;

pub use closing::{Closing, close};
pub use member::Member;
pub use opening::open;
pub use seats::{Knows, Maker, Part, Stage, Turn};
pub use storied::Storied;
