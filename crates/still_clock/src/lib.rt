//! Clocks that stand still.
#![tactic(auto)]

mod still;

pub use still::Still;
