//! A machine that reads JSON byte by byte, and the laws that tie it to the grammar.
//!
//! It has definitions and laws, and no code but the words for what is begun. The definitions read from bottom to top
//! in `specs/`: `Machine`, `Scan`, `Numbers`, `Mode`, `Part`; `Left` says what may still come, and `Onward` what
//! reading on from a place comes to. The machine takes exactly the texts of the grammar, each with its value
//! (`proofs/Whole.antt`).
#![tactic(auto)]

mod begun;
mod laws;

pub use begun::{Digit, Tail, Word};
pub use laws::text_has_one_value;
