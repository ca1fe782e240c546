//! The compact text of a JSON value.
#![tactic(auto)]

mod laws;
mod string;
#[cfg(test)]
mod tests;
mod write;

pub use laws::compact_text_stands_for_its_value;
pub use write::print;
