//! Reading JSON: exactly the texts of the grammar, and of any other text its first fault from the left.
#![tactic(auto)]

mod buffer;
mod escape;
mod number;
mod reader;
mod string;
#[cfg(test)]
mod tests;
mod words;

pub use json_faults::fault_is_one;
pub use json_machine::text_has_one_value;
pub use reader::read;
