//! The answer of an operation: its data in the form that the operation asks for and the schema promises (GraphQL
//! October 2021, sections 6.3.2 and 6.4).
#![tactic(auto)]

mod answers;
mod base;
mod collect;
mod collection;
mod collections;
mod complete;
mod condition;
mod known;
mod laws;
mod places;
mod plain;
mod rule;
mod scope;
mod shaped;
#[cfg(test)]
mod tests;

pub use answers::shape;
pub use laws::{answer_is_one, objects_have_the_keys_selected, whole_data_has_no_errors};
pub use shaped::{ShapeCode, ShapeError, Shaped};
