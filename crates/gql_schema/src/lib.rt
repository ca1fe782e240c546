//! GraphQL schema texts (October 2021, section 3): exactly the texts of the grammar in which each name is defined once
//! and each name of a type is known, and of any other text its first fault.
//!
//! This project's rules: the roots are the types `Query` and `Mutation`, so a schema definition can name no others, and
//! stands once at most; object types, interfaces, enums and input types have their lists in braces, and unions their
//! members; there are no extensions. Descriptions, directives and definitions of directives are read and dropped. A 65th
//! nested list type, or list or object value, is refused at its bracket.
#![tactic(auto)]

mod definitions;
mod fault;
mod fields;
mod growing;
mod judging;
mod laws;
mod making;
mod names;
mod reading;
mod rules;
mod terms;
mod tokens;
mod words;

pub use definitions::all;
pub use fault::SdlFault;
pub use laws::{fault_is_one, reads_exactly, schema_has_no_fault, schema_is_one};
pub use reading::read;
pub use terms::{Body, Definition, Field, Part};
pub use tokens::{Left, Test};
pub use words::{Mark, Word};

#[cfg(test)]
mod tests;
