//! The types of a GraphQL schema (October 2021, section 3), and what a reader of the schema asks of them.
#![tactic(auto)]

mod definition;
mod index;
mod indexed_type;
mod schema;
#[cfg(test)]
mod tests;

pub use definition::{FieldDef, InputField, Kind, TypeBody, TypeDef};
pub use schema::Schema;
