//! GraphQL documents (October 2021, section 2): exactly the texts of the grammar, and of any other text its first
//! fault from the left. It passes on the types of a document, and the first of its spreads that is bad.
#![tactic(auto)]

mod judging;
mod laws;
mod parsing;

pub use gql_spreads::bad_spread;
pub use gql_terms::{
    Directive, Document, Fragment, GqlFault, OpKind, Operation, Selection, TypeRef, Value, VarDef,
};
pub use laws::{fault_is_one, text_is_one};
pub use parsing::parse;

#[cfg(test)]
mod tests;
