//! The body and the Cache-Control of an answer to a GraphQL request, and the bodies of refusals.
//!
//! A body is the compact text of a JSON value that `specs/` defines: `{"data":..}` or `{"data":..,"errors":[..]}` (GraphQL
//! October 2021, section 7.1), and `{"errors":[..]}` for a refusal.
#![tactic(auto)]

mod body;
mod error;
mod fetch_error;
mod lasting;
mod parts;
mod refusal;
mod shape_error;
#[cfg(test)]
mod tests;

pub use body::{answer_body, refusal_body};
pub use fetch_error::{FetchCause, FetchError};
pub use lasting::{Lasts, cache_control};
pub use refusal::{Refusal, VariableCause};
