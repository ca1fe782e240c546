//! The case of `ask`: a JSON object with a schema, plans, subgraphs, limits, the requests that are made and the replies that
//! come.
//!
//! A case is read whole, and what is wrong with it is told by its first fault. `specs/Cases.antt` says what a case is, and
//! `specs/Parts.antt` what its members say.
#![tactic(auto)]

mod content;
mod fault;
mod forms;
mod laws;
mod parts;
mod read;
mod replies;
mod requests;
mod subgraphs;
#[cfg(test)]
mod tests;

pub use content::{Case, Timed};
pub use fault::{CaseFault, CaseMember};
pub use forms::{list_member, number_member, text_member};
pub use laws::case_is_one;
pub use read::read_case;
