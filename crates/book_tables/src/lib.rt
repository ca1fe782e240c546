//! What a book keeps beside its journal, so that no call looks through it.
//!
//! `Tables` stand for a journal: each call reads them, or changes them as the journal goes on.
#![tactic(auto)]

mod closing;
mod indexing;
pub mod laws;
mod reading;
mod refs;
mod settling;
mod starting;
mod tables;
mod voiding;

pub use refs::{KeptRef, StartRef};
pub use tables::Tables;

#[cfg(test)]
mod tests;
