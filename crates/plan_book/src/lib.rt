//! The plans that a router knows, each found by the canonical text of its document.
#![tactic(auto)]

mod book;
mod fault;
mod fetches;
mod forms;
mod kinds;
mod laws;
mod needs;
mod nodes;
mod plan_file;
#[cfg(test)]
mod tests;

pub use book::{Entry, PlanBook};
pub use fault::PlanFault;
pub use laws::plan_file_is_one;
pub use plan_file::read_plans;
