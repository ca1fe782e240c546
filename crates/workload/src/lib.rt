//! The command `workload`: requests and invalidations that a generator of numbers draws, over one cache and a shop of 50 items
//! that computes its replies. One line says what came of them.
//!
//! `specs/Steps.antt` says what the steps do, and `specs/Running.antt` what is written and what each status says.
#![tactic(auto)]

mod command;
mod counts;
mod draws;
mod finish;
mod form;
mod line;
mod replying;
mod site;
mod steps;
#[cfg(test)]
mod tests;

pub use command::run_workload;
