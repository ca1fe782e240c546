//! The fetches of one request: a plan says what comes next for the pieces that came so far, and each fetch is done over a
//! cache, a line and a clock.
#![tactic(auto)]

mod execution;
mod fetches;
mod fresh;
mod laws;
mod outcome;
mod plan;
mod run;
mod subgraphs;

pub use execution::execute;
pub use fetches::PlanFetches;
pub use fresh::run_fresh;
pub use laws::found_pieces_stand;
pub use outcome::{Outcome, PieceError, Receipt};
pub use plan::{Plan, Task};
pub use run::run_plan;
pub use subgraphs::Subgraph;
