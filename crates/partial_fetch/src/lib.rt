//! One request: its document is read and matched with its plan, what the cache lacks is fetched, and the pieces are merged,
//! shaped and written. The contract of `run_request` is the promise of the router for one request.
#![tactic(auto)]

mod accept;
mod answer;
mod laws;
mod request;
mod told;
mod write;

pub use answer::Answer;
pub use laws::each_piece_stands;
pub use piece_fetch::{Cause, Origin};
pub use plan_run::{PieceError, Receipt};
pub use request::run_request;
