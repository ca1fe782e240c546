//! The cache: a journal of events, and the calls that append to it.
//!
//! What is held, chosen or due is found in tables beside the journal, which stand for it: no call goes through the
//! journal. An ask of a look costs the logarithm of what is kept, a settle that for each of its tags, and an
//! invalidation that for each piece which it covers.
#![tactic(auto)]

mod answers;
mod ask;
mod book;
mod found;
mod journal;
mod laws;
mod notice;
mod pass;
mod permit;
mod settling;
mod voiding;

pub use answers::{Settled, Tally, Turned, Voided};
pub use book::Book;
pub use found::Found;
pub use laws::{
    no_call_is_stuck, permit_outlives_others, permits_are_owed, permits_outlive_a_step,
    run_follows, run_is_determined, run_is_legal, step_is_by_its_caller, step_is_determined,
    step_is_legal, tickets_are_new,
};
pub use notice::Notice;
pub use pass::Pass;
pub use permit::{Fill, Permit, Report};

#[cfg(test)]
mod tests;
