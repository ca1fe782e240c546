//! What a book answers, by looking through its journal as the definitions read. `cache_book` answers the same by its tables, so that
//! a call costs what it answers.
#![tactic(auto)]

mod choose;
mod due;
mod scan;

pub use choose::chosen;
pub use due::outcome_of;
pub use scan::{StartRef, bytes_of, count_held, is_settled, reserved_of, start_of, starts_of};
