//! One fetch of a plan: its pieces are looked up, what is missing is asked for in one call, and each permit is settled.
#![tactic(auto)]

mod calls;
mod came;
mod fetch;
mod fetched;
mod laws;
mod prepare;
mod settle;
mod slots;
mod unpack;

pub use came::{Brought, Coming};
pub use fetch::fetch_pieces;
pub use fetch_asks::Ask;
pub use fetched::{Cause, Fetched, Lasts, Origin};
pub use laws::{each_key_has_its_piece, found_pieces_are_recorded};
pub use prepare::Work;
pub use slots::Slot;

#[cfg(test)]
mod tests;
