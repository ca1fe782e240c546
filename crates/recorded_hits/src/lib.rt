//! What a hit is: a piece that was fetched earlier, may be kept, is fresh, is public or of the same caller, and was not
//! invalidated since its fetch began. These are laws over the journals of the cache; nothing here runs.
#![tactic(auto)]

mod laws;

pub use laws::{hits_are_recorded, looks_find_what_is_recorded, recorded_hits_stay};
