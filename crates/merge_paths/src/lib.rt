//! Merging of JSON values, whole ones and parts at places.
#![tactic(auto)]

mod laws;
mod merging;
mod others;
mod placing;

pub use laws::objects_merge_by_name;
pub use merging::merge;
pub use placing::place_entities;
