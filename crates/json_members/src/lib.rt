//! The members of an object that is being read, in order, with an index by which a name is found among many.
//!
//! Few names are compared one by one. Of many the digests stand in a table, and a name whose digest is not there is
//! new. Once a digest did not tell, the names themselves are put in order. So a name costs a logarithm of their number
//! at worst, whoever chose them.
#![tactic(auto)]

mod digests;
mod open_members;

pub use open_members::Members;
