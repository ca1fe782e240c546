//! The faults of texts that are not JSON: which fault a text has, and where.
//!
//! It has definitions and laws, and no code. `specs/Faults.antt` says what each fault tells of a text, in words of the
//! grammar alone. Each text that the machine of `json_machine` does not take has such a fault (`read_explains` in
//! `proofs/Explained.antt`), and one alone.
#![tactic(auto)]

mod laws;

pub use laws::fault_is_one;
