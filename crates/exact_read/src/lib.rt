//! When a reader reads exactly a grammar and refuses at the first token that nothing continues. It has definitions
//! and laws, and no code.
//!
//! `specs/Exact.antt` says it of parsers over lists of tokens (`specs/Parse.antt`), and `proofs/Exact.antt` proves it of
//! each way to make one of others. `specs/Steps.antt` and `proofs/Machines.antt` do the same for a machine that takes
//! one token at a time. docs/READERS.md tells how a reader is proved with them.
#![tactic(auto)]

mod laws;

pub use laws::digits_are_read_exactly;
