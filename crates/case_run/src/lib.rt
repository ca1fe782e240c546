//! The command `ask`: a case is read, its requests are run one after the other over one cache and one line, and what each
//! sends and is answered is written.
//!
//! `specs/Runs.antt` says what the requests of a case write, and `specs/Asking.antt` what each status says.
#![tactic(auto)]

mod command;
mod ending;
mod play;
#[cfg(test)]
mod tests;
mod texts;

pub use command::ask;
