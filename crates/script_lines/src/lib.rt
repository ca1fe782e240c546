//! The lines of a rehearsal script: reading a line into a command, and the texts of the replies.
//!
//! A script is UTF-8 text in lines that end in a line feed, the last of which may lack it. Words are
//! separated by exactly one space.
#![tactic(auto)]

mod commands;
mod fields;
mod laws;
mod lines;
mod readers;
mod replies;

pub use commands::{Command, read_command};
pub use fields::number;
pub use laws::one_reading;
pub use lines::{first_line, is_quiet};
pub use replies::{Cause, Reply, reply_line};

#[cfg(test)]
mod tests;
