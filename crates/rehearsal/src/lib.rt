//! Rehearsing a script: the cache's book driven by lines of text, with one line of output for each.
//!
//! A script is UTF-8 text of at most 1,048,576 bytes. Its lines begin requests (`begin`), ask for pieces (`look`),
//! settle permits (`settle`, `reply`, `fail`), invalidate (`void`) and say how much of the journal is used
//! (`tally`). Blank lines and lines that begin with `#` are counted and give no output. `specs/Acts.antt` says what
//! each line does and answers, `specs/Runs.antt` what a whole script writes, and `specs/Rehearsing.antt` what each
//! status says.
#![tactic(auto)]

mod acts;
mod command;
mod hand;
mod laws;
mod offers;
mod passes;
mod play;
mod stage;

pub use command::rehearse;
pub use laws::{a_front_goes_on, a_front_is_a_front, a_line_has_one_reply, lines_have_one_text};

#[cfg(test)]
mod example;
#[cfg(test)]
mod tests;
