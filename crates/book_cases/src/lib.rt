//! The Book on its tables beside the plain book, on the same long scripts, event by event.
//!
//! The crate has tests alone.
#![tactic(auto)]

#[cfg(test)]
mod drawing;
#[cfg(test)]
mod ends;
#[cfg(test)]
mod looking;
#[cfg(test)]
mod scripts;
#[cfg(test)]
mod settling;
#[cfg(test)]
mod tickets;
#[cfg(test)]
mod voiding;
#[cfg(test)]
mod weighing;
