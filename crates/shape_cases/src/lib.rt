//! Worked cases of documents, schemas, variables and shaping, each from texts.
//!
//! The crate has tests alone.
#![tactic(auto)]

#[cfg(test)]
mod coercing;
#[cfg(test)]
mod documents;
#[cfg(test)]
mod reading;
#[cfg(test)]
mod shaping;
