//! Worked cases of plans: values merged, representations gathered, and whole plans executed over given pieces.
//!
//! The crate has tests alone.
#![tactic(auto)]

#[cfg(test)]
mod building;
#[cfg(test)]
mod executing;
#[cfg(test)]
mod gathering;
#[cfg(test)]
mod merging;
