//! Requests over a cache that others use, and over a line that replies at too great length: what a case of `ask` can't show.
//!
//! The crate has tests alone.
#![tactic(auto)]

#[cfg(test)]
mod asking;
#[cfg(test)]
mod meddling;
#[cfg(test)]
mod naming;
#[cfg(test)]
mod too_long;
