//! How long a reply may be kept, by its header texts `Cache-Control` and `Age`.
#![tactic(auto)]

mod judge;
mod read;
mod rules;

pub use judge::verdict;

#[cfg(test)]
mod tests;
