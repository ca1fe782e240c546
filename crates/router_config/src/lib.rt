//! What a router is configured with: the rules of its subgraphs, and the site that they make with a schema and plans.
#![tactic(auto)]

mod check;
mod config;
mod fault;
mod inputs;
mod site;
#[cfg(test)]
mod tests;

pub use config::{Config, Request, SubRule};
pub use fault::SiteFault;
pub use site::Site;
