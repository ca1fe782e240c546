//! The values of an operation's variables, made from what a request gives (GraphQL October 2021, section 6.1.2).
#![tactic(auto)]

mod constant;
mod fault;
mod laws;
mod names;
mod string;
#[cfg(test)]
mod tests;
mod value;
mod variables;

pub use fault::VarFault;
pub use laws::coercion_is_one;
pub use variables::coerce;
