//! Execution of query plans: which fetches can be asked for, and the value of the whole plan.
#![tactic(auto)]

mod laws;
mod leaves;
mod machine;
mod moving;
mod running;
mod tasks;

pub use laws::{
    a_finished_node_keeps_its_value, an_order_ends, nothing_ready_is_the_end, others_stay_ready,
    ready_fetches_stand_in_order, what_is_given_is_not_asked,
};
pub use machine::Machine;
pub use tasks::{Asked, Done, Task};
