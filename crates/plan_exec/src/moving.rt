ghost use Rattle.std.specs.Prelude.{◌≡◌, ◌++◌, IfOk, IfErr};
ghost use Rattle.plan_exec.specs.Tasks.{IsKept};

use crate::running::run;
use crate::tasks::{Done, Task};
use flow_base::Memory;
use json_value::Json;
use plan_tree::Plan;
use std::alloc::Global;
use tree_items::Items;

/// The value and the ready fetches over the pieces given.
pub fn progress(alloc: Global, plan: &Plan, given: &[Done]) -> Result<(Json, Vec<Task>), Memory>
    ensures { IfOk result (λ r. IsKept plan.now given.now r.0 r.1.items) }
{
    let fetches = plan.fetches.as_slice();
    let start = Json::Object(Items::new(alloc));
    let mut ready = Vec::new(alloc);
    let whole = run(alloc, fetches, given, &plan.root, start, true, &mut ready)?;
    Ok((whole, ready))
}

/// Appends the results, and computes what then is ready. After want of memory nothing is appended.
pub fn advance(
    alloc: Global,
    plan: &Plan,
    given: &mut Vec<Done>,
    results: Vec<Done>,
) -> Result<(Json, Vec<Task>), Memory>
    ensures given { IfOk result (λ r. given.new.items ≡ given.old.items ++ results.items) }
    ensures kept { IfOk result (λ r. IsKept plan.now given.new.items r.0 r.1.items) }
    ensures err { IfErr result (λ e. given.new.items ≡ given.old.items) }
{
    let before = given.len();
    let mut results = results;
    given.append(&mut results)?;
    match progress(alloc, plan, given) {
        Ok(kept) => Ok(kept),
        Err(fault) => {
            given.truncate(before);
            Err(fault)
        }
    }
}
