ghost use Rattle.std.specs.Prelude.{IfOk, OnErr};
ghost use Rattle.std.specs.Option.{option_copied};
ghost use Rattle.plan_tree.specs.Lawful.{IsLawful};
ghost use Rattle.plan_run.specs.Subgraphs.{AreFrom};
ghost use Rattle.plan_run.specs.Executions.{RunsPlan, DropsPlan};

use crate::{Outcome, PlanFetches, Subgraph, run_plan};
use cache_seam::Cache;
use flow_base::{Clock, Memory, Text};
use json_value::Json;
use line_base::Line;
use plan_tree::Plan;
use std::alloc::Global;

/// Runs a query plan for one request: always the first fetch that is ready is done over this line, until none is left.
/// Gives the value of the plan over the pieces, and what its fetches gave beside them. Each fetch is from one of the
/// subgraphs of the site. Fails only for want of memory, and then no permit is in hand.
pub fn execute<C: Cache, L: Line, T: Clock>(
    alloc: Global,
    plan: &Plan,
    subgraphs: &[Subgraph],
    variables: &Json,
    cache: &mut C,
    line: &mut L,
    number: u64,
    clock: &mut T,
    id: Option<&Text>,
) -> Result<(Json, Outcome), Memory>
    requires lawful { IsLawful plan.now }
    requires known { AreFrom subgraphs.now plan.now.fetches }
    ensures ok { IfOk result (λ r. RunsPlan plan.now subgraphs.now variables.now
        (option_copied id.entry) number (C.seen cache.old) (C.seen cache.new) (L.line line.old)
        (L.line line.new) (T.log clock.old) (T.log clock.new) r.0 r.1) }
    ensures err { OnErr result (DropsPlan plan.now subgraphs.now variables.now
        (option_copied id.entry) number (C.seen cache.old) (C.seen cache.new) (L.line line.old)
        (L.line line.new) (T.log clock.old) (T.log clock.new)) }
{
    let mut fetches = PlanFetches::start(alloc, plan, subgraphs, variables)?;
    let outcome = run_plan(alloc, &mut fetches, cache, line, number, clock, id)?;
    let value = fetches.finish();
    Ok((value, outcome))
}
