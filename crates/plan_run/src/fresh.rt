ghost use Rattle.std.specs.Prelude.{◌≡◌, List, IfOk};
ghost use Rattle.cache_model.specs.State.{State, IsWithinRanges, opened};
ghost use Rattle.cache_book.specs.Calls.{Call, Answer, Run};

use crate::{Outcome, Plan, run_plan};
use cache_seam::Alone;
use cache_terms::Limits;
use flow_base::{Clock, Memory, Text};
use line_base::Line;
use std::alloc::Global;

/// Runs a plan over a cache of its own. What the cache did is a run of its machine from the empty journal on.
pub fn run_fresh<P: Plan, L: Line, T: Clock>(
    alloc: Global,
    limits: Limits,
    plan: &mut P,
    line: &mut L,
    clock: &mut T,
    id: Option<&Text>,
) -> Result<Outcome, Memory>
    requires { IsWithinRanges limits }
    ensures { IfOk result (λ o. (calls : List Call) × (answers : List Answer) × (end : State)
        × Run (opened limits 0) calls answers end) }
{
    let mut cache = Alone::open(alloc, limits)?;
    run_plan(alloc, plan, &mut cache, line, 0, clock, id)
}
