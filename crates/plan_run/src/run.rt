ghost use Rattle.std.specs.Prelude.{◌≡◌, IfOk, OnOk, OnErr};
ghost use Rattle.std.specs.Option.{option_copied};
ghost use Rattle.plan_run.specs.Requests.{DoesRequest, DropsRequest};

use crate::outcome::Outcome;
use crate::plan::{Plan, Task};
use cache_seam::Cache;
use flow_base::{Clock, Memory, Text};
use line_base::Line;
use piece_fetch::fetch_pieces;
use std::alloc::Global;

/// Runs the fetches of a plan in order over this line, until none comes next. Fails only for want of memory, and then no
/// permit is in hand.
pub fn run_plan<P: Plan, C: Cache, L: Line, T: Clock>(
    alloc: Global,
    plan: &mut P,
    cache: &mut C,
    line: &mut L,
    number: u64,
    clock: &mut T,
    id: Option<&Text>,
) -> Result<Outcome, Memory>
    ensures ok { IfOk result (λ o. DoesRequest (P.next plan.old) (P.given plan.old)
        (P.given plan.new) (option_copied id.entry) number (C.seen cache.old) (C.seen cache.new)
        (L.line line.old) (L.line line.new) (T.log clock.old) (T.log clock.new) o) }
    ensures same_next { OnOk result (P.next plan.new ≡ P.next plan.old) }
    ensures same_value { OnOk result (P.value_over plan.new ≡ P.value_over plan.old) }
    ensures err { OnErr result (DropsRequest (P.next plan.old) (P.given plan.old)
        (option_copied id.entry) number (C.seen cache.old) (C.seen cache.new) (L.line line.old)
        (L.line line.new) (T.log clock.old) (T.log clock.new)) }
{
    let _epoch = cache.begin();
    let mut outcome = Outcome {
        receipts: Vec::new(alloc),
        lasts: Vec::new(alloc),
        errors: Vec::new(alloc),
    };
    'running: while let Some(task) = plan.task()? {
        let Task {
            fetch,
            ask,
            keys,
            places,
        } = task;
        let fetched = fetch_pieces(alloc, cache, line, number, clock, id, &ask, keys)?;
        let pieces = outcome.add(alloc, fetch, ask.sub, places.as_slice(), fetched)?;
        plan.give(fetch, pieces)?;
    }
    Ok(outcome)
}
