ghost use Rattle.std.specs.Prelude.{ℕ, List, Option};
ghost use Rattle.json_value.specs.declared.tree.Json.{Json};
ghost use Rattle.line_base.specs.Lines as lines;
ghost use Rattle.cache_seam.specs.Seen.{Seen};
ghost use Rattle.plan_run.specs.declared.outcome.Outcome.{Outcome};
ghost use Rattle.plan_run.specs.Plans.{Wanted};
ghost use Rattle.plan_run.specs.Requests.{DoesRequest};
ghost use Rattle.plan_run.specs.Justified.{AllFound};

use recorded_hits::{looks_find_what_is_recorded, recorded_hits_stay};

/// A law: each piece that a request shows as a hit was recorded by an earlier fetch as cacheable, fresh, public or of the
/// same caller, with no covering invalidation between that fetch's start and the lookup. So it stands in the journal that
/// is seen when the request is done.
pub fn found_pieces_stand()
    ensures { (next : List (List Json) → Option Wanted) (given now : List (List Json))
        (id : Option (List ℕ)) (number : ℕ) (old new : Seen) (l m : lines.Line)
        (before after : Option (List ℕ)) (o : Outcome)
        (h : DoesRequest next given now id number old new l m before after o)
        → AllFound new.journal h.pass id h.tasks h.done }
{
    looks_find_what_is_recorded();
    recorded_hits_stay();
}
