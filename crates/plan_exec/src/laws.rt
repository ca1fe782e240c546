ghost use Rattle.std.specs.Prelude.{◌≡◌, ◌++◌, ◌+◌, ◌≤◌, [], None, List, ℕ, length, map};
ghost use Rattle.json_value.specs.declared.tree.Json.{Json};
ghost use Rattle.plan_tree.specs.Numbers.{numbers};
ghost use Rattle.plan_tree.specs.Lawful.{IsLawful};
ghost use Rattle.plan_exec.specs.declared.tasks.Done.{Done};
ghost use Rattle.plan_exec.specs.Exec.{pieces_of};
ghost use Rattle.plan_exec.specs.Ready.{Waiting, ready};
ghost use Rattle.plan_exec.specs.Giving.{Among, fetches_left};
ghost use Rattle.plan_exec.specs.Keeping.{IsPart, AllDiffer, still_open};
ghost use Rattle.plan_exec.specs.Ended.{IsEnded};
ghost use Rattle.plan_exec.specs.Tasks.{Progress};
ghost use Rattle.plan_exec.specs.Order.{OneByOne, InRounds, GoesTo, fetch_of};
ghost use Rattle.plan_exec.specs.Exec as spec;

use crate::tasks::Done;
use plan_tree::{Fetch, Node, Plan};

/// A law, with nothing to run: no fetch is ready whose pieces are given.
pub fn what_is_given_is_not_asked(fetches: &[Fetch], given: &[Done], node: &Node)
    ensures { (v : Json) (w : Waiting) → Among w (ready fetches.now given.now node.now v)
        → pieces_of given.now w.fetch ≡ None }
{}

/// A law, with nothing to run: what is ready and is not given now stays ready, with the same start value and in the same
/// order.
pub fn others_stay_ready(fetches: &[Fetch], given: &[Done], node: &Node)
    ensures order { (more : List Done) (v : Json) →
        IsPart (still_open (given.now ++ more) (ready fetches.now given.now node.now v))
        (ready fetches.now (given.now ++ more) node.now v) }
    ensures each { (more : List Done) (v : Json) (w : Waiting) →
        Among w (ready fetches.now given.now node.now v) →
        pieces_of (given.now ++ more) w.fetch ≡ None →
        Among w (ready fetches.now (given.now ++ more) node.now v) }
{}

/// A law, with nothing to run: a node at which nothing is ready has its value, whatever is given later. So a machine may
/// keep that value in the place of the node.
pub fn a_finished_node_keeps_its_value(fetches: &[Fetch], given: &[Done], node: &Node)
    ensures value { (more : List Done) (v : Json) → ready fetches.now given.now node.now v ≡ [] →
        spec.exec fetches.now (given.now ++ more) node.now v
        ≡ spec.exec fetches.now given.now node.now v }
    ensures ended { (more : List Done) (v : Json) → ready fetches.now given.now node.now v ≡ [] →
        ready fetches.now (given.now ++ more) node.now v ≡ [] }
{}

/// A law, with nothing to run: nothing is ready exactly where each fetch is given or is passed over.
pub fn nothing_ready_is_the_end(fetches: &[Fetch], given: &[Done], node: &Node)
    ensures ended { (v : Json) → IsEnded fetches.now given.now node.now v
        → ready fetches.now given.now node.now v ≡ [] }
    ensures end { (v : Json) → ready fetches.now given.now node.now v ≡ []
        → IsEnded fetches.now given.now node.now v }
{}

/// A law, with nothing to run: where a plan's fetches are done to the end, one at a time or in rounds, those of the order
/// are given in that order and no others. One at a time there are no more of them than were left.
pub fn an_order_ends(plan: &Plan, given: &[Done])
    ensures one_by_one { (order : List ℕ) (q : Progress) →
        OneByOne (record { plan = plan.now; given = given.now }) order q →
        GoesTo (record { plan = plan.now; given = given.now }) order q }
    ensures rounds { (order : List ℕ) (q : Progress) →
        InRounds (record { plan = plan.now; given = given.now }) order q →
        GoesTo (record { plan = plan.now; given = given.now }) order q }
    ensures bound { (order : List ℕ) (q : Progress) →
        OneByOne (record { plan = plan.now; given = given.now }) order q →
        length order + fetches_left q
        ≤ fetches_left (record { plan = plan.now; given = given.now }) }
{}

/// A law, with nothing to run: what is ready stands in the order of the plan's text, and of a lawful plan each fetch is ready
/// once.
pub fn ready_fetches_stand_in_order(plan: &Plan, given: &[Done])
    ensures order { (v : Json) →
        IsPart (map fetch_of (ready plan.now.fetches given.now plan.now.root v))
        (numbers plan.now.root) }
    ensures once { (v : Json) → IsLawful plan.now →
        AllDiffer (map fetch_of (ready plan.now.fetches given.now plan.now.root v)) }
{}
