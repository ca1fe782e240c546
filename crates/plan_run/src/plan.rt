ghost use Rattle.std.specs.Prelude.{◌≡◌, ◌≢◌, ◌++◌, ◌∷◌, [], ℕ, ◌<◌, List, Option, length, IfOk, IfSome, OnOk};
ghost use Rattle.json_value.specs.declared.tree.Json.{Json};
ghost use Rattle.plan_run.specs.Plans.{Wanted, wanted_of, IsNamed, HasOne, IsOf};

use cache_terms::Key;
use fetch_asks::Ask;
use flow_base::Memory;
use json_paths::Place;
use json_value::Json;
use tree_items::Items;

/// A fetch of the request: its number in the plan, what it asks for, the keys of its pieces, and for each piece of an
/// entity fetch the places that use it.
#[derive(Drop)]
pub struct Task {
    pub fetch: u64,
    pub ask: Ask,
    pub keys: Vec<Key>,
    pub places: Items<Items<Place>>,
}

/// What is to be fetched, step by step.
pub trait Plan {
    /// The fetch that comes next, for the pieces that were given so far.
    ghost next: { Self → List (List Json) → Option Wanted };

    /// The pieces that were given so far.
    ghost given: { Self → List (List Json) };

    /// The value of the whole over these pieces, where nothing comes next.
    ghost value_over: { Self → List (List Json) → Json };

    /// How many fetches are left at most.
    ghost left: { Self → ℕ };

    /// The fetch that comes next, if there is one. Fails only for want of memory.
    fn task(&self) -> Result<Option<Task>, Memory>
        ensures next { IfOk result (λ task. wanted_of task ≡ next self.now (given self.now)) }
        ensures named { IfOk result (λ task. IfSome task IsNamed) }
        ensures one { IfOk result (λ task. IfSome task HasOne) };

    /// Takes the pieces of the fetch that came next, which is this one. Fails only for want of memory.
    fn give(&mut self, fetch: u64, pieces: Vec<Json>) -> Result<(), Memory>
        requires { IsOf (next self.old (given self.old)) fetch (length pieces.items) }
        ensures same_next { OnOk result (next self.new ≡ next self.old) }
        ensures same_value { OnOk result (value_over self.new ≡ value_over self.old) }
        ensures given { OnOk result (given self.new ≡ given self.old ++ pieces.items ∷ []) }
        ensures fewer { OnOk result (left self.new < left self.old) };
}
