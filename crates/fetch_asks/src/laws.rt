ghost use Rattle.std.specs.Prelude.{◌≡◌, ℕ, List, Option, map};
ghost use Rattle.json_value.specs.declared.tree.Json.{Json};
ghost use Rattle.json_print.specs.Print.{print};
ghost use Rattle.cache_book.specs.Permits.{Granted};
ghost use Rattle.fetch_asks.specs.Asking.{call_of, representation_of};
ghost use Rattle.fetch_asks.specs.Asks.{HasBodies, ask_of, rep_texts, call_value};

use json_value::Json;
use plan_exec::Asked;
use plan_tree::Fetch;

/// A law, with nothing to run: what a fetch asks for has, whatever pieces are missing, the text of a JSON object as its
/// body.
pub fn the_body_is_its_text(
    sub: u64,
    uncached: bool,
    fetch: &Fetch,
    asked: &Asked,
    variables: &Json,
)
    ensures { HasBodies (ask_of sub uncached fetch.now asked.now variables.now)
        fetch.now asked.now variables.now }
{}

/// A law, with nothing to run: so the call for permits that name these representations has this object as its body.
pub fn calls_are_their_json(
    sub: u64,
    uncached: bool,
    fetch: &Fetch,
    asked: &Asked,
    variables: &Json,
)
    ensures { (id : Option (List ℕ)) (permits : List Granted) (reps : List Json) →
        map representation_of permits ≡ rep_texts asked.now reps →
        (call_of (ask_of sub uncached fetch.now asked.now variables.now) id permits).body
        ≡ print (call_value fetch.now asked.now variables.now reps) }
{}
