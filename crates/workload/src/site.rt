//! The site of the workload, and what is asked of it.

ghost use Rattle.std.specs.Prelude.{◌≡◌, ◌<◌, IfOk};
ghost use Rattle.workload.specs.Site as spec;

use cache_book::Notice;
use cache_terms::Target;
use flow_base::{Memory, Text};
use json_value::Json;
use router_config::Request;
use std::alloc::Global;
use tree_items::Items;

// A case without requests and replies.
const SITE: &str =
    r#"{"schema":"type Query { items(from: Int): [Item] } type Item { id: ID! stars: Int }","plans":[{"operation":"query W($from: Int) { items(from: $from) { id stars } }","plan":{"kind":"Sequence","nodes":[{"kind":"Fetch","subgraph":"catalog","operation":"query ($from: Int) { items(from: $from) { __typename id } }","variables":["from"]},{"kind":"Flatten","path":["items","@"],"node":{"kind":"Fetch","subgraph":"reviews","operation":"query ($representations: [_Any!]!) { _entities(representations: $representations) { ... on Item { stars } } }","requires":{"type":"Item","fields":[{"name":"id"}]}}}]}}],"subgraphs":[{"name":"catalog","cached":true},{"name":"reviews","cached":true}],"events":65536,"bytes":67108864,"requests":[],"replies":[]}"#;

// How many items there are.
const ITEMS: u64 = 50;

/// The text of the site.
#[tactic(auto, unfolding(crate::specs::Site::site_text))]
pub fn site_text() -> &'static str
    ensures { result.now ≡ spec.site_text }
{
    SITE
}

/// The item of a number.
pub fn item_of(number: u64) -> u64
    ensures item { result ≡ spec.item_of number }
    ensures small { result < 50 }
{
    number % ITEMS
}

fn variables_drawn(alloc: Global, drawn: u64) -> Result<Json, Memory>
    ensures { IfOk result (λ v. v ≡ spec.variables_drawn drawn) }
{
    let item = item_of(drawn);
    let from = Text::from_string(format!(in alloc; "{item}")?)?;
    let mut members = Items::new(alloc);
    members.push((Text::of(alloc, "from")?, Json::Number(from)))?;
    Ok(Json::Object(members))
}

/// The request for what is drawn.
pub fn request_drawn(alloc: Global, drawn: u64) -> Result<Request, Memory>
    ensures { IfOk result (λ r. r ≡ spec.request_drawn drawn) }
{
    Ok(Request {
        query: Text::of(
            alloc,
            "query W($from: Int) { items(from: $from) { id stars } }",
        )?,
        operation_name: None,
        variables: variables_drawn(alloc, drawn)?,
        id: None,
    })
}

/// The invalidation for what is drawn.
pub fn notice_drawn(alloc: Global, drawn: u64) -> Result<Notice, Memory>
    ensures { IfOk result (λ n. n ≡ spec.target_drawn drawn) }
{
    let item = item_of(drawn);
    let tag = Text::from_string(format!(in alloc; "p{item}")?)?;
    Notice::of(&Target::Tag(Text::of(alloc, "reviews")?, tag))
}
