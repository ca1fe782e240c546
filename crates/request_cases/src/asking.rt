ghost use Rattle.std.specs.Prelude.{IfOk};
ghost use Rattle.router_config.specs.Lawful.{IsLawful};

use case_file::{Case, read_case};
use flow_base::{ListClock, Memory};
use partial_fetch::Answer;
use std::alloc::{AllocError, Global};
use std::test::Fail;

/// Items from `a` and their prices from `b`. One request asks for one item, another for what has no plan.
const SHOP: &str = r#"{"schema":"type Query { one: Item } type Item { id: ID! price: String }",
"subgraphs":[{"name":"a","cached":true},{"name":"b","cached":true}],"events":64,"bytes":4096,"plans":[
{"operation":"query One { one { id price } }","plan":{"kind":"Sequence","nodes":[
 {"kind":"Fetch","subgraph":"a","operation":"query { one { __typename id } }"},
 {"kind":"Flatten","path":["one"],"node":{"kind":"Fetch","subgraph":"b","operation":"query ($representations: [_Any!]!) { _entities(representations: $representations) { ... on Item { price } } }","requires":{"type":"Item","fields":[{"name":"id"}]}}}]}}],
"requests":[{"now":0,"id":null,"query":"query One { one { id price } }","variables":{}}],
"replies":[
{"subgraph":"a","status":200,"cacheControl":"max-age=60","age":null,"body":{"data":{"one":{"__typename":"Item","id":"2"}}}},
{"subgraph":"b","status":200,"cacheControl":"max-age=60","age":null,"body":{"data":{"_entities":[{"price":"2.00"}]}}}]}"#;

/// The shop, its one request, and its replies.
pub fn shop(alloc: Global) -> Result<Case, Fail>
    ensures { IfOk result (λ case. IsLawful case.site) }
{
    Ok(read_case(alloc, SHOP.as_bytes())?)
}

pub fn clock(alloc: Global) -> Result<ListClock, AllocError> {
    Ok(ListClock::of(Vec::from_slice(alloc, &[0])?))
}

/// Whether an answer has this status, Cache-Control (none where it is empty) and body.
pub fn is_answer(answer: &Answer, status: u16, kept: &str, body: &str) -> bool {
    let told = match &answer.cache_control {
        Some(text) => text.as_str(),
        None => "",
    };
    answer.status == status && told == kept && answer.body.as_str() == body
}
