use crate::ask;
use flow_base::{Bytes, MemSink, MemSource, Memory};
use std::alloc::{AllocError, Global};
use std::test::*;

/// A shop: items from `a`, their prices from `b`, and their stock from `c`. Of its five operations the last is answered by the
/// same fetches as the fourth, but asks for the stock only with a price.
const SHOP: &str =
    r#"{"schema":"type Query { one: Item items: [Item] } type Item { id: ID! price: String stock: Int }",
"subgraphs":[{"name":"a","cached":true},{"name":"b","cached":true},{"name":"c","cached":true}],"events":64,"bytes":4096,"plans":[
{"operation":"{ one { id price } }","plan":{"kind":"Sequence","nodes":[
 {"kind":"Fetch","subgraph":"a","operation":"query { one { __typename id } }"},
 {"kind":"Flatten","path":["one"],"node":{"kind":"Fetch","subgraph":"b","operation":"query ($representations: [_Any!]!) { _entities(representations: $representations) { ... on Item { price } } }","requires":{"type":"Item","fields":[{"name":"id"}]}}}]}},
{"operation":"{ items { id price } }","plan":{"kind":"Sequence","nodes":[
 {"kind":"Fetch","subgraph":"a","operation":"query { items { __typename id } }"},
 {"kind":"Flatten","path":["items","@"],"node":{"kind":"Fetch","subgraph":"b","operation":"query ($representations: [_Any!]!) { _entities(representations: $representations) { ... on Item { price } } }","requires":{"type":"Item","fields":[{"name":"id"}]}}}]}},
{"operation":"{ items { price } }","plan":{"kind":"Sequence","nodes":[
 {"kind":"Fetch","subgraph":"a","operation":"query { items { __typename id } }"},
 {"kind":"Flatten","path":["items","@"],"node":{"kind":"Fetch","subgraph":"b","operation":"query ($representations: [_Any!]!) { _entities(representations: $representations) { ... on Item { price } } }","requires":{"type":"Item","fields":[{"name":"id"}]}}}]}},
{"operation":"{ one { id price stock } }","plan":{"kind":"Sequence","nodes":[
 {"kind":"Fetch","subgraph":"a","operation":"query { one { __typename id } }"},
 {"kind":"Parallel","nodes":[
  {"kind":"Flatten","path":["one"],"node":{"kind":"Fetch","subgraph":"b","operation":"query ($representations: [_Any!]!) { _entities(representations: $representations) { ... on Item { price } } }","requires":{"type":"Item","fields":[{"name":"id"}]}}},
  {"kind":"Flatten","path":["one"],"node":{"kind":"Fetch","subgraph":"c","operation":"query ($representations: [_Any!]!) { _entities(representations: $representations) { ... on Item { stock } } }","requires":{"type":"Item","fields":[{"name":"id"}]}}}]}]}},
{"operation":"query Late { one { id price stock } }","plan":{"kind":"Sequence","nodes":[
 {"kind":"Fetch","subgraph":"a","operation":"query { one { __typename id } }"},
 {"kind":"Parallel","nodes":[
  {"kind":"Flatten","path":["one"],"node":{"kind":"Fetch","subgraph":"b","operation":"query ($representations: [_Any!]!) { _entities(representations: $representations) { ... on Item { price } } }","requires":{"type":"Item","fields":[{"name":"id"}]}}},
  {"kind":"Flatten","path":["one"],"node":{"kind":"Fetch","subgraph":"c","operation":"query ($representations: [_Any!]!) { _entities(representations: $representations) { ... on Item { stock } } }","requires":{"type":"Item","fields":[{"name":"id"},{"name":"price"}]}}}]}]}}],
"#;

/// A shop with products, reviews and accounts, of which the first products are asked for.
const PRODUCTS: &str =
    r#"{"schema":"type Query { topProducts(first: Int = 5): [Product] } type Product { upc: ID! name: String price: Float reviews: [Review] } type Review { body: String author: User } type User { id: ID! username: String }",
"subgraphs":[{"name":"products","cached":true},{"name":"reviews","cached":true},{"name":"accounts","cached":true}],"events":256,"bytes":65536,"plans":[
{"operation":"query Top($first: Int = 2) { topProducts(first: $first) { upc name price reviews { body author { username } } } }","plan":{"kind":"Sequence","nodes":[
 {"kind":"Fetch","subgraph":"products","operation":"query ($first: Int) { topProducts(first: $first) { __typename upc name price } }","variables":["first"]},
 {"kind":"Flatten","path":["topProducts","@"],"node":{"kind":"Fetch","subgraph":"reviews","operation":"query ($representations: [_Any!]!) { _entities(representations: $representations) { ... on Product { reviews { body author { __typename id } } } } }","requires":{"type":"Product","fields":[{"name":"upc"}]}}},
 {"kind":"Flatten","path":["topProducts","@","reviews","@","author"],"node":{"kind":"Fetch","subgraph":"accounts","operation":"query ($representations: [_Any!]!) { _entities(representations: $representations) { ... on User { username } } }","requires":{"type":"User","fields":[{"name":"id"}]}}}]}}],
"#;

/// The requests and the replies of a case, and what is written for it.
#[derive(Clone, Copy)]
struct Row {
    case: &'static str,
    rest: &'static str,
    output: &'static str,
}

/// What was answered and written.
#[derive(Drop)]
struct Outcome {
    status: u8,
    written: Vec<u8>,
}

/// Asks for what these bytes say, of which each read gives at most 4,096. The reads and writes of these numbers fail.
fn run_case(
    alloc: Global,
    bytes: Vec<u8>,
    failing_reads: Vec<u64>,
    failing_writes: Vec<u64>,
) -> Result<Outcome, Memory> {
    let mut source = MemSource::of(Bytes::from_vec(bytes), Vec::new(alloc), failing_reads);
    let mut sink = MemSink::of(alloc, 65_536, Vec::new(alloc), failing_writes)?;
    let status = ask(alloc, &mut source, &mut sink);
    let written = Vec::from_slice(alloc, sink.written())?;
    Ok(Outcome { status, written })
}

fn joined(alloc: Global, first: &str, rest: &str) -> Result<Vec<u8>, AllocError> {
    let mut bytes = Vec::from_slice(alloc, first.as_bytes())?;
    bytes.extend_from_slice(rest.as_bytes())?;
    Ok(bytes)
}

/// Whether the case is answered with status 0, and this is written.
fn writes(alloc: Global, row: &Row) -> bool {
    let Ok(bytes) = joined(alloc, row.case, row.rest) else {
        return false;
    };
    match run_case(alloc, bytes, Vec::new(alloc), Vec::new(alloc)) {
        Err(_) => false,
        Ok(given) => given.status == 0 && given.written.as_slice() == row.output.as_bytes(),
    }
}

const PARTIAL: Row = Row {
    case: SHOP,
    rest: r#""requests":[{"now":0,"id":null,"query":"{ one { id price } }","variables":{}},{"now":5000,"id":null,"query":"{ items { id price } }","variables":{}}],
"replies":[
{"subgraph":"a","status":200,"cacheControl":"max-age=60","age":null,"body":{"data":{"one":{"__typename":"Item","id":"2"}}}},
{"subgraph":"b","status":200,"cacheControl":"max-age=60","age":null,"body":{"data":{"_entities":[{"price":"2.00"}]}}},
{"subgraph":"a","status":200,"cacheControl":"max-age=60","age":null,"body":{"data":{"items":[{"__typename":"Item","id":"1"},{"__typename":"Item","id":"2"},{"__typename":"Item","id":"1"},{"__typename":"Item","id":"3"},{"__typename":"Item","id":"2"}]}}},
{"subgraph":"b","status":200,"cacheControl":"max-age=60","age":null,"body":{"data":{"_entities":[{"price":"1.00"},{"price":"3.00"}]}}}]}"#,
    output: r#"sent a {"query":"query { one { __typename id } }","variables":{}}
sent b {"query":"query ( $representations : [ _Any ! ] ! ) { _entities ( representations : $representations ) { ... on Item { price } } }","variables":{"representations":[{"__typename":"Item","id":"2"}]}}
cache max-age=60, public
answer 200 {"data":{"one":{"id":"2","price":"2.00"}}}
sent a {"query":"query { items { __typename id } }","variables":{}}
sent b {"query":"query ( $representations : [ _Any ! ] ! ) { _entities ( representations : $representations ) { ... on Item { price } } }","variables":{"representations":[{"__typename":"Item","id":"1"},{"__typename":"Item","id":"3"}]}}
cache max-age=55, public
answer 200 {"data":{"items":[{"id":"1","price":"1.00"},{"id":"2","price":"2.00"},{"id":"1","price":"1.00"},{"id":"3","price":"3.00"},{"id":"2","price":"2.00"}]}}
"#,
};

const NOTHING_TO_ASK: Row = Row {
    case: SHOP,
    rest: r#""requests":[{"now":0,"id":null,"query":"{ items { price } }","variables":{}}],
"replies":[{"subgraph":"a","status":200,"cacheControl":"max-age=60","age":null,"body":{"data":{"items":[null,{"__typename":"Item"}]}}}]}"#,
    output: r#"sent a {"query":"query { items { __typename id } }","variables":{}}
cache max-age=60, public
answer 200 {"data":{"items":[null,{"price":null}]}}
"#,
};

const TOO_FEW: Row = Row {
    case: SHOP,
    rest: r#""requests":[{"now":0,"id":null,"query":"{ items { price } }","variables":{}}],
"replies":[
{"subgraph":"a","status":200,"cacheControl":"max-age=60","age":null,"body":{"data":{"items":[{"__typename":"Item","id":"1"},{"__typename":"Item","id":"3"}]}}},
{"subgraph":"b","status":200,"cacheControl":"max-age=60","age":null,"body":{"data":{"_entities":[{"price":"1.00"}]}}}]}"#,
    output: r#"sent a {"query":"query { items { __typename id } }","variables":{}}
sent b {"query":"query ( $representations : [ _Any ! ] ! ) { _entities ( representations : $representations ) { ... on Item { price } } }","variables":{"representations":[{"__typename":"Item","id":"1"},{"__typename":"Item","id":"3"}]}}
cache no-store
answer 200 {"data":{"items":[{"price":null},{"price":null}]},"errors":[{"message":"subgraph reply not readable","path":["items",0],"extensions":{"code":"BAD_REPLY","subgraph":"b","got":1,"sent":2}}]}
"#,
};

const PARALLEL: Row = Row {
    case: SHOP,
    rest: r#""requests":[{"now":0,"id":null,"query":"{ one { id price stock } }","variables":{}}],
"replies":[
{"subgraph":"a","status":200,"cacheControl":"max-age=60","age":null,"body":{"data":{"one":{"__typename":"Item","id":"2"}}}},
{"subgraph":"b","status":200,"cacheControl":"max-age=60","age":null,"body":{"data":{"_entities":[{"price":"2.00"}]}}},
{"subgraph":"c","status":200,"cacheControl":"max-age=60","age":null,"body":{"data":{"_entities":[{"stock":7}]}}}]}"#,
    output: r#"sent a {"query":"query { one { __typename id } }","variables":{}}
sent b {"query":"query ( $representations : [ _Any ! ] ! ) { _entities ( representations : $representations ) { ... on Item { price } } }","variables":{"representations":[{"__typename":"Item","id":"2"}]}}
sent c {"query":"query ( $representations : [ _Any ! ] ! ) { _entities ( representations : $representations ) { ... on Item { stock } } }","variables":{"representations":[{"__typename":"Item","id":"2"}]}}
cache max-age=60, public
answer 200 {"data":{"one":{"id":"2","price":"2.00","stock":7}}}
"#,
};

const ONE_START: Row = Row {
    case: SHOP,
    rest: r#""requests":[{"now":0,"id":null,"query":"query Late { one { id price stock } }","variables":{}}],
"replies":[
{"subgraph":"a","status":200,"cacheControl":"max-age=60","age":null,"body":{"data":{"one":{"__typename":"Item","id":"2"}}}},
{"subgraph":"b","status":200,"cacheControl":"max-age=60","age":null,"body":{"data":{"_entities":[{"price":"2.00"}]}}}]}"#,
    output: r#"sent a {"query":"query { one { __typename id } }","variables":{}}
sent b {"query":"query ( $representations : [ _Any ! ] ! ) { _entities ( representations : $representations ) { ... on Item { price } } }","variables":{"representations":[{"__typename":"Item","id":"2"}]}}
cache max-age=60, public
answer 200 {"data":{"one":{"id":"2","price":"2.00","stock":null}}}
"#,
};

const ONE_FAILURE: Row = Row {
    case: SHOP,
    rest: r#""requests":[{"now":0,"id":null,"query":"{ one { id price stock } }","variables":{}}],
"replies":[
{"subgraph":"b","fail":true},
{"subgraph":"a","status":200,"cacheControl":"max-age=60","age":null,"body":{"data":{"one":{"__typename":"Item","id":"2"}}}},
{"subgraph":"c","status":200,"cacheControl":"max-age=60","age":null,"body":{"data":{"_entities":[{"stock":7}]}}}]}"#,
    output: r#"sent a {"query":"query { one { __typename id } }","variables":{}}
sent b {"query":"query ( $representations : [ _Any ! ] ! ) { _entities ( representations : $representations ) { ... on Item { price } } }","variables":{"representations":[{"__typename":"Item","id":"2"}]}}
sent c {"query":"query ( $representations : [ _Any ! ] ! ) { _entities ( representations : $representations ) { ... on Item { stock } } }","variables":{"representations":[{"__typename":"Item","id":"2"}]}}
cache no-store
answer 200 {"data":{"one":{"id":"2","price":null,"stock":7}},"errors":[{"message":"subgraph unreachable","path":["one"],"extensions":{"code":"UNREACHABLE","subgraph":"b"}}]}
"#,
};

const NULL_CLIMBS: Row = Row {
    case: SHOP,
    rest: r#""requests":[{"now":0,"id":null,"query":"{ one { id price } }","variables":{}},{"now":1,"id":null,"query":"{","variables":{}}],
"replies":[{"subgraph":"a","status":200,"cacheControl":"max-age=60","age":null,"body":{"data":{"one":{"__typename":"Item"}}}}]}"#,
    output: r#"sent a {"query":"query { one { __typename id } }","variables":{}}
cache max-age=60, public
answer 200 {"data":{"one":null},"errors":[{"message":"null in a non-null place","path":["one","id"],"extensions":{"code":"NULL_IN_NON_NULL"}}]}
answer 400 {"errors":[{"message":"document not readable","extensions":{"code":"BAD_DOCUMENT","at":1}}]}
"#,
};

const TWO_CALLERS: Row = Row {
    case: PRODUCTS,
    rest: r#""requests":[
{"now":0,"id":"u1","query":"query Top($first: Int = 2) { topProducts(first: $first) { upc name price reviews { body author { username } } } }","variables":{}},
{"now":1000,"id":"u2","query":"query Top($first: Int = 2) { topProducts(first: $first) { upc name price reviews { body author { username } } } }","variables":{}},
{"now":2000,"id":"u1","query":"query Top($first: Int = 2) { topProducts(first: $first) { upc name price reviews { body author { username } } } }","variables":{}}],
"replies":[
{"subgraph":"products","status":200,"cacheControl":"max-age=120","age":null,"body":{"data":{"topProducts":[{"__typename":"Product","upc":"1","name":"Table","price":19.90},{"__typename":"Product","upc":"2","name":"Chair","price":5}]}}},
{"subgraph":"reviews","status":200,"cacheControl":"max-age=30, private","age":null,"body":{"data":{"_entities":[{"reviews":[{"body":"Solid","author":{"__typename":"User","id":"7"}}]},{"reviews":[{"body":"Fine","author":{"__typename":"User","id":"7"}}]}]}}},
{"subgraph":"accounts","status":200,"cacheControl":"max-age=60","age":null,"body":{"data":{"_entities":[{"username":"@ada"}]}}},
{"subgraph":"reviews","status":200,"cacheControl":"max-age=30, private","age":null,"body":{"data":{"_entities":[{"reviews":[{"body":"Solid","author":{"__typename":"User","id":"7"}}]},{"reviews":[{"body":"Fine","author":{"__typename":"User","id":"7"}}]}]}}}]}"#,
    output: r#"sent products {"query":"query ( $first : Int ) { topProducts ( first : $first ) { __typename upc name price } }","variables":{"first":2}}
sent reviews {"query":"query ( $representations : [ _Any ! ] ! ) { _entities ( representations : $representations ) { ... on Product { reviews { body author { __typename id } } } } }","variables":{"representations":[{"__typename":"Product","upc":"1"},{"__typename":"Product","upc":"2"}]}}
sent accounts {"query":"query ( $representations : [ _Any ! ] ! ) { _entities ( representations : $representations ) { ... on User { username } } }","variables":{"representations":[{"__typename":"User","id":"7"}]}}
cache max-age=30, private
answer 200 {"data":{"topProducts":[{"upc":"1","name":"Table","price":19.90,"reviews":[{"body":"Solid","author":{"username":"@ada"}}]},{"upc":"2","name":"Chair","price":5,"reviews":[{"body":"Fine","author":{"username":"@ada"}}]}]}}
sent reviews {"query":"query ( $representations : [ _Any ! ] ! ) { _entities ( representations : $representations ) { ... on Product { reviews { body author { __typename id } } } } }","variables":{"representations":[{"__typename":"Product","upc":"1"},{"__typename":"Product","upc":"2"}]}}
cache max-age=30, private
answer 200 {"data":{"topProducts":[{"upc":"1","name":"Table","price":19.90,"reviews":[{"body":"Solid","author":{"username":"@ada"}}]},{"upc":"2","name":"Chair","price":5,"reviews":[{"body":"Fine","author":{"username":"@ada"}}]}]}}
cache max-age=28, private
answer 200 {"data":{"topProducts":[{"upc":"1","name":"Table","price":19.90,"reviews":[{"body":"Solid","author":{"username":"@ada"}}]},{"upc":"2","name":"Chair","price":5,"reviews":[{"body":"Fine","author":{"username":"@ada"}}]}]}}
"#,
};

#[test]
fn worked_examples(rt: HostRuntime) {
    let alloc = rt.alloc();
    let rows = [
        PARTIAL,
        NOTHING_TO_ASK,
        TOO_FEW,
        PARALLEL,
        ONE_START,
        ONE_FAILURE,
        NULL_CLIMBS,
        TWO_CALLERS,
    ];
    for row in &rows {
        assert!(rt; writes(alloc, row));
    }
}

/// The first reply has another status than 200, and what it holds is not read.
const OTHER_STATUS: Row = Row {
    case: SHOP,
    rest: r#""requests":[{"now":0,"id":null,"query":"{ one { id price } }","variables":{}}],
"replies":[{"subgraph":"a","status":503,"cacheControl":"max-age=60","age":null,"body":{"data":{"one":{"__typename":"Item","id":"2"}}}}]}"#,
    output: r#"sent a {"query":"query { one { __typename id } }","variables":{}}
cache no-store
answer 200 {"data":{"one":null},"errors":[{"message":"subgraph status","extensions":{"code":"SUBGRAPH_STATUS","subgraph":"a","status":503}}]}
"#,
};

/// The second reply has errors beside its data, one of them without a message. So nothing of it is kept, and it is asked for again.
const ERRORS_BESIDE_DATA: Row = Row {
    case: SHOP,
    rest: r#""requests":[{"now":0,"id":null,"query":"{ one { id price } }","variables":{}},{"now":1000,"id":null,"query":"{ one { id price } }","variables":{}}],
"replies":[
{"subgraph":"a","status":200,"cacheControl":"max-age=60","age":null,"body":{"data":{"one":{"__typename":"Item","id":"2"}}}},
{"subgraph":"b","status":200,"cacheControl":"max-age=60","age":null,"body":{"data":{"_entities":[{"price":"2.00"}]},"errors":[{"message":"slow"},{}]}},
{"subgraph":"b","status":200,"cacheControl":"max-age=60","age":null,"body":{"data":{"_entities":[{"price":"3.00"}]}}}]}"#,
    output: r#"sent a {"query":"query { one { __typename id } }","variables":{}}
sent b {"query":"query ( $representations : [ _Any ! ] ! ) { _entities ( representations : $representations ) { ... on Item { price } } }","variables":{"representations":[{"__typename":"Item","id":"2"}]}}
cache no-store
answer 200 {"data":{"one":{"id":"2","price":"2.00"}},"errors":[{"message":"slow","path":["one"],"extensions":{"code":"SUBGRAPH_ERROR","subgraph":"b"}},{"message":"subgraph error","path":["one"],"extensions":{"code":"SUBGRAPH_ERROR","subgraph":"b"}}]}
sent b {"query":"query ( $representations : [ _Any ! ] ! ) { _entities ( representations : $representations ) { ... on Item { price } } }","variables":{"representations":[{"__typename":"Item","id":"2"}]}}
cache max-age=59, public
answer 200 {"data":{"one":{"id":"2","price":"3.00"}}}
"#,
};

/// One operation with a variable. Requests are refused for a document that can't be read or that ends too early, for an operation
/// without a plan or of another name, and for a variable that is missing, null or of the wrong kind. The last is answered, and its
/// reply was not used before.
const REFUSALS: Row = Row {
    case: r#"{"schema":"type Query { one(n: Int): Int }","subgraphs":[{"name":"a","cached":true}],"events":64,"bytes":4096,"plans":[
{"operation":"query One($n: Int!) { one(n: $n) }","plan":{"kind":"Fetch","subgraph":"a","operation":"query ($n: Int!) { one(n: $n) }","variables":["n"]}}],
"#,
    rest: r#""requests":[
{"now":0,"id":null,"query":"{a}}","variables":{}},
{"now":0,"id":null,"query":"{","variables":{}},
{"now":0,"id":null,"query":"{ one(n: 1) }","variables":{}},
{"now":0,"id":null,"query":"query Two($n: Int!) { one(n: $n) }","variables":{"n":1}},
{"now":0,"id":null,"query":"query One($n: Int!) { one(n: $n) }","variables":{}},
{"now":0,"id":null,"query":"query One($n: Int!) { one(n: $n) }","variables":{"n":null}},
{"now":0,"id":null,"query":"query One($n: Int!) { one(n: $n) }","variables":{"n":1.5}},
{"now":0,"id":null,"query":"query One($n: Int!) { one(n: $n) }","variables":{"n":1}}],
"replies":[{"subgraph":"a","status":200,"cacheControl":"max-age=60","age":null,"body":{"data":{"one":7}}}]}"#,
    output: r#"answer 400 {"errors":[{"message":"document not readable","extensions":{"code":"BAD_DOCUMENT","at":3}}]}
answer 400 {"errors":[{"message":"document not readable","extensions":{"code":"BAD_DOCUMENT","at":1}}]}
answer 400 {"errors":[{"message":"operation has no plan","extensions":{"code":"OPERATION_UNKNOWN"}}]}
answer 400 {"errors":[{"message":"operation has no plan","extensions":{"code":"OPERATION_UNKNOWN"}}]}
answer 400 {"errors":[{"message":"variable refused","extensions":{"code":"BAD_VARIABLES","variable":"n","cause":"missing"}}]}
answer 400 {"errors":[{"message":"variable refused","extensions":{"code":"BAD_VARIABLES","variable":"n","cause":"null"}}]}
answer 400 {"errors":[{"message":"variable refused","extensions":{"code":"BAD_VARIABLES","variable":"n","cause":"kind"}}]}
sent a {"query":"query ( $n : Int ! ) { one ( n : $n ) }","variables":{"n":1}}
cache max-age=60, public
answer 200 {"data":{"one":7}}
"#,
};

#[test]
fn what_goes_wrong_is_told(rt: HostRuntime) {
    let alloc = rt.alloc();
    let rows = [OTHER_STATUS, ERRORS_BESIDE_DATA, REFUSALS];
    for row in &rows {
        assert!(rt; writes(alloc, row));
    }
}

/// Whether a case of these bytes is refused with this line.
fn refuses(alloc: Global, bytes: Vec<u8>, line: &str) -> bool {
    match run_case(alloc, bytes, Vec::new(alloc), Vec::new(alloc)) {
        Err(_) => false,
        Ok(given) => given.status == 5 && given.written.as_slice() == line.as_bytes(),
    }
}

#[test]
fn refused_cases(rt: HostRuntime) {
    let alloc = rt.alloc();
    let rows = [
        ("", "case refused json\n"),
        ("{}", "case refused member schema\n"),
        (r#"{"schema":""}"#, "case refused member plans\n"),
        (
            r#"{"schema":"","plans":[],"subgraphs":[]}"#,
            "case refused member subgraphs\n",
        ),
        (
            r#"{"schema":"","plans":[],"subgraphs":[{"name":"a","cached":true}],"events":8,"bytes":16,"requests":[],"replies":[]}"#,
            "case refused schema\n",
        ),
        (
            r#"{"schema":"type Query { a: Int }","plans":{},"subgraphs":[{"name":"a","cached":true}],"events":8,"bytes":16,"requests":[],"replies":[]}"#,
            "case refused plans\n",
        ),
        (
            r#"{"schema":"type Query { a: Int }","plans":[{"operation":"{ a }","plan":{"kind":"Fetch","subgraph":"b","operation":"{ a }"}}],"subgraphs":[{"name":"a","cached":true}],"events":8,"bytes":16,"requests":[],"replies":[]}"#,
            "case refused site\n",
        ),
    ];
    for (case, line) in rows {
        let bytes = joined(alloc, case, "").unwrap_or(Vec::new(alloc));
        assert!(rt; refuses(alloc, bytes, line));
    }
    let longer = vec![in alloc; b' '; 1_048_577].unwrap_or(Vec::new(alloc));
    assert!(rt; longer.len() == 1_048_577);
    assert!(rt; refuses(alloc, longer, "case refused size\n"));
}

/// The status where one read or one write fails, and how many lines are written.
fn fails(alloc: Global, reads: Vec<u64>, writes: Vec<u64>) -> Option<(u8, usize)> {
    let bytes = joined(alloc, PARTIAL.case, PARTIAL.rest).ok()?;
    let given = run_case(alloc, bytes, reads, writes).ok()?;
    let lines = given.written.iter().filter(|b| **b == b'\n').count();
    Some((given.status, lines))
}

#[test]
fn a_read_and_each_write_fails(rt: HostRuntime) {
    let alloc = rt.alloc();
    let none: Vec<u64> = Vec::new(alloc);
    let first = vec![in alloc; 0u64; 1].unwrap_or(Vec::new(alloc));
    assert!(rt; fails(alloc, first, none) == Some((6, 0)));
    let first = vec![in alloc; 0u64; 1].unwrap_or(Vec::new(alloc));
    assert!(rt; fails(alloc, Vec::new(alloc), first) == Some((7, 0)));
    let second = vec![in alloc; 1u64; 1].unwrap_or(Vec::new(alloc));
    assert!(rt; fails(alloc, Vec::new(alloc), second) == Some((7, 4)));
}
