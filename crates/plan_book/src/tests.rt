use crate::{Entry, PlanBook, PlanFault, read_plans};
use flow_base::{Memory, Text};
use gql_terms::Document;
use json_tree::read;
use plan_tree::{Node, Plan};
use std::alloc::{AllocError, Global};
use std::test::Fail;
use tree_items::Items;

/// An entry with this text, whose plan is one fetch of this number.
fn entry(alloc: Global, text: &str, number: u64) -> Result<Entry, Memory> {
    Ok(Entry {
        text: Text::of(alloc, text)?,
        document: Document {
            operations: Items::new(alloc),
            fragments: Items::new(alloc),
        },
        plan: Plan {
            root: Node::Fetch(number),
            fetches: Items::new(alloc),
        },
    })
}

fn number(found: Option<&Entry>) -> Option<u64> {
    match found {
        Some(entry) => match &entry.plan.root {
            Node::Fetch(number) => Some(*number),
            _ => None,
        },
        None => None,
    }
}

#[test]
fn entries_are_found_by_their_texts(rt: HostRuntime) -> Result<(), Fail> {
    let alloc = rt.alloc();
    let (a, b, c) = (
        Text::of(alloc, "query { a }")?,
        Text::of(alloc, "query { b }")?,
        Text::of(alloc, "query { c }")?,
    );
    let mut book = PlanBook::new(alloc);
    let first = book.add(entry(alloc, "query { a }", 1)?)?;
    let second = book.add(entry(alloc, "query { b }", 2)?)?;
    let again = book.add(entry(alloc, "query { a }", 3)?)?;
    assert_eq!(rt; (first, second, again), (true, true, false));
    assert_eq!(rt; book.entries.len(), 2);
    assert_eq!(rt; number(book.find(&a)), Some(1));
    assert_eq!(rt; number(book.find(&b)), Some(2));
    assert_eq!(rt; number(book.find(&c)), None);
    Ok(())
}

/// The fault in words.
fn told(alloc: Global, fault: &PlanFault) -> Result<String, AllocError> {
    match fault {
        PlanFault::Field(entry, name) => format!(in alloc; "field {entry} {}", name.as_str()),
        PlanFault::Kind(entry, node) => format!(in alloc; "kind {entry} {node}"),
        PlanFault::Nesting(entry, node) => format!(in alloc; "nesting {entry} {node}"),
        PlanFault::Spread(entry, name) => format!(in alloc; "spread {entry} {}", name.as_str()),
        PlanFault::TooMany(entry, count) => format!(in alloc; "many {entry} {count}"),
        PlanFault::Twice(entry) => format!(in alloc; "twice {entry}"),
        PlanFault::Memory => format!(in alloc; "memory"),
    }
}

/// What reading a text as a plan file comes to: its fault, or how many entries it has.
fn outcome(alloc: Global, text: &str) -> Result<String, AllocError> {
    let Ok(value) = read(alloc, text.as_bytes()) else {
        return format!(in alloc; "no JSON");
    };
    match read_plans(alloc, &value) {
        Ok(book) => format!(in alloc; "entries {}", book.entries.len()),
        Err(fault) => told(alloc, &fault),
    }
}

/// An entry of a query whose plan is this text.
fn with_plan(alloc: Global, plan: &str) -> Result<String, AllocError> {
    format!(in alloc; "[{{\"operation\":\"{{a}}\",\"plan\":{plan}}}]")
}

/// What is wrong with entries, and with what in them.
const ENTRIES: [(&str, &str); 14] = [
    (r#"{}"#, "field 0 "),
    (r#"[]"#, "entries 0"),
    (r#"[7]"#, "field 0 operation"),
    (r#"[{"plan":{}}]"#, "field 0 operation"),
    (r#"[{"operation":"{a","plan":{}}]"#, "field 0 operation"),
    (
        r#"[{"operation":"query A {a} query B {b}","plan":{}}]"#,
        "field 0 operation",
    ),
    (
        r#"[{"operation":"subscription {a}","plan":{}}]"#,
        "field 0 operation",
    ),
    (
        r#"[{"operation":"fragment F on T {a}","plan":{}}]"#,
        "field 0 operation",
    ),
    (r#"[{"operation":"{...F}","plan":{}}]"#, "spread 0 F"),
    (r#"[{"operation":"{a}"}]"#, "field 0 plan"),
    (r#"[{"operation":"{a}","plan":[]}]"#, "field 0 plan"),
    (
        r#"[{"operation":"{a}","plan":{"kind":"Loop"}}]"#,
        "kind 0 0",
    ),
    (r#"[{"operation":"{a}","plan":{}}]"#, "kind 0 0"),
    (
        r#"[{"operation":"{a}","plan":{"kind":"Parallel","nodes":[]}}]"#,
        "field 0 nodes",
    ),
];

#[test]
fn entries_are_read_or_refused(rt: HostRuntime) -> Result<(), Fail> {
    for (text, expected) in ENTRIES {
        assert_eq!(rt; outcome(rt.alloc(), text)?.as_str(), expected, "{text}");
    }
    Ok(())
}

/// Plans of a query, and what is wrong with their nodes.
const PLANS: [(&str, &str); 31] = [
    (
        r#"{"kind":"Fetch","subgraph":"a","operation":"{a}"}"#,
        "entries 1",
    ),
    (r#"{"kind":"Fetch","operation":7}"#, "field 0 subgraph"),
    (
        r#"{"kind":"Fetch","subgraph":"a","operation":7}"#,
        "field 0 operation",
    ),
    (
        r#"{"kind":"Fetch","subgraph":"a","operation":"{...F} fragment F on T {a}"}"#,
        "field 0 operation",
    ),
    (
        r#"{"kind":"Fetch","subgraph":"a","operation":"{...F}"}"#,
        "entries 1",
    ),
    (
        r#"{"kind":"Fetch","subgraph":"a","operation":"{a}","variables":["x","y"]}"#,
        "entries 1",
    ),
    (
        r#"{"kind":"Fetch","subgraph":"a","operation":"{a}","variables":["x","x"]}"#,
        "field 0 variables",
    ),
    (
        r#"{"kind":"Fetch","subgraph":"a","operation":"{a}","variables":["representations"]}"#,
        "field 0 variables",
    ),
    (
        r#"{"kind":"Fetch","subgraph":"a","operation":"{a}","variables":null,"requires":7}"#,
        "field 0 variables",
    ),
    (
        r#"{"kind":"Fetch","subgraph":"a","operation":"{a}","requires":null}"#,
        "field 0 requires",
    ),
    (
        r#"{"kind":"Fetch","subgraph":"a","operation":"{a}","requires":{"type":"T","fields":[]}}"#,
        "field 0 requires",
    ),
    (
        r#"{"kind":"Fetch","subgraph":"a","operation":"{a}","requires":{"type":"T","fields":[{"name":"x"},{"name":"x"}]}}"#,
        "field 0 requires",
    ),
    (
        r#"{"kind":"Fetch","subgraph":"a","operation":"{a}","requires":{"type":"T","fields":[{"name":"__typename"}]}}"#,
        "field 0 requires",
    ),
    (
        r#"{"kind":"Fetch","subgraph":"a","operation":"{a}","requires":{"type":"T","fields":[{"name":"x","fields":null}]}}"#,
        "field 0 requires",
    ),
    (
        r#"{"kind":"Fetch","subgraph":"a","operation":"{a}","requires":{"type":"T","fields":[{"name":"x","fields":[{"name":"y"}]}]}}"#,
        "nesting 0 0",
    ),
    (
        r#"{"kind":"Fetch","subgraph":"a","operation":"mutation {a}"}"#,
        "nesting 0 0",
    ),
    (r#"{"kind":"Flatten","path":[],"node":7}"#, "field 0 path"),
    (
        r#"{"kind":"Flatten","path":["a",7],"node":7}"#,
        "field 0 path",
    ),
    (
        r#"{"kind":"Flatten","path":["a","@"],"node":7}"#,
        "field 0 node",
    ),
    (r#"{"kind":"Flatten","path":["a"],"node":{}}"#, "kind 0 1"),
    (
        r#"{"kind":"Flatten","path":["a"],"node":{"kind":"Fetch","subgraph":"a","operation":"{a}"}}"#,
        "nesting 0 1",
    ),
    (
        r#"{"kind":"Flatten","path":["a"],"node":{"kind":"Fetch","subgraph":"a","operation":"{a}","requires":{"type":"T","fields":[{"name":"x"}]}}}"#,
        "entries 1",
    ),
    (
        r#"{"kind":"Flatten","path":["a"],"node":{"kind":"Fetch","subgraph":"a","operation":"mutation {a}","requires":{"type":"T","fields":[{"name":"x"}]}}}"#,
        "nesting 0 1",
    ),
    (
        r#"{"kind":"Flatten","path":["a"],"node":{"kind":"Flatten","path":["a"],"node":{}}}"#,
        "nesting 0 1",
    ),
    (
        r#"{"kind":"Flatten","path":["a"],"node":{"kind":"Sequence","nodes":[]}}"#,
        "field 0 nodes",
    ),
    (
        r#"{"kind":"Flatten","path":["a"],"node":{"kind":"Parallel","nodes":[{}]}}"#,
        "nesting 0 1",
    ),
    (r#"{"kind":"Sequence","nodes":[{},7]}"#, "field 0 nodes"),
    (r#"{"kind":"Sequence","nodes":{}}"#, "field 0 nodes"),
    (
        r#"{"kind":"Sequence","nodes":[{"kind":"Parallel","nodes":[{"kind":"Fetch","subgraph":"a","operation":"{a}"}]},{}]}"#,
        "kind 0 3",
    ),
    (
        r#"{"kind":"Sequence","nodes":[{"kind":"Flatten","path":["a"],"node":{"kind":"Fetch","subgraph":"a","operation":"{a}","requires":{"type":"T","fields":[{"name":"x"}]}}},{}]}"#,
        "kind 0 3",
    ),
    (
        r#"{"kind":"Parallel","nodes":[{"kind":"Sequence","nodes":[]},{"kind":"Loop"}]}"#,
        "field 0 nodes",
    ),
];

#[test]
fn plans_are_read_or_refused(rt: HostRuntime) -> Result<(), Fail> {
    let alloc = rt.alloc();
    for (plan, expected) in PLANS {
        let text = with_plan(alloc, plan)?;
        assert_eq!(rt; outcome(alloc, text.as_str())?.as_str(), expected, "{plan}");
    }
    Ok(())
}

const FETCH: &str = r#"{"kind":"Fetch","subgraph":"a","operation":"{a}"}"#;

/// A Sequence of so many fetches.
fn wide(alloc: Global, fetches: u64) -> Result<String, AllocError> {
    let mut plan = format!(in alloc; "{{\"kind\":\"Sequence\",\"nodes\":[{FETCH}")?;
    for _ in 1..fetches {
        plan.push_str(",")?;
        plan.push_str(FETCH)?;
    }
    plan.push_str("]}")?;
    with_plan(alloc, plan.as_str())
}

/// A fetch in so many Sequences.
fn deep(alloc: Global, levels: u64) -> Result<String, AllocError> {
    let mut plan = String::new(alloc);
    for _ in 0..levels {
        plan.push_str("{\"kind\":\"Sequence\",\"nodes\":[")?;
    }
    plan.push_str(FETCH)?;
    for _ in 0..levels {
        plan.push_str("]}")?;
    }
    with_plan(alloc, plan.as_str())
}

/// A list of so many numbers.
fn long(alloc: Global, entries: u64) -> Result<String, AllocError> {
    let mut text = format!(in alloc; "[0")?;
    for _ in 1..entries {
        text.push_str(",0")?;
    }
    text.push_str("]")?;
    Ok(text)
}

#[test]
fn what_is_too_many_is_refused(rt: HostRuntime) -> Result<(), Fail> {
    let alloc = rt.alloc();
    assert_eq!(rt;
        outcome(alloc, wide(alloc, 64)?.as_str())?.as_str(),
        "entries 1"
    );
    assert_eq!(rt;
        outcome(alloc, wide(alloc, 65)?.as_str())?.as_str(),
        "many 0 65"
    );
    assert_eq!(rt;
        outcome(alloc, deep(alloc, 15)?.as_str())?.as_str(),
        "entries 1"
    );
    assert_eq!(rt;
        outcome(alloc, deep(alloc, 16)?.as_str())?.as_str(),
        "many 0 17"
    );
    assert_eq!(rt;
        outcome(alloc, long(alloc, 1000)?.as_str())?.as_str(),
        "field 0 operation"
    );
    assert_eq!(rt;
        outcome(alloc, long(alloc, 1001)?.as_str())?.as_str(),
        "many 1000 1001"
    );
    Ok(())
}

/// Two documents of one operation, the second with this text.
fn two(alloc: Global, operation: &str) -> Result<String, AllocError> {
    format!(in alloc;
        "[{{\"operation\":\"{{a}}\",\"plan\":{FETCH}}},{{\"operation\":\"{operation}\",\"plan\":{FETCH}}}]"
    )
}

#[test]
fn a_document_has_one_entry(rt: HostRuntime) -> Result<(), Fail> {
    let alloc = rt.alloc();
    assert_eq!(rt;
        outcome(alloc, two(alloc, "query {a}")?.as_str())?.as_str(),
        "twice 1"
    );
    assert_eq!(rt;
        outcome(alloc, two(alloc, "query {b}")?.as_str())?.as_str(),
        "entries 2"
    );
    assert_eq!(rt;
        outcome(alloc, two(alloc, "{a b(")?.as_str())?.as_str(),
        "field 1 operation"
    );
    Ok(())
}

/// O4 of the Shop case: a root fetch, and then two entity fetches beside one another.
const SHOP: &str =
    r#"[{"operation":"{ one { id price stock } }","plan":{"kind":"Sequence","nodes":[{"kind":"Fetch","subgraph":"a","operation":"{ one { __typename id } }"},{"kind":"Parallel","nodes":[{"kind":"Flatten","path":["one"],"node":{"kind":"Fetch","subgraph":"b","operation":"query ($representations: [_Any!]!) { _entities(representations: $representations) { ... on Item { price } } }","requires":{"type":"Item","fields":[{"name":"id"}]}}},{"kind":"Flatten","path":["one"],"node":{"kind":"Fetch","subgraph":"c","operation":"query ($representations: [_Any!]!) { _entities(representations: $representations) { ... on Item { stock } } }","requires":{"type":"Item","fields":[{"name":"id"}]}}}]}]}}]"#;

#[test]
fn fetches_are_numbered_in_order(rt: HostRuntime) -> Result<(), Fail> {
    let alloc = rt.alloc();
    let value = read(alloc, SHOP.as_bytes())?;
    let book = read_plans(alloc, &value)?;
    let text = Text::of(alloc, "query { one { id price stock } }")?;
    let Some(found) = book.find(&text) else {
        panic!(rt; "no entry");
    };
    let fetches = found.plan.fetches.as_slice();
    assert_eq!(rt; fetches.len(), 3);
    assert_eq!(rt; fetches[0].sel.as_str(), "query { one { __typename id } }");
    assert_eq!(rt; fetches[1].sub.as_str(), "b");
    assert_eq!(rt; fetches[2].sub.as_str(), "c");
    assert_eq!(rt; fetches[2].needs.is_some(), true);
    let Node::Sequence(nodes) = &found.plan.root else {
        panic!(rt; "no sequence");
    };
    let Some(Node::Parallel(beside)) = nodes.get(1) else {
        panic!(rt; "no parallel");
    };
    assert!(rt; matches!(beside.get(1), Some(Node::Flatten(_, 2))));
    Ok(())
}
