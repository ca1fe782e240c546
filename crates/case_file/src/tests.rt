ghost use Rattle.std.specs.Prelude.{◌≤◌};

use crate::{CaseFault, CaseMember, case_is_one, read_case};
use std::alloc::{AllocError, Global};
use std::test::Fail;

/// The members of a small case, and their texts.
const MEMBERS: [(&str, &str); 7] = [
    ("schema", r#""type Query { a(b: Int): Int }""#),
    ("plans", "[]"),
    ("subgraphs", r#"[{"name":"a","cached":true}]"#),
    ("events", "8"),
    ("bytes", "16"),
    ("requests", "[]"),
    ("replies", "[]"),
];

/// The small case without its members from this number on.
fn with_first(alloc: Global, count: usize) -> Result<String, AllocError>
    requires { count ≤ 7 }
{
    let mut text = String::new(alloc);
    text.push_str("{\"x\":0")?;
    for (name, value) in &MEMBERS[..count] {
        text.push_str(",\"")?;
        text.push_str(name)?;
        text.push_str("\":")?;
        text.push_str(value)?;
    }
    text.push_str("}")?;
    Ok(text)
}

/// The small case with another text for one of its members.
fn with_other(alloc: Global, other: &str, value: &str) -> Result<String, AllocError> {
    let mut text = String::new(alloc);
    text.push_str("{\"x\":0")?;
    for (name, usual) in &MEMBERS {
        text.push_str(",\"")?;
        text.push_str(name)?;
        text.push_str("\":")?;
        text.push_str(if *name == other { value } else { usual })?;
    }
    text.push_str("}")?;
    Ok(text)
}

fn fault(alloc: Global, text: &str) -> Option<CaseFault> {
    read_case(alloc, text.as_bytes()).err()
}

#[test]
fn members_are_looked_at_in_order(rt: HostRuntime) -> Result<(), Fail> {
    let alloc = rt.alloc();
    let order = [
        CaseMember::Schema,
        CaseMember::Plans,
        CaseMember::Subgraphs,
        CaseMember::Events,
        CaseMember::Bytes,
        CaseMember::Requests,
        CaseMember::Replies,
    ];
    for i in 0..7usize {
        let text = with_first(alloc, i)?;
        assert!(rt; fault(alloc, &text) == Some(CaseFault::Member(order[i])));
        assert!(rt; order[i].name() == MEMBERS[i].0);
    }
    let whole = with_first(alloc, 7)?;
    assert!(rt; fault(alloc, &whole) == None);
    assert!(rt; fault(alloc, "{") == Some(CaseFault::Json));
    assert!(rt; fault(alloc, "[]") == Some(CaseFault::Member(CaseMember::Schema)));
    case_is_one();
    Ok(())
}

/// The fault of the small case with another text for this member.
fn fault_with(alloc: Global, member: &str, value: &str) -> Result<Option<CaseFault>, AllocError> {
    let text = with_other(alloc, member, value)?;
    Ok(fault(alloc, &text))
}

#[test]
fn each_form_is_asked(rt: HostRuntime) -> Result<(), Fail> {
    let alloc = rt.alloc();
    let table = [
        (
            "schema",
            "null",
            Some(CaseFault::Member(CaseMember::Schema)),
        ),
        ("schema", r#""type Query {""#, Some(CaseFault::Schema)),
        ("plans", "null", Some(CaseFault::Plans)),
        (
            "subgraphs",
            "[]",
            Some(CaseFault::Member(CaseMember::Subgraphs)),
        ),
        (
            "subgraphs",
            r#"[{"name":"a","cached":true},{"name":"a","cached":false}]"#,
            Some(CaseFault::Member(CaseMember::Subgraphs)),
        ),
        (
            "subgraphs",
            r#"[{"name":"a","cached":0}]"#,
            Some(CaseFault::Member(CaseMember::Subgraphs)),
        ),
        ("events", "7", Some(CaseFault::Member(CaseMember::Events))),
        ("events", "65536", None),
        (
            "events",
            "65537",
            Some(CaseFault::Member(CaseMember::Events)),
        ),
        ("events", "8.0", Some(CaseFault::Member(CaseMember::Events))),
        ("bytes", "15", Some(CaseFault::Member(CaseMember::Bytes))),
        ("bytes", "268435456", None),
        (
            "bytes",
            "268435457",
            Some(CaseFault::Member(CaseMember::Bytes)),
        ),
        (
            "requests",
            r#"[{"now":0,"id":"","query":"","variables":{}}]"#,
            None,
        ),
        (
            "requests",
            r#"[{"now":0,"query":"","variables":{}}]"#,
            Some(CaseFault::Member(CaseMember::Requests)),
        ),
        (
            "requests",
            r#"[{"now":0,"id":null,"query":"","variables":[]}]"#,
            Some(CaseFault::Member(CaseMember::Requests)),
        ),
        ("replies", r#"[{"subgraph":"a","fail":true}]"#, None),
        (
            "replies",
            r#"[{"subgraph":"b","fail":true}]"#,
            Some(CaseFault::Member(CaseMember::Replies)),
        ),
        (
            "replies",
            r#"[{"subgraph":"a","fail":1,"status":65535,"cacheControl":null,"age":"1","body":null}]"#,
            None,
        ),
        (
            "replies",
            r#"[{"subgraph":"a","status":65536,"cacheControl":null,"age":null,"body":null}]"#,
            Some(CaseFault::Member(CaseMember::Replies)),
        ),
        (
            "replies",
            r#"[{"subgraph":"a","status":200,"cacheControl":null,"age":null}]"#,
            Some(CaseFault::Member(CaseMember::Replies)),
        ),
    ];
    for (member, value, expected) in table {
        let found = fault_with(alloc, member, value)?;
        assert!(rt; found == expected, "at {member} {value}");
    }
    Ok(())
}

/// A shop in which one item is asked for, with its price.
const SHOP: &str = r#"{
    "schema": "type Query { one: Item items: [Item] } type Item { id: ID! price: String stock: Int }",
    "plans": [{"operation":"{ one { id price } }","plan":{"kind":"Sequence","nodes":[
        {"kind":"Fetch","subgraph":"a","operation":"query { one { __typename id } }"},
        {"kind":"Flatten","path":["one"],"node":{"kind":"Fetch","subgraph":"b",
            "operation":"query ($representations: [_Any!]!) { _entities(representations: $representations) { ... on Item { price } } }",
            "requires":{"type":"Item","fields":[{"name":"id"}]}}}]}}],
    "subgraphs": [{"name":"a","cached":true},{"name":"b","cached":false}],
    "events": 64, "bytes": 4096,
    "requests": [{"now":5000,"id":"u1","query":"{ one { id price } }","variables":{}}],
    "replies": [
        {"subgraph":"b","status":200,"cacheControl":"max-age=60","age":null,"body":{"data": null},"text":"x"},
        {"subgraph":"a","status":503,"cacheControl":null,"age":"7","text":"no JSON"},
        {"subgraph":"a","fail":true}]
}"#;

#[test]
fn a_shop_is_read(rt: HostRuntime) {
    let Ok(case) = read_case(rt.alloc(), SHOP.as_bytes()) else {
        panic!(rt; "refused");
    };
    let config = &case.site.config;
    let subs = config.subs.as_slice();
    assert!(rt; config.limits.events == 64 && config.limits.bytes == 4096);
    assert!(rt; config.workers == 1 && config.lines == 1 && config.connections == 0);
    assert!(rt; subs.len() == 2 && subs[0].name.as_str() == "a" && subs[1].name.as_str() == "b");
    assert!(rt; subs[0].cached && !subs[1].cached && subs[0].path.as_str().is_empty());
    assert!(rt; case.site.plans.entries.len() == 1 && case.requests.len() == 1);
    for timed in case.requests.as_slice() {
        assert!(rt; timed.moment == 5000 && timed.request.query.as_str() == "{ one { id price } }");
        assert!(rt; timed.request.operation_name.is_none());
        match &timed.request.id {
            Some(id) => assert!(rt; id.as_str() == "u1"),
            None => panic!(rt; "no id"),
        }
    }
}

#[test]
fn replies_keep_their_bytes(rt: HostRuntime) {
    let Ok(case) = read_case(rt.alloc(), SHOP.as_bytes()) else {
        panic!(rt; "refused");
    };
    let replies = case.replies.as_slice();
    assert!(rt; replies.len() == 3 && replies[0].sub == 1 && replies[1].sub == 0);
    let (Some(first), Some(second)) = (&replies[0].reply, &replies[1].reply) else {
        panic!(rt; "no reply");
    };
    assert!(rt; first.status == 200 && first.body.as_slice() == b"{\"data\":null}".as_slice());
    assert!(rt; second.status == 503 && second.body.as_slice() == b"no JSON".as_slice());
    assert!(rt; first.cache_control.is_some() && first.age.is_none());
    assert!(rt; second.cache_control.is_none() && second.age.is_some());
    assert!(rt; replies[2].sub == 0 && replies[2].reply.is_none());
}

/// Entries whose plan asks the subgraph `b`, and whose variable is of an object type.
const STRANGE: [&str; 2] = [
    r#"[{"operation":"{ a }","plan":{"kind":"Fetch","subgraph":"b","operation":"{ a }"}}]"#,
    r#"[{"operation":"query ($b: Query) { a(b: $b) }","plan":{"kind":"Fetch","subgraph":"a","operation":"{ a }"}}]"#,
];

#[test]
fn the_parts_fit(rt: HostRuntime) -> Result<(), Fail> {
    let alloc = rt.alloc();
    for plans in STRANGE {
        let found = fault_with(alloc, "plans", plans)?;
        assert!(rt; found == Some(CaseFault::Site));
    }
    Ok(())
}
