use crate::{Ask, ask_of};
use cache_terms::Key;
use flow_base::{Memory, Text};
use json_paths::Requires;
use json_value::Json;
use plan_exec::Asked;
use plan_tree::Fetch;
use std::alloc::Global;
use std::process::Abort;
use std::test::Fail;
use tree_items::Items;

/// A fetch from `b`, and the front of the call and the key of each piece that are wanted. `needs` is the type of the
/// entities, which are the items `1` and `3`, or empty for a root fetch.
struct Row {
    mutation: bool,
    sel: &'static str,
    needs: &'static str,
    names: &'static [&'static str],
    front: &'static str,
    type_name: &'static str,
    key_sel: &'static str,
}

const ROWS: [Row; 4] = [
    Row {
        mutation: false,
        sel: "query { one { __typename id } }",
        needs: "",
        names: &[],
        front: "{\"query\":\"query { one { __typename id } }\",\"variables\":{}}",
        type_name: "Query",
        key_sel: "query { one { __typename id } }\n{}",
    },
    Row {
        mutation: true,
        sel: "mutation { a ( t : \"x\" ) }",
        needs: "",
        names: &["on", "absent", "first"],
        front: "{\"query\":\"mutation { a ( t : \\\"x\\\" ) }\",\"variables\":{\"on\":true,\"first\":2}}",
        type_name: "Mutation",
        key_sel: "mutation { a ( t : \"x\" ) }\n{\"on\":true,\"first\":2}",
    },
    Row {
        mutation: false,
        sel: "query ( $representations : [ _Any ! ] ! ) { .. }",
        needs: "Item",
        names: &[],
        front: "{\"query\":\"query ( $representations : [ _Any ! ] ! ) { .. }\",\"variables\":{\"representations\":[",
        type_name: "Item",
        key_sel: "query ( $representations : [ _Any ! ] ! ) { .. }\n{}",
    },
    Row {
        mutation: false,
        sel: "query { .. }",
        needs: "Item",
        names: &["first"],
        front: "{\"query\":\"query { .. }\",\"variables\":{\"first\":2,\"representations\":[",
        type_name: "Item",
        key_sel: "query { .. }\n{\"first\":2}",
    },
];

fn member(alloc: Global, name: &str, value: Json) -> Result<(Text, Json), Memory> {
    Ok((Text::of(alloc, name)?, value))
}

/// `{"first":2,"other":null,"on":true}`
fn variables(alloc: Global) -> Result<Json, Memory> {
    let mut members = Items::new(alloc);
    members.push(member(alloc, "first", Json::Number(Text::of(alloc, "2")?))?)?;
    members.push(member(alloc, "other", Json::Null)?)?;
    members.push(member(alloc, "on", Json::Bool(true))?)?;
    Ok(Json::Object(members))
}

fn item(alloc: Global, id: &str) -> Result<Json, Memory> {
    let mut members = Items::new(alloc);
    members.push(member(alloc, "__typename", Json::Str(Text::of(alloc, "Item")?))?)?;
    members.push(member(alloc, "id", Json::Str(Text::of(alloc, id)?))?)?;
    Ok(Json::Object(members))
}

fn fetch(alloc: Global, row: &Row) -> Result<Fetch, Memory> {
    let mut names = Items::new(alloc);
    for name in row.names {
        names.push(Text::of(alloc, name)?)?;
    }
    let needs = match row.needs {
        "" => None,
        _ => Some(Requires {
            type_name: Text::of(alloc, row.needs)?,
            fields: Items::new(alloc),
        }),
    };
    Ok(Fetch {
        sub: Text::of(alloc, "b")?,
        mutation: row.mutation,
        sel: Text::of(alloc, row.sel)?,
        needs,
        variables: names,
    })
}

fn asked(alloc: Global, row: &Row) -> Result<Asked, Memory> {
    if row.needs.is_empty() {
        return Ok(Asked::Root);
    }
    let mut distinct = Items::new(alloc);
    distinct.push(item(alloc, "1")?)?;
    distinct.push(item(alloc, "3")?)?;
    Ok(Asked::Entities {
        distinct,
        used_by: Items::new(alloc),
    })
}

fn check_ask(rt: &impl Abort, row: &Row, ask: &Ask) {
    assert_eq!(rt; ask.sub, 1);
    assert_eq!(rt; ask.name.as_str(), "b");
    assert_eq!(rt; ask.front.as_str(), row.front);
    assert_eq!(rt;
        ask.back.as_str(),
        if row.needs.is_empty() { "" } else { "]}}" }
    );
    assert_eq!(rt; ask.entities, !row.needs.is_empty());
    assert_eq!(rt; ask.mutation, row.mutation);
    assert!(rt; ask.uncached);
}

fn check_keys(rt: &impl Abort, row: &Row, keys: &[Key]) {
    let reps: &[&str] = if row.needs.is_empty() {
        &[""]
    } else {
        &[
            "{\"__typename\":\"Item\",\"id\":\"1\"}",
            "{\"__typename\":\"Item\",\"id\":\"3\"}",
        ]
    };
    assert_eq!(rt; keys.len(), reps.len());
    for i in 0..keys.len() {
        assert_eq!(rt; keys[i].sub.as_str(), "b");
        assert_eq!(rt; keys[i].type_name.as_str(), row.type_name);
        assert_eq!(rt; keys[i].rep.as_str(), reps[i]);
        assert_eq!(rt; keys[i].sel.as_str(), row.key_sel);
    }
}

#[test]
fn asks_and_keys_of_fetches(rt: HostRuntime) -> Result<(), Fail> {
    let alloc = rt.alloc();
    let variables = variables(alloc)?;
    for row in &ROWS {
        let fetch = fetch(alloc, row)?;
        let asked = asked(alloc, row)?;
        let (ask, keys) = ask_of(alloc, 1, true, &fetch, &asked, &variables)?;
        check_ask(&rt, row, &ask);
        check_keys(&rt, row, &keys);
    }
    Ok(())
}
