use crate::reading::{document, json, schema, write_place};
use flow_base::{Memory, Text};
use gql_inputs::{VarFault, coerce};
use gql_terms::Operation;
use gql_types::Schema;
use json_paths::Place;
use json_tree::{Json, print};
use std::alloc::Global;
use std::test::Fail;

fn refused(alloc: Global, cause: &str, name: &Text, place: &Place) -> Result<String, Memory> {
    let mut text = String::from_str(alloc, cause)?;
    text.push_str(name.as_str())?;
    text.push_str(" ")?;
    write_place(alloc, &mut text, place)?;
    Ok(text)
}

fn told(alloc: Global, cause: &str, name: &Text) -> Result<String, Memory> {
    let mut text = String::from_str(alloc, cause)?;
    text.push_str(name.as_str())?;
    Ok(text)
}

const TYPES: &str = "type Query { a: Int } enum Size { BIG SMALL } scalar Date
    input Box { size: Size = BIG n: [Int!] } input Key { id: ID! box: Box }";

/// The object of the values of an operation's variables, or why they are refused.
fn told_values(
    alloc: Global,
    schema: &Schema,
    operation: &Operation,
    given: &Json,
) -> Result<String, Memory> {
    match coerce(alloc, schema, operation, given) {
        Ok(value) => Ok(String::from_str(alloc, print(alloc, &value)?.as_str())?),
        Err(VarFault::Missing(name)) => told(alloc, "missing ", &name),
        Err(VarFault::Null(name)) => told(alloc, "null ", &name),
        Err(VarFault::WrongKind(name, place)) => refused(alloc, "kind ", &name, &place),
        Err(VarFault::Memory) => Err(Memory),
    }
}

/// What the variables of these definitions come to.
fn coerced(alloc: Global, definitions: &str, given: &str) -> Result<String, Fail> {
    let query = format!(in alloc; "query({definitions}){{a}}")?;
    let document = document(alloc, query.as_str())?;
    let schema = schema(alloc, TYPES)?;
    let given = json(alloc, given)?;
    match document.operations.get(0) {
        Some(operation) => Ok(told_values(alloc, &schema, operation, &given)?),
        None => Ok(String::new(alloc)),
    }
}

const CASES: [(&str, &str, &str); 37] = [
    ("$n:Int!", "{}", "missing n"),
    ("$n:Int!", r#"{"n":null}"#, "null n"),
    ("$n:Int!", r#"{"n":1.5}"#, "kind n "),
    ("$n:[Int]=[2]", "{}", r#"{"n":[2]}"#),
    ("$n:[Int]=[2]", r#"{"n":3}"#, r#"{"n":[3]}"#),
    ("$n:[Int]=[2]", r#"{"n":null}"#, r#"{"n":null}"#),
    ("$n:Int!=5", "{}", r#"{"n":5}"#),
    ("$n:Int!=5", r#"{"n":null}"#, "null n"),
    ("$n:Int", "{}", "{}"),
    ("$n:Int", r#"{"m":1}"#, "{}"),
    ("$n:Int", "7", "{}"),
    ("$b:Int $a:Int", r#"{"a":1,"b":2}"#, r#"{"b":2,"a":1}"#),
    ("$b:Int! $a:Int!", "{}", "missing b"),
    ("$n:Int $n:Int!", "{}", "{}"),
    ("$n:Int", r#"{"n":"1"}"#, "kind n "),
    ("$n:Float", r#"{"n":1}"#, r#"{"n":1}"#),
    ("$n:String", r#"{"n":1}"#, "kind n "),
    ("$n:Boolean", r#"{"n":true}"#, r#"{"n":true}"#),
    ("$n:ID", r#"{"n":7}"#, r#"{"n":7}"#),
    ("$n:Date", r#"{"n":{"x":[]}}"#, r#"{"n":{"x":[]}}"#),
    ("$n:Size", r#"{"n":"SMALL"}"#, r#"{"n":"SMALL"}"#),
    ("$n:Size", r#"{"n":"HUGE"}"#, "kind n "),
    ("$n:Size=SMALL", "{}", r#"{"n":"SMALL"}"#),
    (
        "$n:Date={a:[BIG \"\\u0041\" null]}",
        "{}",
        r#"{"n":{"a":["BIG","A",null]}}"#,
    ),
    ("$n:[[Int]]", r#"{"n":[1,2]}"#, r#"{"n":[[1],[2]]}"#),
    ("$n:[[Int]]", r#"{"n":[1,"x"]}"#, "kind n 1"),
    ("$n:[Int!]", r#"{"n":[1,null]}"#, "kind n 1"),
    ("$n:[Int]", r#"{"n":[1,null]}"#, r#"{"n":[1,null]}"#),
    ("$n:Query", r#"{"n":{}}"#, "kind n "),
    ("$n:Query", r#"{"n":null}"#, r#"{"n":null}"#),
    (
        "$k:Key",
        r#"{"k":{"box":{"n":[1,2]},"id":"x"}}"#,
        r#"{"k":{"id":"x","box":{"size":"BIG","n":[1,2]}}}"#,
    ),
    (
        "$k:Key",
        r#"{"k":{"id":"x","box":{"n":7,"size":null}}}"#,
        r#"{"k":{"id":"x","box":{"size":null,"n":[7]}}}"#,
    ),
    (
        "$k:Key",
        r#"{"k":{"id":"x","box":{"n":[1,null]}}}"#,
        "kind k box,n,1",
    ),
    ("$k:Key", r#"{"k":{"zz":1,"id":"x"}}"#, "kind k zz"),
    ("$k:Key", r#"{"k":{"zz":1}}"#, "kind k "),
    ("$k:Key", r#"{"k":{"id":null}}"#, "kind k id"),
    ("$k:[Key]", r#"{"k":{"id":"x","box":7}}"#, "kind k box"),
];

#[test]
fn variables_are_coerced(rt: HostRuntime) -> Result<(), Fail> {
    for (definitions, given, wanted) in CASES {
        assert_eq!(rt;
            coerced(rt.alloc(), definitions, given)?.as_str(),
            wanted,
            "{definitions} {given}"
        );
    }
    Ok(())
}
