use crate::string::unescaped;
use crate::{VarFault, coerce};
use flow_base::{Memory, Text};
use gql_terms::{OpKind, Operation, TypeRef, Value, VarDef};
use gql_types::{InputField, Schema, TypeBody, TypeDef};
use json_paths::{Place, Spot};
use json_value::{Json, equal};
use std::alloc::Global;
use std::test::Fail;
use tree_items::{Boxed, Items};

fn one<T: Drop>(alloc: Global, item: T) -> Result<Items<T>, Memory> {
    let mut items = Items::new(alloc);
    items.push(item)?;
    Ok(items)
}

fn named(alloc: Global, name: &str) -> Result<TypeRef, Memory> {
    Ok(TypeRef::Named(Text::of(alloc, name)?))
}

fn list(alloc: Global, of: TypeRef) -> Result<TypeRef, Memory> {
    Ok(TypeRef::ListOf(Boxed::new(alloc, of)?))
}

fn required(alloc: Global, of: TypeRef) -> Result<TypeRef, Memory> {
    Ok(TypeRef::NonNull(Boxed::new(alloc, of)?))
}

fn type_of(alloc: Global, written: &str) -> Result<TypeRef, Memory> {
    match written {
        "Int!" => required(alloc, named(alloc, "Int")?),
        "[Int]" => list(alloc, named(alloc, "Int")?),
        "[Int!]" => list(alloc, required(alloc, named(alloc, "Int")?)?),
        "[[Int]]" => list(alloc, list(alloc, named(alloc, "Int")?)?),
        _ => named(alloc, written),
    }
}

fn define(types: &mut Items<TypeDef>, name: Text, body: TypeBody) -> Result<(), Memory> {
    Ok(types.push(TypeDef { name, body })?)
}

// An input type with one field.
fn input(
    alloc: Global,
    name: &str,
    of: TypeRef,
    default: Option<Value>,
) -> Result<TypeBody, Memory> {
    let name = Text::of(alloc, name)?;
    Ok(TypeBody::Input(one(alloc, InputField { name, of, default })?))
}

/// `enum Size { BIG }  input Box { size: Size = BIG }  input Key { id: Int! }  type Query`, and Int, ID and Date
fn schema(alloc: Global) -> Result<Schema, Memory> {
    let mut types = Items::new(alloc);
    for name in ["Int", "ID", "Date"] {
        define(&mut types, Text::of(alloc, name)?, TypeBody::Scalar)?;
    }
    let sizes = TypeBody::Enum(one(alloc, Text::of(alloc, "BIG")?)?);
    define(&mut types, Text::of(alloc, "Size")?, sizes)?;
    let big = Value::EnumName(Text::of(alloc, "BIG")?);
    let boxes = input(alloc, "size", named(alloc, "Size")?, Some(big))?;
    define(&mut types, Text::of(alloc, "Box")?, boxes)?;
    let keys = input(alloc, "id", type_of(alloc, "Int!")?, None)?;
    define(&mut types, Text::of(alloc, "Key")?, keys)?;
    Schema::of(alloc, types)
}

// The definition of the variable `n`.
fn definition(alloc: Global, of: &str, default: Option<Value>) -> Result<VarDef, Memory> {
    Ok(VarDef {
        name: Text::of(alloc, "n")?,
        of: type_of(alloc, of)?,
        default,
        directives: Items::new(alloc),
    })
}

fn operation(alloc: Global, variables: Items<VarDef>) -> Operation {
    Operation {
        kind: OpKind::Query,
        name: None,
        variables,
        directives: Items::new(alloc),
        selections: Items::new(alloc),
    }
}

fn number(alloc: Global, digits: &str) -> Result<Json, Memory> {
    Ok(Json::Number(Text::of(alloc, digits)?))
}

fn string(alloc: Global, text: &str) -> Result<Json, Memory> {
    Ok(Json::Str(Text::of(alloc, text)?))
}

fn member(alloc: Global, name: &str, value: Json) -> Result<Json, Memory> {
    Ok(Json::Object(one(alloc, (Text::of(alloc, name)?, value))?))
}

fn element(alloc: Global, value: Json) -> Result<Json, Memory> {
    Ok(Json::List(one(alloc, value)?))
}

// The value that is written so, where names stand without quotes; another text is a string.
fn json(alloc: Global, written: &str) -> Result<Json, Memory> {
    match written {
        "null" => Ok(Json::Null),
        "true" => Ok(Json::Bool(true)),
        "2" => number(alloc, "2"),
        "1.5" => number(alloc, "1.5"),
        "[2]" => element(alloc, number(alloc, "2")?),
        "[[2]]" => element(alloc, element(alloc, number(alloc, "2")?)?),
        "[null]" => element(alloc, Json::Null),
        "{}" => Ok(Json::Object(Items::new(alloc))),
        "{id:2}" => member(alloc, "id", number(alloc, "2")?),
        "{id:BIG}" => member(alloc, "id", string(alloc, "BIG")?),
        "{size:BIG}" => member(alloc, "size", string(alloc, "BIG")?),
        _ => string(alloc, written),
    }
}

// The variables that are given: none where the value is absent.
fn given(alloc: Global, value: &str) -> Result<Json, Memory> {
    if value == "absent" {
        json(alloc, "{}")
    } else {
        member(alloc, "n", json(alloc, value)?)
    }
}

fn coerced(
    alloc: Global,
    of: &str,
    default: Option<Value>,
    value: &str,
) -> Result<Result<Json, VarFault>, Memory> {
    let schema = schema(alloc)?;
    let variables = one(alloc, definition(alloc, of, default)?)?;
    let given = given(alloc, value)?;
    Ok(coerce(alloc, &schema, &operation(alloc, variables), &given))
}

fn last_spot(place: &Place) -> &str {
    match place.spots.as_slice() {
        [] => "the value",
        [.., Spot::Name(name)] => name.as_str(),
        [.., Spot::Index(_)] => "an element",
    }
}

fn cause(found: &Result<Json, VarFault>) -> &str {
    match found {
        Ok(_) => "none",
        Err(VarFault::Missing(_)) => "missing",
        Err(VarFault::Null(_)) => "null",
        Err(VarFault::WrongKind(_, place)) => last_spot(place),
        Err(VarFault::Memory) => "memory",
    }
}

#[test]
fn a_fault_has_its_cause_and_its_place(rt: HostRuntime) -> Result<(), Fail> {
    let table = [
        ("Int!", "absent", "missing"),
        ("Int!", "null", "null"),
        ("Int!", "1.5", "the value"),
        ("[Int!]", "[null]", "an element"),
        ("[Int]", "BIG", "the value"),
        ("Size", "SMALL", "the value"),
        ("Size", "2", "the value"),
        ("Query", "2", "the value"),
        ("Key", "2", "the value"),
        ("Key", "{}", "the value"),
        ("Key", "{id:BIG}", "id"),
        ("Box", "{id:2}", "id"),
    ];
    for (of, value, want) in table {
        let found = coerced(rt.alloc(), of, None, value)?;
        assert_eq!(rt; cause(&found), want, "{value} as {of}");
    }
    Ok(())
}

// Whether the variable has this value, or none where it is absent.
fn comes_to(
    alloc: Global,
    of: &str,
    default: Option<Value>,
    value: &str,
    want: &str,
) -> Result<bool, Memory> {
    let want = given(alloc, want)?;
    match coerced(alloc, of, default, value)? {
        Ok(made) => Ok(equal(&made, &want)),
        Err(_) => Ok(false),
    }
}

#[test]
fn a_value_becomes_one_of_its_type(rt: HostRuntime) -> Result<(), Fail> {
    let table = [
        ("Int", "absent", "absent"),
        ("Int", "null", "null"),
        ("Int!", "2", "2"),
        ("[Int]", "2", "[2]"),
        ("[Int]", "[null]", "[null]"),
        ("[[Int]]", "2", "[[2]]"),
        ("[[Int]]", "[2]", "[[2]]"),
        ("Size", "BIG", "BIG"),
        ("ID", "BIG", "BIG"),
        ("ID", "2", "2"),
        ("Date", "{id:2}", "{id:2}"),
        ("Key", "{id:2}", "{id:2}"),
        ("Box", "{}", "{size:BIG}"),
    ];
    for (of, value, want) in table {
        assert!(rt;
            comes_to(rt.alloc(), of, None, value, want)?,
            "{value} as {of}"
        );
    }
    Ok(())
}

// The value that is written so in a document; another text is a string.
fn default(alloc: Global, written: &str) -> Result<Value, Memory> {
    match written {
        "null" => Ok(Value::Null),
        "true" => Ok(Value::Bool(true)),
        "BIG" => Ok(Value::EnumName(Text::of(alloc, written)?)),
        "[2]" => Ok(Value::List(one(alloc, Value::Number(Text::of(alloc, "2")?))?)),
        "{size:BIG}" => {
            let big = Value::EnumName(Text::of(alloc, "BIG")?);
            Ok(Value::Object(one(alloc, (Text::of(alloc, "size")?, big))?))
        }
        _ => Ok(Value::Str(Text::of(alloc, written)?)),
    }
}

#[test]
fn a_default_stands_for_an_absent_value(rt: HostRuntime) -> Result<(), Fail> {
    let table = [
        ("[2]", "absent", "[2]"),
        ("[2]", "null", "null"),
        ("null", "absent", "null"),
        ("true", "absent", "true"),
        ("BIG", "absent", "BIG"),
        ("{size:BIG}", "absent", "{size:BIG}"),
        ("a\\u0062\\n", "absent", "ab\n"),
    ];
    for (written, value, want) in table {
        let default = default(rt.alloc(), written)?;
        assert!(rt;
            comes_to(rt.alloc(), "Date", Some(default), value, want)?,
            "{written}"
        );
    }
    Ok(())
}

#[test]
fn a_second_definition_is_passed_over(rt: HostRuntime) -> Result<(), Fail> {
    let alloc = rt.alloc();
    let mut variables = one(alloc, definition(alloc, "Int", None)?)?;
    variables.push(definition(alloc, "Int!", None)?)?;
    let schema = schema(alloc)?;
    let found = coerce(alloc, &schema, &operation(alloc, variables), &Json::Null);
    assert_eq!(rt; cause(&found), "none");
    Ok(())
}

#[test]
fn escapes_are_read(rt: HostRuntime) -> Result<(), Fail> {
    let table = [
        ("", ""),
        ("a\u{e9}", "a\u{e9}"),
        ("\\\"\\\\\\/\\b\\f\\n\\r\\t", "\"\\/\u{8}\u{c}\n\r\t"),
        ("\\u00e9\\u00E9b", "\u{e9}\u{e9}b"),
        ("\\ud83d\\ude00b", "\u{1f600}b"),
        ("\\ud83d\\u0062", "\u{fffd}b"),
        ("\\ud83db", "\u{fffd}b"),
        ("\\ude00\\ud83d", "\u{fffd}\u{fffd}"),
        ("\\x\\", "\\x\\"),
    ];
    for (source, want) in table {
        let text = unescaped(rt.alloc(), &Text::of(rt.alloc(), source)?)?;
        assert_eq!(rt; text.as_str(), want, "{source}");
    }
    Ok(())
}
