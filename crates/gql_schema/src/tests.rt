use crate::{
    Left, SdlFault, Test, Word, all, fault_is_one, read, reads_exactly, schema_has_no_fault,
    schema_is_one,
};
use flow_base::{Memory, Text};
use gql_tokens::{Kind, Token};
use gql_types::Kind as TypeKind;
use std::alloc::Global;
use std::test::Fail;

// What a text is: a schema, or a fault with its place or its name.
fn outcome(alloc: Global, text: &str) -> Result<(char, u64, Text), Memory> {
    let text = Text::of(alloc, text)?;
    match read(alloc, &text) {
        Ok(_) => Ok(('o', 0, Text::of(alloc, "")?)),
        Err(SdlFault::Syntax(place)) => Ok(('s', place, Text::of(alloc, "")?)),
        Err(SdlFault::Twice(name)) => Ok(('t', 0, name)),
        Err(SdlFault::UnknownType(name)) => Ok(('u', 0, name)),
        Err(SdlFault::Memory) => Err(Memory),
    }
}

// Each kind of definition, with all that may stand in it (sections 3.3 to 3.13).
#[test]
fn schemas_are_those_of_the_standard(rt: HostRuntime) -> Result<(), Fail> {
    let texts = [
        "schema { query: Query } type Query { a: Int }",
        "schema @d { mutation: Mutation query: Query } type Query { a: ID! }",
        "\"d\" schema { mutation: Mutation } \"d\" type Query { \"d\" a(\"d\" b: Int): Int }",
        "type Query { a(x: [Int!]! = [1 2] @d, y: Query): String @d(x: $y) b: Boolean }",
        "interface I implements & J & K { a: Int } scalar J scalar K type Query implements I & J @d { a: Int }",
        "union U @d = | Query | Int type Query { a: U }",
        "union U = Query | Query type Query { a(b: Int b: Int): U }",
        "enum E @d { A \"d\" B @d type } type Query { a: E }",
        "input P @d { \"d\" a: Int = 1 @d b: [P] = [{a: 2}] c: E = X } enum E { X } type Query { a: P }",
        "directive @d(a: Missing = 1) repeatable on | FIELD | OBJECT type Query { a: Int }",
        "directive @d on QUERY \"\"\"d\"\"\" scalar S @d type Query { a: S }",
        "type type { type: type on: Int true: Int schema: Int } union Query = type",
    ];
    for text in texts {
        let (kind, _, _) = outcome(rt.alloc(), text)?;
        assert!(rt; kind == 'o', "at {text}");
    }
    Ok(())
}

// The first token that no schema continues; where the text ends and may go on, its length.
#[test]
fn faults_of_syntax_have_their_place(rt: HostRuntime) -> Result<(), Fail> {
    let table = [
        ("", 0),
        ("typ", 3),
        ("tyq", 0),
        ("type Query {", 12),
        ("type Query {}", 12),
        ("type Query { a: In", 18),
        ("type Query { a }", 15),
        ("type Query { a(): Int }", 15),
        ("type Query { a: Int } scala", 27),
        ("type Query { a: Int } scalx", 22),
        ("type Query { a: Int } ?", 22),
        ("type Query { a: Int } ..", 22),
        ("type Query { a: Int } \"", 23),
        ("type Query { a: Int } \"d\"", 25),
        ("\"d\" \"e\" type Query { a: Int }", 4),
        ("type Query implements { a: Int }", 22),
        ("type Query\n# no fields\nscalar S", 23),
        ("schema {}", 8),
        ("schema { query: Root }", 16),
        ("schema { subscription: S }", 9),
        ("schema { query: Query query: Query }", 22),
        ("schema { query: Query } schema", 24),
        ("schema { query: Query } \"d\" schema {", 28),
        ("enum E { true }", 9),
        ("enum E { A", 10),
        ("union U", 7),
        ("union U { A }", 8),
        ("scalar S = 1", 9),
        ("input P { a: Int = $x }", 19),
        ("input P { a: Int = \"\"\"x\"\"\" }", 19),
        ("directive @d on FOO", 16),
        ("directive @d on FI", 18),
        ("directive @d repeat", 19),
        ("extend type Query { a: Int }", 0),
        ("query { a }", 0),
    ];
    for (text, wanted) in table {
        let (kind, place, _) = outcome(rt.alloc(), text)?;
        assert!(rt; kind == 's' && place == wanted, "at {text}");
    }
    Ok(())
}

// A name that is defined twice comes before one that is unknown; `Query` is looked for last.
#[test]
fn names_are_defined_once_and_known(rt: HostRuntime) -> Result<(), Fail> {
    let table = [
        ("type Query { a: Int a: Int }", 't', "a"),
        ("type A { x: Int x: Missing } type A { y: Int }", 't', "x"),
        ("type A { x: Missing } type A { y: Int y: Int }", 't', "A"),
        ("scalar Int", 't', "Int"),
        ("enum E { A B A }", 't', "A"),
        ("input P { a: Int a: Int }", 't', "a"),
        ("interface I { a: Int a: Int }", 't', "a"),
        ("type Query { a: B }", 'u', "B"),
        ("type Query { a: [[B!]]! }", 'u', "B"),
        ("type Query { a(b: C): D }", 'u', "C"),
        ("type Query implements I { a: B }", 'u', "I"),
        ("interface Query implements I { a: B }", 'u', "I"),
        ("union U = Query | V scalar Query", 'u', "V"),
        ("input P { a: Q } scalar Query", 'u', "Q"),
        ("scalar X", 'u', "Query"),
        (
            "schema { query: Query } type query { a: Int }",
            'u',
            "Query",
        ),
    ];
    for (text, wanted, name) in table {
        let (kind, _, found) = outcome(rt.alloc(), text)?;
        assert!(rt; kind == wanted && found.as_str() == name, "at {text}");
    }
    Ok(())
}

// The 65th nested list type.
#[test]
fn a_type_too_deep_is_refused_at_its_bracket(rt: HostRuntime) -> Result<(), Fail> {
    let alloc = rt.alloc();
    let mut text = String::from_str(alloc, "type Query { a: ")?;
    for _ in 0..65 {
        text.push_str("[")?;
    }
    let (kind, place, _) = outcome(alloc, text.as_str())?;
    assert!(rt; kind == 's' && place == 80);
    Ok(())
}

#[test]
fn types_are_those_that_are_defined(rt: HostRuntime) -> Result<(), Fail> {
    let alloc = rt.alloc();
    let text = Text::of(
        alloc,
        "type Query implements I { a(x: Int): [E] } interface I { a: [E] } enum E { A } input P { b: Int = 1 }",
    )?;
    let Ok(schema) = read(alloc, &text) else {
        assert!(rt; false);
        return Ok(());
    };
    let table = [
        ("Int", Some(TypeKind::Scalar)),
        ("ID", Some(TypeKind::Scalar)),
        ("Query", Some(TypeKind::Object)),
        ("I", Some(TypeKind::Interface)),
        ("E", Some(TypeKind::Enum)),
        ("P", Some(TypeKind::Input)),
        ("Mutation", None),
    ];
    for (name, wanted) in table {
        assert_eq!(rt; schema.kind(&Text::of(alloc, name)?), wanted, "of {name}");
    }
    let query = Text::of(alloc, "Query")?;
    assert!(rt; schema.implements_or_is(&query, &Text::of(alloc, "I")?));
    assert!(rt; schema.field(&query, &Text::of(alloc, "a")?).is_some());
    assert!(rt; schema.has_value(&Text::of(alloc, "E")?, &Text::of(alloc, "A")?));
    assert!(rt; schema.inputs(&Text::of(alloc, "P")?).is_some());
    Ok(())
}

#[test]
fn tokens_are_read_alone(rt: HostRuntime) -> Result<(), Fail> {
    reads_exactly();
    schema_is_one();
    fault_is_one();
    schema_has_no_fault();
    let alloc = rt.alloc();
    let mut tokens = Vec::new(alloc);
    tokens.push(Token::new(Kind::Name, "scalar"))?;
    tokens.push(Token::new(Kind::Name, "S"))?;
    let mut left = Left::new(tokens.as_slice());
    assert!(rt; left.sees(Test::Word(Word::Scalar)) && left.len() == 2);
    assert!(rt; all(alloc, &mut left).is_ok() && left.len() == 0);
    Ok(())
}
