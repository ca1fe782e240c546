use crate::reading::{document, json, schema, write_place};
use flow_base::Memory;
use gql_shape::{ShapeCode, ShapeError, Shaped, shape};
use gql_terms::Document;
use gql_types::Schema;
use json_tree::{Json, print};
use std::alloc::Global;
use std::test::Fail;

fn code(code: ShapeCode) -> &'static str {
    match code {
        ShapeCode::NullInNonNull => " null ",
        ShapeCode::WrongKind => " kind ",
    }
}

fn write_errors(alloc: Global, text: &mut String, errors: &[ShapeError]) -> Result<(), Memory> {
    for i in 0..errors.len() {
        text.push_str(code(errors[i].code))?;
        write_place(alloc, text, &errors[i].place)?;
    }
    Ok(())
}

/// An answer's data, and then each error with its place.
fn told(alloc: Global, answer: &Shaped) -> Result<String, Memory> {
    let mut text = String::from_str(alloc, print(alloc, &answer.value)?.as_str())?;
    write_errors(alloc, &mut text, answer.errors.as_slice())?;
    Ok(text)
}

/// What the document's one operation answers.
fn answered(
    alloc: Global,
    schema: &Schema,
    document: &Document,
    variables: &Json,
    data: &Json,
) -> Result<String, Memory> {
    if document.operations.len() != 1 {
        return Ok(String::new(alloc));
    }
    let answer = shape(alloc, schema, document, variables, data)?;
    told(alloc, &answer)
}

/// What the query answers over the data.
fn shaped(
    alloc: Global,
    types: &str,
    query: &str,
    variables: &str,
    data: &str,
) -> Result<String, Fail> {
    let schema = schema(alloc, types)?;
    let document = document(alloc, query)?;
    let variables = json(alloc, variables)?;
    let data = json(alloc, data)?;
    Ok(answered(alloc, &schema, &document, &variables, &data)?)
}

const PAIR: &str = "type Query { a: Int! b: [Int] }";

const SHOP: &str =
    "type Query { one: Item items: [Item] } type Item { id: ID! price: String stock: Int }";

const PETS: &str =
    "type Query { pet: Pet any: Any pets: [Pet!] must: [Pet!]! deep: [[Int!]] dog: Dog! size: Size id: ID n: Int f: Float s: String b: Boolean d: Date p: P }
    interface Pet { name: String! friend: Pet }
    type Dog implements Pet { name: String! friend: Pet barks: Int! }
    type Cat implements Pet { name: String! friend: Pet lives: Int }
    union Any = Dog | Cat  enum Size { BIG SMALL }  scalar Date  input P { a: Int }  type Mutation { set: Int! }";

#[test]
fn answers_of_the_shop_are_shaped(rt: HostRuntime) -> Result<(), Fail> {
    let table = [
        (PAIR, "{ b a }", r#"{"b":[1,"x"]}"#, "null kind b,1 null a"),
        (
            SHOP,
            "{ items { price } }",
            r#"{"items":[null,{"__typename":"Item"}]}"#,
            r#"{"items":[null,{"price":null}]}"#,
        ),
        (
            SHOP,
            "{ one { id price } }",
            r#"{"one":{"__typename":"Item"}}"#,
            r#"{"one":null} null one,id"#,
        ),
        (
            SHOP,
            "mutation { __typename set }",
            r#"{"set":1}"#,
            r#"{"__typename":"Mutation"}"#,
        ),
        (SHOP, "{ items { id } }", "7", r#"{"items":null}"#),
    ];
    for (types, query, data, wanted) in table {
        assert_eq!(rt;
            shaped(rt.alloc(), types, query, "{}", data)?.as_str(),
            wanted,
            "{query}"
        );
    }
    Ok(())
}

/// Section 6.3.2: which fields are collected, and by which types.
const COLLECTED: [(&str, &str, &str); 21] = [
    ("{ s n s }", r#"{"n":1,"s":"t"}"#, r#"{"s":"t","n":1}"#),
    ("{ x: n x: n }", r#"{"x":1}"#, r#"{"x":1}"#),
    ("{ x: n x: s }", r#"{"x":"t"}"#, r#"{"x":null} kind x"#),
    ("{ n zz }", r#"{"n":1,"zz":2}"#, r#"{"n":1}"#),
    (
        "{ dog { name } dog { barks name } }",
        r#"{"dog":{"barks":1,"name":"R"}}"#,
        r#"{"dog":{"name":"R","barks":1}}"#,
    ),
    (
        "{ ...A ...C n ...A } fragment A on Query { s ...B } fragment B on Query { b } fragment C on Mutation { f }",
        r#"{"n":1,"s":"t","b":true,"f":1}"#,
        r#"{"s":"t","b":true,"n":1}"#,
    ),
    (
        "{ dog { ...A } dog { ...A barks } } fragment A on Dog { name }",
        r#"{"dog":{"barks":1,"name":"R"}}"#,
        r#"{"dog":{"name":"R","barks":1}}"#,
    ),
    (
        "{ ... on Query { n } ... { s } ... on Pet { b } }",
        r#"{"n":1,"s":"t"}"#,
        r#"{"n":1,"s":"t"}"#,
    ),
    (
        "{ n @skip(if: true) s @include(if: false) b }",
        r#"{"b":true}"#,
        r#"{"b":true}"#,
    ),
    (
        "{ n @skip(if: false) s @include(if: true) @skip(if: true) }",
        r#"{"n":1}"#,
        r#"{"n":1}"#,
    ),
    (
        "{ n @include(if: \"true\") s @skip(if: 1) }",
        r#"{"s":"t"}"#,
        r#"{"s":"t"}"#,
    ),
    (
        "{ n @include(if: $no) s @skip(if: $no) }",
        r#"{"s":"t"}"#,
        r#"{"s":"t"}"#,
    ),
    (
        "{ n @include(if: $yes) s @skip(if: $yes) }",
        r#"{"n":1}"#,
        r#"{"n":1}"#,
    ),
    (
        "{ n @include(if: $text) s }",
        r#"{"n":1,"s":"t"}"#,
        r#"{"s":"t"}"#,
    ),
    (
        "{ pet { __typename m: name ... on Dog { barks } ... on Cat { lives } } }",
        r#"{"pet":{"__typename":"Dog","m":"R","barks":3,"lives":9}}"#,
        r#"{"pet":{"__typename":"Dog","m":"R","barks":3}}"#,
    ),
    (
        "{ any { ... on Pet { name } } }",
        r#"{"any":{"__typename":"Cat","name":"T"}}"#,
        r#"{"any":{"name":"T"}}"#,
    ),
    (
        "{ pet { ... on Any { name } } }",
        r#"{"pet":{"__typename":"Cat","name":"T"}}"#,
        r#"{"pet":{"name":"T"}}"#,
    ),
    (
        "{ any { ... on Dog { barks } } }",
        r#"{"any":{"__typename":"Cat"}}"#,
        r#"{"any":{}}"#,
    ),
    ("mutation { set n }", r#"{"set":1,"n":2}"#, r#"{"set":1}"#),
    ("mutation { set }", "{}", "null null set"),
    (
        "{ __typename t: __typename }",
        "{}",
        r#"{"__typename":"Query","t":"Query"}"#,
    ),
];

#[test]
fn fields_are_collected(rt: HostRuntime) -> Result<(), Fail> {
    let variables = r#"{"yes":true,"text":"true"}"#;
    for (query, data, wanted) in COLLECTED {
        assert_eq!(rt;
            shaped(rt.alloc(), PETS, query, variables, data)?.as_str(),
            wanted,
            "{query}"
        );
    }
    Ok(())
}

/// Sections 6.4.3 and 6.4.4: what a value is completed to.
const COMPLETED: [(&str, &str, &str); 38] = [
    ("{ n }", r#"{"n":1}"#, r#"{"n":1}"#),
    ("{ n }", r#"{"n":1.0}"#, r#"{"n":null} kind n"#),
    ("{ n }", r#"{"n":1e3}"#, r#"{"n":null} kind n"#),
    ("{ n }", r#"{"n":[1]}"#, r#"{"n":null} kind n"#),
    ("{ n }", r#"{"n":{}}"#, r#"{"n":null} kind n"#),
    ("{ n }", "{}", r#"{"n":null}"#),
    ("{ f }", r#"{"f":1E3}"#, r#"{"f":1E3}"#),
    ("{ f }", r#"{"f":"1"}"#, r#"{"f":null} kind f"#),
    ("{ s }", r#"{"s":1}"#, r#"{"s":null} kind s"#),
    ("{ b }", r#"{"b":"true"}"#, r#"{"b":null} kind b"#),
    ("{ id }", r#"{"id":"x"}"#, r#"{"id":"x"}"#),
    ("{ id }", r#"{"id":7}"#, r#"{"id":7}"#),
    ("{ id }", r#"{"id":7.5}"#, r#"{"id":null} kind id"#),
    ("{ size }", r#"{"size":"BIG"}"#, r#"{"size":"BIG"}"#),
    (
        "{ size }",
        r#"{"size":"HUGE"}"#,
        r#"{"size":null} kind size"#,
    ),
    ("{ size }", r#"{"size":1}"#, r#"{"size":null} kind size"#),
    ("{ d }", r#"{"d":{"a":[1]}}"#, r#"{"d":{"a":[1]}}"#),
    ("{ p { a } }", r#"{"p":{"a":1}}"#, r#"{"p":null} kind p"#),
    ("{ p { a } }", r#"{"p":null}"#, r#"{"p":null}"#),
    (
        "{ pet { name } }",
        r#"{"pet":1}"#,
        r#"{"pet":null} kind pet"#,
    ),
    (
        "{ pet { name } }",
        r#"{"pet":{"name":"R"}}"#,
        r#"{"pet":null} kind pet"#,
    ),
    (
        "{ pet { name } }",
        r#"{"pet":{"__typename":"Cow","name":"R"}}"#,
        r#"{"pet":null} kind pet"#,
    ),
    (
        "{ pet { name } }",
        r#"{"pet":{"__typename":"Pet","name":"R"}}"#,
        r#"{"pet":null} kind pet"#,
    ),
    (
        "{ pet { name } }",
        r#"{"pet":{"__typename":1,"name":"R"}}"#,
        r#"{"pet":null} kind pet"#,
    ),
    (
        "{ any { __typename } }",
        r#"{"any":{"__typename":"Query"}}"#,
        r#"{"any":null} kind any"#,
    ),
    (
        "{ dog { name } }",
        r#"{"dog":{"name":"R"}}"#,
        r#"{"dog":{"name":"R"}}"#,
    ),
    (
        "{ dog { name } }",
        r#"{"dog":{"__typename":"Cat","name":"R"}}"#,
        "null kind dog",
    ),
    ("{ dog { name } }", r#"{"dog":1}"#, "null kind dog"),
    ("{ dog { name } }", "{}", "null null dog"),
    (
        "{ deep }",
        r#"{"deep":[[1,null],[2]]}"#,
        r#"{"deep":[null,[2]]} null deep,0,1"#,
    ),
    (
        "{ deep }",
        r#"{"deep":[[1,"x",null],null,[2]]}"#,
        r#"{"deep":[null,null,[2]]} kind deep,0,1"#,
    ),
    (
        "{ deep }",
        r#"{"deep":[1]}"#,
        r#"{"deep":[null]} kind deep,0"#,
    ),
    ("{ deep }", r#"{"deep":1}"#, r#"{"deep":null} kind deep"#),
    (
        "{ pets { name } }",
        r#"{"pets":[{"__typename":"Dog","name":"R"},null]}"#,
        r#"{"pets":null} null pets,1"#,
    ),
    (
        "{ must { name } }",
        r#"{"must":[{"__typename":"Dog"}]}"#,
        "null null must,0,name",
    ),
    (
        "{ n must { name } f }",
        r#"{"n":"x","f":"x"}"#,
        "null kind n null must",
    ),
    (
        "{ pet { name friend { name friend { name } } } }",
        r#"{"pet":{"__typename":"Dog","name":"R","friend":{"__typename":"Cat","name":"T","friend":{"__typename":"Dog"}}}}"#,
        r#"{"pet":{"name":"R","friend":{"name":"T","friend":null}}} null pet,friend,friend,name"#,
    ),
    (
        "{ pet { friend { name } name } n }",
        r#"{"pet":{"__typename":"Dog","friend":{"__typename":"Cat"}},"n":"x"}"#,
        r#"{"pet":null,"n":null} null pet,friend,name null pet,name kind n"#,
    ),
];

#[test]
fn values_are_completed(rt: HostRuntime) -> Result<(), Fail> {
    for (query, data, wanted) in COMPLETED {
        assert_eq!(rt;
            shaped(rt.alloc(), PETS, query, "{}", data)?.as_str(),
            wanted,
            "{query} over {data}"
        );
    }
    Ok(())
}
