use crate::json::nanoseconds;
use anyhow::{Result, anyhow, bail};
use flow_base::Text;
use gql_shape::{Shaped, shape};
use gql_syntax::parse;
use gql_terms::Document;
use gql_types::Schema;
use json_print::print;
use json_read::read;
use json_value::{Json, member};
use std::alloc::Global;
use std::io::Read;
use std::rt::Runtime;
use std::time::Instant;

/// What is shaped: data, by a schema, a query and its variables.
#[derive(Drop)]
struct Case<'a> {
    schema: &'a Schema,
    document: &'a Document,
    variables: &'a Json,
    data: &'a Json,
}

/// The bytes of what was shaped last, and the nanoseconds of all turns.
#[derive(Clone, Copy)]
struct Shaping {
    size: usize,
    spent: u64,
}

/// Reads one JSON text from standard input, an object of `schema` and `query` (texts), `variables` and `data`; times the
/// shaping of the data, and prints a line. What is made in a turn is let go after the clock was read.
pub fn time<R: Runtime<A = Global>>(rt: &R, turns: u32) -> Result<()> {
    let given = given(rt)?;
    let schema = schema(rt.alloc(), &given)?;
    let document = document(rt.alloc(), &given)?;
    let case = case_of(&given, &schema, &document)?;
    time_case(rt, &case, turns)
}

fn given<R: Runtime<A = Global>>(rt: &R) -> Result<Json> {
    let mut text = Vec::new(rt.alloc());
    rt.reader().read_to_end(&mut text)?;
    read(rt.alloc(), text.as_slice()).map_err(|fault| anyhow!("{fault:?}"))
}

fn schema(alloc: Global, given: &Json) -> Result<Schema> {
    let text = text(given, "schema")?;
    gql_schema::read(alloc, text).map_err(|fault| anyhow!("{fault:?}"))
}

fn document(alloc: Global, given: &Json) -> Result<Document> {
    let text = text(given, "query")?;
    parse(alloc, text).map_err(|fault| anyhow!("{fault:?}"))
}

fn case_of<'a>(given: &'a Json, schema: &'a Schema, document: &'a Document) -> Result<Case<'a>> {
    let variables = part(given, "variables")?;
    let data = part(given, "data")?;
    Ok(Case {
        schema,
        document,
        variables,
        data,
    })
}

fn text<'a>(given: &'a Json, name: &str) -> Result<&'a Text> {
    match part(given, name)? {
        Json::Str(text) => Ok(text),
        _ => Err(anyhow!("{name} is no text")),
    }
}

fn part<'a>(given: &'a Json, name: &str) -> Result<&'a Json> {
    match member(given, name) {
        Some(value) => Ok(value),
        None => Err(anyhow!("{name} is missing")),
    }
}

fn time_case<R: Runtime<A = Global>>(rt: &R, case: &Case<'_>, turns: u32) -> Result<()> {
    let Shaping { size, spent } = shape_often(rt, case, turns)?;
    println!(rt; "shape {size} bytes {turns} turns {spent} ns")?;
    Ok(())
}

fn shape_often<R: Runtime<A = Global>>(rt: &R, case: &Case<'_>, turns: u32) -> Result<Shaping> {
    let mut shaping = Shaping { size: 0, spent: 0 };
    for _ in 0..turns {
        shaping = shape_once(rt, case, shaping.spent)?;
    }
    Ok(shaping)
}

fn shape_once<R: Runtime<A = Global>>(rt: &R, case: &Case<'_>, before: u64) -> Result<Shaping> {
    let start = Instant::now(rt)?;
    let shaped = shaped(rt.alloc(), case)?;
    let spent = nanoseconds(rt, before, start)?;
    let size = printed_size(rt.alloc(), &shaped.value)?;
    Ok(Shaping { size, spent })
}

fn shaped(alloc: Global, case: &Case<'_>) -> Result<Shaped> {
    if case.document.operations.len() != 1 {
        bail!("the query has one operation");
    }
    match shape(alloc, case.schema, case.document, case.variables, case.data) {
        Ok(shaped) => Ok(shaped),
        Err(_) => Err(anyhow!("out of memory")),
    }
}

fn printed_size(alloc: Global, value: &Json) -> Result<usize> {
    match print(alloc, value) {
        Ok(text) => Ok(text.len()),
        Err(_) => Err(anyhow!("out of memory")),
    }
}
