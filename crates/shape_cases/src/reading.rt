use flow_base::{Memory, Text};
use gql_syntax::parse;
use gql_terms::Document;
use gql_types::Schema;
use json_paths::{Place, Spot};
use json_tree::{Json, read};
use std::alloc::Global;
use std::test::Fail;

/// The schema that a text is.
pub fn schema(alloc: Global, text: &str) -> Result<Schema, Fail> {
    let text = Text::of(alloc, text)?;
    Ok(gql_schema::read(alloc, &text)?)
}

/// The document that a text is.
pub fn document(alloc: Global, text: &str) -> Result<Document, Fail> {
    let text = Text::of(alloc, text)?;
    Ok(parse(alloc, &text)?)
}

/// The value that a text is.
pub fn json(alloc: Global, text: &str) -> Result<Json, Fail> {
    Ok(read(alloc, text.as_bytes())?)
}

fn write_spot(alloc: Global, text: &mut String, spot: &Spot) -> Result<(), Memory> {
    match spot {
        Spot::Name(name) => text.push_str(name.as_str())?,
        Spot::Index(index) => text.push_str(format!(in alloc; "{index}")?.as_str())?,
    }
    Ok(())
}

/// The spots of a place, with commas between them.
pub fn write_place(alloc: Global, text: &mut String, place: &Place) -> Result<(), Memory> {
    let spots = place.spots.as_slice();
    for i in 0..spots.len() {
        if i > 0 {
            text.push_str(",")?;
        }
        write_spot(alloc, text, &spots[i])?;
    }
    Ok(())
}
