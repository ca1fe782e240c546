//! Names, found by their places.

ghost use Rattle.std.specs.Prelude.{◌≡◌, map, IfOk};
ghost use Rattle.gql_types.specs.Index as spec;
ghost use Rattle.gql_types.specs.Schemas.{interfaces_of};

use crate::definition::{FieldDef, InputField, TypeBody};
use flow_base::{Memory, Text};
use indexmap::IndexMap;
use std::alloc::Global;

/// The place of each name: of several that are equal that of the first.
pub fn places_of(alloc: Global, names: Vec<Text>) -> Result<IndexMap<Text, usize>, Memory>
    ensures { IfOk result (λ places. spec.FindsFirst places names.items) }
{
    let mut places = IndexMap::with_capacity(alloc, names.len())?;
    let mut names = names;
    while let Some(name) = names.pop() {
        let place = names.len();
        places.insert(name, place)?;
    }
    Ok(places)
}

fn copies(alloc: Global, names: &[Text]) -> Result<Vec<Text>, Memory>
    ensures { IfOk result (λ made. made.items ≡ names.now) }
{
    let mut made = Vec::with_capacity(alloc, names.len())?;
    for name in names {
        made.push(name.copy()?)?;
    }
    Ok(made)
}

fn field_names(alloc: Global, fields: &[FieldDef]) -> Result<Vec<Text>, Memory>
    ensures { IfOk result (λ made. made.items ≡ map spec.field_def_name fields.now) }
{
    let mut made = Vec::with_capacity(alloc, fields.len())?;
    for field in fields {
        made.push(field.name.copy()?)?;
    }
    Ok(made)
}

fn input_names(alloc: Global, fields: &[InputField]) -> Result<Vec<Text>, Memory>
    ensures { IfOk result (λ made. made.items ≡ map spec.input_field_name fields.now) }
{
    let mut made = Vec::with_capacity(alloc, fields.len())?;
    for field in fields {
        made.push(field.name.copy()?)?;
    }
    Ok(made)
}

/// The names of the fields, the values or the members.
pub fn names_in(alloc: Global, body: &TypeBody) -> Result<Vec<Text>, Memory>
    ensures { IfOk result (λ made. made.items ≡ spec.names_in body.now) }
{
    match body {
        TypeBody::Scalar => Ok(Vec::new(alloc)),
        TypeBody::Object { fields, .. } => field_names(alloc, fields.as_slice()),
        TypeBody::Interface { fields, .. } => field_names(alloc, fields.as_slice()),
        TypeBody::Union(members) => copies(alloc, members.as_slice()),
        TypeBody::Enum(values) => copies(alloc, values.as_slice()),
        TypeBody::Input(fields) => input_names(alloc, fields.as_slice()),
    }
}

/// The names of the interfaces.
pub fn interfaces_in(alloc: Global, body: &TypeBody) -> Result<Vec<Text>, Memory>
    ensures { IfOk result (λ made. made.items ≡ interfaces_of body.now) }
{
    match body {
        TypeBody::Object { interfaces, .. } => copies(alloc, interfaces.as_slice()),
        TypeBody::Interface { interfaces, .. } => copies(alloc, interfaces.as_slice()),
        _ => Ok(Vec::new(alloc)),
    }
}
