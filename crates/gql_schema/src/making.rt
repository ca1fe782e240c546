//! From definitions to the types of a schema.

ghost use Rattle.std.specs.Prelude.{◌≡◌, ◌++◌, ◌∷◌, [], map, IfOk};
ghost use Rattle.gql_schema.specs.Rules as spec;

use crate::terms::{Body, Definition, Field, Part};
use flow_base::{Memory, Text};
use gql_types::{FieldDef, TypeBody, TypeDef};
use std::alloc::Global;
use tree_items::Items;

fn field_def(field: Field) -> FieldDef
    ensures { result ≡ spec.field_def field }
{
    let Field { name, of, .. } = field;
    FieldDef { name, of }
}

fn field_defs(alloc: Global, fields: Items<Field>) -> Result<Items<FieldDef>, Memory>
    ensures { IfOk result (λ found. found ≡ map spec.field_def fields) }
{
    let mut found = Items::new(alloc);
    for field in fields.into_vec() {
        found.push(field_def(field))?;
    }
    Ok(found)
}

fn type_body(alloc: Global, body: Body) -> Result<TypeBody, Memory>
    ensures { IfOk result (λ made. made ≡ spec.type_body body) }
{
    match body {
        Body::Scalar => Ok(TypeBody::Scalar),
        Body::Object { interfaces, fields } => Ok(TypeBody::Object {
            interfaces,
            fields: field_defs(alloc, fields)?,
        }),
        Body::Interface { interfaces, fields } => Ok(TypeBody::Interface {
            interfaces,
            fields: field_defs(alloc, fields)?,
        }),
        Body::Union(names) => Ok(TypeBody::Union(names)),
        Body::Enum(values) => Ok(TypeBody::Enum(values)),
        Body::Input(fields) => Ok(TypeBody::Input(fields)),
    }
}

fn type_def(alloc: Global, definition: Definition) -> Result<TypeDef, Memory>
    ensures { IfOk result (λ made. made ≡ spec.type_def definition) }
{
    let Definition { name, body } = definition;
    let body = type_body(alloc, body)?;
    Ok(TypeDef { name, body })
}

/// Adds the type, where this is the definition of one.
fn add_part(alloc: Global, types: &mut Items<TypeDef>, part: Part) -> Result<(), Memory>
    ensures { IfOk result
        (λ r. types.new ≡ types.old ++ map spec.type_def (spec.own_definition part)) }
{
    match part {
        Part::Root => Ok(()),
        Part::Directive => Ok(()),
        Part::Type(definition) => {
            types.push(type_def(alloc, definition)?)?;
            Ok(())
        }
    }
}

fn add_parts(alloc: Global, types: &mut Items<TypeDef>, parts: Items<Part>) -> Result<(), Memory>
    ensures { IfOk result (λ r. types.new ≡ types.old
        ++ map spec.type_def (spec.definitions parts)) }
{
    for part in parts.into_vec() {
        add_part(alloc, types, part)?;
    }
    Ok(())
}

fn add_scalar(alloc: Global, types: &mut Items<TypeDef>, name: &str) -> Result<(), Memory>
    ensures { IfOk result (λ r. types.new ≡ types.old ++ spec.scalar name.now ∷ []) }
{
    types.push(TypeDef {
        name: Text::of(alloc, name)?,
        body: TypeBody::Scalar,
    })?;
    Ok(())
}

/// The types of a schema: the scalars that are there, and those that are defined.
pub fn types_of(alloc: Global, parts: Items<Part>) -> Result<Items<TypeDef>, Memory>
    ensures { IfOk result (λ types. types ≡ spec.schema_of parts) }
{
    let mut types = Items::new(alloc);
    add_scalar(alloc, &mut types, "Int")?;
    add_scalar(alloc, &mut types, "Float")?;
    add_scalar(alloc, &mut types, "String")?;
    add_scalar(alloc, &mut types, "Boolean")?;
    add_scalar(alloc, &mut types, "ID")?;
    add_parts(alloc, &mut types, parts)?;
    Ok(types)
}
