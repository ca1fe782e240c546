ghost use Rattle.std.specs.Prelude.{◌≡◌, length, IfOk};

use crate::{ShapeCode, shape};
use flow_base::{Memory, Text};
use gql_terms::{Document, OpKind, Operation, Selection, TypeRef};
use gql_types::{FieldDef, Schema, TypeBody, TypeDef};
use json_value::Json;
use std::alloc::Global;
use std::test::Fail;
use tree_items::{Boxed, Items};

fn int(alloc: Global) -> Result<TypeRef, Memory> {
    Ok(TypeRef::Named(Text::of(alloc, "Int")?))
}

fn required(alloc: Global, of: TypeRef) -> Result<TypeRef, Memory> {
    Ok(TypeRef::NonNull(Boxed::new(alloc, of)?))
}

// An object type with the one field `a`.
fn object(alloc: Global, of: TypeRef) -> Result<TypeBody, Memory> {
    let mut fields = Items::new(alloc);
    let name = Text::of(alloc, "a")?;
    fields.push(FieldDef { name, of })?;
    Ok(TypeBody::Object {
        interfaces: Items::new(alloc),
        fields,
    })
}

// The schema with this type Query.
fn schema(alloc: Global, body: TypeBody) -> Result<Schema, Memory> {
    let mut types = Items::new(alloc);
    let name = Text::of(alloc, "Int")?;
    types.push(TypeDef {
        name,
        body: TypeBody::Scalar,
    })?;
    let name = Text::of(alloc, "Query")?;
    types.push(TypeDef { name, body })?;
    Schema::of(alloc, types)
}

fn leaf(alloc: Global, name: &str) -> Result<Selection, Memory> {
    let name = Text::of(alloc, name)?;
    Ok(Selection::Field {
        alias: None,
        name,
        arguments: Items::new(alloc),
        directives: Items::new(alloc),
        selections: Items::new(alloc),
    })
}

// The query with this one field.
fn query(alloc: Global, field: Selection) -> Result<Document, Memory>
    ensures { IfOk result (λ d. length d.operations ≡ 1) }
{
    let mut selections = Items::new(alloc);
    selections.push(field)?;
    let mut operations = Items::new(alloc);
    operations.push(Operation {
        kind: OpKind::Query,
        name: None,
        variables: Items::new(alloc),
        directives: Items::new(alloc),
        selections,
    })?;
    Ok(Document {
        operations,
        fragments: Items::new(alloc),
    })
}

// How many members the answer to the one field has over no data, None where it is null; and its first error.
fn outcome(
    alloc: Global,
    schema: &Schema,
    name: &str,
) -> Result<(Option<usize>, Option<ShapeCode>), Memory> {
    let document = query(alloc, leaf(alloc, name)?)?;
    let shaped = shape(alloc, schema, &document, &Json::Null, &Json::Null)?;
    let first = shaped.errors.get(0).map(|error| error.code);
    match &shaped.value {
        Json::Object(members) => Ok((Some(members.len()), first)),
        _ => Ok((None, first)),
    }
}

#[test]
fn what_lacks_is_null_or_left_out(rt: HostRuntime) -> Result<(), Fail> {
    let alloc = rt.alloc();
    let schema = schema(alloc, object(alloc, int(alloc)?)?)?;
    for (name, members) in [("a", 1), ("__typename", 1), ("b", 0)] {
        assert_eq!(rt;
            outcome(alloc, &schema, name)?,
            (Some(members), None),
            "of {name}"
        );
    }
    Ok(())
}

#[test]
fn null_climbs_to_the_top(rt: HostRuntime) -> Result<(), Fail> {
    let alloc = rt.alloc();
    let schema = schema(alloc, object(alloc, required(alloc, int(alloc)?)?)?)?;
    let want = (None, Some(ShapeCode::NullInNonNull));
    assert_eq!(rt; outcome(alloc, &schema, "a")?, want);
    Ok(())
}
