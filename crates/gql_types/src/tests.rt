use crate::{FieldDef, InputField, Kind, Schema, TypeBody, TypeDef};
use flow_base::{Memory, Text};
use gql_terms::TypeRef;
use std::alloc::Global;
use std::test::Fail;
use tree_items::Items;

fn texts(alloc: Global, names: &[&str]) -> Result<Items<Text>, Memory> {
    let mut made = Vec::new(alloc);
    for name in names {
        made.push(Text::of(alloc, name)?)?;
    }
    Ok(Items::from_vec(made))
}

fn define(types: &mut Items<TypeDef>, name: Text, body: TypeBody) -> Result<(), Memory> {
    Ok(types.push(TypeDef { name, body })?)
}

// An object type with one field of its own type.
fn object(alloc: Global, interfaces: &[&str], field: &str) -> Result<TypeBody, Memory> {
    let mut fields = Items::new(alloc);
    fields.push(FieldDef {
        name: Text::of(alloc, field)?,
        of: TypeRef::Named(Text::of(alloc, "Dog")?),
    })?;
    Ok(TypeBody::Object {
        interfaces: texts(alloc, interfaces)?,
        fields,
    })
}

/// `interface Pet  type Dog implements Pet { friend: Dog }  union Any = Dog  enum Size { BIG }  scalar Date  input Find { name: Date }`
fn pets(alloc: Global) -> Result<Schema, Memory> {
    let mut types = Items::new(alloc);
    let pet = TypeBody::Interface {
        interfaces: Items::new(alloc),
        fields: Items::new(alloc),
    };
    define(&mut types, Text::of(alloc, "Pet")?, pet)?;
    define(
        &mut types,
        Text::of(alloc, "Dog")?,
        object(alloc, &["Pet"], "friend")?,
    )?;
    define(
        &mut types,
        Text::of(alloc, "Any")?,
        TypeBody::Union(texts(alloc, &["Dog"])?),
    )?;
    define(
        &mut types,
        Text::of(alloc, "Size")?,
        TypeBody::Enum(texts(alloc, &["BIG"])?),
    )?;
    define(&mut types, Text::of(alloc, "Date")?, TypeBody::Scalar)?;
    let mut inputs = Items::new(alloc);
    inputs.push(InputField {
        name: Text::of(alloc, "name")?,
        of: TypeRef::Named(Text::of(alloc, "Date")?),
        default: None,
    })?;
    define(
        &mut types,
        Text::of(alloc, "Find")?,
        TypeBody::Input(inputs),
    )?;
    Schema::of(alloc, types)
}

#[test]
fn each_type_has_its_kind(rt: HostRuntime) -> Result<(), Fail> {
    let schema = pets(rt.alloc())?;
    let table = [
        ("Pet", Some(Kind::Interface)),
        ("Dog", Some(Kind::Object)),
        ("Any", Some(Kind::Union)),
        ("Size", Some(Kind::Enum)),
        ("Date", Some(Kind::Scalar)),
        ("Find", Some(Kind::Input)),
        ("Cat", None),
    ];
    for (name, want) in table {
        assert_eq!(rt;
            schema.kind(&Text::of(rt.alloc(), name)?),
            want,
            "of {name}"
        );
    }
    Ok(())
}

#[test]
fn types_meet_conditions(rt: HostRuntime) -> Result<(), Fail> {
    let schema = pets(rt.alloc())?;
    let dog = Text::of(rt.alloc(), "Dog")?;
    for (condition, want) in [
        ("Dog", true),
        ("Pet", true),
        ("Any", true),
        ("Size", false),
        ("Cat", false),
    ] {
        let condition = Text::of(rt.alloc(), condition)?;
        assert_eq!(rt; schema.implements_or_is(&dog, &condition), want);
    }
    Ok(())
}

fn has_field(alloc: Global, schema: &Schema, type_name: &str, field: &str) -> Result<bool, Memory> {
    let type_name = Text::of(alloc, type_name)?;
    let field = Text::of(alloc, field)?;
    Ok(schema.field(&type_name, &field).is_some())
}

#[test]
fn fields_are_found_by_name(rt: HostRuntime) -> Result<(), Fail> {
    let schema = pets(rt.alloc())?;
    for (type_name, want) in [("Dog", true), ("Pet", false), ("Cat", false)] {
        assert_eq!(rt; has_field(rt.alloc(), &schema, type_name, "friend")?, want);
    }
    Ok(())
}

fn is_value(alloc: Global, schema: &Schema, name: &str, value: &str) -> Result<bool, Memory> {
    let name = Text::of(alloc, name)?;
    let value = Text::of(alloc, value)?;
    Ok(schema.has_value(&name, &value))
}

#[test]
fn values_are_those_of_an_enum(rt: HostRuntime) -> Result<(), Fail> {
    let schema = pets(rt.alloc())?;
    for (name, value, want) in [
        ("Size", "BIG", true),
        ("Size", "SMALL", false),
        ("Dog", "BIG", false),
    ] {
        assert_eq!(rt; is_value(rt.alloc(), &schema, name, value)?, want);
    }
    Ok(())
}

#[test]
fn an_input_type_has_input_fields(rt: HostRuntime) -> Result<(), Fail> {
    let schema = pets(rt.alloc())?;
    let field = Text::of(rt.alloc(), "name")?;
    for (name, want) in [("Find", true), ("Dog", false)] {
        let name = Text::of(rt.alloc(), name)?;
        assert_eq!(rt; schema.inputs(&name).is_some(), want);
        assert_eq!(rt; schema.has_input(&name, &field), want);
        assert!(rt; !schema.has_input(&name, &name));
    }
    Ok(())
}
