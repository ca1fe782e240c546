//! What the names in types stand for.

ghost use Rattle.std.specs.Prelude.{◌≡◌};
ghost use Rattle.json_value.specs.declared.tree.Json.{out-Json};
ghost use Rattle.gql_types.specs.Schemas as schemas;
ghost use Rattle.gql_shape.specs.Completing as completing;
ghost use Rattle.gql_shape.specs.Kept as spec;

use flow_base::Text;
use gql_leaves::{enum_fits, is_bool, is_integer, is_number, is_string};
use gql_terms::TypeRef;
use gql_types::{Kind, Schema};
use json_value::Json;

/// What a schema has by a name, by the values that it takes.
#[derive(Clone, Copy)]
pub enum Base {
    Int,
    Float,
    Str,
    Bool,
    Id,
    /// A scalar that is not built in.
    Custom,
    Enum,
    /// An object type, an interface or a union.
    Composite,
    /// An input type, or nothing.
    Other,
}

fn scalar_base(name: &str) -> Base
    ensures { result ≡ spec.scalar_base name.now }
{
    if name == "Int" {
        Base::Int
    } else if name == "Float" {
        Base::Float
    } else if name == "String" {
        Base::Str
    } else if name == "Boolean" {
        Base::Bool
    } else if name == "ID" {
        Base::Id
    } else {
        Base::Custom
    }
}

fn base_named(schema: &Schema, name: &Text) -> Base
    ensures { result ≡ spec.base_named schema.now name.now }
{
    match schema.kind(name) {
        Some(Kind::Scalar) => scalar_base(name.as_str()),
        Some(Kind::Enum) => Base::Enum,
        Some(Kind::Object) => Base::Composite,
        Some(Kind::Interface) => Base::Composite,
        Some(Kind::Union) => Base::Composite,
        _ => Base::Other,
    }
}

/// The name under all marks and lists. Recurses once for each of them.
fn base_name(of: &TypeRef) -> &Text
    ensures { result.now ≡ spec.base_name of.now }
{
    match of {
        TypeRef::Named(name) => name,
        TypeRef::ListOf(inner) => base_name(inner.get()),
        TypeRef::NonNull(inner) => base_name(inner.get()),
    }
}

/// What the name in the type stands for.
pub fn base_of(schema: &Schema, of: &TypeRef) -> Base
    ensures { result ≡ spec.base_of schema.now of.now }
{
    base_named(schema, base_name(of))
}

pub fn is_composite(base: Base) -> bool
    ensures { result ≡ spec.is_composite_base base }
{
    matches!(base, Base::Composite)
}

/// Whether the value is one of the scalar or enum with this name, which stands for this. Only an enum is looked up.
pub fn base_fits(schema: &Schema, name: &Text, base: Base, value: &Json) -> bool
    ensures { result ≡ spec.base_fits schema.now name.now (out-Json value.now) base }
{
    match base {
        Base::Int => is_integer(value),
        Base::Float => is_number(value),
        Base::Str => is_string(value),
        Base::Bool => is_bool(value),
        Base::Id => is_string(value) || is_integer(value),
        Base::Custom => true,
        Base::Enum => enum_fits(schema, name, value),
        _ => false,
    }
}
