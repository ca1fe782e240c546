ghost use Rattle.std.specs.Prelude.{◌≡◌};
ghost use Rattle.router_config.specs.Inputs as spec;

use flow_base::Text;
use gql_terms::TypeRef;
use gql_types::{Kind, Schema};

/// The name of a type's innermost type. Recurses once for each list and each non-null mark.
pub fn innermost(of: &TypeRef) -> &Text
    ensures { result.now ≡ spec.innermost of.now }
{
    match of {
        TypeRef::Named(name) => name,
        TypeRef::ListOf(inner) => innermost(inner.get()),
        TypeRef::NonNull(inner) => innermost(inner.get()),
    }
}

/// Whether the schema has an input type of this name.
pub fn is_input(schema: &Schema, name: &Text) -> bool
    ensures { result ≡ spec.is_input schema.now name.now }
{
    matches!(
        schema.kind(name),
        Some(Kind::Scalar | Kind::Enum | Kind::Input)
    )
}
