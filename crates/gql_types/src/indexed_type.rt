ghost use Rattle.std.specs.Prelude.{◌≡◌, IfOk};
ghost use Rattle.std.specs.Option.{option_copied};
ghost use Rattle.gql_types.specs.Index.{FindsFirst, names_in};
ghost use Rattle.gql_types.specs.Schemas.{fields_of, field_of, interfaces_of, is_among};

use crate::definition::{FieldDef, TypeBody, TypeDef};
use crate::index::{interfaces_in, names_in, places_of};
use flow_base::{Memory, Text};
use gql_terms::TypeRef;
use indexmap::IndexMap;
use std::alloc::Global;
use tree_items::at;

/// A type, with indexes on the names that it lists.
#[derive(Drop)]
pub struct IndexedType {
    pub definition: TypeDef,
    names: IndexMap<Text, usize>,
    interfaces: IndexMap<Text, usize>,
    pub ghost names_found: { FindsFirst names (names_in definition.body) },
    pub ghost interfaces_found: { FindsFirst interfaces (interfaces_of definition.body) },
}

impl IndexedType {
    pub fn of(alloc: Global, definition: TypeDef) -> Result<IndexedType, Memory>
        ensures { IfOk result (λ t. t.definition ≡ definition) }
    {
        let names = places_of(alloc, names_in(alloc, &definition.body)?)?;
        let interfaces = places_of(alloc, interfaces_in(alloc, &definition.body)?)?;
        Ok(IndexedType {
            definition,
            names,
            interfaces,
        })
    }

    /// Whether this is the name of one of its fields, values or members.
    pub fn has(&self, name: &Text) -> bool
        ensures { result ≡ is_among (names_in self.now.definition.body) name.now }
    {
        self.names.contains_key(name)
    }

    /// Whether it lists the name among its interfaces.
    pub fn lists(&self, interface: &Text) -> bool
        ensures { result ≡ is_among (interfaces_of self.now.definition.body) interface.now }
    {
        self.interfaces.contains_key(interface)
    }

    /// The type of the first field with this name.
    pub fn field(&self, name: &Text) -> Option<&TypeRef>
        ensures { option_copied result ≡ field_of (fields_of self.now.definition.body) name.now }
    {
        let place = self.names.get(name)?;
        let field = at(fields_in(&self.definition.body), *place)?;
        Some(&field.of)
    }
}

fn fields_in(body: &TypeBody) -> &[FieldDef]
    ensures { result.now ≡ fields_of body.now }
{
    match body {
        TypeBody::Object { fields, .. } => fields.as_slice(),
        TypeBody::Interface { fields, .. } => fields.as_slice(),
        _ => &[],
    }
}
