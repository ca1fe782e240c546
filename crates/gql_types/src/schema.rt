ghost use Rattle.std.specs.Prelude.{◌≡◌, IfOk};
ghost use Rattle.std.specs.Option.{option_copied, option_map};
ghost use Rattle.gql_types.specs.Schemas as spec;
ghost use Rattle.gql_types.specs.Finding.{body_in};

use crate::definition::{InputField, Kind, TypeBody, TypeDef};
use crate::index::places_of;
use crate::indexed_type::IndexedType;
use flow_base::{Memory, Text};
use gql_terms::TypeRef;
use indexmap::IndexMap;
use std::alloc::Global;
use std::marker::Model;
use tree_items::{Items, at};

/// A schema, which contracts see as the list of its types. Its types, and the names that each lists, are found by indexes.
#[derive(Drop)]
pub struct Schema {
    types: Vec<IndexedType>,
    places: IndexMap<Text, usize>,
}

impl Model for Schema {
    ghost use Rattle.std.specs.Prelude.{List, map};
    ghost use Rattle.gql_types.specs.declared.definition.TypeDef.{TypeDef};
    ghost use Rattle.gql_types.specs.Index.{FindsFirst, type_def_name};
    ghost use Rattle.gql_types.specs.Finding.{definition_of};
    ghost use Rattle.gql_terms.specs.contracts.documents.TypeRef as type_ref;
    ghost use Rattle.gql_terms.specs.contracts.documents.Value as value;
    ghost use Rattle.std.specs.Coded.{codes};

    ghost Value = { List TypeDef };

    ghost coded = { Prim.hlevel (codes, type_ref.the_row.coded, value.the_row.coded) };

    ghost view = { λ s. map definition_of s.types.items };

    ghost invariant = { λ s. FindsFirst s.places
        (map type_def_name (map definition_of s.types.items)) };
}

impl Schema {
    /// The schema of these types. Of two types with one name the first counts. Fails only for want of memory. Takes time
    /// in the names that it lists; a look-up takes time in the names that it is given, by hash.
    pub fn of(alloc: Global, types: Items<TypeDef>) -> Result<Schema, Memory>
        ensures { IfOk result (λ s. s ≡ types) }
    {
        let mut names = Vec::new(alloc);
        let mut kept = Vec::new(alloc);
        for definition in types.into_vec() {
            names.push(definition.name.copy()?)?;
            kept.push(IndexedType::of(alloc, definition)?)?;
        }
        let places = places_of(alloc, names)?;
        Ok(Schema {
            types: kept,
            places,
        })
    }

    /// The first type with this name.
    fn find(&self, name: &Text) -> Option<&IndexedType>
        ensures { option_map body_in (option_copied result) ≡ spec.body_of self.now name.now }
    {
        let place = self.places.get(name)?;
        at(&self.types, *place)
    }

    /// The kind of a type, and None exactly where there is no such type.
    pub fn kind(&self, name: &Text) -> Option<Kind>
        ensures { result ≡ spec.kind self.now name.now }
    {
        match self.find(name) {
            Some(found) => Some(kind_of(&found.definition.body)),
            None => None,
        }
    }

    /// The type of a field of an object type or an interface.
    pub fn field(&self, type_name: &Text, field: &Text) -> Option<&TypeRef>
        ensures { option_copied result ≡ spec.field self.now type_name.now field.now }
    {
        match self.find(type_name) {
            Some(found) => found.field(field),
            None => None,
        }
    }

    /// Whether this is an enum that has this value.
    pub fn has_value(&self, enum_name: &Text, value: &Text) -> bool
        ensures { result ≡ spec.has_value self.now enum_name.now value.now }
    {
        match self.find(enum_name) {
            Some(found) => match &found.definition.body {
                TypeBody::Enum(_) => found.has(value),
                _ => false,
            },
            None => false,
        }
    }

    /// The fields of an input type, and None of every other name.
    pub fn inputs(&self, input: &Text) -> Option<&Items<InputField>>
        ensures { option_copied result ≡ spec.inputs self.now input.now }
    {
        match self.find(input) {
            Some(found) => match &found.definition.body {
                TypeBody::Input(fields) => Some(fields),
                _ => None,
            },
            None => None,
        }
    }

    /// Whether this is an input type that has this field.
    pub fn has_input(&self, input: &Text, field: &Text) -> bool
        ensures { result ≡ spec.has_input self.now input.now field.now }
    {
        match self.find(input) {
            Some(found) => match &found.definition.body {
                TypeBody::Input(_) => found.has(field),
                _ => false,
            },
            None => false,
        }
    }

    /// Whether the two are equal, or the type lists the interface, or the union lists the type.
    pub fn implements_or_is(&self, object: &Text, condition: &Text) -> bool
        ensures { result ≡ spec.implements_or_is self.now object.now condition.now }
    {
        if object.as_str() == condition.as_str() {
            return true;
        }
        match self.find(condition) {
            Some(found) => match &found.definition.body {
                TypeBody::Interface { .. } => self.lists(object, condition),
                TypeBody::Union(_) => found.has(object),
                _ => false,
            },
            None => false,
        }
    }

    /// Whether the type lists the name among its interfaces.
    fn lists(&self, object: &Text, interface: &Text) -> bool
        ensures { result ≡ spec.lists self.now object.now interface.now }
    {
        match self.find(object) {
            Some(found) => found.lists(interface),
            None => false,
        }
    }
}

fn kind_of(body: &TypeBody) -> Kind
    ensures { result ≡ spec.kind_of body.now }
{
    match body {
        TypeBody::Scalar => Kind::Scalar,
        TypeBody::Object { .. } => Kind::Object,
        TypeBody::Interface { .. } => Kind::Interface,
        TypeBody::Union(_) => Kind::Union,
        TypeBody::Enum(_) => Kind::Enum,
        TypeBody::Input(_) => Kind::Input,
    }
}
