ghost use Rattle.std.specs.Prelude.{◌≡◌, []};
ghost use Rattle.gql_shape.specs.declared.shaped.Shaped.{Shaped};
ghost use Rattle.gql_shape.specs.Shaping.{IsShaping};
ghost use Rattle.gql_shape.specs.Whole.{IsWholeData};
ghost use Rattle.gql_shape.specs.Keys.{ObjectsHaveKeys, read_in};

use gql_terms::Document;
use gql_types::Schema;
use json_value::Json;

/// A law, with nothing to run: an operation has one answer over its data.
pub fn answer_is_one(schema: &Schema, document: &Document, variables: &Json, tree: &Json)
    ensures { (a b : Shaped) → IsShaping schema.now document.now variables.now tree.now a
        → IsShaping schema.now document.now variables.now tree.now b → a ≡ b }
{}

/// A law, with nothing to run: data that is of its type wherever the operation asks for it has an answer without errors.
pub fn whole_data_has_no_errors(schema: &Schema, document: &Document, variables: &Json, tree: &Json)
    ensures { (a : Shaped) → IsWholeData schema.now document.now variables.now tree.now
        → IsShaping schema.now document.now variables.now tree.now a → a.errors ≡ [] }
{}

/// A law, with nothing to run: each object that is completed has exactly the response keys that are collected for it and
/// that its type has, in their order.
pub fn objects_have_the_keys_selected(schema: &Schema, document: &Document, variables: &Json)
    ensures { ObjectsHaveKeys (read_in schema.now document.now variables.now) }
{}
