use flow_base::Text;
use gql_terms::Fragment;
use gql_types::Schema;
use json_value::Json;
use std::marker::Model;

/// What an operation is read in: the schema, the fragments of its document and the values of its variables.
#[derive(Drop)]
pub struct Scope<'a> {
    pub schema: &'a Schema,
    pub fragments: &'a [Fragment],
    pub variables: &'a Json,
}

impl<'a> Model for Scope<'a> {
    ghost use Rattle.gql_shape.specs.Terms as terms;
    ghost use Rattle.gql_terms.specs.contracts.documents.TypeRef as type_ref;
    ghost use Rattle.gql_terms.specs.contracts.documents.Value as value;
    ghost use Rattle.gql_terms.specs.contracts.documents.Selection as selection;
    ghost use Rattle.json_value.specs.contracts.tree.Json as json;
    ghost use Rattle.std.specs.Coded.{codes};

    ghost Value = { terms.Scope };

    ghost coded = { Prim.hlevel (
      codes,
      type_ref.the_row.coded,
      value.the_row.coded,
      selection.the_row.coded,
      json.the_row.coded,
    ) };

    ghost view = { λ s. record {
      schema = s.schema.now;
      fragments = s.fragments.now;
      variables =
          s.variables.now;
    } };
}
