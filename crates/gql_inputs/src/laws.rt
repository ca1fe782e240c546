ghost use Rattle.gql_inputs.specs.Variables.{HasOneAnswer};

use gql_terms::Operation;
use gql_types::Schema;
use json_value::Json;

/// A law, with nothing to run: variables come to one object or one fault.
pub fn coercion_is_one(schema: &Schema, operation: &Operation, given: &Json)
    ensures { HasOneAnswer schema.now operation.now.variables given.now }
{}
