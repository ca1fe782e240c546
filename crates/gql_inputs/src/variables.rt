ghost use Rattle.std.specs.Prelude.{◌≡◌, [], IfOk, IfErr};
ghost use Rattle.gql_inputs.specs.Variables as spec;
ghost use Rattle.gql_inputs.specs.Variables.{CoercesVariable, CoercesVariables, Next, IsCoerced, IsFirstFaultOf, IsFault, IsFaultOf, Faults, WhenAbsent, WhenGiven, known, faulty};

use crate::constant::constant;
use crate::fault::{Refusal, VarFault};
use crate::names::{Given, note};
use crate::value::{coerce_value, is_null};
use flow_base::Text;
use gql_leaves::is_required;
use gql_terms::{Operation, VarDef};
use gql_types::Schema;
use indexmap::IndexSet;
use json_paths::Place;
use json_value::Json;
use std::alloc::Global;
use tree_items::Items;

fn members_of(given: &Json) -> &[(Text, Json)]
    ensures { result.now ≡ spec.members_of given.now }
{
    match given {
        Json::Object(members) => members.as_slice(),
        _ => &[],
    }
}

fn missing(name: &Text) -> VarFault
    ensures { Faults result (result ≡ spec.missing name.now) }
{
    match name.copy() {
        Ok(name) => VarFault::Missing(name),
        Err(_) => VarFault::Memory,
    }
}

fn null_given(name: &Text) -> VarFault
    ensures { Faults result (result ≡ spec.null_given name.now) }
{
    match name.copy() {
        Ok(name) => VarFault::Null(name),
        Err(_) => VarFault::Memory,
    }
}

/// What becomes of a variable for which no value is given.
fn coerce_absent(alloc: Global, definition: &VarDef) -> Result<Option<Json>, VarFault>
    ensures value { IfOk result (λ w. WhenAbsent definition.now (known w)) }
    ensures fault { IfErr result (λ e. Faults e (WhenAbsent definition.now (faulty e))) }
{
    match &definition.default {
        Some(default) => match constant(alloc, default) {
            Ok(value) => Ok(Some(value)),
            Err(_) => Err(VarFault::Memory),
        },
        None => {
            if is_required(&definition.of) {
                Err(missing(&definition.name))
            } else {
                Ok(None)
            }
        }
    }
}

fn refused_value(name: &Text, refusal: Refusal) -> VarFault
    ensures { Faults result (spec.IsPlacedAt refusal (λ q. result ≡ spec.wrong_kind name.now q)) }
{
    match refusal {
        Refusal::At(spots) => match name.copy() {
            Ok(name) => VarFault::WrongKind(name, Place { spots }),
            Err(_) => VarFault::Memory,
        },
        Refusal::Memory => VarFault::Memory,
    }
}

/// The value given for a variable, coerced by its type.
fn coerce_given(
    alloc: Global,
    schema: &Schema,
    definition: &VarDef,
    value: &Json,
) -> Result<Json, VarFault>
    ensures value { IfOk result (λ w. WhenGiven schema.now definition.now value.now
        (known (Some w))) }
    ensures fault { IfErr result
        (λ e. Faults e (WhenGiven schema.now definition.now value.now (faulty e))) }
{
    if is_null(value) {
        if is_required(&definition.of) {
            return Err(null_given(&definition.name));
        }
        return Ok(Json::Null);
    }
    let mut spots = Vec::new(alloc);
    match coerce_value(alloc, schema, value, &definition.of, &mut spots) {
        Ok(made) => Ok(made),
        Err(refusal) => Err(refused_value(&definition.name, refusal)),
    }
}

/// What becomes of a variable: a value, or none where it is left out.
fn coerce_variable(
    alloc: Global,
    schema: &Schema,
    definition: &VarDef,
    given: &Given<'_>,
) -> Result<Option<Json>, VarFault>
    ensures value { IfOk result (λ w. CoercesVariable schema.now given.now.members.now
        definition.now (known w)) }
    ensures fault { IfErr result
        (λ e. IsFaultOf schema.now given.now.members.now definition.now e) }
{
    match given.get(&definition.name) {
        Some(value) => match coerce_given(alloc, schema, definition, value) {
            Ok(made) => Ok(Some(made)),
            Err(fault) => Err(fault),
        },
        None => coerce_absent(alloc, definition),
    }
}

/// The values so far and that of one more definition.
fn coerce_next(
    alloc: Global,
    schema: &Schema,
    definition: &VarDef,
    given: &Given<'_>,
    made: Items<(Text, Json)>,
) -> Result<Items<(Text, Json)>, VarFault>
    ensures value { IfOk result (λ ms. Next schema.now given.now.members.now definition.now made
        ms) }
    ensures fault { IfErr result
        (λ e. IsFaultOf schema.now given.now.members.now definition.now e) }
{
    let mut made = made;
    match coerce_variable(alloc, schema, definition, given) {
        Ok(Some(value)) => {
            made.push((definition.name.copy()?, value))?;
            Ok(made)
        }
        Ok(None) => Ok(made),
        Err(fault) => Err(fault),
    }
}

/// Each variable in turn, until one is refused. A second definition of a name is passed over.
fn coerce_all(
    alloc: Global,
    schema: &Schema,
    definitions: &[VarDef],
    given: &Given<'_>,
) -> Result<Items<(Text, Json)>, VarFault>
    ensures value { IfOk result (λ ms.
        CoercesVariables schema.now given.now.members.now [] definitions.now (known ms)) }
    ensures fault { IfErr result (λ e. IsFault schema.now given.now.members.now definitions.now e) }
{
    let mut seen = IndexSet::new(alloc);
    let mut made: Items<(Text, Json)> = Items::new(alloc);
    for i in 0..definitions.len() {
        let definition = &definitions[i];
        if !note(&mut seen, &definition.name)? {
            continue;
        }
        match coerce_next(alloc, schema, definition, given, made) {
            Ok(more) => made = more,
            Err(fault) => return Err(fault),
        }
    }
    Ok(made)
}

/// The object of the values of an operation's variables, in the order of their definitions; or the first variable that
/// is refused. Takes time in the text of the variables and values and in the fields of each input type that a value is of.
pub fn coerce(
    alloc: Global,
    schema: &Schema,
    operation: &Operation,
    given: &Json,
) -> Result<Json, VarFault>
    ensures value { IfOk result (λ v. IsCoerced schema.now operation.now.variables given.now v) }
    ensures fault { IfErr result
        (λ e. IsFirstFaultOf schema.now operation.now.variables given.now e) }
{
    let given = Given::of(alloc, members_of(given))?;
    match coerce_all(alloc, schema, operation.variables.as_slice(), &given) {
        Ok(made) => Ok(Json::Object(made)),
        Err(fault) => Err(fault),
    }
}
