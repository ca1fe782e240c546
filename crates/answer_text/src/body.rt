ghost use Rattle.std.specs.Prelude.{◌≡◌, ◌++◌, map, IfOk};
ghost use Rattle.json_print.specs.Print.{print as print_of};
ghost use Rattle.answer_text.specs.FetchErrors as fetch_errors;
ghost use Rattle.answer_text.specs.ShapeErrors as shape_errors;
ghost use Rattle.answer_text.specs.Refusals.{refusal_value as value_of};
ghost use Rattle.answer_text.specs.Bodies as spec;

use crate::fetch_error::{FetchError, fetch_error_value};
use crate::parts::one_member;
use crate::refusal::{Refusal, refusal_value};
use crate::shape_error::shape_error_value;
use flow_base::{Memory, Text};
use gql_shape::{ShapeError, Shaped};
use json_print::print;
use json_value::Json;
use std::alloc::Global;
use tree_items::Items;

fn fetch_values(alloc: Global, errors: Vec<FetchError>) -> Result<Items<Json>, Memory>
    ensures { IfOk result (λ vs. vs ≡ map fetch_errors.fetch_error errors.items) }
{
    let mut values = Items::new(alloc);
    'listing: for error in errors {
        values.push(fetch_error_value(alloc, error)?)?;
    }
    Ok(values)
}

fn shape_values(alloc: Global, errors: Vec<ShapeError>) -> Result<Items<Json>, Memory>
    ensures { IfOk result (λ vs. vs ≡ map shape_errors.shape_error errors.items) }
{
    let mut values = Items::new(alloc);
    'listing: for error in errors {
        values.push(shape_error_value(alloc, error)?)?;
    }
    Ok(values)
}

/// The member `errors`, where there is an error.
fn errors_members(alloc: Global, errors: Items<Json>) -> Result<Items<(Text, Json)>, Memory>
    ensures { IfOk result (λ ms. ms ≡ spec.errors_members errors) }
{
    if errors.is_empty() {
        Ok(Items::new(alloc))
    } else {
        one_member(alloc, "errors", Json::List(errors))
    }
}

/// The value of an answer's body, into which the data is moved.
fn answer_value(alloc: Global, errors: Vec<FetchError>, shaped: Shaped) -> Result<Json, Memory>
    ensures { IfOk result (λ v. v ≡ spec.answer_value errors.items shaped) }
{
    let Shaped {
        value,
        errors: shape,
    } = shaped;
    let mut values = fetch_values(alloc, errors)?;
    values.append(shape_values(alloc, shape.into_vec())?)?;
    let mut members = one_member(alloc, "data", value)?;
    members.append(errors_members(alloc, values)?)?;
    Ok(Json::Object(members))
}

/// The body of an answer: its data and, where there are any, its errors, those of the fetches in the order in which they
/// were done and then those of shaping. Fails only for want of memory. Copies nothing of the data but into the text.
pub fn answer_body(alloc: Global, errors: Vec<FetchError>, shaped: Shaped) -> Result<Text, Memory>
    ensures { IfOk result (λ t. t ≡ print_of (spec.answer_value errors.items shaped)) }
{
    let value = answer_value(alloc, errors, shaped)?;
    print(alloc, &value)
}

/// The body of a refusal. Fails only for want of memory.
pub fn refusal_body(alloc: Global, refusal: Refusal) -> Result<Text, Memory>
    ensures { IfOk result (λ t. t ≡ print_of (value_of refusal)) }
{
    let value = refusal_value(alloc, refusal)?;
    print(alloc, &value)
}
