ghost use Rattle.std.specs.Prelude.{◌≡◌, IfOk};
ghost use Rattle.answer_text.specs.ShapeErrors as spec;

use crate::error::error_value;
use flow_base::{Memory, Text};
use gql_shape::{ShapeCode, ShapeError};
use json_value::Json;
use std::alloc::Global;
use tree_items::Items;

fn code_of(code: ShapeCode) -> &'static str
    ensures { result.now ≡ spec.code_of code }
{
    match code {
        ShapeCode::NullInNonNull => "NULL_IN_NON_NULL",
        ShapeCode::WrongKind => "WRONG_KIND",
    }
}

fn message_of(code: ShapeCode) -> &'static str
    ensures { result.now ≡ spec.message_of code }
{
    match code {
        ShapeCode::NullInNonNull => "null in a non-null place",
        ShapeCode::WrongKind => "value of the wrong kind",
    }
}

/// The error as it stands in an answer.
pub fn shape_error_value(alloc: Global, error: ShapeError) -> Result<Json, Memory>
    ensures { IfOk result (λ v. v ≡ spec.shape_error error) }
{
    let ShapeError { code, place } = error;
    let message = Text::of(alloc, message_of(code))?;
    error_value(
        alloc,
        message,
        Some(place),
        code_of(code),
        Items::new(alloc),
    )
}
