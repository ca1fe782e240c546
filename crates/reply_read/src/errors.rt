ghost use Rattle.std.specs.Prelude.{◌≡◌, IfOk, map};
ghost use Rattle.std.specs.Option.{option_map, option_copied};
ghost use Rattle.reply_read.specs.Errors as spec;

use crate::kinds::{are_objects, string_or};
use flow_base::{Memory, Text};
use json_tree::{Json, member};
use std::alloc::Global;

/// The text of an error: its message where that is a string.
fn message(alloc: Global, error: &Json) -> Result<Text, Memory>
    ensures { IfOk result (λ text. text ≡ spec.message error.now) }
{
    match member(error, "message") {
        Some(message) => string_or(alloc, message, "subgraph error"),
        None => Text::of(alloc, "subgraph error"),
    }
}

fn messages(alloc: Global, errors: &[Json]) -> Result<Vec<Text>, Memory>
    ensures { IfOk result (λ texts. texts.items ≡ map spec.message errors.now) }
{
    let mut texts = Vec::new(alloc);
    for error in errors {
        texts.push(message(alloc, error)?)?;
    }
    Ok(texts)
}

/// The texts of the errors, from the member `errors`; None where it is in another form.
pub fn error_texts(alloc: Global, errors: Option<&Json>) -> Result<Option<Vec<Text>>, Memory>
    ensures { IfOk result
        (λ found. option_map (λ v. v.items) found ≡ spec.error_texts (option_copied errors.entry)) }
{
    match errors {
        None => Ok(Some(Vec::new(alloc))),
        Some(Json::Null) => Ok(Some(Vec::new(alloc))),
        Some(Json::List(items)) => {
            if are_objects(items.as_slice()) {
                Ok(Some(messages(alloc, items.as_slice())?))
            } else {
                Ok(None)
            }
        }
        Some(_) => Ok(None),
    }
}
