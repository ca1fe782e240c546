ghost use Rattle.std.specs.Prelude.{◌≡◌, IfOk};
ghost use Rattle.answer_text.specs.ErrorValues as spec;

use crate::parts::{one_member, path_members, string};
use flow_base::{Memory, Text};
use json_paths::Place;
use json_value::Json;
use std::alloc::Global;
use tree_items::Items;

/// The member `extensions`: the code and then these members.
fn extensions(
    alloc: Global,
    code: &str,
    more: Items<(Text, Json)>,
) -> Result<Items<(Text, Json)>, Memory>
    ensures { IfOk result (λ ms. ms ≡ spec.extensions code.now more) }
{
    let mut members = one_member(alloc, "code", string(alloc, code)?)?;
    members.append(more)?;
    one_member(alloc, "extensions", Json::Object(members))
}

/// An error: its message, its path where there is a place, and its code with these members after it.
pub fn error_value(
    alloc: Global,
    message: Text,
    place: Option<Place>,
    code: &str,
    more: Items<(Text, Json)>,
) -> Result<Json, Memory>
    ensures { IfOk result (λ v. v ≡ spec.error_value message place code.now more) }
{
    let mut members = one_member(alloc, "message", Json::Str(message))?;
    members.append(path_members(alloc, place)?)?;
    members.append(extensions(alloc, code, more)?)?;
    Ok(Json::Object(members))
}
