ghost use Rattle.std.specs.Prelude.{◌≡◌, IfOk, string_bytes};
ghost use Rattle.json_value.specs.declared.tree.Json.{Json};
ghost use Rattle.fetch_asks.specs.Asks.{picked};
ghost use Rattle.fetch_asks.specs.Asks as spec;
ghost use Rattle.fetch_asks.specs.Texts.{members_text};

use crate::members::put_name;
use flow_base::{Memory, Text};
use json_print::print;
use json_value::Json;
use plan_exec::Asked;
use plan_tree::Fetch;
use std::alloc::Global;

/// The body of a fetch's call up to the representations, from the text of the picked variables.
pub fn front_of(
    alloc: Global,
    fetch: &Fetch,
    asked: &Asked,
    members: String,
) -> Result<Text, Memory>
    ensures { (variables : Json) → string_bytes members
        ≡ members_text (picked fetch.now.variables variables) →
        IfOk result (λ t. t ≡ spec.front_of fetch.now asked.now variables) }
{
    let mut members = members;
    match asked {
        Asked::Root => members.push_str("}}")?,
        Asked::Entities { .. } => {
            put_name(alloc, &mut members, "representations")?;
            members.push_str("[")?;
        }
    }
    let query = print(alloc, &Json::Str(fetch.sel.copy()?))?;
    let mut out = String::new(alloc);
    out.push_str("{\"query\":")?;
    out.push_str(query.as_str())?;
    out.push_str(",\"variables\":{")?;
    out.push_str(members.as_str())?;
    Text::from_string(out)
}
