ghost use Rattle.std.specs.Prelude.{◌≡◌, ◌∷◌, ◌++◌, [], ℕ, List, IfOk, OnOk, string_bytes};
ghost use Rattle.json_value.specs.declared.tree.Json.{Json};
ghost use Rattle.json_print.specs.Print as spec;
ghost use Rattle.fetch_asks.specs.Asks.{picked};
ghost use Rattle.fetch_asks.specs.Texts.{members_text};

use flow_base::{Memory, Text};
use json_print::print;
use json_value::{Json, member};
use std::alloc::Global;

/// The text of the members of these variables that have these names, without the braces around them.
pub fn picked_text(alloc: Global, names: &[Text], variables: &Json) -> Result<String, Memory>
    ensures { IfOk result (λ t. string_bytes t ≡ members_text (picked names.now variables.now)) }
{
    let mut out = String::new(alloc);
    for name in names {
        if let Some(value) = member(variables, name.as_str()) {
            put_member(alloc, &mut out, name.as_str(), value)?;
        }
    }
    Ok(out)
}

/// Appends one more member.
fn put_member(alloc: Global, out: &mut String, name: &str, value: &Json) -> Result<(), Memory>
    ensures { (members : List (List ℕ × Json)) → string_bytes out.old ≡ members_text members →
        OnOk result (string_bytes out.new ≡ members_text (members ++ (name.now, value.now) ∷ [])) }
{
    put_name(alloc, out, name)?;
    out.push_str(print(alloc, value)?.as_str())?;
    Ok(())
}

/// Appends the name of one more member, with its colon.
pub fn put_name(alloc: Global, out: &mut String, name: &str) -> Result<(), Memory>
    ensures { (members : List (List ℕ × Json)) (value : Json)
        → string_bytes out.old ≡ members_text members →
        OnOk result (string_bytes out.new ++ spec.print value
        ≡ members_text (members ++ (name.now, value) ∷ [])) }
{
    if !out.is_empty() {
        out.push_str(",")?;
    }
    let quoted = print(alloc, &Json::Str(Text::of(alloc, name)?))?;
    out.push_str(quoted.as_str())?;
    out.push_str(":")?;
    Ok(())
}
