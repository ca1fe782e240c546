ghost use Rattle.std.specs.Prelude.{◌≡◌, ◌++◌, map, codes, OnOk, IfOk, string_bytes, ℕ, List};
ghost use Rattle.json_value.specs.Grammar.{IsText, strict};
ghost use Rattle.json_print.specs.Print as spec;

use crate::string::put_quoted;
use flow_base::{Memory, Text};
use json_value::Json;
use std::alloc::Global;

/// The compact text of a value (RFC 8259): no white space, a number as its text, and of a string only `"`, `\` and
/// the characters below U+0020 escaped. Fails only for want of memory. Makes no other text, and recurses once for each
/// level of lists and objects, of which a value that was read has at most 64: this takes some fifty bytes of stack a
/// level, and to let the value go some hundred and fifty.
pub fn print(alloc: Global, value: &Json) -> Result<Text, Memory>
    ensures text { IfOk result (λ t. t ≡ spec.print value.now) }
    // Where some text stands for the value, as for each value that was read, this text does.
    ensures reads_back { IfOk result
        (λ t. (other : List ℕ) → IsText strict value.now other → IsText strict value.now t) }
{
    let mut out = String::new(alloc);
    put(&mut out, value)?;
    Text::from_string(out)
}

#[cycle(put)]
fn put(out: &mut String, value: &Json) -> Result<(), Memory>
    ensures { OnOk result (string_bytes out.new ≡ string_bytes out.old ++ spec.print value.now) }
{
    match value {
        Json::Null => out.push_str("null")?,
        Json::Bool(true) => out.push_str("true")?,
        Json::Bool(false) => out.push_str("false")?,
        Json::Number(text) => out.push_str(text.as_str())?,
        Json::Str(text) => put_quoted(out, text.as_str())?,
        Json::List(items) => put_list(out, items.as_slice())?,
        Json::Object(members) => put_object(out, members.as_slice())?,
    }
    Ok(())
}

#[cycle(put)]
fn put_list(out: &mut String, items: &[Json]) -> Result<(), Memory>
    ensures { OnOk result (string_bytes out.new ≡ string_bytes out.old
        ++ spec.bracketed 91 (map spec.print items.now) 93) }
{
    out.push('[')?;
    for i in 0..items.len() {
        put_comma(out, i)?;
        put(out, &items[i])?;
    }
    out.push(']')?;
    Ok(())
}

#[cycle(put)]
fn put_object(out: &mut String, members: &[(Text, Json)]) -> Result<(), Memory>
    ensures { OnOk result (string_bytes out.new ≡ string_bytes out.old
        ++ spec.bracketed 123 (map spec.member_text (map spec.print_member members.now)) 125) }
{
    out.push('{')?;
    for i in 0..members.len() {
        put_comma(out, i)?;
        put_quoted(out, members[i].0.as_str())?;
        out.push(':')?;
        put(out, &members[i].1)?;
    }
    out.push('}')?;
    Ok(())
}

fn put_comma(out: &mut String, before: usize) -> Result<(), Memory>
    ensures { OnOk result (string_bytes out.new ≡ string_bytes out.old ++ spec.comma before) }
{
    if before > 0 {
        out.push(',')?;
    }
    Ok(())
}
