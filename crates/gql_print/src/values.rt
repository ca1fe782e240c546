ghost use Rattle.std.specs.Prelude.{◌≡◌, ◌∷◌, [], ◌++◌, map, OnOk, string_bytes};
ghost use Rattle.gql_print.specs.Words.{joined, bool_word, close_brace, close_bracket, dollar, name, open_brace, open_bracket, value_words, pair_words, arguments_words, directive_words, directives_words};
ghost use Rattle.gql_print.specs.Canonical.{spaced};

use crate::words::{put_block, put_name, put_number, put_string};
use flow_base::{Memory, Text};
use gql_terms::{Directive, Value};

/// Appends a value. Recurses once for each level of list and object values.
#[cycle(put_value)]
pub fn put_value(out: &mut String, value: &Value) -> Result<(), Memory>
    ensures { OnOk result (string_bytes out.new
        ≡ string_bytes out.old ++ spaced (value_words value.now)) }
{
    match value {
        Value::Variable(text) => put_variable(out, text)?,
        Value::Number(text) => put_number(out, text)?,
        Value::Str(text) => put_string(out, text)?,
        Value::Block(text) => put_block(out, text)?,
        Value::Bool(value) => put_bool(out, *value)?,
        Value::Null => out.push_str("null ")?,
        Value::EnumName(text) => put_name(out, text)?,
        Value::List(items) => put_list(out, items.as_slice())?,
        Value::Object(members) => put_object(out, members.as_slice())?,
    }
    Ok(())
}

#[cycle(put_value)]
fn put_list(out: &mut String, values: &[Value]) -> Result<(), Memory>
    ensures { OnOk result (string_bytes out.new ≡ string_bytes out.old
        ++ spaced (open_bracket ∷ (joined (map value_words values.now) ++ (close_bracket ∷ [])))) }
{
    out.push_str("[ ")?;
    put_values(out, values)?;
    out.push_str("] ")?;
    Ok(())
}

#[cycle(put_value)]
fn put_object(out: &mut String, members: &[(Text, Value)]) -> Result<(), Memory>
    ensures { OnOk result (string_bytes out.new ≡ string_bytes out.old
        ++ spaced (open_brace ∷ (joined (map pair_words members.now) ++ (close_brace ∷ [])))) }
{
    out.push_str("{ ")?;
    put_pairs(out, members)?;
    out.push_str("} ")?;
    Ok(())
}

#[cycle(put_value)]
fn put_values(out: &mut String, values: &[Value]) -> Result<(), Memory>
    ensures { OnOk result (string_bytes out.new
        ≡ string_bytes out.old ++ spaced (joined (map value_words values.now))) }
{
    for i in 0..values.len() {
        put_value(out, &values[i])?;
    }
    Ok(())
}

/// Appends names and their values.
#[cycle(put_value)]
fn put_pairs(out: &mut String, pairs: &[(Text, Value)]) -> Result<(), Memory>
    ensures { OnOk result (string_bytes out.new
        ≡ string_bytes out.old ++ spaced (joined (map pair_words pairs.now))) }
{
    for i in 0..pairs.len() {
        put_name(out, &pairs[i].0)?;
        out.push_str(": ")?;
        put_value(out, &pairs[i].1)?;
    }
    Ok(())
}

pub fn put_variable(out: &mut String, text: &Text) -> Result<(), Memory>
    ensures { OnOk result (string_bytes out.new
        ≡ string_bytes out.old ++ spaced (dollar ∷ (name text.now ∷ []))) }
{
    out.push_str("$")?;
    put_name(out, text)?;
    Ok(())
}

fn put_bool(out: &mut String, value: bool) -> Result<(), Memory>
    ensures { OnOk result (string_bytes out.new
        ≡ string_bytes out.old ++ spaced (bool_word value ∷ [])) }
{
    out.push_str(if value { "true " } else { "false " })?;
    Ok(())
}

/// Appends arguments in brackets, or nothing where there are none.
pub fn put_arguments(out: &mut String, arguments: &[(Text, Value)]) -> Result<(), Memory>
    ensures { OnOk result (string_bytes out.new
        ≡ string_bytes out.old ++ spaced (arguments_words arguments.now)) }
{
    if arguments.is_empty() {
        return Ok(());
    }
    out.push_str("( ")?;
    put_pairs(out, arguments)?;
    out.push_str(") ")?;
    Ok(())
}

fn put_directive(out: &mut String, directive: &Directive) -> Result<(), Memory>
    ensures { OnOk result (string_bytes out.new
        ≡ string_bytes out.old ++ spaced (directive_words directive.now)) }
{
    out.push_str("@")?;
    put_name(out, &directive.name)?;
    put_arguments(out, directive.arguments.as_slice())?;
    Ok(())
}

pub fn put_directives(out: &mut String, directives: &[Directive]) -> Result<(), Memory>
    ensures { OnOk result (string_bytes out.new
        ≡ string_bytes out.old ++ spaced (directives_words directives.now)) }
{
    for i in 0..directives.len() {
        put_directive(out, &directives[i])?;
    }
    Ok(())
}
