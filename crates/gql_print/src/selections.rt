ghost use Rattle.std.specs.Prelude.{◌≡◌, ◌∷◌, [], ◌++◌, map, OnOk, string_bytes};
ghost use Rattle.gql_print.specs.Words as word;
ghost use Rattle.gql_print.specs.Words.{joined, alias_words, condition_words, dots, selection_words, set_words};
ghost use Rattle.gql_print.specs.Canonical.{spaced};

use crate::values::{put_arguments, put_directives};
use crate::words::put_name;
use flow_base::{Memory, Text};
use gql_terms::Selection;

/// Appends a selection. Recurses once for each level of selection sets.
#[cycle(put_selection)]
fn put_selection(out: &mut String, selection: &Selection) -> Result<(), Memory>
    ensures { OnOk result (string_bytes out.new
        ≡ string_bytes out.old ++ spaced (selection_words selection.now)) }
{
    match selection {
        Selection::Field {
            alias,
            name,
            arguments,
            directives,
            selections,
        } => {
            put_alias(out, alias, name)?;
            put_arguments(out, arguments.as_slice())?;
            put_directives(out, directives.as_slice())?;
            put_set(out, selections.as_slice())?;
        }
        Selection::Spread { name, directives } => {
            put_spread(out, name)?;
            put_directives(out, directives.as_slice())?;
        }
        Selection::Inline {
            on,
            directives,
            selections,
        } => {
            put_condition(out, on)?;
            put_directives(out, directives.as_slice())?;
            put_set(out, selections.as_slice())?;
        }
    }
    Ok(())
}

#[cycle(put_selection)]
fn put_selections(out: &mut String, selections: &[Selection]) -> Result<(), Memory>
    ensures { OnOk result (string_bytes out.new
        ≡ string_bytes out.old ++ spaced (joined (map selection_words selections.now))) }
{
    for i in 0..selections.len() {
        put_selection(out, &selections[i])?;
    }
    Ok(())
}

/// Appends a selection set in braces, or nothing where it is empty.
#[cycle(put_selection)]
pub fn put_set(out: &mut String, selections: &[Selection]) -> Result<(), Memory>
    ensures { OnOk result (string_bytes out.new
        ≡ string_bytes out.old ++ spaced (set_words selections.now)) }
{
    if selections.is_empty() {
        return Ok(());
    }
    out.push_str("{ ")?;
    put_selections(out, selections)?;
    out.push_str("} ")?;
    Ok(())
}

fn put_alias(out: &mut String, alias: &Option<Text>, name: &Text) -> Result<(), Memory>
    ensures { OnOk result (string_bytes out.new
        ≡ string_bytes out.old ++ spaced (alias_words alias.now name.now)) }
{
    if let Some(alias) = alias {
        put_name(out, alias)?;
        out.push_str(": ")?;
    }
    put_name(out, name)?;
    Ok(())
}

fn put_spread(out: &mut String, name: &Text) -> Result<(), Memory>
    ensures { OnOk result (string_bytes out.new
        ≡ string_bytes out.old ++ spaced (dots ∷ (word.name name.now ∷ []))) }
{
    out.push_str("... ")?;
    put_name(out, name)?;
    Ok(())
}

/// Appends the dots of an inline fragment, and its type condition.
fn put_condition(out: &mut String, on: &Option<Text>) -> Result<(), Memory>
    ensures { OnOk result (string_bytes out.new
        ≡ string_bytes out.old ++ spaced (dots ∷ condition_words on.now)) }
{
    out.push_str("... ")?;
    if let Some(on) = on {
        out.push_str("on ")?;
        put_name(out, on)?;
    }
    Ok(())
}
