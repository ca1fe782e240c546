ghost use Rattle.std.specs.Prelude.{◌≡◌, ◌++◌, map, OnOk, string_bytes};
ghost use Rattle.gql_print.specs.Words.{joined, type_words, default_words, variable_words, variables_words};
ghost use Rattle.gql_print.specs.Canonical.{spaced};

use crate::values::{put_directives, put_value, put_variable};
use crate::words::put_name;
use flow_base::Memory;
use gql_terms::{TypeRef, Value, VarDef};

/// Appends a type. Recurses once for each list type and each `!`.
pub fn put_type(out: &mut String, of: &TypeRef) -> Result<(), Memory>
    ensures { OnOk result (string_bytes out.new
        ≡ string_bytes out.old ++ spaced (type_words of.now)) }
{
    match of {
        TypeRef::Named(name) => put_name(out, name)?,
        TypeRef::ListOf(of) => {
            out.push_str("[ ")?;
            put_type(out, of.get())?;
            out.push_str("] ")?;
        }
        TypeRef::NonNull(of) => {
            put_type(out, of.get())?;
            out.push_str("! ")?;
        }
    }
    Ok(())
}

fn put_default(out: &mut String, default: &Option<Value>) -> Result<(), Memory>
    ensures { OnOk result (string_bytes out.new
        ≡ string_bytes out.old ++ spaced (default_words default.now)) }
{
    if let Some(value) = default {
        out.push_str("= ")?;
        put_value(out, value)?;
    }
    Ok(())
}

fn put_definition(out: &mut String, variable: &VarDef) -> Result<(), Memory>
    ensures { OnOk result (string_bytes out.new
        ≡ string_bytes out.old ++ spaced (variable_words variable.now)) }
{
    put_variable(out, &variable.name)?;
    out.push_str(": ")?;
    put_type(out, &variable.of)?;
    put_default(out, &variable.default)?;
    put_directives(out, variable.directives.as_slice())?;
    Ok(())
}

fn put_definitions(out: &mut String, variables: &[VarDef]) -> Result<(), Memory>
    ensures { OnOk result (string_bytes out.new
        ≡ string_bytes out.old ++ spaced (joined (map variable_words variables.now))) }
{
    for i in 0..variables.len() {
        put_definition(out, &variables[i])?;
    }
    Ok(())
}

/// Appends variable definitions in brackets, or nothing where there are none.
pub fn put_variables(out: &mut String, variables: &[VarDef]) -> Result<(), Memory>
    ensures { OnOk result (string_bytes out.new
        ≡ string_bytes out.old ++ spaced (variables_words variables.now)) }
{
    if variables.is_empty() {
        return Ok(());
    }
    out.push_str("( ")?;
    put_definitions(out, variables)?;
    out.push_str(") ")?;
    Ok(())
}
