ghost use Rattle.std.specs.Prelude.{◌≡◌, ◌∷◌, [], ◌++◌, OnOk, string_bytes};
ghost use Rattle.gql_tokens.specs.declared.kinds.Kind.TheVariants as kinds;
ghost use Rattle.gql_print.specs.Words.{token, name};
ghost use Rattle.gql_print.specs.Canonical.{spaced};

use flow_base::{Memory, Text};

/// Appends a name and a space.
pub fn put_name(out: &mut String, text: &Text) -> Result<(), Memory>
    ensures { OnOk result (string_bytes out.new
        ≡ string_bytes out.old ++ spaced (name text.now ∷ [])) }
{
    out.push_str(text.as_str())?;
    out.push_str(" ")?;
    Ok(())
}

/// Appends a number and a space.
pub fn put_number(out: &mut String, text: &Text) -> Result<(), Memory>
    ensures { OnOk result (string_bytes out.new
        ≡ string_bytes out.old ++ spaced (token kinds.Number text.now ∷ [])) }
{
    out.push_str(text.as_str())?;
    out.push_str(" ")?;
    Ok(())
}

/// Appends a string in its quotes and a space.
pub fn put_string(out: &mut String, text: &Text) -> Result<(), Memory>
    ensures { OnOk result (string_bytes out.new
        ≡ string_bytes out.old ++ spaced (token kinds.Str text.now ∷ [])) }
{
    out.push_str("\"")?;
    out.push_str(text.as_str())?;
    out.push_str("\" ")?;
    Ok(())
}

/// Appends a block string in its quotes and a space.
pub fn put_block(out: &mut String, text: &Text) -> Result<(), Memory>
    ensures { OnOk result (string_bytes out.new
        ≡ string_bytes out.old ++ spaced (token kinds.Block text.now ∷ [])) }
{
    out.push_str("\"\"\"")?;
    out.push_str(text.as_str())?;
    out.push_str("\"\"\" ")?;
    Ok(())
}
