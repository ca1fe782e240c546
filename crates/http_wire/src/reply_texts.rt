ghost use Rattle.std.specs.Prelude.{◌≡◌, IfOk};
ghost use Rattle.http_wire.specs.Framings.{first_text, joined, text_or_mark};
ghost use Rattle.http_wire.specs.Heads.{values_of};

use crate::Field;
use crate::fields::first_named;
use flow_base::{Memory, Text};
use std::alloc::Global;
use std::str::from_utf8;

// The value as text, or a question mark where it is not UTF-8.
fn text_or_mark(value: &[u8]) -> &str
    ensures { result.now ≡ text_or_mark value.now }
{
    match from_utf8(value) {
        Ok(text) => text,
        Err(_) => "?",
    }
}

// The values of the fields with this name as one list; None where there are none.
pub(crate) fn joined(alloc: Global, fields: &[Field], name: &[u8]) -> Result<Option<Text>, Memory>
    ensures { IfOk result (λ t. t ≡ joined (values_of name.now fields.now)) }
{
    let (value, mut rest) = match first_named(fields, name) {
        None => return Ok(None),
        Some((value, rest)) => (value, rest),
    };
    let mut list = String::from_str(alloc, text_or_mark(value))?;
    while let Some((value, more)) = first_named(rest, name) {
        list.push_str(", ")?;
        list.push_str(text_or_mark(value))?;
        rest = more;
    }
    Ok(Some(Text::from_string(list)?))
}

// The value of the first field with this name; None where there is none.
pub(crate) fn first_text(
    alloc: Global,
    fields: &[Field],
    name: &[u8],
) -> Result<Option<Text>, Memory>
    ensures { IfOk result (λ t. t ≡ first_text (values_of name.now fields.now)) }
{
    match first_named(fields, name) {
        None => Ok(None),
        Some((value, _)) => Ok(Some(Text::of(alloc, text_or_mark(value))?)),
    }
}
