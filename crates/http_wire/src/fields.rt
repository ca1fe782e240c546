ghost use Rattle.std.specs.Cmp.Lexicographic.{pointwise};
ghost use Rattle.std.specs.Prelude.{◌≡◌, nat_eq, ◌<◌, [], ◌∷◌, length, map, All, IfOk, IfSome, IfNone, IsUtf8};
ghost use Rattle.httparse.specs.Spans.{IsHeaderWithin, header_bytes, span_bytes};
ghost use Rattle.http_wire.specs.Heads.{kept_field, values_of};

use crate::Field;
use flow_base::{Bytes, Memory, Text};
use httparse::spans::HeaderSpan;
use std::alloc::Global;

// A text of these bytes.
pub(crate) fn text_of(alloc: Global, bytes: &[u8]) -> Result<Text, Memory>
    ensures { IfOk result (λ t. IsUtf8 bytes.now → t ≡ bytes.now) }
{
    match String::from_utf8_lossy(alloc, bytes) {
        Err(_) => Err(Memory),
        Ok(text) => Text::from_string(text),
    }
}

fn kept_field(alloc: Global, name: &[u8], value: &[u8]) -> Result<Field, Memory>
    requires { IsUtf8 name.now }
    ensures { IfOk result (λ f. f ≡ kept_field (name.now, value.now)) }
{
    let mut text = match String::from_utf8_lossy(alloc, name) {
        Err(_) => return Err(Memory),
        Ok(text) => text,
    };
    text.make_ascii_lowercase();
    match Bytes::of(alloc, value) {
        Err(_) => Err(Memory),
        Ok(value) => Ok(Field {
            name: Text::from_string(text)?,
            value,
        }),
    }
}

// The fields that these spans cover.
pub(crate) fn kept_fields(
    alloc: Global,
    bytes: &[u8],
    spans: &[HeaderSpan],
) -> Result<Vec<Field>, Memory>
    requires within { All (IsHeaderWithin (length bytes.now)) spans.now }
    requires text { All (λ span. IsUtf8 (span_bytes bytes.now span.name)) spans.now }
    ensures { IfOk result
        (λ fields. fields.items ≡ map kept_field (map (header_bytes bytes.now) spans.now)) }
{
    let mut fields: Vec<Field> = Vec::new(alloc);
    for span in spans {
        let field = match kept_field(alloc, span.name.of(bytes), span.value.of(bytes)) {
            Err(Memory) => return Err(Memory),
            Ok(field) => field,
        };
        if fields.push(field).is_err() {
            return Err(Memory);
        }
    }
    Ok(fields)
}

fn is_named(field: &Field, name: &[u8]) -> bool
    ensures { result ≡ pointwise nat_eq field.now.name name.now }
{
    field.name.as_str().as_bytes() == name
}

// The value of the first field with this name, and the fields after it.
pub(crate) fn first_named<'a>(fields: &'a [Field], name: &[u8]) -> Option<(&'a [u8], &'a [Field])>
    ensures some { IfSome result
        (λ r. values_of name.now fields.now ≡ r.0.now ∷ values_of name.now r.1.now) }
    ensures none { IfNone result (values_of name.now fields.now ≡ []) }
    ensures less { IfSome result (λ r. length r.1.now < length fields.now) }
{
    let mut at: usize = 0;
    while at < fields.len() {
        let field = &fields[at];
        if is_named(field, name) {
            return Some((field.value.as_slice(), &fields[at + 1..]));
        }
        at += 1;
    }
    None
}
