ghost use Rattle.std.specs.List.{list_all};
ghost use Rattle.std.specs.Prelude.{◌≡◌};
ghost use Rattle.httparse.specs.Grammar as spec;
ghost use Rattle.http_wire.specs.Writing as writing;

use crate::Field;

/// Whether the bytes can be the value of a field: no control byte but the tab, so no line end
/// (RFC 9110, section 5.5).
pub fn is_field_value(value: &[u8]) -> bool
    ensures { result ≡ writing.is_field_value value.now }
{
    value.iter().all(|byte| is_value_byte(*byte))
}

/// Whether the bytes can be a request target: at least one, and none is white space or a control byte.
pub fn is_target(target: &[u8]) -> bool
    ensures { result ≡ writing.is_target target.now }
{
    target.len() > 0 && are_target_bytes(target)
}

/// Whether a field can be sent with a message that this crate writes: its name is a token
/// (RFC 9110, section 5.6.2) and neither `content-length` nor `transfer-encoding`, which frame the body,
/// and its value can be one.
pub fn can_be_sent(field: &Field) -> bool
    ensures { result ≡ writing.can_be_sent field.now }
{
    is_token(field.name.as_str().as_bytes())
        && is_field_value(field.value.as_slice())
        && !field.name.as_str().eq_ignore_ascii_case("content-length")
        && !field
            .name
            .as_str()
            .eq_ignore_ascii_case("transfer-encoding")
}

fn is_token(bytes: &[u8]) -> bool
    ensures { result ≡ spec.is_token bytes.now }
{
    bytes.len() > 0 && are_token_bytes(bytes)
}

#[tactic(auto, unfolding(httparse::specs::Grammar::is_token_byte))]
fn is_token_byte(byte: u8) -> bool
    ensures { result ≡ spec.is_token_byte byte }
{
    byte.is_ascii_alphanumeric() || b"!#$%&'*+-.^_`|~".contains(&byte)
}

fn is_value_byte(byte: u8) -> bool
    ensures { result ≡ spec.is_value_byte byte }
{
    byte == b'\t' || (byte >= b' ' && byte != 127)
}

fn is_target_byte(byte: u8) -> bool
    ensures { result ≡ spec.is_uri_byte byte }
{
    byte > b' ' && byte != 127
}

fn are_token_bytes(bytes: &[u8]) -> bool
    ensures { result ≡ list_all spec.is_token_byte bytes.now }
{
    bytes.iter().all(|byte| is_token_byte(*byte))
}

fn are_target_bytes(bytes: &[u8]) -> bool
    ensures { result ≡ list_all spec.is_uri_byte bytes.now }
{
    bytes.iter().all(|byte| is_target_byte(*byte))
}
