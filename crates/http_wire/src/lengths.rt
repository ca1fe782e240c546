ghost use Rattle.std.specs.Str.Parse.{digits_value};
ghost use Rattle.std.specs.Prelude.{◌≡◌, Some, None, if◌then◌else◌};
ghost use Rattle.http_wire.specs.Heads.{declared_length, is_length};

use crate::Field;
use crate::fields::first_named;

// The number that 1 to 15 digits write.
pub(crate) fn number_of(value: &[u8]) -> Option<u64>
    ensures { result ≡ (if is_length value.now then Some (digits_value 10 value.now) else None) }
{
    if value.is_empty() || value.len() > 15 {
        return None;
    }
    let mut number = 0u64;
    for digit in value {
        if !digit.is_ascii_digit() {
            return None;
        }
        number = number * 10 + (*digit - b'0') as u64;
    }
    Some(number)
}

// The length that the fields declare; None where the framing is not accepted.
pub(crate) fn declared_length(fields: &[Field]) -> Option<u64>
    ensures { result ≡ declared_length fields.now }
{
    if first_named(fields, b"transfer-encoding").is_some() {
        return None;
    }
    match first_named(fields, b"content-length") {
        None => Some(0),
        Some((value, rest)) => match first_named(rest, b"content-length") {
            Some(_) => None,
            None => number_of(value),
        },
    }
}
