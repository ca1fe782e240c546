//! Numbers.

ghost use Rattle.std.specs.Prelude.{◌≡◌, ◌≤◌, ◌<◌, ◌+◌, length, slice_index, Some, None};
ghost use Rattle.json_machine.specs.Numbers as spec;
ghost use Rattle.json_machine.specs.Mode as modes;
ghost use Rattle.json_machine.specs.Onward.{cut};
ghost use Rattle.json_read.specs.Reading.{NumberFollows, ReadsOn, Anywhere};

use crate::buffer::text_of;
use json_machine::Digit;
use json_value::{Json, JsonFault};
use std::alloc::Global;

pub fn number_start(byte: u8) -> Option<Digit>
    ensures { result ≡ spec.number_start byte }
{
    match byte {
        b'-' => Some(Digit::Minus),
        b'0' => Some(Digit::Zero),
        b'1'..=b'9' => Some(Digit::Whole),
        _ => None,
    }
}

pub fn number_next(part: Digit, byte: u8) -> Option<Digit>
    ensures { result ≡ spec.number_next part byte }
{
    match (part, byte) {
        (Digit::Minus, b'0') => Some(Digit::Zero),
        (Digit::Minus | Digit::Whole, b'0'..=b'9') => Some(Digit::Whole),
        (Digit::Zero | Digit::Whole, b'.') => Some(Digit::Dot),
        (Digit::Dot | Digit::Fraction, b'0'..=b'9') => Some(Digit::Fraction),
        (Digit::Zero | Digit::Whole | Digit::Fraction, b'e' | b'E') => Some(Digit::E),
        (Digit::E, b'+' | b'-') => Some(Digit::Sign),
        (Digit::E | Digit::Sign | Digit::Exponent, b'0'..=b'9') => Some(Digit::Exponent),
        _ => None,
    }
}

/// Whether the number may end here.
pub fn may_end(part: Digit) -> bool
    ensures { result ≡ spec.may_end part }
{
    matches!(
        part,
        Digit::Zero | Digit::Whole | Digit::Fraction | Digit::Exponent
    )
}

/// Where the number that was begun before this place ends, and what was read of it last.
fn number_run(bytes: &[u8], at: usize, start: Digit) -> (usize, Digit)
    requires { at ≤ length bytes.now }
    ensures after { at ≤ result.0 }
    ensures within { result.0 ≤ length bytes.now }
    ensures follows { NumberFollows start (cut bytes.now at result.0) result.1 }
    ensures stops { result.0 < length bytes.now
        → spec.number_next result.1 (slice_index bytes.now result.0) ≡ None }
{
    let mut part = start;
    let mut i = at;
    while i < bytes.len() {
        match number_next(part, bytes[i]) {
            Some(next) => part = next,
            None => return (i, part),
        }
        i += 1;
    }
    (i, part)
}

/// The number at this place, and the place after it.
pub fn number(
    alloc: Global,
    bytes: &[u8],
    at: usize,
    start: Digit,
) -> Result<(Json, usize), JsonFault>
    requires within { at < length bytes.now }
    requires begins { spec.number_start (slice_index bytes.now at) ≡ Some start }
    ensures { ReadsOn Anywhere bytes.now at modes.Value result }
{
    let (end, part) = number_run(bytes, at + 1, start);
    if may_end(part) {
        let text = text_of(alloc, &bytes[at..end])?;
        return Ok((Json::Number(text), end));
    }
    if end < bytes.len() {
        return Err(JsonFault::Syntax(end as u64));
    }
    Err(JsonFault::Ended)
}
