//! Escapes in strings.

ghost use Rattle.std.specs.Prelude.{◌≡◌, ◌≢◌, ◌≤◌, ◌<◌, ◌+◌, ℕ, length, slice_index, true, Some};
ghost use Rattle.std.specs.Char.{IsScalar};
ghost use Rattle.json_value.specs.Strings as strings;
ghost use Rattle.json_machine.specs.Part as parts;
ghost use Rattle.json_machine.specs.Quad as quads;
ghost use Rattle.json_read.specs.Reading.{ReadsDigit, ReadsUnit, ReadsLow, ReadsByte, ReadsPair, ReadsEscape};

use json_value::JsonFault;

/// What each byte is as a hexadecimal digit, and 16 for one that is none. It is looked up, since nothing tells before
/// whether a digit is a letter.
const DIGITS: [u8; 256] = [
    16, 16, 16, 16, 16, 16, 16, 16, 16, 16, 16, 16, 16, 16, 16, 16, 16, 16, 16, 16, 16, 16, 16, 16,
    16, 16, 16, 16, 16, 16, 16, 16, 16, 16, 16, 16, 16, 16, 16, 16, 16, 16, 16, 16, 16, 16, 16, 16,
    0, 1, 2, 3, 4, 5, 6, 7, 8, 9, 16, 16, 16, 16, 16, 16, 16, 10, 11, 12, 13, 14, 15, 16, 16, 16,
    16, 16, 16, 16, 16, 16, 16, 16, 16, 16, 16, 16, 16, 16, 16, 16, 16, 16, 16, 16, 16, 16, 16, 10,
    11, 12, 13, 14, 15, 16, 16, 16, 16, 16, 16, 16, 16, 16, 16, 16, 16, 16, 16, 16, 16, 16, 16, 16,
    16, 16, 16, 16, 16, 16, 16, 16, 16, 16, 16, 16, 16, 16, 16, 16, 16, 16, 16, 16, 16, 16, 16, 16,
    16, 16, 16, 16, 16, 16, 16, 16, 16, 16, 16, 16, 16, 16, 16, 16, 16, 16, 16, 16, 16, 16, 16, 16,
    16, 16, 16, 16, 16, 16, 16, 16, 16, 16, 16, 16, 16, 16, 16, 16, 16, 16, 16, 16, 16, 16, 16, 16,
    16, 16, 16, 16, 16, 16, 16, 16, 16, 16, 16, 16, 16, 16, 16, 16, 16, 16, 16, 16, 16, 16, 16, 16,
    16, 16, 16, 16, 16, 16, 16, 16, 16, 16, 16, 16, 16, 16, 16, 16, 16, 16, 16, 16, 16, 16, 16, 16,
    16, 16, 16, 16, 16, 16, 16, 16, 16, 16, 16, 16, 16, 16,
];

fn hex_digit(byte: u8) -> Option<u8>
    ensures { result ≡ strings.hex_digit byte }
{
    let digit = DIGITS[byte as usize];
    if digit < 16 { Some(digit) } else { None }
}

fn short(byte: u8) -> Option<u8>
    ensures { result ≡ strings.short byte }
{
    match byte {
        b'"' => Some(b'"'),
        b'\\' => Some(b'\\'),
        b'/' => Some(b'/'),
        b'b' => Some(8),
        b'f' => Some(12),
        b'n' => Some(10),
        b'r' => Some(13),
        b't' => Some(9),
        _ => None,
    }
}

fn four(a: u8, b: u8, c: u8, d: u8) -> u32
    ensures { result ≡ strings.four_digits a b c d }
{
    4096 * u32::from(a) + (256 * u32::from(b) + (16 * u32::from(c) + u32::from(d)))
}

fn is_high(unit: u32) -> bool
    ensures { result ≡ strings.is_high unit }
{
    unit >= 0xD800 && unit <= 0xDBFF
}

fn is_low(unit: u32) -> bool
    ensures { result ≡ strings.is_low unit }
{
    unit >= 0xDC00 && unit <= 0xDFFF
}

fn digit_at(bytes: &[u8], at: usize) -> Result<u8, JsonFault>
    requires { at ≤ length bytes.now }
    ensures { ReadsDigit bytes.now at result }
{
    if at >= bytes.len() {
        return Err(JsonFault::Ended);
    }
    match hex_digit(bytes[at]) {
        Some(digit) => Ok(digit),
        None => Err(JsonFault::Syntax(at as u64)),
    }
}

/// The unit that the four digits at this place write.
fn unit_at(bytes: &[u8], at: usize) -> Result<u32, JsonFault>
    requires { at ≤ length bytes.now }
    ensures { ReadsUnit bytes.now at result }
{
    let a = digit_at(bytes, at)?;
    let b = digit_at(bytes, at + 1)?;
    let c = digit_at(bytes, at + 2)?;
    let d = digit_at(bytes, at + 3)?;
    Ok(four(a, b, c, d))
}

/// A digit within these bounds, of the low half of the pair that begins at `place`.
fn low_digit(bytes: &[u8], at: usize, place: usize, low: u8, high: u8) -> Result<u8, JsonFault>
    requires { at ≤ length bytes.now }
    ensures { ReadsLow bytes.now at place low high result }
{
    if at >= bytes.len() {
        return Err(JsonFault::Ended);
    }
    match hex_digit(bytes[at]) {
        Some(digit) if low <= digit && digit <= high => Ok(digit),
        _ => Err(JsonFault::Surrogate(place as u64)),
    }
}

/// This byte, in the escape of the low half of the pair that begins at `place`.
fn low_begins(bytes: &[u8], at: usize, place: usize, wanted: u8) -> Result<(), JsonFault>
    requires { at ≤ length bytes.now }
    ensures { ReadsByte bytes.now at place wanted result }
{
    if at >= bytes.len() {
        return Err(JsonFault::Ended);
    }
    if bytes[at] == wanted {
        return Ok(());
    }
    Err(JsonFault::Surrogate(place as u64))
}

/// The low half of the pair that begins at `place`, where its escape stands at this place.
fn low_at(bytes: &[u8], at: usize, place: usize) -> Result<u32, JsonFault>
    requires { at ≤ length bytes.now }
    ensures { ReadsPair bytes.now at place result }
{
    low_begins(bytes, at, place, b'\\')?;
    low_begins(bytes, at + 1, place, b'u')?;
    let a = low_digit(bytes, at + 2, place, 13, 13)?;
    let b = low_digit(bytes, at + 3, place, 12, 15)?;
    let c = low_digit(bytes, at + 4, place, 0, 15)?;
    let d = low_digit(bytes, at + 5, place, 0, 15)?;
    Ok(four(a, b, c, d))
}

fn character(code: u32) -> char
    requires { IsScalar code }
    ensures { result ≡ code }
{
    char::from_u32(code).unwrap()
}

/// The character of a pair.
fn joined(high: u32, low: u32) -> char
    requires high { strings.is_high high ≡ true }
    requires low { strings.is_low low ≡ true }
    ensures { result ≡ strings.join high low }
{
    character(0x10000 + ((high - 0xD800) * 0x400 + (low - 0xDC00)))
}

/// The character that is escaped by `u` and four digits, after the backslash at this place; or by two such escapes.
fn unit_escaped(bytes: &[u8], at: usize) -> Result<(char, usize), JsonFault>
    requires within { at + 2 ≤ length bytes.now }
    ensures { ReadsEscape bytes.now (at + 2) (parts.Hex at quads.Nothing) result }
{
    let unit = unit_at(bytes, at + 2)?;
    if is_high(unit) {
        let low = low_at(bytes, at + 6, at)?;
        return Ok((joined(unit, low), at + 12));
    }
    if is_low(unit) {
        return Err(JsonFault::Surrogate(at as u64));
    }
    Ok((character(unit), at + 6))
}

/// The character that is escaped by the letter at this place, where the backslash stands before it.
fn short_escaped(bytes: &[u8], at: usize) -> Result<(char, usize), JsonFault>
    requires within { at < length bytes.now }
    requires short { slice_index bytes.now at ≢ 117 }
    ensures { (place : ℕ) → ReadsEscape bytes.now at (parts.Escape place) result }
{
    match short(bytes[at]) {
        Some(c) => Ok((char::from(c), at + 1)),
        None => Err(JsonFault::Syntax(at as u64)),
    }
}

/// The character that the escape at this place stands for, and the place after it.
pub fn escaped(bytes: &[u8], at: usize) -> Result<(char, usize), JsonFault>
    requires within { at < length bytes.now }
    requires begins { slice_index bytes.now at ≡ 92 }
    ensures { ReadsEscape bytes.now at parts.Plain result }
{
    let letter = at + 1;
    if letter >= bytes.len() {
        return Err(JsonFault::Ended);
    }
    if bytes[letter] == b'u' {
        return unit_escaped(bytes, at);
    }
    short_escaped(bytes, letter)
}
