//! The text of a string, from its source between the quotes (GraphQL October 2021, section 2.9.4).

ghost use Rattle.std.specs.Prelude.{◌≡◌, ◌≢◌, ◌<◌, ◌≤◌, true, ℕ, length, slice_index, string_bytes, IfOk, IfSome};
ghost use Rattle.std.specs.Str.{IsCharBoundary};
ghost use Rattle.json_value.specs.Strings as chars;
ghost use Rattle.gql_inputs.specs.Strings as spec;
ghost use Rattle.gql_inputs.specs.Strings.{GoesOn};

use flow_base::{Memory, Text};
use std::alloc::Global;

fn hex_digit(byte: u8) -> Option<u32>
    ensures value { result ≡ chars.hex_digit byte }
    ensures small { IfSome result (λ d. d < 16) }
{
    match byte {
        b'0'..=b'9' => Some(u32::from(byte) - 48),
        b'a'..=b'f' => Some(u32::from(byte) - 87),
        b'A'..=b'F' => Some(u32::from(byte) - 55),
        _ => None,
    }
}

fn four(a: u32, b: u32, c: u32, d: u32) -> u32
    requires digits { (a < 16) × (b < 16) × (c < 16) × (d < 16) }
    ensures value { result ≡ chars.four_digits a b c d }
    ensures small { result < 65536 }
{
    4096 * a + (256 * b + (16 * c + d))
}

/// The code unit with whose escape the source begins.
fn unit(source: &[u8]) -> Option<u32>
    ensures value { result ≡ spec.unit source.now }
    ensures small { IfSome result (λ u. u < 65536) }
    ensures long { IfSome result (λ _. 6 ≤ length source.now) }
{
    match source {
        [b'\\', b'u', x, y, z, w, ..] => Some(four(
            hex_digit(*x)?,
            hex_digit(*y)?,
            hex_digit(*z)?,
            hex_digit(*w)?,
        )),
        _ => None,
    }
}

fn short(byte: u8) -> Option<char>
    ensures { result ≡ chars.short byte }
{
    match byte {
        b'"' => Some('"'),
        b'\\' => Some('\\'),
        b'/' => Some('/'),
        b'b' => Some('\u{8}'),
        b'f' => Some('\u{c}'),
        b'n' => Some('\n'),
        b'r' => Some('\r'),
        b't' => Some('\t'),
        _ => None,
    }
}

/// The character with whose escape by one letter the source begins.
fn letter(source: &[u8]) -> Option<char>
    ensures { result ≡ spec.letter source.now }
{
    match source {
        [b'\\', b, ..] => short(*b),
        _ => None,
    }
}

fn is_high(unit: u32) -> bool
    ensures { result ≡ chars.is_high unit }
{
    0xD800 <= unit && unit <= 0xDBFF
}

fn is_low(unit: u32) -> bool
    ensures { result ≡ chars.is_low unit }
{
    0xDC00 <= unit && unit <= 0xDFFF
}

/// A code unit, or U+FFFD for half a pair.
fn alone(unit: u32) -> char
    requires { unit < 65536 }
    ensures { result ≡ spec.alone unit }
{
    match char::from_u32(unit) {
        Some(c) => c,
        None => '\u{FFFD}',
    }
}

/// A pair's character.
fn join(high: u32, low: u32) -> char
    requires high { chars.is_high high ≡ true }
    requires low { chars.is_low low ≡ true }
    ensures { result ≡ chars.join high low }
{
    match char::from_u32(0x10000 + ((high - 0xD800) * 0x400 + (low - 0xDC00))) {
        Some(c) => c,
        None => '\u{FFFD}',
    }
}

fn joined(unit: u32, next: Option<u32>) -> (char, usize)
    requires { unit < 65536 }
    ensures { result ≡ spec.with_next_unit unit next }
{
    match next {
        Some(low) if is_high(unit) && is_low(low) => (join(unit, low), 12),
        _ => (alone(unit), 6),
    }
}

/// The escape with which the source begins: its character, and its length.
fn escape(source: &[u8]) -> Option<(char, usize)>
    ensures { result ≡ spec.escape_read source.now }
{
    match unit(source) {
        Some(first) => Some(joined(first, unit(&source[6..]))),
        None => match letter(source) {
            Some(c) => Some((c, 2)),
            None => None,
        },
    }
}

/// How many bytes stand before the first backslash.
fn plain_length(source: &[u8]) -> usize
    ensures within { result ≤ length source.now }
    ensures plain { (k : ℕ) → k < result → slice_index source.now k ≢ 92 }
    ensures ends { result < length source.now → slice_index source.now result ≡ 92 }
{
    for i in 0..source.len() {
        if source[i] == b'\\' {
            return i;
        }
    }
    source.len()
}

/// Appends the text of the source's front, and says how long that front is.
fn put_front(text: &mut String, source: &str) -> Result<usize, Memory>
    requires { 0 < length source.now }
    ensures some { IfOk result (λ n. 0 < n) }
    ensures cut { IfOk result (λ n. IsCharBoundary source.now n) }
    ensures goes_on { IfOk result (λ n.
        GoesOn (string_bytes text.old) source.now n (string_bytes text.new)) }
{
    let bytes = source.as_bytes();
    let n = plain_length(bytes);
    if n > 0 {
        text.push_str(&source[..n])?;
        return Ok(n);
    }
    match escape(bytes) {
        Some((c, length)) => {
            text.push(c)?;
            Ok(length)
        }
        None => {
            text.push('\\')?;
            Ok(1)
        }
    }
}

/// The text of a string: its escapes are read, half of a pair is U+FFFD, and a backslash that begins no escape stands
/// for itself. Takes time in the length of the source.
pub fn unescaped(alloc: Global, source: &Text) -> Result<Text, Memory>
    ensures { IfOk result (λ t. t ≡ spec.unescaped source.now) }
{
    let mut text = String::with_capacity(alloc, source.len())?;
    let mut rest = source.as_str();
    while !rest.is_empty() {
        let n = put_front(&mut text, rest)?;
        rest = &rest[n..];
    }
    Text::from_string(text)
}
