//! Strings.

ghost use Rattle.std.specs.Prelude.{◌≡◌, ◌≤◌, ◌<◌, ◌==◌, ◌||◌, ◌+◌, length, slice_index, true, false, Ok};
ghost use Rattle.json_value.specs.Strings as strings;
ghost use Rattle.json_machine.specs.Scan as spec;
ghost use Rattle.json_machine.specs.Scan.{Unescaped};
ghost use Rattle.json_machine.specs.Onward.{cut};
ghost use Rattle.json_read.specs.Reading.{ReadsTail, ReadsWide, ReadsRun, ReadsText};

use crate::buffer::{Buffer, text_of};
use crate::escape::escaped;
use flow_base::Text;
use json_machine::Tail;
use json_value::JsonFault;
use std::alloc::Global;

/// So many bytes are looked at together in a long text.
const STRIDE: usize = 16;

fn is_plain(byte: u8) -> bool
    ensures { result ≡ strings.is_plain byte }
{
    byte >= 32 && byte <= 127 && byte != b'"' && byte != b'\\'
}

fn lead(byte: u8) -> Option<Tail>
    ensures { result ≡ spec.lead byte }
{
    match byte {
        194..=223 => Some(Tail::One(128, 191)),
        224 => Some(Tail::Two(160, 191)),
        237 => Some(Tail::Two(128, 159)),
        225..=239 => Some(Tail::Two(128, 191)),
        240 => Some(Tail::Three(144, 191)),
        241..=243 => Some(Tail::Three(128, 191)),
        244 => Some(Tail::Three(128, 143)),
        _ => None,
    }
}

fn is_within(low: u8, high: u8, byte: u8) -> bool
    ensures { result ≡ strings.within low high byte }
{
    low <= byte && byte <= high
}

/// The place after the next byte of the character that begins at `place`.
fn tail_end(bytes: &[u8], at: usize, place: usize, low: u8, high: u8) -> Result<usize, JsonFault>
    requires { at ≤ length bytes.now }
    ensures { ReadsTail bytes.now at place low high result }
{
    if at >= bytes.len() {
        return Err(JsonFault::Ended);
    }
    if is_within(low, high, bytes[at]) {
        return Ok(at + 1);
    }
    Err(JsonFault::Syntax(place as u64))
}

/// The place after a character of several bytes.
fn wide_end(bytes: &[u8], at: usize) -> Result<usize, JsonFault>
    requires within { at < length bytes.now }
    requires plain { strings.is_plain (slice_index bytes.now at) ≡ false }
    requires inner { (slice_index bytes.now at == 34 || slice_index bytes.now at == 92) ≡ false }
    ensures { ReadsWide bytes.now at result }
{
    match lead(bytes[at]) {
        None => Err(JsonFault::Syntax(at as u64)),
        Some(Tail::One(low, high)) => tail_end(bytes, at + 1, at, low, high),
        Some(Tail::Two(low, high)) => {
            let second = tail_end(bytes, at + 1, at, low, high)?;
            tail_end(bytes, second, at, 128, 191)
        }
        Some(Tail::Three(low, high)) => {
            let second = tail_end(bytes, at + 1, at, low, high)?;
            let third = tail_end(bytes, second, at, 128, 191)?;
            tail_end(bytes, third, at, 128, 191)
        }
    }
}

fn is_edge(byte: u8) -> bool
    ensures { result ≡ (byte == 34 || byte == 92) }
{
    byte == b'"' || byte == b'\\'
}

/// Whether each of these bytes stands for itself. Goes on after one that does not, so that many are looked at together.
fn are_plain(bytes: &[u8]) -> bool
    ensures { result ≡ true → Unescaped bytes.now }
{
    let mut plain = true;
    for i in 0..bytes.len() {
        if !is_plain(bytes[i]) {
            plain = false;
        }
    }
    plain
}

/// Where whole strides of bytes that stand for themselves end.
fn strides_end(bytes: &[u8], at: usize) -> usize
    requires { at ≤ length bytes.now }
    ensures after { at ≤ result }
    ensures within { result ≤ length bytes.now }
    ensures unescaped { Unescaped (cut bytes.now at result) }
{
    let mut i = at;
    while bytes.len() - i >= STRIDE && are_plain(&bytes[i..i + STRIDE]) {
        i += STRIDE;
    }
    i
}

/// Where the bytes that stand for themselves end, or some of them: most texts are short.
fn plain_end(bytes: &[u8], at: usize) -> usize
    requires { at ≤ length bytes.now }
    ensures after { at ≤ result }
    ensures within { result ≤ length bytes.now }
    ensures unescaped { Unescaped (cut bytes.now at result) }
{
    let mut i = at;
    while i < bytes.len() && is_plain(bytes[i]) {
        if i - at == STRIDE {
            return strides_end(bytes, i);
        }
        i += 1;
    }
    i
}

/// Where the characters that stand for themselves end: at a quote or a backslash.
fn run_end(bytes: &[u8], at: usize) -> Result<usize, JsonFault>
    requires { at ≤ length bytes.now }
    ensures { ReadsRun bytes.now at result }
{
    let mut i = plain_end(bytes, at);
    while i < bytes.len() {
        if is_plain(bytes[i]) {
            i += 1;
        } else if is_edge(bytes[i]) {
            return Ok(i);
        } else {
            i = wide_end(bytes, i)?;
        }
    }
    Err(JsonFault::Ended)
}

/// A text with escapes, the first of which stands at `first`.
fn with_escapes(
    alloc: Global,
    bytes: &[u8],
    at: usize,
    first: usize,
) -> Result<(Text, usize), JsonFault>
    requires { ReadsRun bytes.now at (Ok first) }
    ensures { ReadsText bytes.now at result }
{
    let mut text = Buffer::begun(alloc, &bytes[at..first])?;
    let mut i = first;
    while bytes[i] != b'"' {
        let (c, from) = escaped(bytes, i)?;
        text.push_char(c)?;
        let end = run_end(bytes, from)?;
        text.append(&bytes[from..end])?;
        i = end;
    }
    let whole = text.into_text()?;
    Ok((whole, i))
}

/// The text of a string whose opening quote stands before this place, and the place of its closing quote.
pub fn string(alloc: Global, bytes: &[u8], at: usize) -> Result<(Text, usize), JsonFault>
    requires { at ≤ length bytes.now }
    ensures { ReadsText bytes.now at result }
{
    let end = run_end(bytes, at)?;
    if bytes[end] != b'"' {
        return with_escapes(alloc, bytes, at, end);
    }
    let text = text_of(alloc, &bytes[at..end])?;
    Ok((text, end))
}
