ghost use Rattle.std.specs.List.{list_all};
ghost use Rattle.std.specs.Prelude.{◌≡◌, ◌<◌, ◌≤◌, ◌==◌, ◌+◌, length, take, drop, get_or, not, true, reverse};
ghost use Rattle.httparse.specs.Grammar.{is_ows, skip_ows, trim_ows};
ghost use Rattle.http_wire.specs.Heads.{closes, has_close, is_close, lists_close};

use crate::Field;
use crate::fields::first_named;

// The connection ends after the message.
pub(crate) fn closes(minor: u8, fields: &[Field]) -> bool
    ensures { result ≡ closes minor fields.now }
{
    minor == 0 || has_close(fields)
}

// Some connection field has the token close.
fn has_close(fields: &[Field]) -> bool
    ensures { result ≡ has_close fields.now }
{
    let mut rest = fields;
    while let Some((value, more)) = first_named(rest, b"connection") {
        if lists_close(value) {
            return true;
        }
        rest = more;
    }
    false
}

// The list has the token close.
fn lists_close(value: &[u8]) -> bool
    ensures { result ≡ lists_close value.now }
{
    let mut rest = value;
    loop {
        let end = comma_at(rest);
        if is_close(&rest[..end]) {
            return true;
        }
        if end >= rest.len() {
            return false;
        }
        rest = past(rest, end);
    }
}

// The bytes after the one at `at`.
fn past(bytes: &[u8], at: usize) -> &[u8]
    requires { at < length bytes.now }
    ensures { result.now ≡ drop (at + 1) bytes.now }
{
    let from = &bytes[at..];
    &from[1..]
}

// Where the first comma is, or the length.
fn comma_at(bytes: &[u8]) -> usize
    ensures within { result ≤ length bytes.now }
    ensures none { list_all (λ b. not (b == 44)) (take result bytes.now) ≡ true }
    ensures found { result < length bytes.now → get_or bytes.now result 0 ≡ 44 }
{
    let mut at: usize = 0;
    while at < bytes.len() {
        if bytes[at] == 44 {
            return at;
        }
        at += 1;
    }
    at
}

fn is_close(part: &[u8]) -> bool
    ensures { result ≡ is_close part.now }
{
    trim(part).eq_ignore_ascii_case(b"close")
}

// The part without the spaces and tabs at both ends.
#[tactic(auto, unfolding(httparse::specs::Grammar::trim_ows))]
fn trim(part: &[u8]) -> &[u8]
    ensures { result.now ≡ trim_ows part.now }
{
    trim_end(trim_start(part))
}

fn trim_start(part: &[u8]) -> &[u8]
    ensures { result.now ≡ skip_ows part.now }
{
    let mut rest = part;
    while let Some((first, more)) = rest.split_first() {
        if !is_blank(*first) {
            return rest;
        }
        rest = more;
    }
    rest
}

fn trim_end(part: &[u8]) -> &[u8]
    ensures { result.now ≡ reverse (skip_ows (reverse part.now)) }
{
    let mut rest = part;
    while let Some((last, more)) = rest.split_last() {
        if !is_blank(*last) {
            return rest;
        }
        rest = more;
    }
    rest
}

fn is_blank(byte: u8) -> bool
    ensures { result ≡ is_ows byte }
{
    byte == b' ' || byte == b'\t'
}
