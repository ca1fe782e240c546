ghost use Rattle.std.specs.Prelude.{◌≡◌, ◌<◌, ◌≤◌, ◌↔◌, ◌++◌, OnOk, IsTrue, length, get_or};
ghost use Rattle.std.specs.Prelude.{string_bytes};
ghost use Rattle.json_print.specs.Escapes.{NeedsEscape, ArePlain, HasEscape, hex, control, escape};
ghost use Rattle.json_print.specs.Escapes.{escaped, quoted, IsLetterOf};

use flow_base::Memory;

/// How many bytes are looked at together in a long text: so many that the compiler tests them by wide registers.
const BLOCK: usize = 8;

/// The letter for each byte that may need an escape. It is looked up, since nothing tells before which comes.
const LETTERS: [u8; 93] = [
    0, 0, 0, 0, 0, 0, 0, 0, 98, 116, 110, 0, 102, 114, 0, 0, 0, 0, 0, 0, 0, 0, 0, 0, 0, 0, 0, 0, 0,
    0, 0, 0, 0, 0, 34, 0, 0, 0, 0, 0, 0, 0, 0, 0, 0, 0, 0, 0, 0, 0, 0, 0, 0, 0, 0, 0, 0, 0, 0, 0,
    0, 0, 0, 0, 0, 0, 0, 0, 0, 0, 0, 0, 0, 0, 0, 0, 0, 0, 0, 0, 0, 0, 0, 0, 0, 0, 0, 0, 0, 0, 0, 0,
    92,
];

/// Appends the text with its escapes between two quotes. What needs no escape goes in runs.
pub fn put_quoted(out: &mut String, text: &str) -> Result<(), Memory>
    ensures { OnOk result (string_bytes out.new ≡ string_bytes out.old ++ quoted text.now) }
{
    out.push('"')?;
    let bytes = text.as_bytes();
    let mut run = 0;
    let mut end = plain_end(bytes, 0);
    while end < bytes.len() {
        out.push_str(&text[run..end])?;
        put_escape(out, bytes[end])?;
        run = end + 1;
        end = plain_end(bytes, run);
    }
    out.push_str(&text[run..])?;
    out.push('"')?;
    Ok(())
}

/// The place of the first byte from `from` on that needs an escape, or the end.
fn plain_end(bytes: &[u8], from: usize) -> usize
    requires { from ≤ length bytes.now }
    ensures order { from ≤ result }
    ensures within { result ≤ length bytes.now }
    ensures plain { ArePlain bytes.now from result }
    ensures first { result < length bytes.now → NeedsEscape (get_or bytes.now result 0) }
{
    let mut end = blocks_end(bytes, from);
    while end < bytes.len() && !needs_escape(bytes[end]) {
        end += 1;
    }
    end
}

/// Where whole blocks of bytes end that need no escape.
fn blocks_end(bytes: &[u8], from: usize) -> usize
    requires { from ≤ length bytes.now }
    ensures order { from ≤ result }
    ensures within { result ≤ length bytes.now }
    ensures plain { ArePlain bytes.now from result }
{
    let mut end = from;
    while bytes.len() - end >= BLOCK && !has_escape(&bytes[end..end + BLOCK]) {
        end += BLOCK;
    }
    end
}

/// Whether one of the bytes needs an escape. Each is looked at, so that nothing hangs on the ones before it.
fn has_escape(bytes: &[u8]) -> bool
    ensures { IsTrue result ↔ HasEscape bytes.now }
{
    let mut found = false;
    for byte in bytes {
        found = found | needs_escape(*byte);
    }
    found
}

fn needs_escape(byte: u8) -> bool
    ensures { IsTrue result ↔ NeedsEscape byte }
{
    (byte < 32) | (byte == b'"') | (byte == b'\\')
}

fn put_escape(out: &mut String, byte: u8) -> Result<(), Memory>
    requires { NeedsEscape byte }
    ensures { OnOk result (string_bytes out.new ≡ string_bytes out.old ++ escape byte) }
{
    let letter = letter_of(byte);
    if letter == 0 {
        return put_unit(out, byte);
    }
    out.push('\\')?;
    out.push(char::from(letter))?;
    Ok(())
}

/// The letter that stands after the backslash for a byte, and 0 where its number does.
fn letter_of(byte: u8) -> u8
    requires { NeedsEscape byte }
    ensures letter { IsLetterOf byte result }
{
    LETTERS[byte as usize]
}

/// Appends the four hexadecimal digits of a control character after `\u`.
fn put_unit(out: &mut String, byte: u8) -> Result<(), Memory>
    requires { byte < 32 }
    ensures { OnOk result (string_bytes out.new ≡ string_bytes out.old ++ control byte) }
{
    out.push_str("\\u00")?;
    out.push(hex_digit(byte / 16))?;
    out.push(hex_digit(byte % 16))?;
    Ok(())
}

fn hex_digit(value: u8) -> char
    requires { value < 16 }
    ensures { result ≡ hex value }
{
    if value < 10 {
        (b'0' + value) as char
    } else {
        (b'a' + value - 10) as char
    }
}
