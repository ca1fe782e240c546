//! White space and words.

ghost use Rattle.std.specs.Prelude.{◌≡◌, ◌≤◌, ◌<◌, length, slice_index, false};
ghost use Rattle.json_value.specs.Grammar as grammar;
ghost use Rattle.json_machine.specs.Machine as spec;
ghost use Rattle.json_machine.specs.Machine.{Frames};
ghost use Rattle.json_machine.specs.Mode.{Mode};
ghost use Rattle.json_machine.specs.Mode as modes;
ghost use Rattle.json_machine.specs.Onward.{Skips, read_from};
ghost use Rattle.json_read.specs.Reading.{ReadsOn, Anywhere};

use json_machine::Word;
use json_value::{Json, JsonFault};

fn is_blank(byte: u8) -> bool
    ensures { result ≡ grammar.is_blank byte }
{
    matches!(byte, b' ' | b'\t' | b'\n' | b'\r')
}

/// Where the white space that begins at this place ends.
pub fn blanks(bytes: &[u8], at: usize) -> usize
    requires { at ≤ length bytes.now }
    ensures after { at ≤ result }
    ensures within { result ≤ length bytes.now }
    ensures skips { (mode : Mode) (fs : Frames) → Skips mode
        → read_from bytes.now at mode fs ≡ read_from bytes.now result mode fs }
    ensures ends { result < length bytes.now
        → grammar.is_blank (slice_index bytes.now result) ≡ false }
{
    let mut i = at;
    while i < bytes.len() {
        if !is_blank(bytes[i]) {
            return i;
        }
        i += 1;
    }
    i
}

fn letters(word: Word) -> &'static [u8]
    ensures { result.now ≡ spec.letters word }
{
    match word {
        Word::Null => b"null",
        Word::True => b"true",
        Word::False => b"false",
    }
}

fn meant(word: Word) -> Json
    ensures { result ≡ spec.meant word }
{
    match word {
        Word::Null => Json::Null,
        Word::True => Json::Bool(true),
        Word::False => Json::Bool(false),
    }
}

/// The value of a word whose first letter stands before this place, and the place after the word.
pub fn word_value(bytes: &[u8], at: usize, word: Word) -> Result<(Json, usize), JsonFault>
    requires { at ≤ length bytes.now }
    ensures { ReadsOn Anywhere bytes.now at (modes.Word word 1) result }
{
    let letters = letters(word);
    let mut i = at;
    let mut read = 1;
    while read < letters.len() {
        if i >= bytes.len() {
            return Err(JsonFault::Ended);
        }
        if bytes[i] != letters[read] {
            return Err(JsonFault::Syntax(i as u64));
        }
        i += 1;
        read += 1;
    }
    Ok((meant(word), i))
}
