ghost use Rattle.std.specs.Prelude.{◌≡◌, ◌<◌, ◌≤◌, ◌∷◌, ◌↔◌, length, drop, is_some, IsTrue, IfSome, IfOk};
ghost use Rattle.std.specs.Option.{option_copied};
ghost use Rattle.script_lines.specs.Script.{pieces, pieces_after, lines, lines_after, words, parts, IsQuiet};
ghost use Rattle.script_lines.specs.Commands.{word};

use flow_base::{Memory, Text};
use std::alloc::Global;

/// What stands before the first separator, and what follows it.
fn first_piece(text: &str, separator: char) -> (&str, Option<&str>)
    requires { separator < 128 }
    ensures shorter { IfSome result.1 (λ rest. length rest.now < length text.now) }
    ensures pieces { pieces separator text.now
        ≡ result.0.now ∷ pieces_after separator (option_copied result.1) }
{
    match text.split_once(separator) {
        Some((piece, rest)) => (piece, Some(rest)),
        None => (text, None),
    }
}

/// The first line, and what follows its line feed.
pub fn first_line(text: &str) -> (&str, Option<&str>)
    ensures shorter { IfSome result.1 (λ rest. length rest.now < length text.now) }
    ensures lines { lines text.now ≡ result.0.now ∷ lines_after (option_copied result.1) }
{
    first_piece(text, '\n')
}

/// Whether a line gives no output: it is empty, or a comment that begins with `#`.
pub fn is_quiet(line: &str) -> bool
    ensures { IsTrue result ↔ IsQuiet line.now }
{
    match line.as_bytes() {
        [] => true,
        [first, ..] => *first == b'#',
    }
}

/// What follows so many words of a line, if more than those are there.
pub fn rest_after(line: &str, count: usize) -> Option<&str>
    ensures found { IsTrue (is_some result) ↔ (count < length (words line.now)) }
    ensures rest { IfSome result (λ rest. words rest.now ≡ drop count (words line.now)) }
{
    let mut rest = line;
    for _passed in 0..count {
        let (_, after) = first_piece(rest, ' ');
        rest = after?;
    }
    Some(rest)
}

/// The word at a place, from 0. It is empty where there are fewer.
pub fn word_at(line: &str, at: usize) -> &str
    ensures { result.now ≡ word (words line.now) at }
{
    match rest_after(line, at) {
        Some(rest) => {
            let (word, _) = first_piece(rest, ' ');
            word
        }
        None => "",
    }
}

/// Whether a line has so many words.
pub fn has_count(line: &str, count: usize) -> bool
    requires { 1 ≤ count }
    ensures { IsTrue result ↔ (length (words line.now) ≡ count) }
{
    rest_after(line, count - 1).is_some() && rest_after(line, count).is_none()
}

/// The texts between the commas of a word.
pub fn parts_of(alloc: Global, word: &str) -> Result<Vec<Text>, Memory>
    ensures { IfOk result (λ found. found.items ≡ parts word.now) }
{
    let mut found = Vec::new(alloc);
    let mut rest = word;
    loop {
        let (part, after) = first_piece(rest, ',');
        found.push(Text::of(alloc, part)?)?;
        let Some(more) = after else {
            return Ok(found);
        };
        rest = more;
    }
}
