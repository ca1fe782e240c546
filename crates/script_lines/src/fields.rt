ghost use Rattle.std.specs.Prelude.{◌≡◌, ℕ, Bool, length, MatchOption, IfOk};
ghost use Rattle.cache_terms.specs.declared.keys.Key.{Key};
ghost use Rattle.cache_terms.specs.declared.tags.Tags.{Tags};
ghost use Rattle.script_lines.specs.Script.{words, IsNumber};
ghost use Rattle.script_lines.specs.Commands.{IsCallerNumber, IsTicket, IsSpan, IsStatus, IsScope, IsOptional, IsWordText, IsTagWord, IsKey};

use crate::lines::{parts_of, word_at};
use cache_terms::{Key, Tags};
use flow_base::{Memory, Text};
use std::alloc::Global;

/// The number that the word is, if it is one.
pub fn number(word: &str) -> Option<u64>
    ensures { MatchOption result ((n : ℕ) → IsNumber word.now n → ⊥) (λ n. IsNumber word.now n) }
{
    let bytes = word.as_bytes();
    if bytes.is_empty() {
        return None;
    }
    if bytes.len() > 15 {
        return None;
    }
    if bytes[0] == b'+' {
        return None;
    }
    if bytes[0] == b'0' && bytes.len() > 1 {
        return None;
    }
    match word.parse::<u64>() {
        Ok(n) => Some(n),
        Err(_) => None,
    }
}

/// The caller that the word names.
pub fn caller(word: &str) -> Option<u32>
    ensures { MatchOption result
        ((n : ℕ) → IsCallerNumber word.now n → ⊥)
        (λ n. IsCallerNumber word.now n) }
{
    let n = number(word)?;
    if n > 65535 { None } else { Some(n as u32) }
}

/// The seconds that the word is.
pub fn span(word: &str) -> Option<u64>
    ensures { MatchOption result ((n : ℕ) → IsSpan word.now n → ⊥) (λ n. IsSpan word.now n) }
{
    let n = number(word)?;
    if n > 2147483648 { None } else { Some(n) }
}

/// The status that the word is.
pub fn status_of(word: &str) -> Option<u16>
    ensures { MatchOption result ((n : ℕ) → IsStatus word.now n → ⊥) (λ n. IsStatus word.now n) }
{
    let bytes = word.as_bytes();
    if bytes.len() != 3 || bytes[0] == b'+' {
        return None;
    }
    match word.parse::<u16>() {
        Ok(n) => Some(n),
        Err(_) => None,
    }
}

/// The epoch and the ticket that the word names.
pub fn ticket_of(word: &str) -> Option<(u64, u64)>
    ensures { MatchOption result
        ((e t : ℕ) → IsTicket word.now e t → ⊥)
        (λ x. IsTicket word.now x.0 x.1) }
{
    let (before, after) = word.split_once('.')?;
    let epoch = number(before)?;
    let ticket = number(after)?;
    Some((epoch, ticket))
}

/// Whether a piece is private, by its scope.
pub fn scope_of(word: &str) -> Option<bool>
    ensures { MatchOption result ((b : Bool) → IsScope word.now b → ⊥) (λ b. IsScope word.now b) }
{
    if word == "public" {
        return Some(false);
    }
    if word == "private" { Some(true) } else { None }
}

/// The text, or none for `-`.
pub fn optional(alloc: Global, text: &str) -> Result<Option<Text>, Memory>
    ensures { IfOk result (λ o. IsOptional text.now o) }
{
    if text == "-" {
        return Ok(None);
    }
    Ok(Some(Text::of(alloc, text)?))
}

/// The text, unless it is empty.
pub fn text_of(alloc: Global, word: &str) -> Result<Option<Text>, Memory>
    ensures { IfOk result (λ o. MatchOption o
        (length word.now ≡ 0)
        (λ text. IsWordText word.now text)) }
{
    if word.is_empty() {
        return Ok(None);
    }
    Ok(Some(Text::of(alloc, word)?))
}

/// The tags that the word is, which are joined by commas, or none for `-`.
pub fn read_tags(alloc: Global, word: &str) -> Result<Option<Tags>, Memory>
    ensures { IfOk result (λ o. MatchOption o
        ((tags : Tags) → IsTagWord word.now tags → ⊥)
        (λ tags. IsTagWord word.now tags)) }
{
    if word == "-" {
        return Ok(Some(Tags::of(alloc, Vec::new(alloc))?));
    }
    if word.is_empty() {
        return Ok(None);
    }
    Ok(Some(Tags::of(alloc, parts_of(alloc, word)?)?))
}

/// The key that the words from the fifth on are.
pub fn read_key(alloc: Global, line: &str) -> Result<Option<Key>, Memory>
    ensures { IfOk result (λ o. MatchOption o
        ((key : Key) → IsKey (words line.now) 4 key → ⊥)
        (λ key. IsKey (words line.now) 4 key)) }
{
    let Some(sub) = text_of(alloc, word_at(line, 4))? else {
        return Ok(None);
    };
    let Some(type_name) = text_of(alloc, word_at(line, 5))? else {
        return Ok(None);
    };
    let Some(rep) = text_of(alloc, word_at(line, 6))? else {
        return Ok(None);
    };
    let Some(sel) = text_of(alloc, word_at(line, 7))? else {
        return Ok(None);
    };
    Ok(Some(Key {
        sub,
        type_name,
        rep,
        sel,
    }))
}
