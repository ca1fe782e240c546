//! Tokens made of their bytes, and what the last bytes of a text may grow to.

ghost use Rattle.std.specs.Prelude.{◌≡◌, ◌++◌, ◌∷◌, [], Some, IfOk};
ghost use Rattle.std.specs.Str.{bytes_eq};
ghost use Rattle.gql_tokens.specs.Lexical as grammar;
ghost use Rattle.gql_tokens.specs.Ends as ends;
ghost use Rattle.gql_lexer.specs.Endings as spec;

use flow_base::Memory;
use gql_tokens::{Class, Kind, State, Token, may_end};
use std::alloc::Global;

fn is_word(text: &str, word: &str) -> bool
    ensures { result ≡ bytes_eq text.now word.now }
{
    text == word
}

/// The kind of a name (section 2.1.9): the words of the grammar have kinds of their own.
fn name_kind(text: &str) -> Kind
    ensures { result ≡ grammar.name_kind text.now }
{
    if is_word(text, "query") {
        return Kind::Query;
    }
    if is_word(text, "mutation") {
        return Kind::Mutation;
    }
    if is_word(text, "subscription") {
        return Kind::Subscription;
    }
    if is_word(text, "fragment") {
        return Kind::Fragment;
    }
    if is_word(text, "on") {
        return Kind::On;
    }
    if is_word(text, "true") {
        return Kind::True;
    }
    if is_word(text, "false") {
        return Kind::False;
    }
    if is_word(text, "null") {
        return Kind::Null;
    }
    Kind::Name
}

/// Without so many quotes at either end.
fn between<'a>(text: &'a str, quotes: usize) -> &'a str
    requires { spec.IsQuoted quotes text.now }
    ensures { result.now ≡ grammar.between quotes text.now }
{
    &text[quotes..text.len() - quotes]
}

/// The token that the text is.
pub fn token_of<'a>(class: Class, text: &'a str) -> Token<'a>
    requires { grammar.IsLexeme class text.now }
    ensures { result ≡ grammar.token_of class text.now }
{
    match class {
        Class::Mark(kind) => Token::new(kind, text),
        Class::Name => Token::new(name_kind(text), text),
        Class::Number => Token::new(Kind::Number, text),
        Class::Empty => Token::new(Kind::Str, ""),
        Class::Str => Token::new(Kind::Str, between(text, 1)),
        Class::Block => Token::new(Kind::Block, between(text, 3)),
    }
}

/// The class of a token that is whole where the text ends.
pub fn finish(state: State) -> Option<Class>
    ensures { result ≡ spec.finish state }
{
    match state {
        State::Name => Some(Class::Name),
        State::Number(part) => {
            if may_end(part) {
                Some(Class::Number)
            } else {
                None
            }
        }
        State::Quotes => Some(Class::Empty),
        _ => None,
    }
}

fn begins(front: &[u8], word: &[u8]) -> bool
    ensures { result ≡ grammar.begins front.now word.now }
{
    word.starts_with(front)
}

/// Adds the kind of the word, where it begins with the text.
fn add_word(kinds: &mut Vec<Kind>, text: &str, word: &str, kind: Kind) -> Result<(), Memory>
    ensures { IfOk result (λ _. kinds.new.items ≡ kinds.old.items
        ++ spec.word_kinds text.now word.now kind) }
{
    if begins(text.as_bytes(), word.as_bytes()) {
        kinds.push(kind)?;
    }
    Ok(())
}

fn add_words(kinds: &mut Vec<Kind>, text: &str) -> Result<(), Memory>
    ensures { IfOk result (λ _. kinds.new.items ≡ kinds.old.items
        ++ ends.words_from text.now grammar.grammar_words) }
{
    add_word(kinds, text, "query", Kind::Query)?;
    add_word(kinds, text, "mutation", Kind::Mutation)?;
    add_word(kinds, text, "subscription", Kind::Subscription)?;
    add_word(kinds, text, "fragment", Kind::Fragment)?;
    add_word(kinds, text, "on", Kind::On)?;
    add_word(kinds, text, "true", Kind::True)?;
    add_word(kinds, text, "false", Kind::False)?;
    add_word(kinds, text, "null", Kind::Null)?;
    Ok(())
}

fn one_kind(alloc: Global, kind: Kind) -> Result<Vec<Kind>, Memory>
    ensures { IfOk result (λ kinds. kinds.items ≡ kind ∷ []) }
{
    let mut kinds = Vec::new(alloc);
    kinds.push(kind)?;
    Ok(kinds)
}

fn strings(alloc: Global) -> Result<Vec<Kind>, Memory>
    ensures { IfOk result (λ kinds. kinds.items ≡ spec.strings) }
{
    let mut kinds = Vec::new(alloc);
    kinds.push(Kind::Str)?;
    kinds.push(Kind::Block)?;
    Ok(kinds)
}

fn names(alloc: Global, text: &str) -> Result<Vec<Kind>, Memory>
    ensures { IfOk result (λ kinds. kinds.items ≡ ends.growths State.Name text.now) }
{
    let mut kinds = Vec::new(alloc);
    kinds.push(Kind::Name)?;
    add_words(&mut kinds, text)?;
    Ok(kinds)
}

/// The kinds that a token may have of which this was read.
pub fn growths(alloc: Global, state: State, text: &str) -> Result<Vec<Kind>, Memory>
    ensures { IfOk result (λ kinds. kinds.items ≡ ends.growths state text.now) }
{
    match state {
        State::Dot | State::Dots => one_kind(alloc, Kind::Dots),
        State::Name => names(alloc, text),
        State::Number(_) => one_kind(alloc, Kind::Number),
        State::Quote | State::Quotes => strings(alloc),
        State::Str(_) => one_kind(alloc, Kind::Str),
        State::Block(_) => one_kind(alloc, Kind::Block),
    }
}
