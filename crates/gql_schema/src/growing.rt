//! What a token at the end of a text may grow to.

ghost use Rattle.std.specs.Prelude.{◌≡◌, ◌++◌, ◌∷◌, [], IfOk};
ghost use Rattle.gql_tokens.specs.Lexical as lexical;
ghost use Rattle.gql_schema.specs.Growths as spec;

use flow_base::Memory;
use gql_tokens::{Kind, State, Token};
use std::alloc::Global;

fn begins(front: &[u8], word: &[u8]) -> bool
    ensures { result ≡ lexical.begins front.now word.now }
{
    word.starts_with(front)
}

fn add<'a>(found: &mut Vec<Token<'a>>, kind: Kind, text: &'a str) -> Result<(), Memory>
    ensures { IfOk result (λ _. found.new.items ≡ found.old.items
        ++ spec.spelled kind text.now ∷ []) }
{
    found.push(Token::new(kind, text))?;
    Ok(())
}

/// Adds the word, where it begins with the text.
fn add_word<'a>(
    found: &mut Vec<Token<'a>>,
    text: &[u8],
    word: &'a str,
    kind: Kind,
) -> Result<(), Memory>
    ensures { IfOk result (λ _. found.new.items ≡ found.old.items
        ++ spec.word_if text.now word.now kind) }
{
    if begins(text, word.as_bytes()) {
        add(found, kind, word)?;
    }
    Ok(())
}

/// The words that have kinds of their own.
fn add_kinds(found: &mut Vec<Token<'_>>, text: &[u8]) -> Result<(), Memory>
    ensures { IfOk result (λ _. found.new.items ≡ found.old.items ++ spec.kinds_from text.now) }
{
    add_word(found, text, "query", Kind::Query)?;
    add_word(found, text, "mutation", Kind::Mutation)?;
    add_word(found, text, "subscription", Kind::Subscription)?;
    add_word(found, text, "fragment", Kind::Fragment)?;
    add_word(found, text, "on", Kind::On)?;
    add_word(found, text, "true", Kind::True)?;
    add_word(found, text, "false", Kind::False)?;
    add_word(found, text, "null", Kind::Null)?;
    Ok(())
}

fn add_keywords(found: &mut Vec<Token<'_>>, text: &[u8]) -> Result<(), Memory>
    ensures { IfOk result (λ _. found.new.items ≡ found.old.items ++ spec.keywords_from text.now) }
{
    add_word(found, text, "schema", Kind::Name)?;
    add_word(found, text, "scalar", Kind::Name)?;
    add_word(found, text, "type", Kind::Name)?;
    add_word(found, text, "interface", Kind::Name)?;
    add_word(found, text, "union", Kind::Name)?;
    add_word(found, text, "enum", Kind::Name)?;
    add_word(found, text, "input", Kind::Name)?;
    add_word(found, text, "directive", Kind::Name)?;
    add_word(found, text, "implements", Kind::Name)?;
    add_word(found, text, "repeatable", Kind::Name)?;
    add_word(found, text, "Query", Kind::Name)?;
    add_word(found, text, "Mutation", Kind::Name)?;
    Ok(())
}

fn add_locations(found: &mut Vec<Token<'_>>, text: &[u8]) -> Result<(), Memory>
    ensures { IfOk result (λ _. found.new.items ≡ found.old.items ++ spec.locations_from text.now) }
{
    add_word(found, text, "QUERY", Kind::Name)?;
    add_word(found, text, "MUTATION", Kind::Name)?;
    add_word(found, text, "SUBSCRIPTION", Kind::Name)?;
    add_word(found, text, "FIELD", Kind::Name)?;
    add_word(found, text, "FRAGMENT_DEFINITION", Kind::Name)?;
    add_word(found, text, "FRAGMENT_SPREAD", Kind::Name)?;
    add_word(found, text, "INLINE_FRAGMENT", Kind::Name)?;
    add_word(found, text, "VARIABLE_DEFINITION", Kind::Name)?;
    add_word(found, text, "SCHEMA", Kind::Name)?;
    add_word(found, text, "SCALAR", Kind::Name)?;
    add_word(found, text, "OBJECT", Kind::Name)?;
    add_word(found, text, "FIELD_DEFINITION", Kind::Name)?;
    add_word(found, text, "ARGUMENT_DEFINITION", Kind::Name)?;
    add_word(found, text, "INTERFACE", Kind::Name)?;
    add_word(found, text, "UNION", Kind::Name)?;
    add_word(found, text, "ENUM", Kind::Name)?;
    add_word(found, text, "ENUM_VALUE", Kind::Name)?;
    add_word(found, text, "INPUT_OBJECT", Kind::Name)?;
    add_word(found, text, "INPUT_FIELD_DEFINITION", Kind::Name)?;
    Ok(())
}

fn names<'a>(alloc: Global, text: &[u8]) -> Result<Vec<Token<'a>>, Memory>
    ensures { IfOk result (λ found. found.items ≡ spec.growths State.Name text.now) }
{
    let mut found = Vec::new(alloc);
    add(&mut found, Kind::Name, "_")?;
    add_kinds(&mut found, text)?;
    add_keywords(&mut found, text)?;
    add_locations(&mut found, text)?;
    Ok(found)
}

fn one_kind<'a>(alloc: Global, kind: Kind) -> Result<Vec<Token<'a>>, Memory>
    ensures { IfOk result (λ found. found.items ≡ spec.blank kind ∷ []) }
{
    let mut found = Vec::new(alloc);
    add(&mut found, kind, "")?;
    Ok(found)
}

fn strings<'a>(alloc: Global) -> Result<Vec<Token<'a>>, Memory>
    ensures { IfOk result (λ found. found.items ≡ spec.growths State.Quote []) }
{
    let mut found = Vec::new(alloc);
    add(&mut found, Kind::Str, "")?;
    add(&mut found, Kind::Block, "")?;
    Ok(found)
}

/// A token for each mark that a token may have of which this was read.
pub fn growths<'a>(alloc: Global, state: State, text: &[u8]) -> Result<Vec<Token<'a>>, Memory>
    ensures { IfOk result (λ found. found.items ≡ spec.growths state text.now) }
{
    match state {
        State::Dot | State::Dots => one_kind(alloc, Kind::Dots),
        State::Name => names(alloc, text),
        State::Number(_) => one_kind(alloc, Kind::Number),
        State::Quote | State::Quotes => strings(alloc),
        State::Str(_) => one_kind(alloc, Kind::Str),
        State::Block(_) => one_kind(alloc, Kind::Block),
    }
}
